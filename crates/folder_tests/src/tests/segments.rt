//! The barrier intervals of one log, walked record by record.

use log_format::{Kind, Record};
use log_segment::{Segment, Walk, first_label};
use mutex_set::Held;
use span_label::{Label, Triple};
use std::alloc::Global;
use std::process::Abort;
use std::test::Fail;
use sw_base::Path;

const WRITE: Record = Record {
    kind: Kind::Write,
    size: 8,
    site: 3,
    line: 5,
    addr: 4096,
    value: 1,
};

// The segments of a root that writes and ends.
fn segments_of_root(rt: &impl Abort, alloc: Global) -> Vec<Segment> {
    let path = Path::root();
    let forks: Vec<Vec<Label>> = Vec::new(alloc);
    let mut walk = Walk::new(alloc, first_label(&forks, &path));
    let held = Held::none();
    let mut found = Vec::new(alloc);
    walk.step(alloc, &path, 1, &WRITE, &held, &mut found)
        .expect(rt, "memory");
    walk.close(&path, 2, &mut found).expect(rt, "memory");
    found
}

// Whether the segment's runs are the write alone.
fn has_one_write(segment: &Segment) -> bool {
    let [run] = segment.runs.as_slice() else {
        return false;
    };
    run.write
        && run.held.ids().is_empty()
        && (run.size, run.site, run.line) == (8, 3, 5)
        && (run.base, run.stride, run.count) == (4096, 0, 1)
}

const START: Triple = Triple {
    offset: 0,
    span: 1,
    barrier: 0,
};

fn is_of_root(segment: &Segment) -> bool {
    (segment.first, segment.last) == (1, 2)
        && segment.path.steps().is_empty()
        && segment.label.triples() == [START].as_slice()
}

#[test]
fn a_root_alone_has_one_segment(rt: HostRuntime) -> Result<(), Fail> {
    let found = segments_of_root(&rt, rt.alloc());
    let [segment] = found.as_slice() else {
        return Err(Fail::new("not one segment"));
    };
    assert!(rt; is_of_root(segment) && has_one_write(segment));
    Ok(())
}
