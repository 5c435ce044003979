//! The report of a check: a line `race L M` for each pair of source lines that race, in ascending order, and then
//! `races N`, the number of pairs. Each line is one write.
#![tactic(auto)]

ghost use Rattle.std.specs.Prelude.{◌≡◌, OnOk, OnErr};
ghost use Rattle.sw_base.specs.Environment.{HasCause, GainsPrefix, gained};
ghost use Rattle.race_report.specs.Report.{race_line, count_line, report_text};

use std::alloc::Global;
use std::collections::BTreeSet;
use sw_base::{Out, Trouble};

/// Prints the pairs of lines in ascending order, and then their number. After an error a prefix of that text was written.
pub fn report<O: Out>(
    alloc: Global,
    out: &mut O,
    pairs: &BTreeSet<(u32, u32)>,
) -> Result<(), Trouble>
    ensures done { OnOk result (O.written out.new ≡ gained (O.written out.old) (report_text pairs.now.keys)) }
    ensures prefix { OnErr result (GainsPrefix (O.written out.old) (O.written out.new) (report_text pairs.now.keys)) }
    ensures cause { HasCause (O.faults out.old) (O.faults out.new) result }
{
    for pair in pairs {
        append_pair(alloc, out, *pair)?;
    }
    append_count(alloc, out, pairs.len())
}

fn append_pair<O: Out>(alloc: Global, out: &mut O, pair: (u32, u32)) -> Result<(), Trouble>
    ensures done { OnOk result (O.written out.new ≡ gained (O.written out.old) (race_line pair)) }
    ensures prefix { OnErr result (GainsPrefix (O.written out.old) (O.written out.new) (race_line pair)) }
    ensures cause { HasCause (O.faults out.old) (O.faults out.new) result }
{
    let (first, second) = pair;
    let line = format!(in alloc; "race {first} {second}\n")?;
    out.append(alloc, line.as_bytes())
}

fn append_count<O: Out>(alloc: Global, out: &mut O, count: usize) -> Result<(), Trouble>
    ensures done { OnOk result (O.written out.new ≡ gained (O.written out.old) (count_line count)) }
    ensures prefix { OnErr result (GainsPrefix (O.written out.old) (O.written out.new) (count_line count)) }
    ensures cause { HasCause (O.faults out.old) (O.faults out.new) result }
{
    let line = format!(in alloc; "races {count}\n")?;
    out.append(alloc, line.as_bytes())
}
