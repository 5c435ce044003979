//! The records of the lanes.
ghost use Rattle.std.specs.Prelude.{◌≡◌, ◌+◌, ◌%◌, ◌<◌, ◌≤◌, ◌++◌, ◌^◌, map, IfOk, OnOk};
ghost use Rattle.generated_run.specs.Generated.{element, late_writes, bare_record as bare, lane_records, read_of, root_records, rounds_of, write_of};

use log_format::{Kind, Record};
use std::alloc::{AllocError, Global};

/// How many lanes the region has.
pub const SPAN: u16 = 8;

/// The address of a lane's element of a round.
fn address(round: u32, lane: u16) -> u64
    requires round { round < 100000 }
    requires lane { lane < 8 }
    ensures { result ≡ element round lane }
{
    let round = u64::from(round);
    4096 + 64 * (round * (round + 1) / 2) + 8 * u64::from(lane)
}

fn write(round: u32, lane: u16) -> Record
    requires round { round < 100000 }
    requires lane { lane < 8 }
    ensures { result ≡ write_of lane round }
{
    Record {
        kind: Kind::Write,
        size: 8,
        site: 0,
        line: 10,
        addr: address(round, lane),
        value: u64::from(round),
    }
}

fn next_lane(lane: u16) -> u16
    requires { lane < 8 }
    ensures next { result ≡ (lane + 1) % 8 }
    ensures within { result < 8 }
{
    (lane + 1) % SPAN
}

fn read(round: u32, lane: u16) -> Record
    requires round { round < 100000 }
    requires lane { lane < 8 }
    ensures { result ≡ read_of lane round }
{
    Record {
        kind: Kind::Read,
        size: 8,
        site: 1,
        line: 30,
        addr: address(round, next_lane(lane)),
        value: u64::from(round),
    }
}

fn bare_record(kind: Kind, line: u32) -> Record
    ensures { result ≡ bare kind line }
{
    Record {
        kind,
        size: 0,
        site: 0,
        line,
        addr: 0,
        value: 0,
    }
}

fn push_writes(records: &mut Vec<Record>, rounds: u32, lane: u16) -> Result<(), AllocError>
    requires rounds { rounds ≤ 100000 }
    requires lane { lane < 8 }
    ensures { OnOk result (records.new.items ≡ records.old.items ++ map (write_of lane) (rounds_of rounds)) }
{
    for round in 0..rounds {
        records.push(write(round, lane))?;
    }
    Ok(())
}

fn push_reads(records: &mut Vec<Record>, rounds: u32, lane: u16) -> Result<(), AllocError>
    requires rounds { rounds ≤ 100000 }
    requires lane { lane < 8 }
    ensures { OnOk result (records.new.items ≡ records.old.items ++ map (read_of lane) (rounds_of rounds)) }
{
    for round in 0..rounds {
        records.push(read(round, lane))?;
    }
    Ok(())
}

fn push_late(records: &mut Vec<Record>, lane: u16) -> Result<(), AllocError>
    ensures { OnOk result (records.new.items ≡ records.old.items ++ late_writes lane) }
{
    if lane == 3 {
        records.push(Record {
            kind: Kind::Write,
            size: 4,
            site: 2,
            line: 40,
            addr: 4120,
            value: 0,
        })?;
    }
    Ok(())
}

/// The records of a lane.
pub fn records_of_lane(alloc: Global, rounds: u32, lane: u16) -> Result<Vec<Record>, AllocError>
    requires rounds { rounds ≤ 100000 }
    requires lane { lane < 8 }
    ensures { IfOk result (λ records. records.items ≡ lane_records rounds lane) }
{
    let mut records = Vec::new(alloc);
    push_writes(&mut records, rounds, lane)?;
    records.push(bare_record(Kind::Barrier, 20))?;
    push_reads(&mut records, rounds, lane)?;
    push_late(&mut records, lane)?;
    records.push(bare_record(Kind::End, 50))?;
    Ok(records)
}

/// The records of the root: the region that its lanes are of, and its end.
pub fn records_of_root() -> [Record; 2]
    ensures { result ≡ root_records }
{
    let region = Record {
        kind: Kind::Region,
        size: 0,
        site: 0,
        line: 1,
        addr: 0,
        value: u64::from(SPAN),
    };
    [region, bare_record(Kind::End, 50)]
}
