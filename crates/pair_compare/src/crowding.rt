//! Whether runs that reach over one another are compared with each other or address by address.

use crate::collecting::bytes_at;
use crate::counts::{Counts, FEW};
use crate::member::Member;
use std::alloc::Global;
use stride_summary::Run;
use sw_base::Memory;

// The counts of all members, which are measured.
fn counts_of(members: &[Member]) -> Counts {
    let mut counts = Counts::none();
    for member in members {
        counts.add_all(&member.counts);
    }
    counts
}

/// Where stretches begin and end.
#[derive(Drop)]
struct Ends {
    lows: Vec<u64>,
    highs: Vec<u64>,
}

impl Ends {
    fn add(&mut self, bytes: (u64, u64)) -> Result<(), Memory> {
        self.lows.push(bytes.0)?;
        self.highs.push(bytes.1)?;
        Ok(())
    }

    fn add_singly(&mut self, run: &Run) -> Result<(), Memory> {
        for place in 0..run.count {
            self.add(bytes_at(run, place))?;
        }
        Ok(())
    }

    fn add_all(&mut self, runs: &[Run], singly: u32) -> Result<(), Memory> {
        for run in runs {
            if run.count <= singly {
                self.add_singly(run)?;
            } else {
                self.add((run.low(), run.high()))?;
            }
        }
        Ok(())
    }

    // How many pairs of the stretches have a common byte.
    fn pairs(mut self) -> u64 {
        self.lows.sort_unstable();
        self.highs.sort_unstable();
        pairs_of(&self.lows, &self.highs)
    }
}

// How many of the bytes in order are less than this one, where so many are known to be.
fn count_less(bytes: &[u64], known: usize, byte: u64) -> usize {
    let mut count = known;
    'less: while count < bytes.len() && bytes[count] < byte {
        count += 1;
    }
    count
}

// How many pairs of stretches that begin and end at these bytes, which are in order, have a common byte.
fn pairs_of(lows: &[u64], highs: &[u64]) -> u64 {
    let mut pairs = 0u64;
    let mut ended = 0;
    for (begun, low) in lows.iter().enumerate() {
        ended = count_less(highs, ended, *low);
        pairs = pairs.saturating_add(begun.saturating_sub(ended) as u64);
    }
    pairs
}

// How many pairs of stretches meet where runs of at most so many addresses are taken one address at a time.
fn pairs_with(alloc: Global, members: &[Member], singly: u32) -> Result<u64, Memory> {
    let mut ends = Ends {
        lows: Vec::new(alloc),
        highs: Vec::new(alloc),
    };
    for member in members {
        ends.add_all(member.runs, singly)?;
    }
    Ok(ends.pairs())
}

/// How many addresses a run may have to be taken one address at a time: any number where so many runs reach over one another
/// that listing their addresses and comparing these is less work.
pub fn singly(alloc: Global, members: &[Member]) -> Result<u32, Memory> {
    let counts = counts_of(members);
    if counts.long.saturating_mul(counts.stretches) <= counts.addresses {
        return Ok(FEW);
    }
    let whole = pairs_with(alloc, members, FEW)?;
    if whole <= counts.addresses {
        return Ok(FEW);
    }
    let single = pairs_with(alloc, members, u32::MAX)?;
    if single.saturating_add(counts.addresses) < whole {
        return Ok(u32::MAX);
    }
    Ok(FEW)
}
