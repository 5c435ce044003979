//! Entering a section of a kernel: a region, a worksharing loop, a critical section.
ghost use Rattle.std.specs.Prelude.{◌≡◌, ◌+◌, ◌<◌, ◌≤◌, ◌||◌, true, not, length, option_map, IfSome};
ghost use Rattle.kernel_reader.specs.Scope.{number_of, is_among, is_between, count_literal};
ghost use Rattle.kernel_reader.specs.Rules.{chunk_faults, fault_if, schedule_faults};
ghost use Rattle.kernel_reader.specs.Resolve.{schedule_of};
ghost use Rattle.kernel_parser.specs.Trees.{schedule_tree};
ghost use Rattle.kernel_reader.specs.Settled.{Settles};
ghost use Rattle.kernel_reader.specs.Sections.{region_faults, region_section, shared_faults, mutex_number, nested_faults, critical_section};

use crate::binding::refused;
use crate::fault::ReadKernelFault;
use crate::place::{Section, number_of};
use kernel_parser::ScheduleTree;
use kernel_syntax::{Name, Schedule};
use kernel_text::KernelWhy;

/// How many iterations a chunk may have.
const MOST_ITERATIONS: u32 = 1_048_576;

/// How many lanes a region may have, and the product of the spans of nested regions.
const MOST_LANES: u32 = 64;

/// How many regions may be nested.
const MOST_REGIONS: u8 = 4;

/// How many critical sections may be nested.
const MOST_CRITICALS: u8 = 8;

/// A number of the text between 1 and the most.
pub fn counted(line: u32, value: i64, most: u32) -> Result<u32, ReadKernelFault>
    ensures counted { Settles result (fault_if (not (is_between 1 most value)) line KernelWhy.Count) (λ n. (n ≡ count_literal value) × (1 ≤ n) × (n ≤ most)) }
{
    if value < 1 || value > i64::from(most) {
        return Err(refused(line, KernelWhy::Count));
    }
    Ok(value as u32)
}

/// The schedule of a worksharing loop.
pub fn schedule_of(schedule: ScheduleTree) -> Result<Schedule, ReadKernelFault>
    ensures { Settles result (schedule_faults (schedule_tree schedule)) (λ s. s ≡ schedule_of (schedule_tree schedule)) }
{
    match schedule {
        ScheduleTree::Unsaid | ScheduleTree::Static { .. } => Ok(Schedule::Even),
        ScheduleTree::StaticBy {
            number_line,
            chunk,
            ..
        } => Ok(Schedule::Static(counted(number_line, chunk, MOST_ITERATIONS)?)),
        ScheduleTree::Dynamic { .. } => Ok(Schedule::Dynamic(1)),
        ScheduleTree::DynamicBy {
            number_line,
            chunk,
            ..
        } => Ok(Schedule::Dynamic(counted(number_line, chunk, MOST_ITERATIONS)?)),
    }
}

impl Section {
    /// What is around inside a region.
    pub fn region(
        self,
        line: u32,
        number_line: u32,
        span: i64,
    ) -> Result<(u16, Section), ReadKernelFault>
        ensures { Settles result (region_faults self line number_line span) (λ x. (x.0 ≡ count_literal span) × (x.1 ≡ region_section self span)) }
    {
        if self.critical.is_some() {
            return Err(refused(line, KernelWhy::ParallelHere));
        }
        if self.regions >= MOST_REGIONS {
            return Err(refused(line, KernelWhy::Deep));
        }
        let span = counted(number_line, span, MOST_LANES)?;
        let spans = u64::from(self.spans) * u64::from(span);
        if spans > u64::from(MOST_LANES) {
            return Err(refused(number_line, KernelWhy::Large));
        }
        let inner = Section {
            regions: self.regions + 1,
            spans: spans as u32,
            critical: self.critical,
            criticals: self.criticals,
            divided: false,
            uneven: false,
        };
        Ok((span as u16, inner))
    }

    /// What is around inside an `if` or a loop.
    pub fn inside_branch(self, uneven: bool) -> Section
        ensures { result ≡ record self { uneven = self.uneven || uneven } }
    {
        Section {
            uneven: self.uneven || uneven,
            ..self
        }
    }

    /// What is around inside a worksharing loop.
    pub fn inside_work(self) -> Section
        ensures { result ≡ record self { divided = true } }
    {
        Section {
            divided: true,
            ..self
        }
    }

    /// A place where all lanes of a region come together.
    pub fn check_shared(self, line: u32, why: KernelWhy) -> Result<(), ReadKernelFault>
        ensures { Settles result (shared_faults self line why) (λ _. Unit {0}) }
    {
        if self.regions == 0 || self.divided {
            return Err(refused(line, why));
        }
        if self.uneven {
            return Err(refused(line, KernelWhy::NotUniform));
        }
        Ok(())
    }

    /// What is around inside a critical section of a mutex.
    pub fn critical(self, line: u32, mutex: u16) -> Result<Section, ReadKernelFault>
        ensures { Settles result (nested_faults self line mutex) (λ s. s ≡ critical_section self mutex) }
    {
        if let Some(around) = self.critical {
            if mutex <= around {
                return Err(refused(line, KernelWhy::CriticalOrder));
            }
        }
        if self.criticals >= MOST_CRITICALS {
            return Err(refused(line, KernelWhy::Deep));
        }
        Ok(Section {
            critical: Some(mutex),
            criticals: self.criticals + 1,
            divided: true,
            ..self
        })
    }
}

/// The number of a declared mutex; that of all unnamed critical sections is 0.
pub fn mutex_number(mutexes: &[Name], line: u32, name: &Name) -> Result<u16, ReadKernelFault>
    requires few { length mutexes.now ≤ 63 }
    ensures { Settles result (fault_if (not (is_among name.now mutexes.now)) line KernelWhy.Unknown) (λ n. n ≡ mutex_number mutexes.now name.now) }
{
    let Some(number) = number_of(mutexes, name) else {
        return Err(refused(line, KernelWhy::Unknown));
    };
    Ok(number as u16 + 1)
}
