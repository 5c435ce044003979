//! A task's log as it grows.
ghost use Rattle.std.specs.Prelude.{◌≡◌, ◌+◌, ◌-◌, ◌<◌, ◌++◌, IfOk, IfErr, IsErrOf, List, ℕ, ℤ};
ghost use Rattle.log_format.specs.Fitting.{IsWidth, fitted};
ghost use Rattle.log_format.specs.Spelling.{spelling};
ghost use Rattle.kernel_model.specs.State.{put};
ghost use Rattle.kernel_model.specs.Trace.{changed};
ghost use Rattle.kernel_model.specs.Value.{access, read, Element as Meant};
ghost use Rattle.log_format.specs.declared.record.Kind.TheVariants as kind;
ghost use Rattle.serial_run.specs.declared.halt.Halt.TheVariants as halt;
ghost use Rattle.serial_run.specs.Going.{RunsPart, LogsRecord, FindsRoom, Marks, serial_progress};
ghost use Rattle.serial_run.specs.Placing.{ElementLayout, IsPlacedAt};
ghost use Rattle.task_place.specs.Placing.{meant};

use crate::halt::Halt;
use crate::memory::SerialMemory;
use kernel_model::StopWhy;
use kernel_syntax::fit;
use log_format::{Kind, RECORD_LIMIT, Record, encode};
use task_place::{Element, access};

/// A task's log: the bytes of its records, and how many they are.
#[derive(Drop)]
pub struct Track {
    pub log: Vec<u8>,
    pub count: u32,
}

impl Track {
    // Whether one record more may be made.
    fn make_room(&self, memory: &SerialMemory, line: u32) -> Result<(), Halt>
        ensures { FindsRoom (serial_progress self.now memory.now) line result }
    {
        if self.count >= RECORD_LIMIT {
            return Err(Halt::Stops {
                why: StopWhy::LogFull,
                line,
            });
        }
        if memory.left == 0 {
            return Err(Halt::Long);
        }
        Ok(())
    }

    // Spells a record.
    fn spell(&mut self, memory: &mut SerialMemory, due: &Record) -> Result<(), Halt>
        requires room { self.old.count < 4194304 }
        requires some { 0 < memory.old.left }
        ensures logs { IfOk result (λ _. LogsRecord due.now (serial_progress self.old memory.old) (serial_progress self.new memory.new)) }
        ensures memory { IfErr result (λ e. e ≡ halt.Memory) }
    {
        self.log.extend_from_slice(&encode(due))?;
        self.count += 1;
        memory.left -= 1;
        Ok(())
    }

    /// Puts a record that is no access.
    pub(crate) fn put(&mut self, memory: &mut SerialMemory, due: Record) -> Result<(), Halt>
        ensures { Marks due (serial_progress self.old memory.old) (serial_progress self.new memory.new) result }
    {
        self.make_room(memory, due.line)?;
        self.spell(memory, &due)
    }

    /// Reads an element.
    pub(crate) fn read(
        &mut self,
        memory: &mut SerialMemory,
        element: &Element,
        line: u32,
        site: u16,
    ) -> Result<i64, Halt>
        requires { IsWidth element.now.width }
        ensures { (layout : ElementLayout) (slots : List ℤ) → IsPlacedAt layout element.now → RunsPart layout (read (meant element.now) site line) slots slots (serial_progress self.old memory.old) (serial_progress self.new memory.new) result }
    {
        self.make_room(memory, line)?;
        let bits = memory.load(element.word);
        let value = fit(bits.cast_signed(), element.width);
        let due = access(Kind::Read, element, line, site, value);
        self.spell(memory, &due)?;
        Ok(value)
    }

    /// Stores a value to an element.
    pub(crate) fn store(
        &mut self,
        memory: &mut SerialMemory,
        element: &Element,
        line: u32,
        site: u16,
        value: i64,
    ) -> Result<(), Halt>
        requires { IsWidth element.now.width }
        ensures { (layout : ElementLayout) (slots : List ℤ) → IsPlacedAt layout element.now → RunsPart layout (put (access kind.Write (meant element.now) site line (fitted value element.now.width))) slots slots (serial_progress self.old memory.old) (serial_progress self.new memory.new) result }
    {
        self.make_room(memory, line)?;
        let fitted = fit(value, element.width);
        let due = access(Kind::Write, element, line, site, fitted);
        self.spell(memory, &due)?;
        memory.store(element.word, fitted.cast_unsigned());
        Ok(())
    }
}
