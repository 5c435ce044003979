//! The value of an expression.
ghost use Rattle.std.specs.Prelude.{List, ℤ};
ghost use Rattle.kernel_syntax.specs.Program.{term_of};
ghost use Rattle.kernel_model.specs.Value.{element_at, loaded, value};
ghost use Rattle.serial_run.specs.Going.{RunsPart, serial_progress};
ghost use Rattle.serial_run.specs.Placing.{ElementLayout, TellsWords};

use crate::halt::Halt;
use crate::memory::SerialMemory;
use crate::track::Track;
use kernel_model::{StopWhy, negate};
use kernel_syntax::Expr;
use task_place::{Locals, TaskPlace, operate};

impl Track {
    // Reads an element, after its index.
    fn load(
        &mut self,
        memory: &mut SerialMemory,
        place: &TaskPlace,
        array: u32,
        index: i64,
        line: u32,
        site: u16,
    ) -> Result<i64, Halt>
        ensures { (layout : ElementLayout) (slots : List ℤ) → TellsWords place.now.arrays layout → RunsPart layout (loaded (element_at place.now.arrays array index) line site) slots slots (serial_progress self.old memory.old) (serial_progress self.new memory.new) result }
    {
        let Some(element) = place.element(array, index) else {
            return Err(Halt::Stops {
                why: StopWhy::Index,
                line,
            });
        };
        self.read(memory, &element, line, site)
    }

    /// The value of an expression. Its reads are recorded.
    pub(crate) fn value(
        &mut self,
        expr: &Expr,
        memory: &mut SerialMemory,
        place: &TaskPlace,
        locals: &Locals,
    ) -> Result<i64, Halt>
        ensures { (layout : ElementLayout) → TellsWords place.now.arrays layout → RunsPart layout (value place.now (term_of expr.now)) locals.now.slots.items locals.now.slots.items (serial_progress self.old memory.old) (serial_progress self.new memory.new) result }
    {
        match expr {
            Expr::Number(number) => Ok(*number),
            Expr::Slot(slot) => Ok(locals.get(*slot)),
            Expr::Tid => Ok(i64::from(place.lane())),
            Expr::Span => Ok(i64::from(place.span())),
            Expr::Load {
                array,
                index,
                line,
                site,
            } => {
                let at = self.value(index, memory, place, locals)?;
                self.load(memory, place, *array, at, *line, *site)
            }
            Expr::Neg(operand) => {
                let negated = self.value(operand, memory, place, locals)?;
                Ok(negate(negated))
            }
            Expr::Binary {
                op,
                line,
                left,
                right,
            } => {
                let first = self.value(left, memory, place, locals)?;
                let second = self.value(right, memory, place, locals)?;
                operate(
                    *op,
                    first,
                    second,
                    Halt::Stops {
                        why: StopWhy::DivZero,
                        line: *line,
                    },
                )
            }
        }
    }
}
