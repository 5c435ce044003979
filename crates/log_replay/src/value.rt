//! The value of an expression.
ghost use Rattle.std.specs.Prelude.{◌≤◌, IfOk, IsErrOf};
ghost use Rattle.sw_base.specs.OnlyReads.{OnlyReads};
ghost use Rattle.kernel_syntax.specs.Program.{term_of};
ghost use Rattle.kernel_model.specs.Value.{element_at, loaded, value};
ghost use Rattle.log_replay.specs.Following.{FollowsPart};
ghost use Rattle.log_replay.specs.Forks.{standing};

use crate::lane::ReplayLane;
use crate::stray::Stray;
use kernel_model::negate;
use kernel_syntax::Expr;
use std::alloc::Global;
use sw_base::Folder;
use task_place::{TaskPlace, operate};

impl<'k> ReplayLane<'k> {
    /// Reads an element, after its index.
    fn load<F: Folder>(
        &mut self,
        alloc: Global,
        folder: &mut F,
        place: &TaskPlace,
        array: u32,
        index: i64,
        line: u32,
        site: u16,
    ) -> Result<i64, Stray>
        ensures follows { FollowsPart (F.state folder.old) (loaded (element_at place.now.arrays array index) line site) (standing self.old) (standing self.new) result }
        ensures fewer { IfOk result (λ _. self.new.reader.left ≤ self.old.reader.left) }
        ensures reads { OnlyReads F.Folder folder.old folder.new (IsErrOf result Stray.ReadFault) }
    {
        let Some(element) = place.element(array, index) else {
            return Err(self.stray());
        };
        self.read(alloc, folder, &element, line, site)
    }

    /// The value of an expression.
    pub fn value<F: Folder>(
        &mut self,
        expr: &Expr,
        alloc: Global,
        folder: &mut F,
        place: &TaskPlace,
    ) -> Result<i64, Stray>
        ensures follows { FollowsPart (F.state folder.old) (value place.now (term_of expr.now)) (standing self.old) (standing self.new) result }
        ensures fewer { IfOk result (λ _. self.new.reader.left ≤ self.old.reader.left) }
        ensures reads { OnlyReads F.Folder folder.old folder.new (IsErrOf result Stray.ReadFault) }
    {
        match expr {
            Expr::Number(number) => Ok(*number),
            Expr::Slot(slot) => Ok(self.locals.get(*slot)),
            Expr::Tid => Ok(i64::from(place.lane())),
            Expr::Span => Ok(i64::from(place.span())),
            Expr::Load {
                array,
                index,
                line,
                site,
            } => {
                let at = self.value(index, alloc, folder, place)?;
                self.load(alloc, folder, place, *array, at, *line, *site)
            }
            Expr::Neg(operand) => {
                let negated = self.value(operand, alloc, folder, place)?;
                Ok(negate(negated))
            }
            Expr::Binary {
                op,
                line: _,
                left,
                right,
            } => {
                let first = self.value(left, alloc, folder, place)?;
                let second = self.value(right, alloc, folder, place)?;
                operate(*op, first, second, self.stray())
            }
        }
    }
}
