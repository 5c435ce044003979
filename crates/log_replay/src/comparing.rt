//! One task against its log.
ghost use Rattle.std.specs.Prelude.{◌≡◌, ◌≤◌, ◌<◌, List, [], length, IfOk, IfErr, IsErrOf, map};
ghost use Rattle.log_format.specs.Limit.{record_limit};
ghost use Rattle.log_format.specs.declared.format.TheConstants.{FORMAT};
ghost use Rattle.log_format.specs.declared.record.Record.{Record};
ghost use Rattle.log_format.specs.declared.record.Kind.TheVariants as kind;
ghost use Rattle.kernel_syntax.specs.Bounds.{IsBoundedCode};
ghost use Rattle.kernel_syntax.specs.Program.{Program, code_of, team_of};
ghost use Rattle.race_model.specs.LogFault.{IsWholeLog};
ghost use Rattle.log_replay.specs.Following.{HasEnd, HasReadTo};
ghost use Rattle.log_replay.specs.Forks.{fork_of, standing};
ghost use Rattle.task_place.specs.Placing.{HasLane};
ghost use Rattle.log_replay.specs.Task.{Compares, EndsLog, IsFollowed, StraysSo};
ghost use Rattle.sw_base.specs.Environment.{WhereTold};
ghost use Rattle.sw_base.specs.OnlyReads.{OnlyReads};

use crate::forked::Forked;
use crate::lane::{ReplayLane, is_same};
use crate::stray::Stray;
use kernel_syntax::{Array, Team};
use log_format::{FORMAT, Kind};
use log_reader::LogReader;
use std::alloc::Global;
use sw_base::{Folder, Path, Trouble};
use task_place::{Locals, TaskPlace, event};

impl<'k> ReplayLane<'k> {
    // A task with these locals, before the first record of its log.
    fn begin<F: Folder>(
        alloc: Global,
        folder: &mut F,
        dir: &str,
        path: &Path,
        records: u32,
        slots: Vec<i64>,
    ) -> Result<ReplayLane<'k>, Trouble>
        ensures begun { IfOk result (λ lane. WhereTold (F.state folder.old).content (λ c. (log : List Record) → IsWholeLog FORMAT c.held dir.now path.now log → records ≡ length log
            → HasEnd log → length log ≤ record_limit → HasReadTo (F.state folder.old) log [] log (standing lane))) }
        ensures slots { IfOk result (λ lane. lane.locals.slots.items ≡ slots.items) }
        ensures forks { IfOk result (λ lane. lane.forks.items ≡ []) }
        ensures reads { OnlyReads F.Folder folder.old folder.new (IsErrOf result Trouble.Failed) }
    {
        let mut reader = LogReader::new(alloc)?;
        reader.open(alloc, FORMAT, folder, dir, path, records)?;
        Ok(ReplayLane {
            locals: Locals { slots },
            forks: Vec::new(alloc),
            reader,
            count: 0,
        })
    }

    // Puts the End of the task, which is to be the last record of the log.
    fn finish<F: Folder>(&mut self, alloc: Global, folder: &mut F, line: u32) -> Result<(), Stray>
        ensures ends { (log done rest : List Record) → HasReadTo (F.state folder.old) log done rest (standing self.old) → EndsLog log done line (standing self.old) (standing self.new) result }
        ensures reads { OnlyReads F.Folder folder.old folder.new (IsErrOf result Stray.ReadFault) }
    {
        let next = self.next(alloc, folder)?;
        let due = event(Kind::End, line, 0, 0);
        if !is_same(&next, &due) {
            return Err(Stray::Differs { number: self.count });
        }
        match self.reader.next(alloc, folder)? {
            Some(_) => Err(self.stray()),
            None => Ok(()),
        }
    }

    // Runs the task to its end.
    fn task<F: Folder>(
        &mut self,
        team: &'k Team,
        alloc: Global,
        folder: &mut F,
        place: &TaskPlace,
    ) -> Result<(), Stray>
        requires bounded { IsBoundedCode (code_of team.now.body.stmts.items) }
        ensures compares { (log : List Record) → HasReadTo (F.state folder.old) log [] log (standing self.old) → self.old.forks.items ≡ [] → (program : Program) → program.arrays ≡ place.now.arrays
            → team.now.span ≡ place.now.span
            → Compares program (record { team = team_of team.now; lane = place.now.lane; slots = self.old.locals.slots.items }) log (standing self.new) result }
        ensures reads { OnlyReads F.Folder folder.old folder.new (IsErrOf result Stray.ReadFault) }
    {
        self.statements(&team.body, alloc, folder, place)?;
        self.finish(alloc, folder, team.end)
    }
}

/// Runs a task of a kernel with these arrays, that of a lane of this team with these locals, under the values that its log reads and the
/// chunk numbers that it draws, and compares each record with the log's next one. The regions that it forked, where the log is
/// the trace.
pub fn follow<'k, F: Folder>(
    alloc: Global,
    folder: &mut F,
    dir: &str,
    path: &Path,
    records: u32,
    arrays: &[Array],
    team: &'k Team,
    lane: u16,
    slots: Vec<i64>,
) -> Result<Vec<Forked<'k>>, Stray>
    requires bounded { IsBoundedCode (code_of team.now.body.stmts.items) }
    requires place { HasLane (record { arrays = arrays.now; lane = lane; span = team.now.span }) }
    ensures followed { IfOk result (λ forks. WhereTold (F.state folder.old).content (λ c. (log : List Record) → IsWholeLog FORMAT c.held dir.now path.now log → records ≡ length log
        → HasEnd log → length log ≤ record_limit → (program : Program) → program.arrays ≡ arrays.now
        → IsFollowed program (record { team = team_of team.now; lane = lane; slots = slots.items }) log (map fork_of forks.items))) }
    ensures strays { IfErr result (λ e. WhereTold (F.state folder.old).content (λ c. (log : List Record) → IsWholeLog FORMAT c.held dir.now path.now log → records ≡ length log
        → HasEnd log → length log ≤ record_limit → (program : Program) → program.arrays ≡ arrays.now
        → StraysSo program (record { team = team_of team.now; lane = lane; slots = slots.items }) log e)) }

    ensures reads { OnlyReads F.Folder folder.old folder.new (IsErrOf result Stray.ReadFault) }
{
    let mut begun = ReplayLane::begin(alloc, folder, dir, path, records, slots)?;
    let place = TaskPlace::new(arrays, lane, team.span);
    begun.task(team, alloc, folder, &place)?;
    Ok(begun.forks)
}
