//! Lists of statements.
ghost use Rattle.std.specs.Prelude.{◌≡◌, ◌+◌, ◌-◌, ◌*◌, ◌^◌, ◌<◌, ◌≤◌, pos, ◌+ℤ◌, ◌≤ℤ◌, IfOk, ℕ, IsErrOf};
ghost use Rattle.sw_base.specs.OnlyReads.{OnlyReads};
ghost use Rattle.kernel_syntax.specs.Bounds.{IsBoundedCode, IsBoundedSchedule};
ghost use Rattle.kernel_syntax.specs.Program.{code_of, stmt_code, team_of, term_of};
ghost use Rattle.kernel_syntax.specs.Tree as tree;
ghost use Rattle.kernel_syntax.specs.Tree.{Done};
ghost use Rattle.log_format.specs.declared.record.Kind.TheVariants as kind;
ghost use Rattle.kernel_model.specs.Changing.{changing, kind_of};
ghost use Rattle.kernel_model.specs.Drawing.{turn_from, draw_all, draw_once};
ghost use Rattle.kernel_model.specs.Iterations.{chunk_count, chunk_iterations, static_iterations, total_of};
ghost use Rattle.kernel_model.specs.Trace.{changed, each, loop_end, run, shared, turns};
ghost use Rattle.kernel_model.specs.Value.{element_at};
ghost use Rattle.task_place.specs.Assigning.{IsAssignment};
ghost use Rattle.log_replay.specs.Following.{FollowsPart};
ghost use Rattle.log_replay.specs.Forks.{standing};
ghost use Rattle.log_replay.specs.Sharing.{sharing};

use crate::forked::Forked;
use crate::lane::ReplayLane;
use crate::stray::Stray;
use kernel_model::Change;
use kernel_syntax::{Body, Expr, Schedule, Stmt, Team, even_share, fit};
use log_format::Kind;
use std::alloc::Global;
use sw_base::Folder;
use task_place::{TaskPlace, access, event, number_at, total_of};

impl<'k> ReplayLane<'k> {
    /// Stores or adds an amount, after the index and the value.
    fn put_value<F: Folder>(
        &mut self,
        alloc: Global,
        folder: &mut F,
        place: &TaskPlace,
        change: Change,
        array: u32,
        index: i64,
        amount: i64,
        line: u32,
        site: u16,
    ) -> Result<(), Stray>
        ensures follows { FollowsPart (F.state folder.old) (changed (kind_of change) (element_at place.now.arrays array index) amount line site) (standing self.old) (standing self.new) result }
        ensures fewer { IfOk result (λ _. self.new.reader.left ≤ self.old.reader.left) }
        ensures reads { OnlyReads F.Folder folder.old folder.new (IsErrOf result Stray.ReadFault) }
    {
        let Some(element) = place.element(array, index) else {
            return Err(self.stray());
        };
        let fitted = fit(amount, element.width);
        let due = access(change.kind(), &element, line, site, fitted);
        self.put(alloc, folder, due)
    }

    /// Sets a variable.
    fn assign<F: Folder>(
        &mut self,
        expr: &Expr,
        alloc: Global,
        folder: &mut F,
        place: &TaskPlace,
        slot: u32,
    ) -> Result<(), Stray>
        ensures follows { FollowsPart (F.state folder.old) (run place.now (tree.Set slot (term_of expr.now) Done)) (standing self.old) (standing self.new) result }
        ensures fewer { IfOk result (λ _. self.new.reader.left ≤ self.old.reader.left) }
        ensures reads { OnlyReads F.Folder folder.old folder.new (IsErrOf result Stray.ReadFault) }
    {
        let number = self.value(expr, alloc, folder, place)?;
        self.set(slot, number);
        Ok(())
    }

    /// Stores a value to an element, or adds it in one step.
    fn change<F: Folder>(
        &mut self,
        index: &Expr,
        expr: &Expr,
        alloc: Global,
        folder: &mut F,
        place: &TaskPlace,
        change: Change,
        array: u32,
        line: u32,
        site: u16,
    ) -> Result<(), Stray>
        ensures follows { FollowsPart (F.state folder.old) (run place.now (changing change array (term_of index.now) (term_of expr.now) line site Done)) (standing self.old) (standing self.new) result }
        ensures fewer { IfOk result (λ _. self.new.reader.left ≤ self.old.reader.left) }
        ensures reads { OnlyReads F.Folder folder.old folder.new (IsErrOf result Stray.ReadFault) }
    {
        let at = self.value(index, alloc, folder, place)?;
        let number = self.value(expr, alloc, folder, place)?;
        let amount = change.amount(number);
        self.put_value(alloc, folder, place, change, array, at, amount, line, site)
    }

    /// Runs an assignment to a variable or an element.
    fn assignment<F: Folder>(
        &mut self,
        stmt: &Stmt,
        alloc: Global,
        folder: &mut F,
        place: &TaskPlace,
    ) -> Result<(), Stray>
        requires assigns { IsAssignment (stmt_code stmt.now Done) }
        ensures follows { FollowsPart (F.state folder.old) (run place.now (stmt_code stmt.now Done)) (standing self.old) (standing self.new) result }
        ensures fewer { IfOk result (λ _. self.new.reader.left ≤ self.old.reader.left) }
        ensures reads { OnlyReads F.Folder folder.old folder.new (IsErrOf result Stray.ReadFault) }
    {
        match stmt {
            Stmt::Set { slot, value } => self.assign(value, alloc, folder, place, *slot),
            Stmt::Store {
                array,
                index,
                value,
                line,
                site,
            } => self.change(
                index,
                value,
                alloc,
                folder,
                place,
                Change::Store,
                *array,
                *line,
                *site,
            ),
            Stmt::Update {
                array,
                index,
                value,
                minus,
                line,
                site,
            } => self.change(
                index,
                value,
                alloc,
                folder,
                place,
                Change::Update { minus: *minus },
                *array,
                *line,
                *site,
            ),
            _ => unreachable!(),
        }
    }

    /// Forks a region: its lanes start from the locals that the task has now.
    fn fork<F: Folder>(
        &mut self,
        alloc: Global,
        folder: &mut F,
        place: &TaskPlace,
        team: &'k Team,
    ) -> Result<(), Stray>
        requires bounded { IsBoundedCode (code_of team.now.body.stmts.items) }
        ensures follows { FollowsPart (F.state folder.old) (run place.now (tree.Parallel team.now.span team.now.line team.now.end (code_of team.now.body.stmts.items) Done)) (standing self.old) (standing self.new) result }
        ensures fewer { IfOk result (λ _. self.new.reader.left ≤ self.old.reader.left) }
        ensures reads { OnlyReads F.Folder folder.old folder.new (IsErrOf result Stray.ReadFault) }
    {
        let due = event(Kind::Region, team.line, 0, u64::from(team.span));
        self.put(alloc, folder, due)?;
        let slots = self.locals.slots.as_slice().to_vec(alloc)?;
        self.forks.push(Forked { team, slots })?;
        Ok(())
    }

    /// Meets the barrier at the end of a worksharing loop.
    fn end_loop<F: Folder>(
        &mut self,
        alloc: Global,
        folder: &mut F,
        nowait: bool,
        end: u32,
    ) -> Result<(), Stray>
        ensures follows { FollowsPart (F.state folder.old) (loop_end nowait end) (standing self.old) (standing self.new) result }
        ensures fewer { IfOk result (λ _. self.new.reader.left ≤ self.old.reader.left) }
        ensures reads { OnlyReads F.Folder folder.old folder.new (IsErrOf result Stray.ReadFault) }
    {
        if nowait {
            return Ok(());
        }
        self.put(alloc, folder, event(Kind::Barrier, end, 0, 0))
    }

    /// Runs the statements of a body.
    #[cycle(executing)]
    pub fn statements<F: Folder>(
        &mut self,
        body: &'k Body,
        alloc: Global,
        folder: &mut F,
        place: &TaskPlace,
    ) -> Result<(), Stray>
        requires bounded { IsBoundedCode (code_of body.now.stmts.items) }
        ensures follows { FollowsPart (F.state folder.old) (run place.now (code_of body.now.stmts.items)) (standing self.old) (standing self.new) result }
        ensures fewer { IfOk result (λ _. self.new.reader.left ≤ self.old.reader.left) }
        ensures reads { OnlyReads F.Folder folder.old folder.new (IsErrOf result Stray.ReadFault) }
    {
        for stmt in &body.stmts {
            self.statement(stmt, alloc, folder, place)?;
        }
        Ok(())
    }

    /// Runs so many turns of a loop that begins at this value of its variable, from this turn on.
    #[cycle(executing)]
    fn repeat<F: Folder>(
        &mut self,
        body: &'k Body,
        alloc: Global,
        folder: &mut F,
        place: &TaskPlace,
        slot: u32,
        from: i64,
        first: u64,
        count: u64,
    ) -> Result<(), Stray>
        requires bounded { IsBoundedCode (code_of body.now.stmts.items) }
        requires top { (from +ℤ pos (first + count)) ≤ℤ pos (2 ^ 63 - 1) }
        ensures follows { FollowsPart (F.state folder.old) (turns count first (turn_from place.now (code_of body.now.stmts.items) slot from)) (standing self.old) (standing self.new) result }
        ensures fewer { IfOk result (λ _. self.new.reader.left ≤ self.old.reader.left) }
        ensures reads { OnlyReads F.Folder folder.old folder.new (IsErrOf result Stray.ReadFault) }
    {
        for i in 0..count {
            self.set(slot, number_at(from, first, i));
            self.statements(body, alloc, folder, place)?;
        }
        Ok(())
    }

    /// Runs a critical section.
    #[cycle(executing)]
    fn critical<F: Folder>(
        &mut self,
        body: &'k Body,
        alloc: Global,
        folder: &mut F,
        place: &TaskPlace,
        mutex: u16,
        line: u32,
        end: u32,
    ) -> Result<(), Stray>
        requires bounded { IsBoundedCode (code_of body.now.stmts.items) }
        ensures follows { FollowsPart (F.state folder.old) (run place.now (tree.Critical mutex line end (code_of body.now.stmts.items) Done)) (standing self.old) (standing self.new) result }
        ensures fewer { IfOk result (λ _. self.new.reader.left ≤ self.old.reader.left) }
        ensures reads { OnlyReads F.Folder folder.old folder.new (IsErrOf result Stray.ReadFault) }
    {
        self.put(alloc, folder, event(Kind::Lock, line, u64::from(mutex), 0))?;
        self.statements(body, alloc, folder, place)?;
        self.put(alloc, folder, event(Kind::Unlock, end, u64::from(mutex), 0))
    }

    /// Runs the lane's chunks of a loop whose chunks are dealt in turn.
    #[cycle(executing)]
    fn chunks<F: Folder>(
        &mut self,
        body: &'k Body,
        alloc: Global,
        folder: &mut F,
        place: &TaskPlace,
        slot: u32,
        from: i64,
        total: u64,
        chunk: u32,
    ) -> Result<(), Stray>
        requires bounded { IsBoundedCode (code_of body.now.stmts.items) }
        requires some { 0 < chunk }
        requires top { (from +ℤ pos total) ≤ℤ pos (2 ^ 63 - 1) }
        ensures follows { FollowsPart (F.state folder.old) (each (static_iterations chunk total place.now.lane place.now.span) (turn_from place.now (code_of body.now.stmts.items) slot from)) (standing self.old) (standing self.new) result }
        ensures fewer { IfOk result (λ _. self.new.reader.left ≤ self.old.reader.left) }
        ensures reads { OnlyReads F.Folder folder.old folder.new (IsErrOf result Stray.ReadFault) }
    {
        let chunk = u64::from(chunk);
        let stride = chunk * u64::from(place.span());
        let mut first = chunk * u64::from(place.lane());
        'chunks: while first < total {
            let count = chunk.min(total - first);
            self.repeat(body, alloc, folder, place, slot, from, first, count)?;
            first = first.saturating_add(stride);
        }
        Ok(())
    }

    /// Draws a chunk, and runs it. False where none is left.
    #[cycle(executing)]
    fn drawn_chunk<F: Folder>(
        &mut self,
        body: &'k Body,
        alloc: Global,
        folder: &mut F,
        place: &TaskPlace,
        slot: u32,
        from: i64,
        total: u64,
        chunk: u64,
        line: u32,
    ) -> Result<bool, Stray>
        requires bounded { IsBoundedCode (code_of body.now.stmts.items) }
        requires some { 0 < chunk }
        requires top { (from +ℤ pos total) ≤ℤ pos (2 ^ 63 - 1) }
        ensures follows { FollowsPart (F.state folder.old) (draw_once line (chunk_count chunk total) (λ q. each (chunk_iterations chunk total q) (turn_from place.now (code_of body.now.stmts.items) slot from))) (standing self.old) (standing self.new) result }
        ensures less { IfOk result (λ _. self.new.reader.left < self.old.reader.left) }
        ensures fewer { IfOk result (λ _. self.new.reader.left ≤ self.old.reader.left) }
        ensures reads { OnlyReads F.Folder folder.old folder.new (IsErrOf result Stray.ReadFault) }
    {
        let chunks = total.div_ceil(chunk);
        let number = self.draw(alloc, folder, line, chunks)?;
        if number >= chunks {
            return Ok(false);
        }
        let first = number * chunk;
        let count = chunk.min(total - first);
        self.repeat(body, alloc, folder, place, slot, from, first, count)?;
        Ok(true)
    }

    /// Draws chunks, and runs them, until none is left.
    #[cycle(executing)]
    fn drawn_chunks<F: Folder>(
        &mut self,
        body: &'k Body,
        alloc: Global,
        folder: &mut F,
        place: &TaskPlace,
        slot: u32,
        from: i64,
        total: u64,
        chunk: u64,
        line: u32,
    ) -> Result<(), Stray>
        requires bounded { IsBoundedCode (code_of body.now.stmts.items) }
        requires some { 0 < chunk }
        requires top { (from +ℤ pos total) ≤ℤ pos (2 ^ 63 - 1) }
        ensures follows { FollowsPart (F.state folder.old) (draw_all line (chunk_count chunk total) (λ q. each (chunk_iterations chunk total q) (turn_from place.now (code_of body.now.stmts.items) slot from))) (standing self.old) (standing self.new) result }
        ensures fewer { IfOk result (λ _. self.new.reader.left ≤ self.old.reader.left) }
        ensures reads { OnlyReads F.Folder folder.old folder.new (IsErrOf result Stray.ReadFault) }
    {
        'draws: loop {
            if !self.drawn_chunk(body, alloc, folder, place, slot, from, total, chunk, line)? {
                return Ok(());
            }
        }
    }

    /// Runs the lane's share of a loop of so many iterations, of which the first has this value.
    #[cycle(executing)]
    fn share<F: Folder>(
        &mut self,
        body: &'k Body,
        alloc: Global,
        folder: &mut F,
        place: &TaskPlace,
        slot: u32,
        from: i64,
        total: u64,
        schedule: Schedule,
        line: u32,
    ) -> Result<(), Stray>
        requires bounded { IsBoundedCode (code_of body.now.stmts.items) }
        requires chunk { IsBoundedSchedule schedule }
        requires top { (from +ℤ pos total) ≤ℤ pos (2 ^ 63 - 1) }
        ensures follows { FollowsPart (F.state folder.old) (shared schedule place.now line total (turn_from place.now (code_of body.now.stmts.items) slot from)) (standing self.old) (standing self.new) result }
        ensures fewer { IfOk result (λ _. self.new.reader.left ≤ self.old.reader.left) }
        ensures reads { OnlyReads F.Folder folder.old folder.new (IsErrOf result Stray.ReadFault) }
    {
        match schedule {
            Schedule::Even => {
                let (first, count) = even_share(total, place.lane(), place.span());
                self.repeat(body, alloc, folder, place, slot, from, first, count)
            }
            Schedule::Static(chunk) => {
                self.chunks(body, alloc, folder, place, slot, from, total, chunk)
            }
            Schedule::Dynamic(chunk) => {
                let chunk = u64::from(chunk);
                self.drawn_chunks(body, alloc, folder, place, slot, from, total, chunk, line)
            }
        }
    }

    /// Runs the lane's share of a worksharing loop, without the barrier at its end.
    #[cycle(executing)]
    fn worksharing<F: Folder>(
        &mut self,
        body: &'k Body,
        from: &Expr,
        to: &Expr,
        alloc: Global,
        folder: &mut F,
        place: &TaskPlace,
        slot: u32,
        schedule: Schedule,
        line: u32,
    ) -> Result<(), Stray>
        requires bounded { IsBoundedCode (code_of body.now.stmts.items) }
        requires chunk { IsBoundedSchedule schedule }
        ensures follows { FollowsPart (F.state folder.old) (sharing place.now slot (term_of from.now) (term_of to.now) schedule line (code_of body.now.stmts.items)) (standing self.old) (standing self.new) result }
        ensures fewer { IfOk result (λ _. self.new.reader.left ≤ self.old.reader.left) }
        ensures reads { OnlyReads F.Folder folder.old folder.new (IsErrOf result Stray.ReadFault) }
    {
        let first = self.value(from, alloc, folder, place)?;
        let last = self.value(to, alloc, folder, place)?;
        let total = total_of(first, last);
        self.share(
            body, alloc, folder, place, slot, first, total, schedule, line,
        )
    }

    /// Runs a loop.
    #[cycle(executing)]
    fn looped<F: Folder>(
        &mut self,
        body: &'k Body,
        from: &Expr,
        to: &Expr,
        alloc: Global,
        folder: &mut F,
        place: &TaskPlace,
        slot: u32,
    ) -> Result<(), Stray>
        requires bounded { IsBoundedCode (code_of body.now.stmts.items) }
        ensures follows { FollowsPart (F.state folder.old) (run place.now (tree.Loop slot (term_of from.now) (term_of to.now) (code_of body.now.stmts.items) Done)) (standing self.old) (standing self.new) result }
        ensures fewer { IfOk result (λ _. self.new.reader.left ≤ self.old.reader.left) }
        ensures reads { OnlyReads F.Folder folder.old folder.new (IsErrOf result Stray.ReadFault) }
    {
        let first = self.value(from, alloc, folder, place)?;
        let last = self.value(to, alloc, folder, place)?;
        let total = total_of(first, last);
        self.repeat(body, alloc, folder, place, slot, first, 0, total)
    }

    /// Runs a statement.
    #[cycle(executing)]
    fn statement<F: Folder>(
        &mut self,
        stmt: &'k Stmt,
        alloc: Global,
        folder: &mut F,
        place: &TaskPlace,
    ) -> Result<(), Stray>
        requires bounded { IsBoundedCode (stmt_code stmt.now Done) }
        ensures follows { FollowsPart (F.state folder.old) (run place.now (stmt_code stmt.now Done)) (standing self.old) (standing self.new) result }
        ensures fewer { IfOk result (λ _. self.new.reader.left ≤ self.old.reader.left) }
        ensures reads { OnlyReads F.Folder folder.old folder.new (IsErrOf result Stray.ReadFault) }
    {
        match stmt {
            Stmt::If { test, yes, no } => {
                let chosen = self.value(test, alloc, folder, place)?;
                if chosen == 0 {
                    self.statements(no, alloc, folder, place)
                } else {
                    self.statements(yes, alloc, folder, place)
                }
            }
            Stmt::Loop {
                slot,
                from,
                to,
                body,
            } => self.looped(body, from, to, alloc, folder, place, *slot),
            Stmt::Parallel { team } => self.fork(alloc, folder, place, team),
            Stmt::For {
                slot,
                from,
                to,
                schedule,
                nowait,
                line,
                end,
                body,
            } => {
                self.worksharing(
                    body, from, to, alloc, folder, place, *slot, *schedule, *line,
                )?;
                self.end_loop(alloc, folder, *nowait, *end)
            }
            Stmt::Barrier { line } => { self.put(alloc, folder, event(Kind::Barrier, *line, 0, 0)) }
            Stmt::Critical {
                mutex,
                line,
                end,
                body,
            } => self.critical(body, alloc, folder, place, *mutex, *line, *end),
            _ => self.assignment(stmt, alloc, folder, place),
        }
    }
}
