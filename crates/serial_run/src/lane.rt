//! A task that runs over a vector of words and can stand still.
ghost use Rattle.std.specs.Prelude.{◌≡◌, ◌+◌, ◌-◌, ◌≤◌, ◌^◌, ◌<◌, ℕ, List, [], ◌∷◌, ◌++◌, IfOk, IfErr, IfSome, IsTrue, IsFalse, not, ◌==◌, ◌/◌, ◌%◌, suc, pos, ◌<ℤ◌, ◌+ℤ◌, ◌≤ℤ◌};
ghost use Rattle.kernel_syntax.specs.Program.{code_of, stmt_code, term_of};
ghost use Rattle.kernel_syntax.specs.Tree as tree;
ghost use Rattle.kernel_syntax.specs.Tree.{Done};
ghost use Rattle.kernel_model.specs.Iterations.{total_of};
ghost use Rattle.kernel_model.specs.Drawing.{turn_from};
ghost use Rattle.kernel_model.specs.State.{State, after, event, put};
ghost use Rattle.log_format.specs.declared.record.Kind.TheVariants as kind;
ghost use Rattle.kernel_model.specs.Trace.{run, shared};
ghost use Rattle.serial_run.specs.Placing.{ElementLayout, TellsWords};
ghost use Rattle.serial_run.specs.Resting.{end_frames, frame_part};
ghost use Rattle.serial_run.specs.declared.halt.Halt.TheVariants as halt;
ghost use Rattle.serial_run.specs.declared.memory.SerialMemory.{SerialMemory as Words};
ghost use Rattle.serial_run.specs.Stepping.{Pauses, Resumes, TakesPart, stand_left, stand};
ghost use Rattle.serial_run.specs.declared.frame.Frame.TheVariants as frame;

use crate::frame::{Frame, Pause};
use crate::halt::Halt;
use crate::memory::SerialMemory;
use crate::track::Track;
use kernel_model::StopWhy;
use kernel_syntax::{Body, Expr, Schedule, Stmt, Team, even_share};
use log_format::Kind;
use std::alloc::Global;
use task_place::{Locals, TaskPlace, event, number_at, total_of};

/// A task: where it runs, the line of its End, its locals, what is left of it, and its log.
#[derive(Drop)]
pub struct SerialLane<'k> {
    pub place: TaskPlace<'k>,
    pub end: u32,
    pub locals: Locals,
    pub rest: Vec<Frame<'k>>,
    pub track: Track,
}

// The body that goes on after a test of this value.
fn chosen<'k>(number: i64, if_true: &'k Body, if_false: &'k Body) -> &'k Body
    ensures zero { number ≡ pos 0 → result.now ≡ if_false.now }
    ensures other { (number ≡ pos 0 → ⊥) → result.now ≡ if_true.now }
{
    if number == 0 { if_false } else { if_true }
}

// Whether a loop has no more turns.
fn is_past(next: i64, end: i64) -> bool
    ensures past { IsTrue result → total_of next end ≡ 0 }
    ensures more { IsFalse result → (total_of next end ≡ suc (total_of (next +ℤ pos 1) end)) × (next <ℤ end) }
{
    next >= end
}

// The next value of a loop's variable.
fn value_after(next: i64, end: i64) -> i64
    requires { next <ℤ end }
    ensures { result ≡ next +ℤ pos 1 }
{
    next + 1
}

// Whether an iteration of a loop whose chunks are dealt in turn is another lane's.
fn is_skipped(place: &TaskPlace, chunk: u32, i: u64) -> bool
    requires { 0 < chunk }
    ensures { result ≡ not ((i / chunk) % place.now.span == place.now.lane) }
{
    let own = i / u64::from(chunk) % u64::from(place.span()) == u64::from(place.lane());
    !own
}

// A lane's share of a worksharing loop; none where the schedule doesn't fix it.
fn share_of<'k>(
    place: &TaskPlace,
    body: &'k Body,
    slot: u32,
    from: i64,
    to: i64,
    schedule: Schedule,
) -> Option<Frame<'k>>
    ensures { IfSome result (λ f. (line : ℕ) (s : State) → frame_part place.now f s ≡ shared schedule place.now line (total_of from to) (turn_from place.now (code_of body.now.stmts.items) slot from) s) }
{
    match schedule {
        Schedule::Even => {
            let (first, count) = even_share(total_of(from, to), place.lane(), place.span());
            Some(Frame::Turns {
                body,
                slot,
                next: number_at(from, first, 0),
                end: number_at(from, first, count),
            })
        }
        Schedule::Static(chunk) => Some(Frame::Chunks {
            body,
            slot,
            from,
            to,
            chunk,
            next: 0,
        }),
        Schedule::Dynamic(_) => None,
    }
}

impl<'k> SerialLane<'k> {
    /// The task of this lane of a team, which begins with these locals and whose log goes on behind these bytes.
    pub fn start(
        alloc: Global,
        place: TaskPlace<'k>,
        team: &'k Team,
        locals: Locals,
        log: Vec<u8>,
    ) -> Result<SerialLane<'k>, Halt>
        ensures place { IfOk result (λ l. l.place ≡ place.entry) }
        ensures locals { IfOk result (λ l. l.locals ≡ locals) }
        ensures track { IfOk result (λ l. l.track ≡ record { log = log; count = 0 }) }
        ensures whole { IfOk result (λ l. (memory : Words) (s : State) → stand_left (stand l memory) s ≡ after (run l.place (code_of team.now.body.stmts.items) s) (put (event kind.End team.now.end 0 0))) }
        ensures memory { IfErr result (λ e. e ≡ halt.Memory) }
    {
        let mut rest = Vec::new(alloc);
        rest.push(Frame::Statements(team.body.stmts.as_slice()))?;
        Ok(SerialLane {
            place,
            end: team.end,
            locals,
            rest,
            track: Track { log, count: 0 },
        })
    }

    // Sets a variable.
    fn assign(
        &mut self,
        memory: &mut SerialMemory,
        slot: u32,
        value: &Expr,
    ) -> Result<Option<Pause<'k>>, Halt>
        ensures { (layout : ElementLayout) → TellsWords self.old.place.arrays layout → TakesPart layout (run self.old.place (tree.Set slot (term_of value.now) Done)) (stand self.old memory.old) (stand self.new memory.new) result }
    {
        let number = self.track.value(value, memory, &self.place, &self.locals)?;
        self.locals.set(slot, number);
        Ok(None)
    }

    // Stores a value to an element.
    fn store(
        &mut self,
        memory: &mut SerialMemory,
        array: u32,
        index: &Expr,
        value: &Expr,
        line: u32,
        site: u16,
    ) -> Result<Option<Pause<'k>>, Halt>
        ensures { (layout : ElementLayout) → TellsWords self.old.place.arrays layout → TakesPart layout (run self.old.place (tree.Store array (term_of index.now) (term_of value.now) line site Done)) (stand self.old memory.old) (stand self.new memory.new) result }
    {
        let at = self.track.value(index, memory, &self.place, &self.locals)?;
        let number = self.track.value(value, memory, &self.place, &self.locals)?;
        let Some(element) = self.place.element(array, at) else {
            return Err(Halt::Stops {
                why: StopWhy::Index,
                line,
            });
        };
        self.track.store(memory, &element, line, site, number)?;
        Ok(None)
    }

    // Goes on with one of two bodies.
    fn test(
        &mut self,
        memory: &mut SerialMemory,
        test: &Expr,
        if_true: &'k Body,
        if_false: &'k Body,
    ) -> Result<Option<Pause<'k>>, Halt>
        ensures { (layout : ElementLayout) → TellsWords self.old.place.arrays layout → TakesPart layout (run self.old.place (tree.If (term_of test.now) (code_of if_true.now.stmts.items) (code_of if_false.now.stmts.items) Done)) (stand self.old memory.old) (stand self.new memory.new) result }
    {
        let number = self.track.value(test, memory, &self.place, &self.locals)?;
        let body = chosen(number, if_true, if_false);
        self.rest.push(Frame::Statements(body.stmts.as_slice()))?;
        Ok(None)
    }

    // Begins a loop.
    fn begin(
        &mut self,
        memory: &mut SerialMemory,
        slot: u32,
        from: &Expr,
        to: &Expr,
        body: &'k Body,
    ) -> Result<Option<Pause<'k>>, Halt>
        ensures { (layout : ElementLayout) → TellsWords self.old.place.arrays layout → TakesPart layout (run self.old.place (tree.Loop slot (term_of from.now) (term_of to.now) (code_of body.now.stmts.items) Done)) (stand self.old memory.old) (stand self.new memory.new) result }
    {
        let next = self.track.value(from, memory, &self.place, &self.locals)?;
        let end = self.track.value(to, memory, &self.place, &self.locals)?;
        self.rest.push(Frame::Turns {
            body,
            slot,
            next,
            end,
        })?;
        Ok(None)
    }

    // Forks a region.
    fn fork(&mut self, memory: &mut SerialMemory, team: &'k Team) -> Result<Option<Pause<'k>>, Halt>
        ensures { (layout : ElementLayout) → TakesPart layout (run self.old.place (tree.Parallel team.now.span team.now.line team.now.end (code_of team.now.body.stmts.items) Done)) (stand self.old memory.old) (stand self.new memory.new) result }
    {
        self.track.put(
            memory,
            event(Kind::Region, team.line, 0, u64::from(team.span)),
        )?;
        Ok(Some(Pause::Fork(team)))
    }

    // Meets a barrier.
    fn meet(&mut self, memory: &mut SerialMemory, line: u32) -> Result<Option<Pause<'k>>, Halt>
        ensures { (layout : ElementLayout) → TakesPart layout (frame_part self.old.place (frame.Barrier line)) (stand self.old memory.old) (stand self.new memory.new) result }
    {
        self.track.put(memory, event(Kind::Barrier, line, 0, 0))?;
        Ok(Some(Pause::Barrier))
    }

    // Begins the lane's share of a worksharing loop.
    fn share(
        &mut self,
        memory: &mut SerialMemory,
        slot: u32,
        from: &Expr,
        to: &Expr,
        schedule: Schedule,
        nowait: bool,
        end: u32,
        body: &'k Body,
    ) -> Result<Option<Pause<'k>>, Halt>
        ensures { (layout : ElementLayout) (line : ℕ) → TellsWords self.old.place.arrays layout → TakesPart layout (run self.old.place (tree.For slot (term_of from.now) (term_of to.now) schedule nowait line end (code_of body.now.stmts.items) Done)) (stand self.old memory.old) (stand self.new memory.new) result }
    {
        let first = self.track.value(from, memory, &self.place, &self.locals)?;
        let last = self.track.value(to, memory, &self.place, &self.locals)?;
        let Some(frame) = share_of(&self.place, body, slot, first, last, schedule) else {
            return Err(Halt::Refused);
        };
        self.close(nowait, end)?;
        self.rest.push(frame)?;
        Ok(None)
    }

    // Leaves the barrier at the end of a loop.
    fn close(&mut self, nowait: bool, end: u32) -> Result<(), Halt>
        ensures rest { IfOk result (λ _. self.new.rest.items ≡ self.old.rest.items ++ end_frames nowait end) }
        ensures memory { IfErr result (λ e. e ≡ halt.Memory) }
        ensures place { self.new.place ≡ self.old.place }
        ensures end { self.new.end ≡ self.old.end }
        ensures locals { self.new.locals ≡ self.old.locals }
        ensures track { self.new.track ≡ self.old.track }
    {
        if nowait {
            return Ok(());
        }
        self.rest.push(Frame::Barrier { line: end })?;
        Ok(())
    }

    // Begins the next turn of a loop.
    fn turn(
        &mut self,
        body: &'k Body,
        slot: u32,
        next: i64,
        end: i64,
    ) -> Result<Option<Pause<'k>>, Halt>
        ensures { (layout : ElementLayout) (memory : Words) → TakesPart layout (frame_part self.old.place (frame.Turns body.entry slot next end)) (stand self.old memory) (stand self.new memory) result }
    {
        if is_past(next, end) {
            return Ok(None);
        }
        let later = value_after(next, end);
        self.locals.set(slot, next);
        self.rest.push(Frame::Turns {
            body,
            slot,
            next: later,
            end,
        })?;
        self.rest.push(Frame::Statements(body.stmts.as_slice()))?;
        Ok(None)
    }

    // Goes on with statements.
    fn next(
        &mut self,
        memory: &mut SerialMemory,
        stmts: &'k [Stmt],
    ) -> Result<Option<Pause<'k>>, Halt>
        ensures { (layout : ElementLayout) → TellsWords self.old.place.arrays layout → TakesPart layout (frame_part self.old.place (frame.Statements stmts.entry)) (stand self.old memory.old) (stand self.new memory.new) result }
    {
        let Some((first, others)) = stmts.split_first() else {
            return Ok(None);
        };
        self.rest.push(Frame::Statements(others))?;
        self.statement(memory, first)
    }

    // Executes a statement as far as can be: what is left of it is pushed.
    fn statement(
        &mut self,
        memory: &mut SerialMemory,
        stmt: &'k Stmt,
    ) -> Result<Option<Pause<'k>>, Halt>
        ensures { (layout : ElementLayout) → TellsWords self.old.place.arrays layout → TakesPart layout (run self.old.place (stmt_code stmt.now Done)) (stand self.old memory.old) (stand self.new memory.new) result }
    {
        match stmt {
            Stmt::Set { slot, value } => self.assign(memory, *slot, value),
            Stmt::Store {
                array,
                index,
                value,
                line,
                site,
            } => self.store(memory, *array, index, value, *line, *site),
            Stmt::If { test, yes, no } => self.test(memory, test, yes, no),
            Stmt::Loop {
                slot,
                from,
                to,
                body,
            } => self.begin(memory, *slot, from, to, body),
            Stmt::Parallel { team } => self.fork(memory, team),
            Stmt::For {
                slot,
                from,
                to,
                schedule,
                nowait,
                line: _,
                end,
                body,
            } => self.share(memory, *slot, from, to, *schedule, *nowait, *end, body),
            Stmt::Barrier { line } => self.meet(memory, *line),
            Stmt::Update {
                array: _,
                index: _,
                value: _,
                minus: _,
                line: _,
                site: _,
            } => Err(Halt::Refused),
            Stmt::Critical {
                mutex: _,
                line: _,
                end: _,
                body: _,
            } => Err(Halt::Refused),
        }
    }

    // Goes on with the iterations from `next` on of a loop whose chunks are dealt in turn.
    fn deal(
        &mut self,
        body: &'k Body,
        slot: u32,
        from: i64,
        to: i64,
        chunk: u32,
        next: u64,
    ) -> Result<Option<Pause<'k>>, Halt>
        ensures { (layout : ElementLayout) (memory : Words) → TakesPart layout (frame_part self.old.place (frame.Chunks body.entry slot from to chunk next)) (stand self.old memory) (stand self.new memory) result }
    {
        if chunk == 0 {
            return Err(Halt::Refused);
        }
        if next >= total_of(from, to) {
            return Ok(None);
        }
        self.rest.push(Frame::Chunks {
            body,
            slot,
            from,
            to,
            chunk,
            next: next + 1,
        })?;
        if is_skipped(&self.place, chunk, next) {
            return Ok(None);
        }
        self.locals.set(slot, number_at(from, next, 0));
        self.rest.push(Frame::Statements(body.stmts.as_slice()))?;
        Ok(None)
    }

    // Goes on with a frame.
    fn go_on(
        &mut self,
        memory: &mut SerialMemory,
        next: Frame<'k>,
    ) -> Result<Option<Pause<'k>>, Halt>
        ensures { (layout : ElementLayout) → TellsWords self.old.place.arrays layout → TakesPart layout (frame_part self.old.place next.entry) (stand self.old memory.old) (stand self.new memory.new) result }
    {
        match next {
            Frame::Statements(stmts) => self.next(memory, stmts),
            Frame::Turns {
                body,
                slot,
                next,
                end,
            } => self.turn(body, slot, next, end),
            Frame::Chunks {
                body,
                slot,
                from,
                to,
                chunk,
                next,
            } => self.deal(body, slot, from, to, chunk, next),
            Frame::Barrier { line } => self.meet(memory, line),
        }
    }

    // Ends the task, of which nothing is left but its End.
    fn finish(&mut self, memory: &mut SerialMemory) -> Result<Option<Pause<'k>>, Halt>
        requires { self.old.rest.items ≡ [] }
        ensures { (layout : ElementLayout) → Pauses layout (stand self.old memory.old) (stand self.new memory.new) result }
    {
        self.track.put(memory, event(Kind::End, self.end, 0, 0))?;
        Ok(Some(Pause::Ended))
    }

    // Goes on with the frame that is next.
    fn step(&mut self, memory: &mut SerialMemory) -> Result<Option<Pause<'k>>, Halt>
        ensures { (layout : ElementLayout) → TellsWords self.old.place.arrays layout → Pauses layout (stand self.old memory.old) (stand self.new memory.new) result }
    {
        let Some(next) = self.rest.pop() else {
            return self.finish(memory);
        };
        self.go_on(memory, next)
    }

    /// Goes on with the task until it stands still, or stops.
    pub fn resume(&mut self, memory: &mut SerialMemory) -> Result<Pause<'k>, Halt>
        ensures { (layout : ElementLayout) → TellsWords self.old.place.arrays layout → Resumes layout (stand self.old memory.old) (stand self.new memory.new) result }
    {
        'steps: for _ in 0..u64::MAX {
            if let Some(pause) = self.step(memory)? {
                return Ok(pause);
            }
        }
        Err(Halt::Memory)
    }
}
