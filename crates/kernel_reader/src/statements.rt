//! The statements of a kernel: from the parse tree to what they are resolved to, where no rule is
//! broken.
//!
//! A call inside a call follows a block; statements in a row are a loop.
ghost use Rattle.std.specs.Prelude.{◌≡◌, ◌+◌, ◌<◌, ◌≤◌, ◌^◌, ◌++◌, ◌∷◌, [], ◌||◌, length, ℕ, true, false, OnOk, IfOk, take};
ghost use Rattle.kernel_syntax.specs.Program.{term_of, stmt_code, code_of};
ghost use Rattle.kernel_syntax.specs.Tree.{Code};
ghost use Rattle.kernel_syntax.specs.Tree as kernel;
ghost use Rattle.kernel_text.specs.Grammar as grammar;
ghost use Rattle.kernel_text.specs.Grammar.{Stmts, NoMore};
ghost use Rattle.kernel_parser.specs.Trees.{tree_of, schedule_tree, stmt_before, stmts_of};
ghost use Rattle.kernel_reader.specs.Scope.{slots};
ghost use Rattle.kernel_reader.specs.Simple.{IsSimple};
ghost use Rattle.kernel_reader.specs.Resolve.{sites, stmts_sites, term, slot_of, change, IsResolved};
ghost use Rattle.kernel_reader.specs.Rules.{tree_faults, change_faults, stmts_faults};
ghost use Rattle.kernel_reader.specs.Settled.{Settles};
ghost use Rattle.kernel_reader.specs.Naming.{names_of, names_in, assigned_to, taken_faults};
ghost use Rattle.kernel_reader.specs.Folding.{names_at, IsFolded, IsFirstRead};

use crate::binding::refused;
use crate::fault::ReadKernelFault;
use crate::place::{Known, Section, State};
use crate::sections::{mutex_number, schedule_of};
use crate::weight::{is_fixed, loop_weight, sum};
use kernel_parser::{Block, Range, ScheduleTree, Statement, Tree};
use kernel_syntax::{Body, Expr, Name, Schedule, Stmt, Team};
use kernel_text::KernelWhy;

/// A region's weight that is too large.
const TOO_HEAVY: u64 = 65_537;

/// The statements of a block, resolved.
#[derive(Drop)]
pub struct Folded {
    pub body: Body,
    /// The weight, or 65,537 where it is more.
    pub weight: u64,
    /// Whether a worksharing loop or a barrier of the same region stands in it.
    pub works: bool,
}

/// A statement, resolved.
#[derive(Drop)]
pub struct Added {
    pub stmt: Stmt,
    pub weight: u64,
    pub works: bool,
}

fn made_set(slot: u32, value: Expr) -> Stmt
    ensures { (rest : Code) → stmt_code result rest ≡ kernel.Set slot (term_of value) rest }
{
    Stmt::Set { slot, value }
}

fn made_store(array: u32, index: Expr, value: Expr, line: u32, site: u16) -> Stmt
    ensures { (rest : Code) → stmt_code result rest ≡ kernel.Store array (term_of index) (term_of value) line site rest }
{
    Stmt::Store {
        array,
        index,
        value,
        line,
        site,
    }
}

fn made_update(array: u32, index: Expr, value: Expr, minus: bool, line: u32, site: u16) -> Stmt
    ensures { (rest : Code) → stmt_code result rest ≡ kernel.Update array (term_of index) (term_of value) minus line site rest }
{
    Stmt::Update {
        array,
        index,
        value,
        minus,
        line,
        site,
    }
}

fn made_if(test: Expr, yes: Body, no: Body) -> Stmt
    ensures { (rest : Code) → stmt_code result rest ≡ kernel.If (term_of test) (code_of yes.stmts.items) (code_of no.stmts.items) rest }
{
    Stmt::If { test, yes, no }
}

fn made_loop(slot: u32, from: Expr, to: Expr, body: Body) -> Stmt
    ensures { (rest : Code) → stmt_code result rest ≡ kernel.Loop slot (term_of from) (term_of to) (code_of body.stmts.items) rest }
{
    Stmt::Loop {
        slot,
        from,
        to,
        body,
    }
}

fn made_parallel(span: u16, line: u32, end: u32, body: Body) -> Stmt
    ensures { (rest : Code) → stmt_code result rest ≡ kernel.Parallel span line end (code_of body.stmts.items) rest }
{
    let team = Team {
        span,
        line,
        end,
        body,
    };
    Stmt::Parallel { team }
}

fn made_for(
    slot: u32,
    bounds: (Expr, Expr),
    schedule: Schedule,
    nowait: bool,
    line: u32,
    end: u32,
    body: Body,
) -> Stmt
    ensures { (rest : Code) → stmt_code result rest ≡ kernel.For slot (term_of bounds.0) (term_of bounds.1) schedule nowait line end (code_of body.stmts.items) rest }
{
    let (from, to) = bounds;
    Stmt::For {
        slot,
        from,
        to,
        schedule,
        nowait,
        line,
        end,
        body,
    }
}

fn either(left: bool, right: bool) -> bool
    ensures { result ≡ (left || right) }
{
    left || right
}

/// A statement of weight 1.
fn plain(stmt: Stmt, works: bool) -> Added
    ensures { result ≡ record { stmt = stmt; weight = 1; works = works } }
{
    Added {
        stmt,
        weight: 1,
        works,
    }
}

fn made_barrier(line: u32) -> Stmt
    ensures { (rest : Code) → stmt_code result rest ≡ kernel.Barrier line rest }
{
    Stmt::Barrier { line }
}

fn made_critical(mutex: u16, line: u32, end: u32, body: Body) -> Stmt
    ensures { (rest : Code) → stmt_code result rest ≡ kernel.Critical mutex line end (code_of body.stmts.items) rest }
{
    Stmt::Critical {
        mutex,
        line,
        end,
        body,
    }
}

impl Known<'_> {
    /// `let` NAME `=` expr
    fn let_stmt(
        &self,
        state: &mut State,
        name_line: u32,
        name: Name,
        value: &Tree,
    ) -> Result<Stmt, ReadKernelFault>
        requires few { length self.now.arrays.now ≤ 64 }
        requires room { state.old.site + sites (tree_of value.now) < 65536 }
        requires slots { state.old.slot + 1 < 2 ^ 32 }
        ensures settled { Settles result (taken_faults self.now.arrays.now self.now.mutexes.now state.old.variables.items name_line name ++ tree_faults (names_of self.now.arrays.now state.old.variables.items) false (tree_of value.now)) (λ s. (rest : Code) → stmt_code s rest ≡ kernel.Set state.old.slot (term (names_of self.now.arrays.now state.old.variables.items) state.old.site (tree_of value.now)) rest) }
        ensures site { OnOk result (state.new.site ≡ state.old.site + sites (tree_of value.now)) }
        ensures slot { OnOk result (state.new.slot ≡ state.old.slot + 1) }
        ensures variables { OnOk result (state.new.variables.items ≡ state.old.variables.items ++ record { name = name; slot = state.old.slot; assignable = true } ∷ []) }
    {
        self.check_new(state, name_line, &name)?;
        let value = self.expr(state, false, value)?;
        let slot = state.declare(name, true)?;
        Ok(made_set(slot, value))
    }

    /// NAME `=` expr
    fn assign_stmt(
        &self,
        state: &mut State,
        line: u32,
        name: &Name,
        value: &Tree,
    ) -> Result<Stmt, ReadKernelFault>
        requires few { length self.now.arrays.now ≤ 64 }
        requires room { state.old.site + sites (tree_of value.now) < 65536 }
        ensures settled { Settles result (assigned_to (names_of self.now.arrays.now state.old.variables.items) line name.now ++ tree_faults (names_of self.now.arrays.now state.old.variables.items) false (tree_of value.now)) (λ s. (rest : Code) → stmt_code s rest ≡ kernel.Set (slot_of (names_of self.now.arrays.now state.old.variables.items) name.now) (term (names_of self.now.arrays.now state.old.variables.items) state.old.site (tree_of value.now)) rest) }
        ensures site { OnOk result (state.new.site ≡ state.old.site + sites (tree_of value.now)) }
        ensures slot { state.new.slot ≡ state.old.slot }
        ensures variables { state.new.variables.items ≡ state.old.variables.items }
    {
        let slot = self.assigned(state, line, name)?;
        let value = self.expr(state, false, value)?;
        Ok(made_set(slot, value))
    }

    /// An element's array with its index, and the value behind it.
    fn element(
        &self,
        state: &mut State,
        line: u32,
        name: &Name,
        index: &Tree,
        value: &Tree,
    ) -> Result<(u32, Expr, Expr), ReadKernelFault>
        requires few { length self.now.arrays.now ≤ 64 }
        requires room { state.old.site + 1 + sites (tree_of index.now) + sites (tree_of value.now) < 65536 }
        ensures settled { Settles result (change_faults (names_in self.now.arrays.now state.old) line name.now (tree_of index.now) (tree_of value.now))
            (λ x. IsResolved (names_in self.now.arrays.now state.old) state.old.site name.now (tree_of index.now) (tree_of value.now) x.0 (term_of x.1) (term_of x.2)) }
        ensures site { OnOk result (state.new.site ≡ state.old.site + 1 + sites (tree_of index.now) + sites (tree_of value.now)) }
        ensures slot { state.new.slot ≡ state.old.slot }
        ensures variables { state.new.variables.items ≡ state.old.variables.items }
    {
        let array = self.array(state, line, name)?;
        state.site += 1;
        let index = self.expr(state, false, index)?;
        let value = self.expr(state, false, value)?;
        Ok((array, index, value))
    }

    /// NAME `[` expr `]` `=` expr
    fn store_stmt(
        &self,
        state: &mut State,
        line: u32,
        name: &Name,
        index: &Tree,
        value: &Tree,
    ) -> Result<Stmt, ReadKernelFault>
        requires few { length self.now.arrays.now ≤ 64 }
        requires room { state.old.site + 1 + sites (tree_of index.now) + sites (tree_of value.now) < 65536 }
        ensures settled { Settles result (change_faults (names_in self.now.arrays.now state.old) line name.now (tree_of index.now) (tree_of value.now))
            (λ s. (rest : Code) → stmt_code s rest ≡ change (λ array at amount. kernel.Store array at amount line state.old.site rest) (names_in self.now.arrays.now state.old) state.old.site name.now (tree_of index.now) (tree_of value.now)) }
        ensures site { OnOk result (state.new.site ≡ state.old.site + 1 + sites (tree_of index.now) + sites (tree_of value.now)) }
        ensures slot { state.new.slot ≡ state.old.slot }
        ensures variables { state.new.variables.items ≡ state.old.variables.items }
    {
        let site = state.site;
        let (array, index, value) = self.element(state, line, name, index, value)?;
        Ok(made_store(array, index, value, line, site))
    }

    /// NAME `[` expr `]` (`+=` | `-=`) expr, behind `atomic`
    fn update_stmt(
        &self,
        state: &mut State,
        line: u32,
        name: &Name,
        index: &Tree,
        minus: bool,
        value: &Tree,
    ) -> Result<Stmt, ReadKernelFault>
        requires few { length self.now.arrays.now ≤ 64 }
        requires room { state.old.site + 1 + sites (tree_of index.now) + sites (tree_of value.now) < 65536 }
        ensures settled { Settles result (change_faults (names_in self.now.arrays.now state.old) line name.now (tree_of index.now) (tree_of value.now))
            (λ s. (rest : Code) → stmt_code s rest ≡ change (λ array at amount. kernel.Update array at amount minus line state.old.site rest) (names_in self.now.arrays.now state.old) state.old.site name.now (tree_of index.now) (tree_of value.now)) }
        ensures site { OnOk result (state.new.site ≡ state.old.site + 1 + sites (tree_of index.now) + sites (tree_of value.now)) }
        ensures slot { state.new.slot ≡ state.old.slot }
        ensures variables { state.new.variables.items ≡ state.old.variables.items }
    {
        let site = state.site;
        let (array, index, value) = self.element(state, line, name, index, value)?;
        Ok(made_update(array, index, value, minus, line, site))
    }

    /// A new variable with the bounds of its loop.
    fn range(
        &self,
        state: &mut State,
        in_bound: bool,
        name_line: u32,
        name: Name,
        from: &Tree,
        to: &Tree,
    ) -> Result<(u32, Expr, Expr), ReadKernelFault>
        requires few { length self.now.arrays.now ≤ 64 }
        requires room { state.old.site + sites (tree_of from.now) + sites (tree_of to.now) < 65536 }
        requires slots { state.old.slot + 1 < 2 ^ 32 }
        ensures settled { Settles result (taken_faults self.now.arrays.now self.now.mutexes.now state.old.variables.items name_line name ++ (tree_faults (names_of self.now.arrays.now state.old.variables.items) in_bound (tree_of from.now) ++ tree_faults (names_of self.now.arrays.now state.old.variables.items) in_bound (tree_of to.now))) (λ x. (x.0 ≡ state.old.slot) × (term_of x.1 ≡ term (names_of self.now.arrays.now state.old.variables.items) state.old.site (tree_of from.now)) × (term_of x.2 ≡ term (names_of self.now.arrays.now state.old.variables.items) (state.old.site + sites (tree_of from.now)) (tree_of to.now))) }
        ensures site { OnOk result (state.new.site ≡ state.old.site + sites (tree_of from.now) + sites (tree_of to.now)) }
        ensures slot { OnOk result (state.new.slot ≡ state.old.slot + 1) }
        ensures variables { OnOk result (state.new.variables.items ≡ state.old.variables.items ++ record { name = name; slot = state.old.slot; assignable = false } ∷ []) }
    {
        self.check_new(state, name_line, &name)?;
        let from = self.expr(state, in_bound, from)?;
        let to = self.expr(state, in_bound, to)?;
        let slot = state.declare(name, false)?;
        Ok((slot, from, to))
    }

    /// A statement without a block.
    fn simple_stmt(
        &self,
        state: &mut State,
        section: Section,
        stmt: &Statement,
    ) -> Result<Added, ReadKernelFault>
        requires few { length self.now.arrays.now ≤ 64 }
        requires simple { IsSimple (stmt_before stmt.now NoMore) }
        requires room { state.old.site + stmts_sites (stmt_before stmt.now NoMore) < 65536 }
        requires slots { state.old.slot + slots (stmt_before stmt.now NoMore) ≤ 65536 }
        ensures reads { (rest : Stmts) → IsFirstRead self.now.arrays.now self.now.mutexes.now state.old state.new section (stmt_before stmt.now rest) rest result }
        ensures weight { IfOk result (λ x. x.weight ≡ 1) }
        ensures variables { OnOk result (take (length state.old.variables.items) state.new.variables.items ≡ state.old.variables.items) }
    {
        match stmt {
            Statement::Let {
                name_line,
                name,
                value,
                ..
            } => Ok(plain(self.let_stmt(state, *name_line, name.copy(), value)?, false)),
            Statement::Assign {
                line,
                name,
                value,
                ..
            } => Ok(plain(self.assign_stmt(state, *line, name, value)?, false)),
            Statement::Store {
                line,
                name,
                index,
                value,
                ..
            } => Ok(plain(self.store_stmt(state, *line, name, index, value)?, false)),
            Statement::Update {
                name_line,
                name,
                index,
                minus,
                value,
                ..
            } => Ok(plain(
                self.update_stmt(state, *name_line, name, index, *minus, value)?,
                false,
            )),
            Statement::Barrier { line } => {
                section.check_shared(*line, KernelWhy::BarrierHere)?;
                Ok(plain(made_barrier(*line), true))
            }
            _ => unreachable!(),
        }
    }

    /// `if` expr block
    #[cycle(statements)]
    fn if_stmt(
        &self,
        state: &mut State,
        section: Section,
        yes: &Block,
        test: &Tree,
    ) -> Result<Added, ReadKernelFault>
        requires few { length self.now.arrays.now ≤ 64 }
        requires few_mutexes { length self.now.mutexes.now ≤ 63 }
        requires room { state.old.site + sites (tree_of test.now) + stmts_sites (stmts_of yes.now.stmts.items) < 65536 }
        requires slots { state.old.slot + slots (stmts_of yes.now.stmts.items) ≤ 65536 }
        ensures reads { (line : ℕ) (rest : Stmts) → IsFirstRead self.now.arrays.now self.now.mutexes.now state.old state.new section (grammar.If line (tree_of test.now) yes.now.opened (stmts_of yes.now.stmts.items) yes.now.closed rest) rest result }
        ensures weight { IfOk result (λ x. x.weight ≤ 65537) }
        ensures variables { OnOk result (state.new.variables.items ≡ state.old.variables.items) }
    {
        let test = self.expr(state, false, test)?;
        let yes = self.stmts(state, section.inside_branch(true), yes)?;
        let no = Body {
            stmts: Vec::new(self.alloc),
        };
        Ok(plain(made_if(test, yes.body, no), yes.works))
    }

    /// `if` expr block `else` block
    #[cycle(statements)]
    fn if_else_stmt(
        &self,
        state: &mut State,
        section: Section,
        yes: &Block,
        no: &Block,
        test: &Tree,
    ) -> Result<Added, ReadKernelFault>
        requires few { length self.now.arrays.now ≤ 64 }
        requires few_mutexes { length self.now.mutexes.now ≤ 63 }
        requires room { state.old.site + sites (tree_of test.now) + stmts_sites (stmts_of yes.now.stmts.items) + stmts_sites (stmts_of no.now.stmts.items) < 65536 }
        requires slots { state.old.slot + slots (stmts_of yes.now.stmts.items) + slots (stmts_of no.now.stmts.items) ≤ 65536 }
        ensures reads { (line else_line : ℕ) (rest : Stmts) → IsFirstRead self.now.arrays.now self.now.mutexes.now state.old state.new section (grammar.IfElse line (tree_of test.now) yes.now.opened (stmts_of yes.now.stmts.items) yes.now.closed else_line no.now.opened (stmts_of no.now.stmts.items) no.now.closed rest) rest result }
        ensures weight { IfOk result (λ x. x.weight ≤ 65537) }
        ensures variables { OnOk result (state.new.variables.items ≡ state.old.variables.items) }
    {
        let test = self.expr(state, false, test)?;
        let inner = section.inside_branch(true);
        let yes = self.stmts(state, inner, yes)?;
        let no = self.stmts(state, inner, no)?;
        let works = either(yes.works, no.works);
        Ok(plain(made_if(test, yes.body, no.body), works))
    }

    /// `loop` range block
    #[cycle(statements)]
    fn loop_stmt(
        &self,
        state: &mut State,
        section: Section,
        body: &Block,
        range: &Range,
    ) -> Result<Added, ReadKernelFault>
        requires few { length self.now.arrays.now ≤ 64 }
        requires few_mutexes { length self.now.mutexes.now ≤ 63 }
        requires room { state.old.site + sites (tree_of range.now.from) + sites (tree_of range.now.to) + stmts_sites (stmts_of body.now.stmts.items) < 65536 }
        requires slots { state.old.slot + 1 + slots (stmts_of body.now.stmts.items) ≤ 65536 }
        ensures reads { (line : ℕ) (rest : Stmts) → IsFirstRead self.now.arrays.now self.now.mutexes.now state.old state.new section (grammar.Loop line range.now.name_line range.now.name range.now.in_line (tree_of range.now.from) range.now.dots (tree_of range.now.to) body.now.opened (stmts_of body.now.stmts.items) body.now.closed rest) rest result }
        ensures weight { IfOk result (λ x. x.weight ≤ 65537) }
        ensures variables { OnOk result (state.new.variables.items ≡ state.old.variables.items) }
    {
        let known = state.variables.len();
        let name = range.name.copy();
        let (slot, first, last) = self.range(
            state,
            false,
            range.name_line,
            name,
            &range.from,
            &range.to,
        )?;
        let inner = section.inside_branch(!is_fixed(&range.from, &range.to));
        let block = self.stmts(state, inner, body)?;
        state.variables.truncate(known);
        Ok(Added {
            stmt: made_loop(slot, first, last, block.body),
            weight: loop_weight(&range.from, &range.to, block.works, block.weight),
            works: block.works,
        })
    }

    /// `parallel` NUMBER block
    #[cycle(statements)]
    fn parallel_stmt(
        &self,
        state: &mut State,
        section: Section,
        body: &Block,
        line: u32,
        number_line: u32,
        span: i64,
    ) -> Result<Added, ReadKernelFault>
        requires few { length self.now.arrays.now ≤ 64 }
        requires few_mutexes { length self.now.mutexes.now ≤ 63 }
        requires room { state.old.site + stmts_sites (stmts_of body.now.stmts.items) < 65536 }
        requires slots { state.old.slot + slots (stmts_of body.now.stmts.items) ≤ 65536 }
        ensures reads { (rest : Stmts) → IsFirstRead self.now.arrays.now self.now.mutexes.now state.old state.new section (grammar.Parallel line number_line span body.now.opened (stmts_of body.now.stmts.items) body.now.closed rest) rest result }
        ensures weight { IfOk result (λ x. x.weight ≤ 65537) }
        ensures variables { OnOk result (state.new.variables.items ≡ state.old.variables.items) }
    {
        let (span, inner) = section.region(line, number_line, span)?;
        let block = self.stmts(state, inner, body)?;
        if block.weight >= TOO_HEAVY {
            return Err(refused(body.closed, KernelWhy::Large));
        }
        Ok(plain(made_parallel(span, line, body.closed, block.body), false))
    }

    /// `for` range schedule `nowait` block
    #[cycle(statements)]
    fn for_stmt(
        &self,
        state: &mut State,
        section: Section,
        body: &Block,
        line: u32,
        range: &Range,
        schedule: ScheduleTree,
        nowait: Option<u32>,
    ) -> Result<Added, ReadKernelFault>
        requires few { length self.now.arrays.now ≤ 64 }
        requires few_mutexes { length self.now.mutexes.now ≤ 63 }
        requires room { state.old.site + sites (tree_of range.now.from) + sites (tree_of range.now.to) + stmts_sites (stmts_of body.now.stmts.items) < 65536 }
        requires slots { state.old.slot + 1 + slots (stmts_of body.now.stmts.items) ≤ 65536 }
        ensures reads { (rest : Stmts) → IsFirstRead self.now.arrays.now self.now.mutexes.now state.old state.new section (grammar.For line range.now.name_line range.now.name range.now.in_line (tree_of range.now.from) range.now.dots (tree_of range.now.to) (schedule_tree schedule) nowait body.now.opened (stmts_of body.now.stmts.items) body.now.closed rest) rest result }
        ensures weight { IfOk result (λ x. x.weight ≤ 65537) }
        ensures variables { OnOk result (state.new.variables.items ≡ state.old.variables.items) }
    {
        let known = state.variables.len();
        section.check_shared(line, KernelWhy::WorkHere)?;
        let name = range.name.copy();
        let (slot, from, to) = self.range(
            state,
            true,
            range.name_line,
            name,
            &range.from,
            &range.to,
        )?;
        let schedule = schedule_of(schedule)?;
        let block = self.stmts(state, section.inside_work(), body)?;
        state.variables.truncate(known);
        let stmt = made_for(
            slot,
            (from, to),
            schedule,
            nowait.is_some(),
            line,
            body.closed,
            block.body,
        );
        Ok(plain(stmt, true))
    }

    /// `critical` block
    #[cycle(statements)]
    fn critical_stmt(
        &self,
        state: &mut State,
        section: Section,
        body: &Block,
        line: u32,
    ) -> Result<Added, ReadKernelFault>
        requires few { length self.now.arrays.now ≤ 64 }
        requires few_mutexes { length self.now.mutexes.now ≤ 63 }
        requires room { state.old.site + stmts_sites (stmts_of body.now.stmts.items) < 65536 }
        requires slots { state.old.slot + slots (stmts_of body.now.stmts.items) ≤ 65536 }
        ensures reads { (rest : Stmts) → IsFirstRead self.now.arrays.now self.now.mutexes.now state.old state.new section (grammar.Critical line body.now.opened (stmts_of body.now.stmts.items) body.now.closed rest) rest result }
        ensures weight { IfOk result (λ x. x.weight ≤ 65537) }
        ensures variables { OnOk result (state.new.variables.items ≡ state.old.variables.items) }
    {
        let inner = section.critical(line, 0)?;
        let block = self.stmts(state, inner, body)?;
        let stmt = made_critical(0, line, body.closed, block.body);
        Ok(plain(stmt, block.works))
    }

    /// `critical` NAME block
    #[cycle(statements)]
    fn critical_of_stmt(
        &self,
        state: &mut State,
        section: Section,
        body: &Block,
        line: u32,
        name: &Name,
    ) -> Result<Added, ReadKernelFault>
        requires few { length self.now.arrays.now ≤ 64 }
        requires few_mutexes { length self.now.mutexes.now ≤ 63 }
        requires room { state.old.site + stmts_sites (stmts_of body.now.stmts.items) < 65536 }
        requires slots { state.old.slot + slots (stmts_of body.now.stmts.items) ≤ 65536 }
        ensures reads { (name_line : ℕ) (rest : Stmts) → IsFirstRead self.now.arrays.now self.now.mutexes.now state.old state.new section (grammar.CriticalOf line name_line name.now body.now.opened (stmts_of body.now.stmts.items) body.now.closed rest) rest result }
        ensures weight { IfOk result (λ x. x.weight ≤ 65537) }
        ensures variables { OnOk result (state.new.variables.items ≡ state.old.variables.items) }
    {
        let mutex = mutex_number(self.mutexes, line, name)?;
        let inner = section.critical(line, mutex)?;
        let block = self.stmts(state, inner, body)?;
        let stmt = made_critical(mutex, line, body.closed, block.body);
        Ok(plain(stmt, block.works))
    }

    /// A statement.
    #[cycle(statements)]
    fn stmt(
        &self,
        state: &mut State,
        section: Section,
        stmt: &Statement,
    ) -> Result<Added, ReadKernelFault>
        requires few { length self.now.arrays.now ≤ 64 }
        requires few_mutexes { length self.now.mutexes.now ≤ 63 }
        requires room { state.old.site + stmts_sites (stmt_before stmt.now NoMore) < 65536 }
        requires slots { state.old.slot + slots (stmt_before stmt.now NoMore) ≤ 65536 }
        ensures reads { (rest : Stmts) → IsFirstRead self.now.arrays.now self.now.mutexes.now state.old state.new section (stmt_before stmt.now rest) rest result }
        ensures weight { IfOk result (λ x. x.weight ≤ 65537) }
        ensures variables { OnOk result (take (length state.old.variables.items) state.new.variables.items ≡ state.old.variables.items) }
    {
        match stmt {
            Statement::If { test, yes, .. } => self.if_stmt(state, section, yes, test),
            Statement::IfElse { test, yes, no, .. } => {
                self.if_else_stmt(state, section, yes, no, test)
            }
            Statement::Loop { range, body, .. } => self.loop_stmt(state, section, body, range),
            Statement::Parallel {
                line,
                number_line,
                span,
                body,
            } => self.parallel_stmt(state, section, body, *line, *number_line, *span),
            Statement::For {
                line,
                range,
                schedule,
                nowait,
                body,
            } => self.for_stmt(state, section, body, *line, range, *schedule, *nowait),
            Statement::Critical { line, body } => self.critical_stmt(state, section, body, *line),
            Statement::CriticalOf {
                line,
                name,
                body,
                ..
            } => self.critical_of_stmt(state, section, body, *line, name),
            _ => self.simple_stmt(state, section, stmt),
        }
    }

    /// The statements of a block.
    #[cycle(statements)]
    pub fn stmts(
        &self,
        state: &mut State,
        section: Section,
        block: &Block,
    ) -> Result<Folded, ReadKernelFault>
        requires few { length self.now.arrays.now ≤ 64 }
        requires few_mutexes { length self.now.mutexes.now ≤ 63 }
        requires room { state.old.site + stmts_sites (stmts_of block.now.stmts.items) < 65536 }
        requires slots { state.old.slot + slots (stmts_of block.now.stmts.items) ≤ 65536 }
        ensures reads { Settles result (stmts_faults (names_at self.now.arrays.now self.now.mutexes.now state.old section) (stmts_of block.now.stmts.items)) (IsFolded self.now.arrays.now self.now.mutexes.now state.old state.new section (stmts_of block.now.stmts.items)) }
        ensures weight { IfOk result (λ x. x.weight ≤ 65537) }
        ensures variables { OnOk result (state.new.variables.items ≡ state.old.variables.items) }
    {
        let known = state.variables.len();
        let mut stmts = Vec::new(self.alloc);
        let mut weight = 0;
        let mut works = false;
        let mut rest = block.stmts.as_slice();
        'stmts: while let Some((first, others)) = rest.split_first() {
            let added = self.stmt(state, section, first)?;
            let Added {
                stmt,
                weight: more,
                works: working,
            } = added;
            stmts.push(stmt)?;
            weight = sum(weight, more);
            works = either(works, working);
            rest = others;
        }
        state.variables.truncate(known);
        Ok(Folded {
            body: Body { stmts },
            weight,
            works,
        })
    }
}
