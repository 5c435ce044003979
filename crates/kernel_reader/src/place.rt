//! What is known at a place of a kernel's text.
ghost use Rattle.std.specs.Prelude.{false, ◌≡◌, ◌+◌, ◌<◌, ◌≤◌, ◌^◌, ◌++◌, ◌∷◌, [], ◌||◌, is_some, length, bytes_eq, reverse, OnOk, IfOk, IfErr, IfSome};
ghost use Rattle.kernel_syntax.specs.Program.{term_of};
ghost use Rattle.kernel_reader.specs.declared.fault.ReadKernelFault.TheVariants.{Memory};
ghost use Rattle.kernel_reader.specs.Scope.{number_of, is_among, is_array, variable_of};
ghost use Rattle.kernel_reader.specs.Resolve.{sites, term, slot_of, array_at};
ghost use Rattle.kernel_reader.specs.Rules.{fault_if, tree_faults, array_faults};
ghost use Rattle.kernel_parser.specs.Trees.{tree_of};
ghost use Rattle.kernel_reader.specs.Settled.{Settles};
ghost use Rattle.kernel_reader.specs.Naming.{names_of, assigned_to, taken_faults};

use crate::binding::{Binder, Variable, is_array, is_same, refused, variable_of};
use crate::fault::ReadKernelFault;
use kernel_parser::Tree;
use kernel_syntax::{Array, Expr, Name};
use kernel_text::KernelWhy;
use std::alloc::Global;

/// The declarations of a kernel.
#[derive(Clone, Copy)]
pub struct Known<'a> {
    pub alloc: Global,
    pub arrays: &'a [Array],
    pub mutexes: &'a [Name],
}

/// The variables in scope, the innermost last, and the next slot and site.
#[derive(Drop)]
pub struct State {
    pub variables: Vec<Variable>,
    pub slot: u32,
    pub site: u16,
}

/// What is around a place.
#[derive(Clone, Copy)]
pub struct Section {
    /// How many regions.
    pub regions: u8,
    /// The product of their spans.
    pub spans: u32,
    /// The mutex of the innermost critical section.
    pub critical: Option<u16>,
    /// How many critical sections.
    pub criticals: u8,
    /// Whether a worksharing loop or a critical section of the same region.
    pub divided: bool,
    /// Whether an `if`, or a loop that isn't fixed, of the same region.
    pub uneven: bool,
}

impl State {
    /// One more variable in scope, and its slot.
    pub fn declare(&mut self, name: Name, assignable: bool) -> Result<u32, ReadKernelFault>
        requires { self.old.slot + 1 < 2 ^ 32 }
        ensures slot { IfOk result (λ slot. slot ≡ self.old.slot) }
        ensures declared { OnOk result (self.new.variables.items ≡ self.old.variables.items ++ record { name = name; slot = self.old.slot; assignable = assignable } ∷ []) }
        ensures next { OnOk result (self.new.slot ≡ self.old.slot + 1) }
        ensures site { OnOk result (self.new.site ≡ self.old.site) }
        ensures fault { IfErr result (λ e. e ≡ Memory) }
    {
        let slot = self.slot;
        self.variables.push(Variable {
            name,
            slot,
            assignable,
        })?;
        self.slot += 1;
        Ok(slot)
    }
}

/// The number of a mutex among the declared ones, from 0.
pub fn number_of(mutexes: &[Name], name: &Name) -> Option<usize>
    ensures number { result ≡ number_of name.now mutexes.now }
    ensures within { IfSome result (λ n. n < length mutexes.now) }
{
    mutexes.iter().position(|mutex| is_same(mutex, name))
}

/// Whether a mutex has the name.
pub fn is_among(mutexes: &[Name], name: &Name) -> bool
    ensures { result ≡ is_among name.now mutexes.now }
{
    number_of(mutexes, name).is_some()
}

impl Known<'_> {
    /// A name that nothing in scope has yet.
    pub fn check_new(&self, state: &State, line: u32, name: &Name) -> Result<(), ReadKernelFault>
        ensures { Settles result (taken_faults self.now.arrays.now self.now.mutexes.now state.now.variables.items line name.now) (λ _. Unit {0}) }
    {
        let taken = is_array(self.arrays, name)
            || is_among(self.mutexes, name)
            || variable_of(&state.variables, name).is_some();
        if taken {
            return Err(refused(line, KernelWhy::Twice));
        }
        Ok(())
    }

    /// The slot of a variable that may be assigned to.
    pub fn assigned(&self, state: &State, line: u32, name: &Name) -> Result<u32, ReadKernelFault>
        ensures { Settles result (assigned_to (names_of self.now.arrays.now state.now.variables.items) line name.now) (λ x. x ≡ slot_of (names_of self.now.arrays.now state.now.variables.items) name.now) }
    {
        let Some(variable) = variable_of(&state.variables, name) else {
            return Err(refused(line, KernelWhy::Unknown));
        };
        if !variable.assignable {
            return Err(refused(line, KernelWhy::Unknown));
        }
        Ok(variable.slot)
    }

    /// An expression with its names bound.
    pub fn expr(
        &self,
        state: &mut State,
        in_bound: bool,
        tree: &Tree,
    ) -> Result<Expr, ReadKernelFault>
        requires few { length self.now.arrays.now ≤ 64 }
        requires room { state.old.site + sites (tree_of tree.now) < 65536 }
        ensures bound { Settles result (tree_faults (names_of self.now.arrays.now state.old.variables.items) in_bound (tree_of tree.now)) (λ e. term_of e ≡ term (names_of self.now.arrays.now state.old.variables.items) state.old.site (tree_of tree.now)) }
        ensures site { OnOk result (state.new.site ≡ state.old.site + sites (tree_of tree.now)) }
        ensures slot { state.new.slot ≡ state.old.slot }
        ensures variables { state.new.variables.items ≡ state.old.variables.items }
    {
        let binder = Binder {
            alloc: self.alloc,
            arrays: self.arrays,
            variables: &state.variables,
            in_bound,
        };
        let (bound, next) = binder.bind(state.site, tree)?;
        state.site = next;
        Ok(bound)
    }

    /// The number of an array that is stored to.
    pub fn array(&self, state: &State, line: u32, name: &Name) -> Result<u32, ReadKernelFault>
        requires { length self.now.arrays.now ≤ 64 }
        ensures { Settles result (array_faults (names_of self.now.arrays.now state.now.variables.items) false line name.now) (λ x. x ≡ array_at (names_of self.now.arrays.now state.now.variables.items) name.now) }
    {
        let binder = Binder {
            alloc: self.alloc,
            arrays: self.arrays,
            variables: &state.variables,
            in_bound: false,
        };
        binder.array(line, name)
    }
}
