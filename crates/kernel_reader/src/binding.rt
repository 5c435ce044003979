//! The names of an expression become numbers of arrays and slots, and its accesses get their sites.
ghost use Rattle.std.specs.Prelude.{◌≡◌, ◌+◌, ◌<◌, ◌≤◌, ◌&&◌, ◌∷◌, length, bytes_eq, option_copied, reverse, [], IfSome, IfOk, IfErr};
ghost use Rattle.kernel_syntax.specs.Tree as kernel;
ghost use Rattle.kernel_syntax.specs.Program.{term_of};
ghost use Rattle.kernel_reader.specs.declared.fault.ReadKernelFault.TheVariants.{Memory};
ghost use Rattle.kernel_reader.specs.Scope.{array_number, is_array, variable_of};
ghost use Rattle.kernel_reader.specs.Resolve.{sites, term, slot_of, array_at};
ghost use Rattle.kernel_reader.specs.Rules.{is_unfit, name_faults, array_faults, tree_faults, fault_if};
ghost use Rattle.kernel_parser.specs.Trees.{tree_of};
ghost use Rattle.kernel_reader.specs.Settled.{Settles};
ghost use Rattle.kernel_reader.specs.Rows.{in_row};

use crate::fault::ReadKernelFault;
use kernel_parser::Tree;
use kernel_syntax::{Array, Expr, Name, Op};
use kernel_text::KernelWhy;
use std::alloc::Global;

/// A local variable in scope.
#[derive(Drop)]
pub struct Variable {
    pub name: Name,
    pub slot: u32,
    /// Whether it was declared by `let`.
    pub assignable: bool,
}

pub fn is_same(name: &Name, other: &Name) -> bool
    ensures { result ≡ bytes_eq name.now other.now }
{
    name.as_str() == other.as_str()
}

/// The number of the array of a name.
pub fn array_number(arrays: &[Array], name: &Name) -> Option<usize>
    ensures number { result ≡ array_number name.now arrays.now }
    ensures within { IfSome result (λ n. n < length arrays.now) }
{
    arrays.iter().position(|array| is_same(&array.name, name))
}

/// Whether an array has the name.
pub fn is_array(arrays: &[Array], name: &Name) -> bool
    ensures { result ≡ is_array name.now arrays.now }
{
    array_number(arrays, name).is_some()
}

/// The variable of a name; the innermost one comes last.
pub fn variable_of<'a>(variables: &'a [Variable], name: &Name) -> Option<&'a Variable>
    ensures { option_copied result ≡ variable_of name.now (reverse variables.now) }
{
    variables
        .iter()
        .rev()
        .find(|variable| is_same(&variable.name, name))
}

/// A rule that is broken at a line.
pub fn refused(line: u32, why: KernelWhy) -> ReadKernelFault
    ensures { result ≡ ReadKernelFault.Refused line why }
{
    ReadKernelFault::Refused { line, why }
}

/// What names mean in an expression.
#[derive(Clone, Copy)]
pub struct Binder<'a> {
    pub alloc: Global,
    pub arrays: &'a [Array],
    pub variables: &'a [Variable],
    /// Whether the expression is a bound of a worksharing loop.
    pub in_bound: bool,
}

fn is_unfit(op: Op) -> bool
    ensures { result ≡ is_unfit op }
{
    !matches!(op, Op::Add | Op::Sub | Op::Mul)
}

/// An element of an array.
fn load(
    alloc: Global,
    array: u32,
    index: Expr,
    line: u32,
    site: u16,
) -> Result<Expr, ReadKernelFault>
    ensures made { IfOk result (λ e. term_of e ≡ kernel.Load array (term_of index) line site) }
    ensures fault { IfErr result (λ e. e ≡ Memory) }
{
    let index = Box::new(alloc, index)?;
    Ok(Expr::Load {
        array,
        index,
        line,
        site,
    })
}

/// A negative.
fn negative(alloc: Global, operand: Expr) -> Result<Expr, ReadKernelFault>
    ensures made { IfOk result (λ e. term_of e ≡ kernel.Neg (term_of operand)) }
    ensures fault { IfErr result (λ e. e ≡ Memory) }
{
    Ok(Expr::Neg(Box::new(alloc, operand)?))
}

/// An operation on two expressions.
fn binary(
    alloc: Global,
    op: Op,
    line: u32,
    left: Expr,
    right: Expr,
) -> Result<Expr, ReadKernelFault>
    ensures made { IfOk result (λ e. term_of e ≡ kernel.Binary op line (term_of left) (term_of right)) }
    ensures fault { IfErr result (λ e. e ≡ Memory) }
{
    let left = Box::new(alloc, left)?;
    let right = Box::new(alloc, right)?;
    Ok(Expr::Binary {
        op,
        line,
        left,
        right,
    })
}

/// An operator and the operand behind it.
#[derive(Clone, Copy)]
pub struct Behind<'a> {
    pub op: Op,
    pub line: u32,
    pub right: &'a Tree,
}

/// The first of the operands of operators in a row, and what stands behind it, the nearest last.
fn unwound<'a>(
    alloc: Global,
    left: &'a Tree,
    last: Behind<'a>,
) -> Result<(&'a Tree, Vec<Behind<'a>>), ReadKernelFault>
    ensures whole { IfOk result (λ x. in_row (tree_of x.0.now) x.1.items ≡ in_row (tree_of left.entry.now) (last.entry ∷ [])) }
    ensures some { IfOk result (λ x. 1 ≤ length x.1.items) }
    ensures fault { IfErr result (λ e. e ≡ Memory) }
{
    let mut behind = Vec::new(alloc);
    behind.push(last)?;
    let mut first = left;
    'left: while let Tree::Binary {
        left,
        op,
        line,
        right,
    } = first
    {
        behind.push(Behind {
            op: *op,
            line: *line,
            right,
        })?;
        first = left;
    }
    Ok((first, behind))
}

impl Binder<'_> {
    /// The slot of a variable, which isn't assignable in a bound.
    fn slot(&self, line: u32, name: &Name) -> Result<u32, ReadKernelFault>
        ensures { Settles result (name_faults (record { arrays = self.now.arrays.now; scope = reverse self.now.variables.now }) self.now.in_bound line name.now) (λ x. x ≡ slot_of (record { arrays = self.now.arrays.now; scope = reverse self.now.variables.now }) name.now) }
    {
        let Some(variable) = variable_of(self.variables, name) else {
            return Err(refused(line, KernelWhy::Unknown));
        };
        if self.in_bound && variable.assignable {
            return Err(refused(line, KernelWhy::NotUniform));
        }
        Ok(variable.slot)
    }

    /// The number of the array of a name, which doesn't stand in a bound.
    pub fn array(&self, line: u32, name: &Name) -> Result<u32, ReadKernelFault>
        requires { length self.now.arrays.now ≤ 64 }
        ensures { Settles result (array_faults (record { arrays = self.now.arrays.now; scope = reverse self.now.variables.now }) self.now.in_bound line name.now) (λ x. x ≡ array_at (record { arrays = self.now.arrays.now; scope = reverse self.now.variables.now }) name.now) }
    {
        let Some(number) = array_number(self.arrays, name) else {
            return Err(refused(line, KernelWhy::Unknown));
        };
        if self.in_bound {
            return Err(refused(line, KernelWhy::NotUniform));
        }
        Ok(number as u32)
    }

    /// The lane's number, which doesn't stand in a bound.
    fn tid(&self, line: u32) -> Result<Expr, ReadKernelFault>
        ensures { Settles result (fault_if self.now.in_bound line KernelWhy.NotUniform) (λ x. term_of x ≡ kernel.Tid) }
    {
        if self.in_bound {
            return Err(refused(line, KernelWhy::NotUniform));
        }
        Ok(Expr::Tid)
    }

    /// The operation, which a bound may have.
    fn check_op(&self, line: u32, op: Op) -> Result<(), ReadKernelFault>
        ensures { Settles result (fault_if (self.now.in_bound && is_unfit op) line KernelWhy.NotUniform) (λ _. Unit {0}) }
    {
        if self.in_bound && is_unfit(op) {
            return Err(refused(line, KernelWhy::NotUniform));
        }
        Ok(())
    }

    /// An expression with its names bound, and the next site. Calls follow brackets, signs and
    /// right operands; left operands are followed by loops.
    pub fn bind(&self, site: u16, tree: &Tree) -> Result<(Expr, u16), ReadKernelFault>
        requires few { length self.now.arrays.now ≤ 64 }
        requires room { site + sites (tree_of tree.now) < 65536 }
        ensures bound { Settles result (tree_faults (record { arrays = self.now.arrays.now; scope = reverse self.now.variables.now }) self.now.in_bound (tree_of tree.now)) (λ x. term_of x.0 ≡ term (record { arrays = self.now.arrays.now; scope = reverse self.now.variables.now }) site (tree_of tree.now)) }
        ensures next { IfOk result (λ x. x.1 ≡ site + sites (tree_of tree.now)) }
    {
        match tree {
            Tree::Number { value, .. } => Ok((Expr::Number(*value), site)),
            Tree::Name { line, name } => Ok((Expr::Slot(self.slot(*line, name)?), site)),
            Tree::Tid { line } => Ok((self.tid(*line)?, site)),
            Tree::Span { .. } => Ok((Expr::Span, site)),
            Tree::Element {
                line,
                name,
                index,
                ..
            } => {
                let array = self.array(*line, name)?;
                let (index, next) = self.bind(site + 1, index)?;
                Ok((load(self.alloc, array, index, *line, site)?, next))
            }
            Tree::Group { inside, .. } => self.bind(site, inside),
            Tree::Minus { operand, .. } => {
                let (operand, next) = self.bind(site, operand)?;
                Ok((negative(self.alloc, operand)?, next))
            }
            Tree::Binary {
                left,
                op,
                line,
                right,
            } => {
                let last = Behind {
                    op: *op,
                    line: *line,
                    right,
                };
                let (first, mut behind) = unwound(self.alloc, left, last)?;
                let (mut bound, mut next) = self.bind(site, first)?;
                'behind: while let Some(Behind { op, line, right }) = behind.pop() {
                    self.check_op(line, op)?;
                    let (right, after) = self.bind(next, right)?;
                    bound = binary(self.alloc, op, line, bound, right)?;
                    next = after;
                }
                Ok((bound, next))
            }
        }
    }
}
