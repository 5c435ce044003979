//! The declarations of a kernel: its arrays and mutexes.
ghost use Rattle.std.specs.Prelude.{◌≡◌, ◌+◌, ◌<◌, ◌≤◌, ◌++◌, [], ◌||◌, length, is_none, map, not, nat_le, nat_lt, unwrap_or, IfOk};
ghost use Rattle.kernel_syntax.specs.Layout.{elements, IsWithinLimits};
ghost use Rattle.kernel_parser.specs.Trees.{declaration_of};
ghost use Rattle.kernel_reader.specs.Scope.{is_array, is_among, is_between, count_literal};
ghost use Rattle.kernel_reader.specs.Rules.{fault_if, width_of, array_of, declarations_faults, arrays_of, mutex_names};
ghost use Rattle.kernel_reader.specs.Settled.{Settles};

use crate::binding::{is_array, refused};
use crate::fault::ReadKernelFault;
use crate::place::is_among;
use crate::sections::counted;
use kernel_parser::Declaration;
use kernel_syntax::{Array, Arrays, Name, Names};
use kernel_text::KernelWhy;
use std::alloc::Global;

/// How many arrays a kernel may have.
const MOST_ARRAYS: usize = 64;

/// How many mutexes a kernel may declare.
const MOST_MUTEXES: usize = 63;

/// How many elements the arrays may have in all.
const MOST_ELEMENTS: u32 = 1_048_576;

/// The bytes of an element of this type.
fn width_of(name: &Name) -> Option<u8>
    ensures { result ≡ width_of name.now }
{
    match name.as_str() {
        "i8" => Some(1),
        "i16" => Some(2),
        "i32" => Some(4),
        "i64" => Some(8),
        _ => None,
    }
}

fn width_at(line: u32, name: &Name) -> Result<u8, ReadKernelFault>
    ensures { Settles result (fault_if (is_none (width_of name.now)) line KernelWhy.Width) (λ w. w ≡ unwrap_or (width_of name.now) 0) }
{
    match width_of(name) {
        Some(width) => Ok(width),
        None => Err(refused(line, KernelWhy::Width)),
    }
}

/// A name that no array and no mutex has yet.
fn check_name(
    arrays: &[Array],
    mutexes: &[Name],
    line: u32,
    name: &Name,
) -> Result<(), ReadKernelFault>
    ensures { Settles result (fault_if (is_array name.now arrays.now || is_among name.now mutexes.now) line KernelWhy.Twice) (λ _. Unit {0}) }
{
    if is_array(arrays, name) || is_among(mutexes, name) {
        return Err(refused(line, KernelWhy::Twice));
    }
    Ok(())
}

/// How many elements an array has, where the arrays before it have so many.
fn count_at(line: u32, value: i64, total: u32) -> Result<u32, ReadKernelFault>
    requires { total ≤ 1048576 }
    ensures count { Settles result (fault_if (not (is_between 1 1048576 value)) line KernelWhy.Count ++ fault_if (nat_lt 1048576 (total + count_literal value)) line KernelWhy.Large) (λ n. n ≡ count_literal value) }
    ensures small { IfOk result (λ n. total + n ≤ 1048576) }
{
    let count = counted(line, value, MOST_ELEMENTS)?;
    if MOST_ELEMENTS < total + count {
        return Err(refused(line, KernelWhy::Large));
    }
    Ok(count)
}

/// An array, where these are declared before it.
fn array_at(
    arrays: &[Array],
    mutexes: &[Name],
    total: u32,
    name_line: u32,
    name: &Name,
    width_line: u32,
    width: &Name,
    count_line: u32,
    count: i64,
) -> Result<Array, ReadKernelFault>
    requires total { total ≡ elements arrays.now }
    requires small { total ≤ 1048576 }
    ensures array { Settles result (fault_if (is_array name.now arrays.now || is_among name.now mutexes.now) name_line KernelWhy.Twice ++ (fault_if (nat_le 64 (length arrays.now)) name_line KernelWhy.Large ++ (fault_if (is_none (width_of width.now)) width_line KernelWhy.Width ++ (fault_if (not (is_between 1 1048576 count)) count_line KernelWhy.Count ++ fault_if (nat_lt 1048576 (elements arrays.now + count_literal count)) count_line KernelWhy.Large)))) (λ x. x ≡ array_of name.now (unwrap_or (width_of width.now) 0) count) }
    ensures small { IfOk result (λ x. total + x.count ≤ 1048576) }
    ensures few { IfOk result (λ _. length arrays.now < 64) }
{
    check_name(arrays, mutexes, name_line, name)?;
    if MOST_ARRAYS <= arrays.len() {
        return Err(refused(name_line, KernelWhy::Large));
    }
    let width = width_at(width_line, width)?;
    let count = count_at(count_line, count, total)?;
    Ok(Array {
        name: name.copy(),
        width,
        count,
        base: 0,
        first: 0,
    })
}

/// A mutex, where these are declared before it.
fn mutex_at(
    arrays: &[Array],
    mutexes: &[Name],
    line: u32,
    name: &Name,
) -> Result<Name, ReadKernelFault>
    ensures mutex { Settles result (fault_if (is_array name.now arrays.now || is_among name.now mutexes.now) line KernelWhy.Twice ++ fault_if (nat_le 63 (length mutexes.now)) line KernelWhy.Large) (λ x. x ≡ name.now) }
    ensures few { IfOk result (λ _. length mutexes.now < 63) }
{
    check_name(arrays, mutexes, line, name)?;
    if MOST_MUTEXES <= mutexes.len() {
        return Err(refused(line, KernelWhy::Large));
    }
    Ok(name.copy())
}

/// The arrays and mutexes of a kernel.
#[derive(Drop)]
pub struct Declared {
    pub arrays: Arrays,
    pub mutexes: Names,
}

/// What declarations declare.
pub fn declarations(alloc: Global, written: &[Declaration]) -> Result<Declared, ReadKernelFault>
    ensures declared { Settles result (declarations_faults [] [] (map declaration_of written.now)) (λ x. (x.arrays ≡ arrays_of (map declaration_of written.now)) × (x.mutexes ≡ mutex_names (map declaration_of written.now))) }
    ensures limits { IfOk result (λ x. IsWithinLimits x.arrays) }
    ensures few { IfOk result (λ x. length x.mutexes ≤ 63) }
{
    let mut arrays = Arrays::new(alloc);
    let mut mutexes = Names::new(alloc);
    let mut total = 0;
    let mut rest = written;
    'declarations: while let Some((first, others)) = rest.split_first() {
        match first {
            Declaration::Array {
                name_line,
                name,
                width_line,
                width,
                count_line,
                count,
                ..
            } => {
                let array = array_at(
                    arrays.as_slice(),
                    mutexes.as_slice(),
                    total,
                    *name_line,
                    name,
                    *width_line,
                    width,
                    *count_line,
                    *count,
                )?;
                total += array.count;
                arrays.push(array)?;
            }
            Declaration::Mutex {
                name_line,
                name,
                ..
            } => {
                let mutex = mutex_at(arrays.as_slice(), mutexes.as_slice(), *name_line, name)?;
                mutexes.push(mutex)?;
            }
        }
        rest = others;
    }
    Ok(Declared { arrays, mutexes })
}
