//! The first construct of a kernel by which the order of its lanes decides more than what they read.

use certify::first_construct;
use kernel_reader::read_kernel;
use std::alloc::Global;
use std::process::Abort;

// The text of a kernel, and the line that is found.
type Case<'a> = (&'a str, Option<u32>);

const CASES: &[Case<'static>] = &[
    (
        "array a i64 8
main { parallel 2 {
for i in 0 .. 8 static 2 { if i { loop j in 0 .. i { a[i] = j } } }
barrier
parallel 2 { a[0] = 1 } } }",
        None,
    ),
    (
        "array a i64 8
mutex m
main { parallel 2 {
critical m { a[0] = 1 } } }",
        Some(4),
    ),
    (
        "array a i64 8
main { parallel 2 {
for i in 0 .. 8
dynamic { a[i] = 1 } } }",
        Some(3),
    ),
    // The line of the array's name.
    (
        "array a i64 8
main { parallel 2 {
atomic
a[0] += 1 } }",
        Some(4),
    ),
    // The first branch comes before the other, and both before what follows.
    (
        "array a i64 8
main {
if 1 { a[0] = 1 }
else {
critical { a[0] = 1 } }
atomic a[0] += 1 }",
        Some(5),
    ),
    (
        "array a i64 8
main {
if 0 {
atomic a[0] += 1 }
else {
critical { a[0] = 1 } } }",
        Some(4),
    ),
    // A loop comes before what it holds.
    (
        "array a i64 8
main { parallel 1 {
for i in 0 .. 8 dynamic {
loop j in 0 .. 2 {
critical { a[i] = 1 } } } } }",
        Some(3),
    ),
    (
        "array a i64 8
main { parallel 1 {
for i in 0 .. 8 {
loop j in 0 .. 2 {
parallel 2 {
critical { a[i] = 1 } } } } } }",
        Some(6),
    ),
    // A critical section comes before what it holds.
    (
        "array a i64 8
mutex m
main { parallel 1 {
critical {
critical m { a[0] = 1 } } } }",
        Some(4),
    ),
    // What follows an if, a barrier and a region is looked at, too.
    (
        "array a i64 8
mutex m
main { parallel 2 {
if tid { a[0] = 1 }
barrier
parallel 2 { a[1] = 1 }
critical m { a[2] = 1 } } }",
        Some(7),
    ),
];

// The first case of which another line is found, by its number from 0.
fn first_other(rt: &impl Abort, alloc: Global) -> Option<usize> {
    for (number, (text, due)) in CASES.iter().enumerate() {
        let kernel = read_kernel(alloc, text.as_bytes()).expect(rt, "a kernel");
        if first_construct(&kernel) != *due {
            return Some(number);
        }
    }
    None
}

#[test]
fn the_first_construct_is_found(rt: HostRuntime) {
    assert!(rt; first_other(&rt, rt.alloc()) == None);
}
