//! Verdicts on kernels.
ghost use Rattle.std.specs.Prelude.{IfOk};
ghost use Rattle.kernel_syntax.specs.Program.{program_of};
ghost use Rattle.kernel_model.specs.Lawful.{IsLawful};

use certify::{Verdict, certify};
use kernel_reader::read_kernel;
use kernel_syntax::Kernel;
use std::alloc::Global;
use std::test::Fail;
use std::thread::Threads;
use sw_base::{Memory, NoGate};

// The text of a kernel, and what is told of it.
type Case<'a> = (&'a str, &'a str);

const CASES: &[Case<'static>] = &[
    // A stencil whose lanes meet at two barriers in each step.
    (
        "array u i64 64
array v i64 64
main {
u[0] = 1000
parallel 4 {
loop t in 0 .. 3 {
for i in 1 .. 63 {
v[i] = (u[i-1] + 2 * u[i] + u[i+1]) / 4
}
for i in 1 .. 63 {
u[i] = v[i]
}
}
}
}",
        "certain, 5 tasks, 1147 records, 128 words, 2184",
    ),
    // No region, and no record but the End.
    (
        "array a i64 1\nmain { }",
        "certain, 1 tasks, 1 records, 1 words, 0",
    ),
    // Both lanes write one element.
    (
        "array a i64 1\nmain { parallel 2 {\na[0] = tid\n} }",
        "race 3 3",
    ),
    // Of several pairs all are told.
    (
        "array a i64 2\nmain { parallel 2 {\na[0] = tid\na[1] = tid\n} }",
        "race 3 3, race 4 4",
    ),
    // The first construct in the order of the text, also where a race or a stop would come before it.
    (
        "array a i64 1\nmain { parallel 2 {\na[0] = tid\natomic a[0] += 1\n} }",
        "construct 4",
    ),
    (
        "array a i64 1\nmutex m\nmain { parallel 2 {\nfor i in 0 .. 2 dynamic 1 {\na[0] = a[2] } critical m { a[0] = 1 } } }\n",
        "construct 4",
    ),
    // A stop, of which the first in the order of lanes is told, and not the races.
    (
        "array a i64 2\nmain { parallel 3 {\na[0] = 1\na[tid * 2] = 1\n} }",
        "stopped t-0.1.swl 4",
    ),
];

// What is told.
fn put_verdict(alloc: Global, text: &mut String, verdict: &Verdict) -> Result<(), Memory> {
    match verdict {
        Verdict::Construct { line } => text.push_str(&format!(in alloc; "construct {line}")?)?,
        Verdict::Long { number, .. } => text.push_str(&format!(in alloc; "long {number}")?)?,
        Verdict::Stopped { path, line, .. } => {
            let name = path.bare_name(alloc)?;
            text.push_str(&format!(in alloc; "stopped {name} {line}")?)?;
        }
        Verdict::Segments { number, .. } => text.push_str(&format!(in alloc;
            "segments {number}"
        )?)?,
        Verdict::Racy { pairs } => {
            for (low, high) in pairs {
                let comma = if text.is_empty() { "" } else { ", " };
                text.push_str(&format!(in alloc; "{comma}race {low} {high}")?)?;
            }
        }
        Verdict::Certain {
            tasks,
            records,
            words,
        } => {
            let sum: u64 = words
                .iter()
                .fold(0, |sum: u64, word| sum.wrapping_add(*word));
            let count = words.len();
            text.push_str(&format!(in alloc;
                "certain, {tasks} tasks, {records} records, {count} words, {sum}"
            )?)?;
        }
    }
    Ok(())
}

// The kernel of a text, which keeps the rules.
fn kernel_of(alloc: Global, text: &str) -> Result<Kernel, Fail>
    ensures { IfOk result (λ k. IsLawful (program_of k)) }
{
    Ok(read_kernel(alloc, text.as_bytes())?)
}

// What is told of the kernel of a text.
fn told<R: Threads + Sync>(rt: &R, alloc: Global, text: &str) -> Result<String, Fail> {
    let kernel = kernel_of(alloc, text)?;
    let verdict = certify(rt, alloc, &kernel, &NoGate)?;
    let mut told = String::new(alloc);
    put_verdict(alloc, &mut told, &verdict)?;
    Ok(told)
}

#[test]
fn kernels_have_their_verdicts(rt: HostRuntime) -> Result<(), Fail> {
    for (text, expected) in CASES {
        let told = told(&rt, rt.alloc(), text)?;
        if told.as_str() != *expected {
            return Err(Fail::from(told));
        }
    }
    Ok(())
}
