//! The kernel of a text.
ghost use Rattle.std.specs.Prelude.{◌≡◌, ◌<◌, ◌≤◌, length, Ok, IfOk, IfErr};
ghost use Rattle.kernel_syntax.specs.Program.{Program, program_of};
ghost use Rattle.kernel_syntax.specs.Bounds.{IsBounded};
ghost use Rattle.kernel_text.specs.Tokens.{tokens_of};
ghost use Rattle.kernel_text.specs.Grammar as grammar;
ghost use Rattle.kernel_text.specs.Grammar.{kernel_tokens, IsKernel};
ghost use Rattle.kernel_text.specs.Faults.{IsShallow};
ghost use Rattle.kernel_parser.specs.Trees.{kernel_of};
ghost use Rattle.kernel_reader.specs.Scope.{slots};
ghost use Rattle.kernel_reader.specs.Rules.{kernel_faults};
ghost use Rattle.kernel_reader.specs.Resolve.{program, stmts_sites};
ghost use Rattle.kernel_reader.specs.Settled.{Settles};
ghost use Rattle.kernel_reader.specs.KernelOf.{IsKernelOf, IsFaultOf, HasNoKernel};

use crate::declarations::{Declared, declarations};
use crate::fault::ReadKernelFault;
use crate::place::{Known, Section, State};
use kernel_parser::{KernelTree, ParseFault, parse};
use kernel_syntax::{Kernel, Team, layout};
use kernel_text::{Judgement, KernelWhy, TextFault, Token, judge, line_at, tokens};
use std::alloc::Global;

/// The kernel of tokens that are one by the grammar.
fn kernel_at(alloc: Global, tokens: &[Token]) -> Result<Kernel, ReadKernelFault>
    requires few { length tokens.now ≤ 65536 }
    requires some { (k : grammar.KernelTree) × (tokens.now ≡ kernel_tokens k) × IsKernel k × IsShallow k }
    ensures { (k : grammar.KernelTree) → tokens.now ≡ kernel_tokens k → IsKernel k → IsShallow k → Settles result (kernel_faults k) (λ x. program_of x ≡ program k) }
{
    match parse(alloc, tokens) {
        Ok(tree) => resolved(alloc, &tree),
        Err(ParseFault::Memory) => Err(ReadKernelFault::Memory),
        Err(ParseFault::NoKernel) => Err(ReadKernelFault::Refused {
            line: 0,
            why: KernelWhy::Syntax,
        }),
    }
}

/// The kernel of a tree.
fn resolved(alloc: Global, tree: &KernelTree) -> Result<Kernel, ReadKernelFault>
    requires room { stmts_sites (kernel_of tree.now).body < 65536 }
    requires slots { slots (kernel_of tree.now).body ≤ 65536 }
    ensures { Settles result (kernel_faults (kernel_of tree.now)) (λ x. program_of x ≡ program (kernel_of tree.now)) }
{
    let Declared { arrays, mutexes } = declarations(alloc, tree.declarations.as_slice())?;
    let known = Known {
        alloc,
        arrays: arrays.as_slice(),
        mutexes: mutexes.as_slice(),
    };
    let mut state = State {
        variables: Vec::new(alloc),
        slot: 0,
        site: 0,
    };
    let main = known.stmts(&mut state, OUTSIDE, &tree.body)?;
    let mut kernel = Kernel {
        arrays,
        mutexes,
        main: Team {
            span: 1,
            line: tree.line,
            end: tree.body.closed,
            body: main.body,
        },
        slots: state.slot,
    };
    layout(&mut kernel);
    Ok(kernel)
}

/// What is around the body of `main`.
const OUTSIDE: Section = Section {
    regions: 0,
    spans: 1,
    critical: None,
    criticals: 0,
    divided: false,
    uneven: false,
};

/// The kernel of the tokens of a text.
fn kernel_of(alloc: Global, text: &[u8], found: &[Token]) -> Result<Kernel, ReadKernelFault>
    requires short { length text.now ≤ 65536 }
    requires tokens { tokens_of text.now ≡ Ok found.now }
    ensures kernel { IfOk result (λ k. IsKernelOf text.now (program_of k)) }
    ensures bounded { IfOk result (λ k. IsBounded (program_of k)) }
    ensures only { (p : Program) → IsKernelOf text.now p → IfOk result (λ k. program_of k ≡ p) }
    ensures fault { IfErr result (λ fault. IsFaultOf text.now fault) }
    ensures none { IfErr result (λ fault. HasNoKernel text.now fault) }
{
    match judge(alloc, found)? {
        Judgement::Kernel => kernel_at(alloc, found),
        Judgement::Syntax { line } => Err(ReadKernelFault::Refused {
            line,
            why: KernelWhy::Syntax,
        }),
        Judgement::Deep { line } => Err(ReadKernelFault::Refused {
            line,
            why: KernelWhy::Deep,
        }),
        Judgement::Early => Err(ReadKernelFault::Refused {
            line: line_at(text, text.len()),
            why: KernelWhy::Syntax,
        }),
    }
}

/// The kernel of a text, or the line and the reason of its first fault: of its tokens first, then
/// of the first token that no kernel goes on with or that opens level 33, or of the end where the
/// text ends too early, and then of the first rule that is broken in the order of the text.
pub fn read_kernel(alloc: Global, text: &[u8]) -> Result<Kernel, ReadKernelFault>
    // The kernel is the text's, by the grammar, the rules and the resolution of names.
    ensures kernel { IfOk result (λ k. IsKernelOf text.now (program_of k)) }
    ensures bounded { IfOk result (λ k. IsBounded (program_of k)) }
    // It is the only kernel that the text has.
    ensures only { (p : Program) → IsKernelOf text.now p → IfOk result (λ k. program_of k ≡ p) }
    // The text has this fault, and no kernel.
    ensures fault { IfErr result (λ fault. IsFaultOf text.now fault) }
    ensures none { IfErr result (λ fault. HasNoKernel text.now fault) }
{
    match tokens(alloc, text) {
        Ok(found) => kernel_of(alloc, text, &found),
        Err(TextFault::Refused { line, why }) => Err(ReadKernelFault::Refused { line, why }),
        Err(TextFault::Memory) => Err(ReadKernelFault::Memory),
    }
}
