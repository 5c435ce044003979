//! Tokens of texts.

use kernel_syntax::Op;
use kernel_text::{KernelWhy, Lexeme, Sign, TextFault, Token, operation, tokens};
use std::alloc::Global;
use std::test::Fail;

// 0, two dots and 8.
fn is_range(tokens: &[Token]) -> bool {
    match tokens {
        [first, second, third] => {
            matches!(first.lexeme, Lexeme::Number(0))
                && matches!(second.lexeme, Lexeme::Mark(Sign::Dots))
                && matches!(third.lexeme, Lexeme::Number(8))
        }
        _ => false,
    }
}

#[test]
fn digits_end_before_dots(rt: HostRuntime) -> Result<(), Fail> {
    let found = tokens(rt.alloc(), b"0..8").ok().ok_or("tokens")?;
    assert!(rt; is_range(&found));
    Ok(())
}

// Whether the tokens of a text are refused at this line for this reason.
fn has_no_tokens(alloc: Global, text: &[u8], line: u32, why: KernelWhy) -> bool {
    match tokens(alloc, text) {
        Err(
            TextFault::Refused {
                line: at,
                why: told,
            },
        ) => at == line && told == why,
        _ => false,
    }
}

#[test]
fn a_text_without_tokens_tells_its_line_and_why(rt: HostRuntime) {
    let rows: [(&[u8], u32, KernelWhy); 9] = [
        (b"a\n$", 2, KernelWhy::Token),
        (b"a\t\r\n# \r$\n$", 3, KernelWhy::Token),
        (b"_0 Z9 z_\n!", 2, KernelWhy::Token),
        (b"..\n.", 2, KernelWhy::Token),
        (
            b"09223372036854775807\n09223372036854775808",
            2,
            KernelWhy::Token,
        ),
        (b"# $\n\n9223372036854775808", 3, KernelWhy::Token),
        (b"a23456789012345678901234567890123", 1, KernelWhy::Token),
        (b"a\n\n\xff", 3, KernelWhy::NotUtf8),
        (b"$\n\xc3", 2, KernelWhy::NotUtf8),
    ];
    for (text, line, why) in rows {
        assert!(rt; has_no_tokens(rt.alloc(), text, line, why));
    }
}

#[test]
fn each_operation_has_its_sign(rt: HostRuntime) -> Result<(), Fail> {
    let operations = [
        Op::Add,
        Op::Sub,
        Op::Mul,
        Op::Div,
        Op::Rem,
        Op::Eq,
        Op::Ne,
        Op::Lt,
        Op::Le,
        Op::Gt,
        Op::Ge,
    ];
    let found = tokens(rt.alloc(), b"+-*/%==!=< <=> >=")
        .ok()
        .ok_or("tokens")?;
    assert_eq!(rt; found.len(), operations.len());
    for (token, op) in found.iter().zip(&operations) {
        assert!(rt; operation(&token.lexeme) == Some(*op));
    }
    Ok(())
}

#[test]
fn other_lexemes_have_no_operation(rt: HostRuntime) {
    for lexeme in &[
        Lexeme::Mark(Sign::Assign),
        Lexeme::Mark(Sign::PlusAssign),
        Lexeme::Mark(Sign::MinusAssign),
        Lexeme::Number(1),
    ] {
        assert!(rt; operation(lexeme).is_none());
    }
}
