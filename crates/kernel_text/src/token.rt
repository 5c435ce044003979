//! The tokens of a kernel.
ghost use Rattle.kernel_text.specs.Grammar.{IsOperation};

use kernel_syntax::{Name, Op};

/// A reserved name.
#[derive(Clone, Copy)]
pub enum Word {
    Array,
    Mutex,
    Main,
    Let,
    If,
    Else,
    Loop,
    In,
    Parallel,
    For,
    Static,
    Dynamic,
    Nowait,
    Barrier,
    Critical,
    Atomic,
    Tid,
    Span,
}

/// A sign.
#[derive(Clone, Copy)]
pub enum Sign {
    OpenBrace,
    CloseBrace,
    OpenBracket,
    CloseBracket,
    OpenParen,
    CloseParen,
    Assign,
    Equal,
    NotEqual,
    Less,
    LessEqual,
    Greater,
    GreaterEqual,
    Plus,
    Minus,
    Star,
    Slash,
    Percent,
    /// `+=`, of an atomic update.
    PlusAssign,
    /// `-=`, of an atomic update.
    MinusAssign,
    /// `..`, between the bounds of a loop.
    Dots,
}

/// What a token is.
#[derive(Drop)]
pub enum Lexeme {
    /// A name that isn't reserved.
    Named(Name),
    /// A number, from 0 to 9223372036854775807.
    Number(i64),
    Reserved(Word),
    Mark(Sign),
}

/// A token and its line, numbered from 1.
#[derive(Drop)]
pub struct Token {
    pub lexeme: Lexeme,
    pub line: u32,
}

/// The operation whose sign a lexeme is.
pub fn operation(lexeme: &Lexeme) -> Option<Op>
    ensures { IsOperation lexeme.now result }
{
    let Lexeme::Mark(sign) = lexeme else {
        return None;
    };
    match sign {
        Sign::Plus => Some(Op::Add),
        Sign::Minus => Some(Op::Sub),
        Sign::Star => Some(Op::Mul),
        Sign::Slash => Some(Op::Div),
        Sign::Percent => Some(Op::Rem),
        Sign::Equal => Some(Op::Eq),
        Sign::NotEqual => Some(Op::Ne),
        Sign::Less => Some(Op::Lt),
        Sign::LessEqual => Some(Op::Le),
        Sign::Greater => Some(Op::Gt),
        Sign::GreaterEqual => Some(Op::Ge),
        _ => None,
    }
}
