//! The text of a kernel: its tokens and its grammar.
//!
//! Promised here, exactly. `tokens` returns the tokens of a text, or the first fault: a text that
//! is too large, that is no UTF-8, or that has a character, a number or a name that is no token.
//! `judge` returns whether tokens are a kernel by the grammar with at most 32 levels, or which is
//! the first token with which no kernel continues or that opens level 33, or that they end too early.
//! `operation` returns the operation of a sign. `levels_tell_the_depth` is a law: the depth of a
//! kernel, by its tree, and the levels that its tokens open are one bound.
#![tactic(auto)]

mod fault;
mod judging;
mod lexing;
mod nesting;
mod token;

pub use crate::fault::{KernelWhy, TextFault};
pub use crate::judging::{Judgement, judge};
pub use crate::lexing::{line_at, tokens};
pub use crate::nesting::levels_tell_the_depth;
pub use crate::token::{Lexeme, Sign, Token, Word, operation};
