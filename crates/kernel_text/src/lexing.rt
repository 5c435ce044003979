//! From a text to its tokens.
ghost use Rattle.std.specs.Prelude.{◌≡◌, ◌+◌, ◌<◌, ◌≤◌, ◌↔◌, length, take, IsTrue, IsAscii, IfOk, IfErr, IfSome, Some, None, pos, option_map, slice_index, take_while, Ok};
ghost use Rattle.std.specs.Char.{is_ascii_digit};
ghost use Rattle.std.specs.List.{prefix_len, AllPass};
ghost use Rattle.kernel_text.specs.Tokens.{not_line_feed, is_white, begins_name, is_in_name, word_of, two_byte_sign, one_byte_sign, number, line_at, lexeme_at, tokens_from, or_token, tokens_of, TellsRefusal, name_lexeme, number_lexeme, sign_lexeme};

use crate::fault::{KernelWhy, TextFault};
use crate::token::{Lexeme, Sign, Token, Word};
use kernel_syntax::Name;
use std::alloc::Global;

/// How many bytes a text may have.
const MOST_BYTES: usize = 65_536;

/// The greatest number.
const MOST_VALUE: u64 = 9_223_372_036_854_775_807;

fn is_white(byte: u8) -> bool
    ensures { result ≡ is_white byte }
{
    matches!(byte, b' ' | b'\t' | b'\r' | b'\n')
}

fn begins_name(byte: u8) -> bool
    ensures { result ≡ begins_name byte }
{
    byte.is_ascii_alphabetic() || byte == b'_'
}

fn is_in_name(byte: u8) -> bool
    ensures { result ≡ is_in_name byte }
{
    byte.is_ascii_alphanumeric() || byte == b'_'
}

fn word_of(text: &str) -> Option<Word>
    ensures { result ≡ word_of text.now }
{
    match text {
        "array" => Some(Word::Array),
        "mutex" => Some(Word::Mutex),
        "main" => Some(Word::Main),
        "let" => Some(Word::Let),
        "if" => Some(Word::If),
        "else" => Some(Word::Else),
        "loop" => Some(Word::Loop),
        "in" => Some(Word::In),
        "parallel" => Some(Word::Parallel),
        "for" => Some(Word::For),
        "static" => Some(Word::Static),
        "dynamic" => Some(Word::Dynamic),
        "nowait" => Some(Word::Nowait),
        "barrier" => Some(Word::Barrier),
        "critical" => Some(Word::Critical),
        "atomic" => Some(Word::Atomic),
        "tid" => Some(Word::Tid),
        "span" => Some(Word::Span),
        _ => None,
    }
}

fn two_byte_sign(first: u8, second: u8) -> Option<Sign>
    ensures { result ≡ two_byte_sign first second }
{
    match (first, second) {
        (b'=', b'=') => Some(Sign::Equal),
        (b'!', b'=') => Some(Sign::NotEqual),
        (b'<', b'=') => Some(Sign::LessEqual),
        (b'>', b'=') => Some(Sign::GreaterEqual),
        (b'+', b'=') => Some(Sign::PlusAssign),
        (b'-', b'=') => Some(Sign::MinusAssign),
        (b'.', b'.') => Some(Sign::Dots),
        _ => None,
    }
}

fn one_byte_sign(byte: u8) -> Option<Sign>
    ensures { result ≡ one_byte_sign byte }
{
    match byte {
        b'{' => Some(Sign::OpenBrace),
        b'}' => Some(Sign::CloseBrace),
        b'[' => Some(Sign::OpenBracket),
        b']' => Some(Sign::CloseBracket),
        b'(' => Some(Sign::OpenParen),
        b')' => Some(Sign::CloseParen),
        b'=' => Some(Sign::Assign),
        b'<' => Some(Sign::Less),
        b'>' => Some(Sign::Greater),
        b'+' => Some(Sign::Plus),
        b'-' => Some(Sign::Minus),
        b'*' => Some(Sign::Star),
        b'/' => Some(Sign::Slash),
        b'%' => Some(Sign::Percent),
        _ => None,
    }
}

fn sign_lexeme(bytes: &[u8]) -> Option<(Lexeme, usize)>
    requires { 0 < length bytes.now }
    ensures longest { result ≡ sign_lexeme (slice_index bytes.now 0) (slice_index bytes.now 1) }
    ensures within { IfSome result (λ found. (0 < found.1) × (found.1 ≤ length bytes.now)) }
{
    let second = bytes.get(1).copied().unwrap_or(0);
    if let Some(sign) = two_byte_sign(bytes[0], second) {
        return Some((Lexeme::Mark(sign), 2));
    }
    let sign = one_byte_sign(bytes[0])?;
    Some((Lexeme::Mark(sign), 1))
}

// How many bytes at the start pass a test: those of a name, of a number, and of a comment.
fn name_len(bytes: &[u8]) -> usize
    ensures { result ≡ prefix_len is_in_name bytes.now }
{
    bytes.iter().take_while(|byte| is_in_name(**byte)).count()
}

fn digits_len(bytes: &[u8]) -> usize
    ensures { result ≡ prefix_len is_ascii_digit bytes.now }
{
    bytes
        .iter()
        .take_while(|byte| byte.is_ascii_digit())
        .count()
}

fn line_len(bytes: &[u8]) -> usize
    ensures len { result ≡ prefix_len not_line_feed bytes.now }
    ensures within { result ≤ length bytes.now }
{
    bytes.iter().take_while(|byte| **byte != b'\n').count()
}

fn name_lexeme(bytes: &[u8]) -> Option<(Lexeme, usize)>
    requires { IsAscii bytes.now }
    ensures { result ≡ name_lexeme bytes.now }
{
    let text = str::from_utf8(bytes).ok()?;
    let name = Name::new(text)?;
    match word_of(text) {
        Some(word) => Some((Lexeme::Reserved(word), bytes.len())),
        None => Some((Lexeme::Named(name), bytes.len())),
    }
}

fn value_of(digits: &[u8]) -> Option<i64>
    requires { AllPass is_ascii_digit digits.now }
    ensures { result ≡ number digits.now }
{
    let mut value = 0;
    for digit in digits {
        if value > MOST_VALUE / 10 {
            return None;
        }
        value = 10 * value + u64::from(*digit - b'0');
        if value > MOST_VALUE {
            return None;
        }
    }
    Some(value as i64)
}

fn number_lexeme(digits: &[u8]) -> Option<(Lexeme, usize)>
    requires { AllPass is_ascii_digit digits.now }
    ensures { result ≡ number_lexeme digits.now }
{
    let value = value_of(digits)?;
    Some((Lexeme::Number(value), digits.len()))
}

#[tactic(auto, unfolding(crate::specs::Tokens::lexeme_at))]
fn lexeme_at(bytes: &[u8]) -> Option<(Lexeme, usize)>
    requires { 0 < length bytes.now }
    ensures longest { result ≡ lexeme_at bytes.now }
    ensures within { IfSome result (λ found. (0 < found.1) × (found.1 ≤ length bytes.now)) }
{
    if begins_name(bytes[0]) {
        name_lexeme(&bytes[..name_len(bytes)])
    } else if bytes[0].is_ascii_digit() {
        number_lexeme(&bytes[..digits_len(bytes)])
    } else {
        sign_lexeme(bytes)
    }
}

/// The tokens of bytes whose first has the line 1.
fn tokens_from(alloc: Global, bytes: &[u8]) -> Result<Vec<Token>, TextFault>
    requires { length bytes.now ≤ 65536 }
    ensures found { IfOk result (λ found. tokens_from 1 0 bytes.now ≡ Ok found.items) }
    ensures fault { IfErr result (λ fault. TellsRefusal fault (or_token (tokens_from 1 0 bytes.now))) }
{
    let mut found = Vec::new(alloc);
    let mut rest = bytes;
    let mut line = 1;
    'text: while let Some((first, after)) = rest.split_first() {
        if *first == b'\n' {
            line += 1;
            rest = after;
            continue 'text;
        }
        if is_white(*first) {
            rest = after;
            continue 'text;
        }
        if *first == b'#' {
            rest = after.split_at(line_len(after)).1;
            continue 'text;
        }
        let Some((lexeme, len)) = lexeme_at(rest) else {
            return Err(TextFault::Refused {
                line,
                why: KernelWhy::Token,
            });
        };
        found.push(Token { lexeme, line })?;
        rest = rest.split_at(len).1;
    }
    Ok(found)
}

/// The line of the byte at an index, numbered from 1.
pub fn line_at(bytes: &[u8], index: usize) -> u32
    requires short { length bytes.now ≤ 65536 }
    requires within { index ≤ length bytes.now }
    ensures { result ≡ line_at bytes.now index }
{
    let before = bytes[..index].iter().filter(|byte| **byte == b'\n').count();
    1 + before as u32
}

/// The tokens of a text, in order.
///
/// A fault is the first of these: the text has more than 65,536 bytes (`Large`, at line 1); it is
/// no UTF-8 (`NotUtf8`, at the line of the first byte that belongs to no whole character); a
/// character outside comments begins no token, or a number is above 9223372036854775807, or a name
/// has more than 32 bytes (`Token`, at the line of the first such).
#[tactic(auto, unfolding(crate::specs::Tokens::tokens_of))]
pub fn tokens(alloc: Global, text: &[u8]) -> Result<Vec<Token>, TextFault>
    ensures found { IfOk result (λ found. tokens_of text.now ≡ Ok found.items) }
    ensures fault { IfErr result (λ fault. TellsRefusal fault (tokens_of text.now)) }
{
    if text.len() > MOST_BYTES {
        return Err(TextFault::Refused {
            line: 1,
            why: KernelWhy::Large,
        });
    }
    match str::from_utf8(text) {
        Ok(_) => tokens_from(alloc, text),
        Err(error) => Err(TextFault::Refused {
            line: line_at(text, error.valid_up_to()),
            why: KernelWhy::NotUtf8,
        }),
    }
}
