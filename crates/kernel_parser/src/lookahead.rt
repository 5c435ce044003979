//! What stands at the beginning of tokens.
//!
//! The tokens are a kernel's by the grammar, so a token of another kind than the one that is read
//! doesn't come; where it did, something would be read in its place.
ghost use Rattle.std.specs.Prelude.{◌≡◌, ◌≤◌, ◌↔◌, ℕ, ℤ, IsTrue, List, ◌∷◌, length};
ghost use Rattle.kernel_text.specs.declared.token.Lexeme.TheVariants.{Named, Number, Reserved, Mark};
ghost use Rattle.kernel_text.specs.declared.token.Sign.TheVariants as sign;
ghost use Rattle.kernel_text.specs.declared.token.Token.{Token as AToken};
ghost use Rattle.kernel_text.specs.declared.token.Word.TheVariants as word;
ghost use Rattle.kernel_text.specs.Grammar.{Stmts, named, number};
ghost use Rattle.kernel_parser.specs.Parsing.{StartsWith, inside, lead_of_stmts};

use kernel_syntax::Name;
use kernel_text::{Lexeme, Sign, Token, Word};

/// Which statement it is.
#[derive(Clone, Copy)]
pub enum Lead {
    Let,
    Assign,
    Store,
    Update,
    If,
    Loop,
    Parallel,
    For,
    Barrier,
    Critical,
}

/// The line of the first token, and the tokens behind it.
pub fn skip(tokens: &[Token]) -> (u32, &[Token])
    ensures told { (t : AToken) (ts : List AToken) → tokens.now ≡ t ∷ ts → (result.0 ≡ t.line) × (result.1.now ≡ ts) }
    ensures room { length result.1.now ≤ length tokens.now }
{
    match tokens.split_first() {
        Some((token, rest)) => (token.line, rest),
        None => (0, tokens),
    }
}

/// No name.
fn nameless() -> Name
    ensures { length result ≡ 0 }
{
    Name::new("").unwrap()
}

pub fn name_at(token: &Token) -> Name
    ensures { (name : List ℕ) → token.now.lexeme ≡ Named name → result ≡ name }
{
    match &token.lexeme {
        Lexeme::Named(name) => name.copy(),
        _ => nameless(),
    }
}

/// The first token's name.
pub fn name_of(tokens: &[Token]) -> Name
    ensures { (line : ℕ) (name : List ℕ) (ts : List AToken) → tokens.now ≡ named line name ∷ ts → result ≡ name }
{
    match tokens.first() {
        Some(token) => name_at(token),
        None => nameless(),
    }
}

/// The first token's number.
pub fn number_of(tokens: &[Token]) -> i64
    ensures { (line : ℕ) (n : ℤ) (ts : List AToken) → tokens.now ≡ number line n ∷ ts → result ≡ n }
{
    match tokens.first() {
        Some(token) => match &token.lexeme {
            Lexeme::Number(value) => *value,
            _ => 0,
        },
        None => 0,
    }
}

pub fn is_number(tokens: &[Token]) -> bool
    ensures { IsTrue result ↔ ((n : ℤ) × StartsWith (Number n) tokens.now) }
{
    match tokens.first() {
        Some(token) => matches!(&token.lexeme, Lexeme::Number(_)),
        None => false,
    }
}

pub fn is_name(tokens: &[Token]) -> bool
    ensures { IsTrue result ↔ ((name : List ℕ) × StartsWith (Named name) tokens.now) }
{
    match tokens.first() {
        Some(token) => matches!(&token.lexeme, Lexeme::Named(_)),
        None => false,
    }
}

pub fn is_open_bracket(tokens: &[Token]) -> bool
    ensures { IsTrue result ↔ StartsWith (Mark sign.OpenBracket) tokens.now }
{
    match tokens.first() {
        Some(token) => matches!(&token.lexeme, Lexeme::Mark(Sign::OpenBracket)),
        None => false,
    }
}

/// Whether `-=` is next.
pub fn is_minus(tokens: &[Token]) -> bool
    ensures { IsTrue result ↔ StartsWith (Mark sign.MinusAssign) tokens.now }
{
    match tokens.first() {
        Some(token) => matches!(&token.lexeme, Lexeme::Mark(Sign::MinusAssign)),
        None => false,
    }
}

pub fn is_nowait(tokens: &[Token]) -> bool
    ensures { IsTrue result ↔ StartsWith (Reserved word.Nowait) tokens.now }
{
    match tokens.first() {
        Some(token) => matches!(&token.lexeme, Lexeme::Reserved(Word::Nowait)),
        None => false,
    }
}

/// Whether `else` is next.
pub fn is_else(tokens: &[Token]) -> bool
    ensures { IsTrue result ↔ StartsWith (Reserved word.Else) tokens.now }
{
    match tokens.first() {
        Some(token) => matches!(&token.lexeme, Lexeme::Reserved(Word::Else)),
        None => false,
    }
}

/// The statement that begins with a token, behind which are these; none at the closing brace.
pub fn lead_of(token: &Token, rest: &[Token]) -> Option<Lead>
    ensures { (b : Stmts) (end : ℕ) (tail : List AToken) → token.now ∷ rest.now ≡ inside b end tail → result ≡ lead_of_stmts b }
{
    match &token.lexeme {
        Lexeme::Reserved(Word::Let) => Some(Lead::Let),
        Lexeme::Reserved(Word::Atomic) => Some(Lead::Update),
        Lexeme::Reserved(Word::If) => Some(Lead::If),
        Lexeme::Reserved(Word::Loop) => Some(Lead::Loop),
        Lexeme::Reserved(Word::Parallel) => Some(Lead::Parallel),
        Lexeme::Reserved(Word::For) => Some(Lead::For),
        Lexeme::Reserved(Word::Barrier) => Some(Lead::Barrier),
        Lexeme::Reserved(Word::Critical) => Some(Lead::Critical),
        Lexeme::Named(_) => {
            if is_open_bracket(rest) {
                Some(Lead::Store)
            } else {
                Some(Lead::Assign)
            }
        }
        _ => None,
    }
}

pub fn is_static(tokens: &[Token]) -> bool
    ensures { IsTrue result ↔ StartsWith (Reserved word.Static) tokens.now }
{
    match tokens.first() {
        Some(token) => matches!(&token.lexeme, Lexeme::Reserved(Word::Static)),
        None => false,
    }
}

pub fn is_dynamic(tokens: &[Token]) -> bool
    ensures { IsTrue result ↔ StartsWith (Reserved word.Dynamic) tokens.now }
{
    match tokens.first() {
        Some(token) => matches!(&token.lexeme, Lexeme::Reserved(Word::Dynamic)),
        None => false,
    }
}
