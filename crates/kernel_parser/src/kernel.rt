//! From tokens to a kernel's tree.
ghost use Rattle.std.specs.Prelude.{◌≡◌, ◌≤◌, ◌↔◌, ℕ, ℤ, List, ◌∷◌, ◌++◌, length, map, None, IfOk, IfSome};
ghost use Rattle.kernel_parser.specs.declared.kernel.Declares.TheVariants as declares;
ghost use Rattle.kernel_text.specs.declared.token.Lexeme.TheVariants.{Reserved};
ghost use Rattle.kernel_text.specs.declared.token.Token.{Token as AToken};
ghost use Rattle.kernel_text.specs.declared.token.Word.TheVariants as word;
ghost use Rattle.kernel_text.specs.Grammar as grammar;
ghost use Rattle.kernel_text.specs.Grammar.{named, number, reserved, declaration_tokens, declarations_tokens, kernel_tokens, IsKernel};
ghost use Rattle.kernel_text.specs.Faults.{IsShallow};
ghost use Rattle.kernel_parser.specs.Trees.{declaration_of, kernel_of};
ghost use Rattle.kernel_parser.specs.Parsing.{ReadsTo, IsDeclared};

use crate::fault::ParseFault;
use crate::lookahead::{name_of, number_of, skip};
use crate::statements::block;
use crate::tree::{Declaration, KernelTree};
use kernel_text::{Lexeme, Token, Word};
use std::alloc::Global;

/// What a token declares.
#[derive(Clone, Copy)]
pub enum Declares {
    Array,
    Mutex,
    Nothing,
}

fn declared_by(lexeme: &Lexeme) -> Declares
    ensures array { (lexeme.now ≡ Reserved word.Array) ↔ (result ≡ declares.Array) }
    ensures mutex { (lexeme.now ≡ Reserved word.Mutex) ↔ (result ≡ declares.Mutex) }
{
    match lexeme {
        Lexeme::Reserved(Word::Array) => Declares::Array,
        Lexeme::Reserved(Word::Mutex) => Declares::Mutex,
        _ => Declares::Nothing,
    }
}

/// NAME NAME NUMBER, behind `array`
fn array(line: u32, tokens: &[Token]) -> (Declaration, &[Token])
    ensures declared { (name_line : ℕ) (name : List ℕ) (width_line : ℕ) (width : List ℕ) (count_line : ℕ) (count : ℤ) (ts : List AToken) → tokens.now ≡ named name_line name ∷ named width_line width ∷ number count_line count ∷ ts → (declaration_of result.0 ≡ grammar.ArrayOf line name_line name width_line width count_line count) × (result.1.now ≡ ts) }
    ensures shorter { length result.1.now ≤ length tokens.now }
{
    let name = name_of(tokens);
    let (name_line, rest) = skip(tokens);
    let width = name_of(rest);
    let (width_line, rest) = skip(rest);
    let count = number_of(rest);
    let (count_line, rest) = skip(rest);
    let array = Declaration::Array {
        line,
        name_line,
        name,
        width_line,
        width,
        count_line,
        count,
    };
    (array, rest)
}

/// A declaration, if there is one, and the tokens behind it.
fn declaration<'a>(token: &Token, rest: &'a [Token]) -> Option<(Declaration, &'a [Token])>
    ensures declared { (d : grammar.Declaration) (after : List AToken) → token.now ∷ rest.now ≡ declaration_tokens d ++ after → IsDeclared d after result }
    ensures ends { (line : ℕ) → token.now ≡ reserved line word.Main → result ≡ None }
    ensures shorter { IfSome result (λ x. length x.1.now ≤ length rest.now) }
{
    let line = token.line;
    match declared_by(&token.lexeme) {
        Declares::Array => Some(array(line, rest)),
        Declares::Mutex => {
            let name = name_of(rest);
            let (name_line, rest) = skip(rest);
            let mutex = Declaration::Mutex {
                line,
                name_line,
                name,
            };
            Some((mutex, rest))
        }
        Declares::Nothing => None,
    }
}

/// The declarations at the start of tokens, and the tokens behind them.
fn declarations(alloc: Global, tokens: &[Token]) -> Result<(Vec<Declaration>, &[Token]), ParseFault>
    ensures parsed { (ds : List grammar.Declaration) (line : ℕ) (after : List AToken) → tokens.now ≡ declarations_tokens ds ++ reserved line word.Main ∷ after → ReadsTo result (λ x. (map declaration_of x.0.items ≡ ds) × (x.1.now ≡ reserved line word.Main ∷ after)) }
{
    let mut made = Vec::new(alloc);
    let mut rest = tokens;
    'declarations: while let Some((token, after)) = rest.split_first() {
        let Some((added, left)) = declaration(token, after) else {
            return Ok((made, rest));
        };
        made.push(added)?;
        rest = left;
    }
    Ok((made, rest))
}

/// The tree of tokens that are a kernel by the grammar, whose levels are at most 32.
pub fn parse(alloc: Global, tokens: &[Token]) -> Result<KernelTree, ParseFault>
    ensures { (k : grammar.KernelTree) → tokens.now ≡ kernel_tokens k → IsKernel k → IsShallow k → ReadsTo result (λ x. kernel_of x ≡ k) }
{
    let (declarations, rest) = declarations(alloc, tokens)?;
    let (line, rest) = skip(rest);
    let (body, _) = block(alloc, rest)?;
    Ok(KernelTree {
        declarations,
        line,
        body,
    })
}
