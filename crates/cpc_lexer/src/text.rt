//! The tokens of a text.
ghost use Rattle.std.specs.Prelude.{◌≡◌, ◌+◌, ◌<◌, ◌≤◌, ◌^◌, length, map, All, IfOk, IfErr, OnOk, OnErr, IfSome, ◌++◌, List, Err};
ghost use Rattle.cpc_base.specs.Bytes.{Text};
ghost use Rattle.cpc_base.specs.declared.stop.Stop.TheVariants.{Fault};
ghost use Rattle.cpc_tree.specs.Erase.{in_table};
ghost use Rattle.cpc_tree.specs.Tokens.{Placed, placed_of};
ghost use Rattle.cpc_tree.specs.Cut.{text_start, place_behind, Row, IsFaulty, IsCut, IsLexFault, HasOneAnswer};
ghost use Rattle.cpc_lexer.specs.declared.fault.LexFault.{LexFault};
ghost use Rattle.cpc_lexer.specs.Faults.{IfFault};
ghost use Rattle.cpc_lexer.specs.Fronts.{IsLongestFront, kind_piece};
ghost use Rattle.cpc_lexer.specs.Table.{with_kind, with_tokens, HasGrown, NameBelow, TokenBelow, kept};

use crate::fault::LexFault;
use crate::front::{Front, front_of};
use cpc_base::{Dialect, Names, NoMemory, Place, Stop};
use cpc_tree::token::{Token, TokenKind};
use std::alloc::Global;

/// The tokens of a text in order, or its first fault.
///
/// Each token is as long as can be (C11 6.4). The names are put into the table in order of first use.
///
/// # Errors
///
/// `Stop::Fault` with the first fault, which stands at the first byte of what is faulty; the names of the tokens before it
/// are in the table then. `Stop::Memory` for want of memory, after which the table may hold further names behind the old ones.
pub fn tokens(
    alloc: Global,
    text: &[u8],
    dialect: Dialect,
    names: &mut Names,
) -> Result<Vec<Token>, Stop<LexFault>>
    requires { length names.old + length text.now < 2 ^ 63 }
    // The tokens are those of the text, each name by the table as it is afterwards.
    ensures cut { IfOk result (λ v. IsCut text.now dialect (map (placed_of (in_table names.new)) v.items)) }
    ensures table { IfOk result (λ v. names.new ≡ with_tokens names.old (map (placed_of (in_table names.new)) v.items)) }
    ensures below { IfOk result (λ v. All (TokenBelow (length names.new)) v.items) }

    ensures fault { IfErr result (λ stop. IfFault stop (λ f. IsLexFault text.now dialect f.place f.number)) }
    // Behind a fault the table holds the names of the tokens before it.
    ensures stands { (f : LexFault) → result ≡ Err (Fault f) → (list : List Placed) × (rest : Text) × Row dialect text_start text.now list f.place rest × (names.new ≡ with_tokens names.old list) }
    ensures grown { HasGrown names.old names.new }
    ensures room { length names.new ≤ length names.old + length text.now }

    // The text has no other cut and no other fault.
    ensures one_answer { HasOneAnswer text.now dialect }
{
    let mut tokens = Vec::new(alloc);
    let mut place = Place { line: 1, column: 1 };
    let mut rest = text;
    while !rest.is_empty() {
        let (kind, n) = piece(alloc, rest, place, dialect, names)?;
        keep(&mut tokens, place, kind)?;
        let (taken, behind) = rest.split_at(n);
        place = place_behind(place, taken);
        rest = behind;
    }
    Ok(tokens)
}

/// The end of a text: the place just behind its last byte.
pub fn end_of_text(text: &[u8]) -> Place
    ensures { result ≡ place_behind text_start text.now }
{
    place_behind(Place { line: 1, column: 1 }, text)
}

/// The token at the front of a text, or none for a blank or a comment, and how many bytes it takes.
fn piece(
    alloc: Global,
    text: &[u8],
    place: Place,
    dialect: Dialect,
    names: &mut Names,
) -> Result<(Option<TokenKind>, usize), Stop<LexFault>>
    requires some { 0 < length text.now }
    requires room { length names.old < 2 ^ 63 }
    ensures longest { IfOk result (λ r. IsLongestFront dialect text.now r.1 (kind_piece names.new r.0)) }
    ensures table { IfOk result (λ r. names.new ≡ with_kind names.old names.new r.0) }
    ensures below { IfOk result (λ r. IfSome r.0 (NameBelow (length names.new))) }
    ensures place { IfErr result (λ stop. IfFault stop (λ f. f.place ≡ place)) }
    ensures fault { IfErr result (λ stop. IfFault stop (λ f. IsFaulty dialect text.now f.number)) }
    ensures unchanged { OnErr result (names.new ≡ names.old) }
{
    let (front, n) = front_of(alloc, text, dialect)?;
    match front {
        Front::Space => Ok((None, n)),
        Front::Token(kind) => Ok((Some(kind), n)),
        Front::Name => {
            let name = names.intern(alloc, &text[..n])?;
            Ok((Some(TokenKind::Name(name)), n))
        }
        Front::Fault(number) => Err(Stop::Fault(LexFault { place, number })),
    }
}

/// Puts a token at the end.
fn keep(tokens: &mut Vec<Token>, place: Place, kind: Option<TokenKind>) -> Result<(), NoMemory>
    ensures { OnOk result (tokens.new.items ≡ tokens.old.items ++ kept place kind) }
{
    if let Some(kind) = kind {
        tokens.push(Token { place, kind })?;
    }
    Ok(())
}

/// The place behind bytes that begin at a place.
fn place_behind(place: Place, bytes: &[u8]) -> Place
    requires line { place.line + length bytes.now < 2 ^ 64 }
    requires column { place.column + length bytes.now < 2 ^ 64 }
    ensures { result ≡ place_behind place bytes.now }
{
    let mut line = place.line;
    let mut column = place.column;
    for b in bytes {
        if *b == b'\n' {
            line += 1;
            column = 1;
        } else {
            column += 1;
        }
    }
    Place { line, column }
}
