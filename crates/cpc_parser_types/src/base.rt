//! Base types and stars (C11 6.7.2).
ghost use Rattle.std.specs.Prelude.{◌≡◌, ◌<◌, ◌≤◌, ℕ, length, IfOk};
ghost use Rattle.std.specs.Option.{option_map};
ghost use Rattle.cpc_tree.specs.Erase.{Names, type_of};
ghost use Rattle.cpc_tree.specs.Tokens.{lexeme_of};
ghost use Rattle.cpc_parser_reading.specs.Reading.{Read};
ghost use Rattle.cpc_parser_types.specs.TypeReaders.{first_word, next_word};
ghost use Rattle.cpc_parser_types.specs.Declarators.{stars_at};
ghost use Rattle.cpc_parser_types.specs.TypeViews.{base_type, base_reader, begins_base, ending_of, first_pair, next_pair, typed_reader, words_at};
ghost use Rattle.cpc_parser_types.specs.Views.{placed, Gives};

use crate::marks::{begins_mark, begins_word, deep, expect_mark, fault, name};
use crate::refusal::Refusal;
use cpc_base::Name;
use cpc_num::Kind;
use cpc_tree::program::CType;
use cpc_tree::token::{Keyword, Punctuator, Token, TokenKind};
use std::alloc::Global;

/// The type that a declaration begins with.
#[derive(Clone, Copy)]
pub enum Base {
    Void,
    Int(Kind),
    Condvar,
    Struct(Name),
}

impl Base {
    fn to_type(self) -> CType
        ensures { (names : Names) → type_of names result ≡ base_type names self }
    {
        match self {
            Base::Void => CType::Void,
            Base::Int(kind) => CType::Int(kind),
            Base::Condvar => CType::Condvar,
            Base::Struct(tag) => CType::Struct(tag),
        }
    }
}

// Which words may still go on a base type.
#[derive(Clone, Copy)]
enum Ending {
    Done,
    Long(Kind),
    Signed,
    Unsigned,
}

// The type that a first word begins, and what may go on.
fn first(kind: &TokenKind) -> Option<(Base, Ending)>
    ensures { (names : Names) → option_map (first_pair names) result ≡ first_word (lexeme_of names kind.now) }
{
    let TokenKind::Keyword(word) = kind else {
        return None;
    };
    match word {
        Keyword::Void => Some((Base::Void, Ending::Done)),
        Keyword::CpcCondvar => Some((Base::Condvar, Ending::Done)),
        Keyword::Char => Some((Base::Int(Kind::Char), Ending::Done)),
        Keyword::Int => Some((Base::Int(Kind::Int), Ending::Done)),
        Keyword::Long => Some((Base::Int(Kind::Long), Ending::Long(Kind::Long))),
        Keyword::Signed => Some((Base::Int(Kind::Int), Ending::Signed)),
        Keyword::Unsigned => Some((Base::Int(Kind::UInt), Ending::Unsigned)),
        _ => None,
    }
}

// The type with a further word, and what may go on behind it.
fn next(ending: Ending, kind: &TokenKind) -> Option<(Kind, Ending)>
    ensures { (names : Names) → option_map next_pair result ≡ next_word (ending_of ending) (lexeme_of names kind.now) }
{
    let TokenKind::Keyword(word) = kind else {
        return None;
    };
    match (ending, word) {
        (Ending::Long(kind), Keyword::Int) => Some((kind, Ending::Done)),
        (Ending::Signed, Keyword::Char) => Some((Kind::Char, Ending::Done)),
        (Ending::Signed, Keyword::Int) => Some((Kind::Int, Ending::Done)),
        (Ending::Signed, Keyword::Long) => Some((Kind::Long, Ending::Long(Kind::Long))),
        (Ending::Unsigned, Keyword::Char) => Some((Kind::UChar, Ending::Done)),
        (Ending::Unsigned, Keyword::Int) => Some((Kind::UInt, Ending::Done)),
        (Ending::Unsigned, Keyword::Long) => Some((Kind::ULong, Ending::Long(Kind::ULong))),
        _ => None,
    }
}

/// Whether the tokens begin a type.
pub fn begins_base(tokens: &[Token]) -> bool
    ensures { (names : Names) → result ≡ begins_base (placed names tokens.now) }
{
    match tokens.split_first() {
        Some((token, _)) => begins_word(tokens, Keyword::Struct) || first(&token.kind).is_some(),
        None => false,
    }
}

/// The type that a declaration begins with.
pub fn base_type(tokens: &[Token]) -> Result<(Base, &[Token]), Refusal>
    ensures gives { (names : Names) (d : ℕ) → Gives (λ x. (base_type names x.0, 0, placed names x.1.now)) result (base_reader d (placed names tokens.now)) }
    ensures shorter { IfOk result (λ x. length x.1.now < length tokens.now) }
{
    let Some((token, rest)) = tokens.split_first() else {
        return fault(tokens);
    };
    if begins_word(tokens, Keyword::Struct) {
        let (tag, rest) = name(rest)?;
        return Ok((Base::Struct(tag.name), rest));
    }
    match first(&token.kind) {
        Some((base, ending)) => Ok(longer(base, ending, rest)),
        None => fault(tokens),
    }
}

// A base type with the words that go on.
fn longer(base: Base, ending: Ending, tokens: &[Token]) -> (Base, &[Token])
    ensures reads { (names : Names) → words_at (base_type names base, ending_of ending) (placed names tokens.now) ≡ Read (base_type names result.0, 0, placed names result.1.now) }
    ensures shorter { length result.1.now ≤ length tokens.now }
{
    let Some((token, rest)) = tokens.split_first() else {
        return (base, tokens);
    };
    match next(ending, &token.kind) {
        Some((kind, ending)) => longer(Base::Int(kind), ending, rest),
        None => (base, tokens),
    }
}

/// A base type with the stars behind it.
pub fn stars(
    alloc: Global,
    depth: usize,
    base: Base,
    tokens: &[Token],
) -> Result<(CType, usize, &[Token]), Refusal>
    ensures gives { (names : Names) → Gives (λ x. (type_of names x.0, x.1, placed names x.2.now)) result (stars_at (base_type names base) depth (placed names tokens.now)) }
    ensures nest { IfOk result (λ x. x.1 ≤ depth) }
    ensures shorter { IfOk result (λ x. length x.2.now ≤ length tokens.now) }
{
    let mut of = base.to_type();
    let mut nest = 0;
    let mut rest = tokens;
    'stars: while begins_mark(rest, Punctuator::Star) {
        if nest >= depth {
            return deep(rest);
        }
        let (_, behind) = expect_mark(rest, Punctuator::Star)?;
        of = CType::Pointer(Box::new(alloc, of)?);
        nest += 1;
        rest = behind;
    }
    Ok((of, nest, rest))
}

/// A base type and its stars.
pub fn typed(
    alloc: Global,
    depth: usize,
    tokens: &[Token],
) -> Result<(CType, usize, &[Token]), Refusal>
    ensures gives { (names : Names) → Gives (λ x. (type_of names x.0, x.1, placed names x.2.now)) result (typed_reader depth (placed names tokens.now)) }
    ensures nest { IfOk result (λ x. x.1 ≤ depth) }
    ensures shorter { IfOk result (λ x. length x.2.now < length tokens.now) }
{
    let (base, rest) = base_type(tokens)?;
    stars(alloc, depth, base, rest)
}
