//! Single tokens.
ghost use Rattle.std.specs.Prelude.{◌≡◌, ◌<◌, List, [], ◌∷◌, length, IfOk, Err, max};
ghost use Rattle.std.specs.Option.{option_map};
ghost use Rattle.cpc_tree.specs.ExprGrammar.{operator};
ghost use Rattle.cpc_tree.specs.StmtGrammar.{assigning, stepping};
ghost use Rattle.cpc_tree.specs.Erase.{Names};
ghost use Rattle.cpc_tree.specs.Locate.{ident};
ghost use Rattle.cpc_tree.specs.Tokens.{Placed};
ghost use Rattle.cpc_tree.specs.declared.token.TokenKind.TheVariants as GKind;
ghost use Rattle.cpc_parser_reading.specs.Reading.{expect, one};
ghost use Rattle.cpc_parser_types.specs.Begins.{is_mark, is_word, begins, begins_word, begins_name};
ghost use Rattle.cpc_parser_types.specs.TypeReaders.{ident_of};
ghost use Rattle.cpc_parser_types.specs.Views.{first_mark, first_word, placed, Gives, tiered_of};
ghost use Rattle.cpc_parser_types.specs.declared.refusal.Refusal.TheVariants as GRefusal;

use crate::refusal::Refusal;
use cpc_base::Place;
use cpc_num::{Kind, Op};
use cpc_tree::program::Word;
use cpc_tree::token::{Keyword, Punctuator, Token, TokenKind};

/// The refusal of the first of the tokens, where no program is left.
pub fn fault<T>(tokens: &[Token]) -> Result<T, Refusal>
    ensures { result ≡ Err (GRefusal.Syntax (length tokens.now)) }
{
    Err(Refusal::Syntax(tokens.len()))
}

/// The refusal of the first of the tokens, where each program nests too deep.
pub fn deep<T>(tokens: &[Token]) -> Result<T, Refusal>
    ensures { result ≡ Err (GRefusal.Deep (length tokens.now)) }
{
    Err(Refusal::Deep(tokens.len()))
}

/// The greater of two nestings.
pub fn deeper(a: usize, b: usize) -> usize
    ensures { result ≡ max a b }
{
    if a < b { b } else { a }
}

/// The mark that the tokens begin with.
pub fn first_mark(tokens: &[Token]) -> Option<Punctuator>
    ensures { result ≡ first_mark tokens.now }
{
    let (token, _) = tokens.split_first()?;
    match &token.kind {
        TokenKind::Punctuator(mark) => Some(*mark),
        _ => None,
    }
}

/// The keyword that the tokens begin with.
pub fn first_word(tokens: &[Token]) -> Option<Keyword>
    ensures { result ≡ first_word tokens.now }
{
    let (token, _) = tokens.split_first()?;
    match &token.kind {
        TokenKind::Keyword(word) => Some(*word),
        _ => None,
    }
}

/// Whether the tokens begin with the mark.
pub fn begins_mark(tokens: &[Token], mark: Punctuator) -> bool
    ensures { (names : Names) → result ≡ begins mark (placed names tokens.now) }
{
    first_mark(tokens) == Some(mark)
}

/// Whether the tokens begin with the keyword.
pub fn begins_word(tokens: &[Token], word: Keyword) -> bool
    ensures { (names : Names) → result ≡ begins_word word (placed names tokens.now) }
{
    first_word(tokens) == Some(word)
}

/// A mark: its place, and the tokens behind it.
pub fn expect_mark(tokens: &[Token], mark: Punctuator) -> Result<(Place, &[Token]), Refusal>
    ensures gives { (names : Names) → Gives (λ x. (tt, 0, placed names x.1.now)) result (expect (λ t. is_mark mark t.lexeme) (placed names tokens.now)) }
    ensures first { IfOk result (λ x. tokens.now ≡ record { place = x.0; kind = GKind.Punctuator mark } ∷ x.1.now) }
    ensures shorter { IfOk result (λ x. length x.1.now < length tokens.now) }
{
    match tokens.split_first() {
        Some((token, rest)) if begins_mark(tokens, mark) => Ok((token.place, rest)),
        _ => fault(tokens),
    }
}

/// A keyword: its place, and the tokens behind it.
pub fn expect_word(tokens: &[Token], word: Keyword) -> Result<(Place, &[Token]), Refusal>
    ensures gives { (names : Names) → Gives (λ x. (tt, 0, placed names x.1.now)) result (expect (λ t. is_word word t.lexeme) (placed names tokens.now)) }
    ensures first { IfOk result (λ x. tokens.now ≡ record { place = x.0; kind = GKind.Keyword word } ∷ x.1.now) }
    ensures shorter { IfOk result (λ x. length x.1.now < length tokens.now) }
{
    match tokens.split_first() {
        Some((token, rest)) if begins_word(tokens, word) => Ok((token.place, rest)),
        _ => fault(tokens),
    }
}

/// A name, and the tokens behind it.
pub fn name(tokens: &[Token]) -> Result<(Word, &[Token]), Refusal>
    ensures gives { (names : Names) → Gives (λ x. (ident names x.0, 0, placed names x.1.now)) result (one ident_of (placed names tokens.now)) }
    ensures shorter { IfOk result (λ x. length x.1.now < length tokens.now) }
{
    match tokens.split_first() {
        Some((token, rest)) => match &token.kind {
            TokenKind::Name(name) => Ok((
                Word {
                    place: token.place,
                    name: *name,
                },
                rest,
            )),
            _ => fault(tokens),
        },
        None => fault(tokens),
    }
}

/// Whether the tokens begin with a name.
pub fn begins_name(tokens: &[Token]) -> bool
    ensures { (names : Names) → result ≡ begins_name (placed names tokens.now) }
{
    match tokens.split_first() {
        Some((token, _)) => matches!(&token.kind, TokenKind::Name(_)),
        None => false,
    }
}

/// The operator of a compound assignment (C11 6.5.16.2).
pub fn assigning(mark: Punctuator) -> Option<Op>
    ensures { result ≡ assigning mark }
{
    match mark {
        Punctuator::PlusEqual => Some(Op::Add),
        Punctuator::MinusEqual => Some(Op::Sub),
        Punctuator::StarEqual => Some(Op::Mul),
        Punctuator::SlashEqual => Some(Op::Div),
        Punctuator::PercentEqual => Some(Op::Rem),
        Punctuator::AmpersandEqual => Some(Op::BitAnd),
        Punctuator::BarEqual => Some(Op::BitOr),
        Punctuator::CaretEqual => Some(Op::BitXor),
        Punctuator::ShiftLeftEqual => Some(Op::Shl),
        Punctuator::ShiftRightEqual => Some(Op::Shr),
        _ => None,
    }
}

/// The operator of `++` and `--` (C11 6.5.2.4).
pub fn stepping(mark: Punctuator) -> Option<Op>
    ensures { result ≡ stepping mark }
{
    match mark {
        Punctuator::Increment => Some(Op::Add),
        Punctuator::Decrement => Some(Op::Sub),
        _ => None,
    }
}

/// What stands between two operands.
#[derive(Clone, Copy)]
pub enum Operator {
    Binary(Op),
    And,
    Or,
}

/// The operator of a mark, and its tier: 1 binds most closely, 10 least (C11 6.5.5 to 6.5.14).
pub fn tiered(mark: Punctuator) -> Option<(usize, Operator)>
    ensures { option_map tiered_of result ≡ operator mark }
{
    match mark {
        Punctuator::Star => Some((1, Operator::Binary(Op::Mul))),
        Punctuator::Slash => Some((1, Operator::Binary(Op::Div))),
        Punctuator::Percent => Some((1, Operator::Binary(Op::Rem))),
        Punctuator::Plus => Some((2, Operator::Binary(Op::Add))),
        Punctuator::Minus => Some((2, Operator::Binary(Op::Sub))),
        Punctuator::ShiftLeft => Some((3, Operator::Binary(Op::Shl))),
        Punctuator::ShiftRight => Some((3, Operator::Binary(Op::Shr))),
        Punctuator::Less => Some((4, Operator::Binary(Op::Lt))),
        Punctuator::LessEqual => Some((4, Operator::Binary(Op::Le))),
        Punctuator::Greater => Some((4, Operator::Binary(Op::Gt))),
        Punctuator::GreaterEqual => Some((4, Operator::Binary(Op::Ge))),
        Punctuator::EqualEqual => Some((5, Operator::Binary(Op::Eq))),
        Punctuator::NotEqual => Some((5, Operator::Binary(Op::Ne))),
        Punctuator::Ampersand => Some((6, Operator::Binary(Op::BitAnd))),
        Punctuator::Caret => Some((7, Operator::Binary(Op::BitXor))),
        Punctuator::Bar => Some((8, Operator::Binary(Op::BitOr))),
        Punctuator::AndAnd => Some((9, Operator::And)),
        Punctuator::OrOr => Some((10, Operator::Or)),
        _ => None,
    }
}
