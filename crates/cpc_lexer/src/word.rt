//! Keywords and names (C11 6.4.1, 6.4.2).
ghost use Rattle.std.specs.Prelude.{◌≡◌, ◌<◌, length, slice_index, IsTrue};
ghost use Rattle.std.specs.List.{prefix_len};
ghost use Rattle.cpc_tree.specs.Tokens.{keyword_of};
ghost use Rattle.cpc_tree.specs.Pieces.{in_word, name_limit, name_or_keyword, integer};
ghost use Rattle.cpc_lexer.specs.Fronts.{front_piece, IsFrontNameless, IsFrontNumbered, IsFront};

use crate::fault::TOO_LONG;
use crate::front::Front;
use crate::integer::integer;
use cpc_base::Dialect;
use cpc_tree::token::{Keyword, TokenKind, is_in_word};

/// What the longest run of letters, digits and `_` at the front of a text is.
pub(crate) fn run(text: &[u8], dialect: Dialect) -> (Front, usize)
    requires some { 0 < length text.now }
    requires word { IsTrue (in_word (slice_index text.now 0)) }
    ensures { IsFront dialect text.now result.0 result.1 }
{
    let n = run_length(text);
    let word = &text[..n];
    if word[0].is_ascii_digit() {
        return (number(word), n);
    }
    (name_or_keyword(word, dialect), n)
}

fn number(word: &[u8]) -> Front
    ensures piece { front_piece word.now result ≡ integer word.now }
    ensures nameless { IsFrontNameless result }
    ensures number { IsFrontNumbered result }
{
    match integer(word) {
        Ok((kind, value)) => Front::Token(TokenKind::Integer(kind, i128::from(value))),
        Err(number) => Front::Fault(number),
    }
}

fn name_or_keyword(word: &[u8], dialect: Dialect) -> Front
    ensures piece { front_piece word.now result ≡ name_or_keyword dialect word.now (keyword_of word.now) }
    ensures nameless { IsFrontNameless result }
    ensures number { IsFrontNumbered result }
{
    match keyword(word) {
        Some(keyword) => Front::Token(TokenKind::Keyword(keyword)),
        None if word.len() <= name_limit(dialect) => Front::Name,
        None => Front::Fault(TOO_LONG),
    }
}

/// The most bytes that a name may have.
fn name_limit(dialect: Dialect) -> usize
    ensures { result ≡ name_limit dialect }
{
    match dialect {
        Dialect::Cpc => 63,
        Dialect::Event => 95,
    }
}

/// The keyword that is spelled so.
#[tactic(auto, unfolding(cpc_tree::specs::Tokens::keyword_of))]
fn keyword(word: &[u8]) -> Option<Keyword>
    ensures { result ≡ keyword_of word.now }
{
    Keyword::ALL
        .iter()
        .copied()
        .find(|keyword| word == keyword.spelling())
}

/// How many letters, digits and `_` a text begins with.
fn run_length(text: &[u8]) -> usize
    ensures { result ≡ prefix_len in_word text.now }
{
    let mut n = 0;
    while n < text.len() && is_in_word(text[n]) {
        n += 1;
    }
    n
}
