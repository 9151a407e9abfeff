//! What a text begins with.
ghost use Rattle.std.specs.Prelude.{◌≡◌, ◌<◌, [], ◌∷◌, length, slice_index, IfOk};
ghost use Rattle.std.specs.Option.{option_map};
ghost use Rattle.cpc_tree.specs.Tokens.{punctuator_of};
ghost use Rattle.cpc_tree.specs.Pieces.{Sign, first_state};
ghost use Rattle.cpc_base.specs.declared.stop.Dialect as D;
ghost use Rattle.cpc_lexer.specs.Fronts.{IsFront};

use crate::byte::is_blank;
use crate::comment::{block_comment, line_comment};
use crate::mark::mark;
use crate::quoted::{Quote, quoted};
use crate::word::run;
use cpc_base::{Dialect, NoMemory};
use cpc_tree::token::{TokenKind, is_in_word};
use std::alloc::Global;

/// What the front of a text is.
#[derive(Drop)]
pub(crate) enum Front {
    /// A blank or a comment.
    Space,
    /// A token that is no name.
    Token(TokenKind),
    /// A name.
    Name,
    /// The number of the fault.
    Fault(u8),
}

/// What a text begins with, and how many bytes that takes.
pub(crate) fn front_of(
    alloc: Global,
    text: &[u8],
    dialect: Dialect,
) -> Result<(Front, usize), NoMemory>
    requires { 0 < length text.now }
    ensures { IfOk result (λ r. IsFront dialect text.now r.0 r.1) }
{
    let first = text[0];
    if is_blank(first) {
        return Ok((Front::Space, 1));
    }
    if is_in_word(first) {
        return Ok(run(text, dialect));
    }
    match first {
        b'\'' => quoted(alloc, text, Quote::Single),
        b'"' => quoted(alloc, text, Quote::Double),
        _ => Ok(mark_or_comment(text)),
    }
}

/// A punctuator or a comment.
fn mark_or_comment(text: &[u8]) -> (Front, usize)
    requires some { 0 < length text.now }
    requires mark { first_state (slice_index text.now 0) ≡ option_map Sign (punctuator_of (slice_index text.now 0 ∷ [])) }
    ensures { (dialect : D.Dialect) → IsFront dialect text.now result.0 result.1 }
{
    if text[0] == b'/' && text.len() > 1 {
        if text[1] == b'*' {
            return block_comment(text);
        }
        if text[1] == b'/' {
            return line_comment(text);
        }
    }
    mark(text)
}
