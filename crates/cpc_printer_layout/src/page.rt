//! The text of a sheet.
ghost use Rattle.std.specs.Prelude.{◌≡◌, false, IfOk, OnOk, All, option_map};
ghost use Rattle.cpc_base.specs.declared.stop.Dialect.{Dialect};
ghost use Rattle.cpc_tree.specs.Erase.{Names as Spelling, in_table};
ghost use Rattle.cpc_tree.specs.Spelling.{IsApart, IsSpellable, CutsTo};
ghost use Rattle.cpc_printer_layout.specs.Sheets.{row_of};
ghost use Rattle.cpc_printer_layout.specs.Layout.{IsPrevious, previous_spelling, IsSetBehind, IsLaidOut, BlanksMore};

use crate::joining::joins;
use crate::sheet::{Gap, Lexeme, Piece, Sheet};
use crate::spelling::spell;
use cpc_base::{Names, NoMemory};
use std::alloc::Global;

/// The text of the tokens, each behind the blanks that were asked for, with one more where else two tokens would be
/// cut as one. It is cut into these tokens where each of them can be spelled (`cuts`).
///
/// # Errors
///
/// `NoMemory` for want of memory.
pub fn text(alloc: Global, names: &Names, sheet: &Sheet) -> Result<Vec<u8>, NoMemory>
    ensures laid { IfOk result (λ bytes. IsLaidOut (row_of (in_table names.now) sheet.now) bytes.items) }
    ensures cuts { IfOk result (λ bytes. (dialect : Dialect) → All (IsSpellable dialect) (row_of (in_table names.now) sheet.now) → CutsTo dialect bytes.items (row_of (in_table names.now) sheet.now)) }
{
    let mut out = Vec::new(alloc);
    let mut last = None;
    for piece in &sheet.pieces {
        set(alloc, &mut out, names, last, piece)?;
        last = Some(&piece.lexeme);
    }
    if last.is_some() {
        out.push(b'\n')?;
    }
    Ok(out)
}

/// Puts a token at the end of the text, whose last token is given.
fn set(
    alloc: Global,
    out: &mut Vec<u8>,
    names: &Names,
    last: Option<&Lexeme>,
    piece: &Piece,
) -> Result<(), NoMemory>
    ensures { OnOk result (IsSetBehind (in_table names.now) (option_map (λ x. x.now) last.entry) piece.now.lexeme out.old.items out.new.items) }
{
    let mut word = Vec::new(alloc);
    spell(&mut word, names, &piece.lexeme)?;
    put_gap(out, piece.gap, is_stuck(last, &word))?;
    out.extend_from_slice(&word)?;
    Ok(())
}

/// Whether the bytes would go on the last token if no blank stood between them.
fn is_stuck(last: Option<&Lexeme>, word: &[u8]) -> bool
    ensures { result ≡ false → (names : Spelling) (dialect : Dialect) → IsPrevious dialect names (option_map (λ x. x.now) last.entry) → IsApart (previous_spelling names (option_map (λ x. x.now) last.entry)) word.now }
{
    let Some(lexeme) = last else {
        return false;
    };
    let Some(b) = word.first() else {
        return false;
    };
    joins(lexeme, *b)
}

/// Puts the blanks before a token, one at least where it is asked for.
fn put_gap(out: &mut Vec<u8>, gap: Gap, is_needed: bool) -> Result<(), NoMemory>
    ensures { OnOk result (BlanksMore is_needed out.old.items out.new.items) }
{
    match gap {
        Gap::None => {
            if is_needed {
                out.push(b' ')?;
            }
        }
        Gap::Blank => out.push(b' ')?,
        Gap::Line(level) => {
            out.push(b'\n')?;
            put_levels(out, level)?;
        }
        Gap::Paragraph => out.extend_from_slice(b"\n\n")?,
    }
    Ok(())
}

/// Puts four blanks for each level.
fn put_levels(out: &mut Vec<u8>, level: usize) -> Result<(), NoMemory>
    ensures { OnOk result (BlanksMore false out.old.items out.new.items) }
{
    for _ in 0..level {
        out.extend_from_slice(b"    ")?;
    }
    Ok(())
}
