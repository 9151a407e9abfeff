//! How a token is spelled (C11 6.4).
ghost use Rattle.std.specs.Prelude.{◌≡◌, ◌++◌, [], ◌∷◌, OnOk, flat_map};
ghost use Rattle.cpc_tree.specs.Erase.{in_table};
ghost use Rattle.cpc_tree.specs.Pieces.{quote_byte};
ghost use Rattle.cpc_tree.specs.Spelling.{kind_suffix, byte_spelling, spelling};
ghost use Rattle.cpc_tree.specs.Spelling as S;
ghost use Rattle.cpc_printer_layout.specs.Sheets.{lexeme_of};
ghost use Rattle.cpc_printer_layout.specs.Layout.{quote_of};

use crate::sheet::Lexeme;
use cpc_base::{Names, NoMemory, put_decimal};
use cpc_num::Kind;

/// What encloses a character, and what a string.
#[derive(Clone, Copy)]
pub(crate) enum Quote {
    Single,
    Double,
}

impl Quote {
    fn byte(self) -> u8
        ensures { result ≡ quote_byte (quote_of self) }
    {
        match self {
            Quote::Single => b'\'',
            Quote::Double => b'"',
        }
    }
}

/// Puts the bytes of a token at the end. An integer is decimal, with the suffix of its kind.
#[tactic(auto, unfolding(cpc_tree::specs::Spelling::spelling))]
pub(crate) fn spell(out: &mut Vec<u8>, names: &Names, lexeme: &Lexeme) -> Result<(), NoMemory>
    ensures { OnOk result (out.new.items ≡ out.old.items ++ spelling (lexeme_of (in_table names.now) lexeme.now)) }
{
    match lexeme {
        Lexeme::Keyword(word) => out.extend_from_slice(word.spelling())?,
        Lexeme::Punctuator(mark) => out.extend_from_slice(mark.spelling())?,
        Lexeme::Name(name) => {
            if let Some(text) = names.text(*name) {
                out.extend_from_slice(text)?;
            }
        }
        Lexeme::Filler => out.push(b'_')?,
        Lexeme::Integer(kind, value) => {
            put_decimal(out, value.unsigned_abs())?;
            out.extend_from_slice(suffix(*kind))?;
        }
        Lexeme::Character(value) => literal(out, Quote::Single, &[value.rem_euclid(256) as u8])?,
        Lexeme::Text(bytes) => literal(out, Quote::Double, bytes)?,
    }
    Ok(())
}

/// The suffix by which a decimal integer has a kind (C11 6.4.4.1).
fn suffix(kind: Kind) -> &'static [u8]
    ensures { result.now ≡ kind_suffix kind }
{
    match kind {
        Kind::Char | Kind::UChar | Kind::Int => b"",
        Kind::UInt => b"u",
        Kind::Long => b"l",
        Kind::ULong => b"ul",
    }
}

/// Puts bytes between two quotes.
fn literal(out: &mut Vec<u8>, quote: Quote, bytes: &[u8]) -> Result<(), NoMemory>
    ensures { OnOk result (out.new.items ≡ out.old.items ++ (quote_byte (quote_of quote) ∷ flat_map (byte_spelling (quote_of quote)) bytes.now ++ quote_byte (quote_of quote) ∷ [])) }
{
    out.push(quote.byte())?;
    for b in bytes {
        byte(out, quote, *b)?;
    }
    out.push(quote.byte())?;
    Ok(())
}

/// Puts a byte of a literal as it stands, or by three octal digits, so that no digit behind it is taken in.
#[tactic(auto, unfolding(cpc_tree::specs::Spelling::byte_spelling))]
fn byte(out: &mut Vec<u8>, quote: Quote, b: u8) -> Result<(), NoMemory>
    ensures { OnOk result (out.new.items ≡ out.old.items ++ byte_spelling (quote_of quote) b) }
{
    if is_bare(quote, b) {
        out.push(b)?;
    } else {
        out.extend_from_slice(&[b'\\', b'0' + b / 64, b'0' + b / 8 % 8, b'0' + b % 8])?;
    }
    Ok(())
}

/// Whether a byte of a literal may be written as it stands. A string takes bytes from 128 on too.
#[tactic(auto, using(std::proofs::lemmas::Bool::Decides::nat_tests), unfolding(cpc_tree::specs::Pieces::is_plain))]
fn is_bare(quote: Quote, b: u8) -> bool
    ensures { result ≡ S.is_bare (quote_of quote) b }
{
    match quote {
        Quote::Single => 32 <= b && b < 127 && b != b'\'' && b != b'\\',
        Quote::Double => 32 <= b && b != 127 && b != b'"' && b != b'\\',
    }
}
