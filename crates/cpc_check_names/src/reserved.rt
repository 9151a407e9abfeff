//! Names that the language keeps for itself.
ghost use Rattle.std.specs.Prelude.{◌≡◌, map};
ghost use Rattle.cpc_tree.specs.Erase.{Names as Spelling, in_table};
ghost use Rattle.cpc_tree.specs.Locate.{ident};
ghost use Rattle.cpc_check_rules.specs.Apart.{Spells};
ghost use Rattle.cpc_check_rules.specs.FunctionRules.{begins_with, holds_underscores, is_kept, is_reserved, reserved_breaks};
ghost use Rattle.cpc_check_rules.specs.Noted.{noted, first_of};

use cpc_base::{Dialect, Names};
use cpc_check_rules::{First, Rule};
use cpc_tree::program::Word;

/// Whether a text begins with another.
fn begins_with(start: &[u8], text: &[u8]) -> bool
    ensures { result ≡ begins_with start.now text.now }
{
    text.starts_with(start)
}

/// Whether a text holds two underscores in a row.
fn holds_underscores(text: &[u8]) -> bool
    ensures { result ≡ holds_underscores text.now }
{
    for start in 0..text.len() {
        if begins_with(b"__", &text[start..]) {
            return true;
        }
    }
    false
}

/// Whether a name is kept in both dialects. A translation makes names that begin with `cpc__` and `rt__`, for functions that are
/// called `cpc` and `rt`.
fn is_kept(text: &[u8]) -> bool
    ensures { result ≡ is_kept text.now }
{
    (begins_with(b"cpc_", text) && !begins_with(b"cpc__", text))
        || (begins_with(b"rt_", text) && !begins_with(b"rt__", text))
        || text == b"malloc".as_slice()
        || text == b"free".as_slice()
}

/// Whether a dialect keeps a name for itself.
fn is_reserved(dialect: Dialect, text: &[u8]) -> bool
    ensures { result ≡ is_reserved dialect text.now }
{
    match dialect {
        Dialect::Event => is_kept(text),
        Dialect::Cpc => is_kept(text) || holds_underscores(text),
    }
}

/// Whether a dialect keeps a name of a table for itself. It keeps none that the table does not have.
fn is_reserved_name(dialect: Dialect, names: &Names, word: Word) -> bool
    ensures { result ≡ is_reserved dialect (in_table names.now word.name) }
{
    match names.text(word.name) {
        Some(text) => is_reserved(dialect, text),
        None => false,
    }
}

/// Notes each name of a table that the language keeps for itself.
fn note_reserved(first: &mut First, dialect: Dialect, names: &Names, words: &[Word])
    ensures { first_of first.new ≡ noted (first_of first.old) (reserved_breaks dialect (map (ident (in_table names.now)) words.now)) }
{
    for word in words {
        let is_broken = is_reserved_name(dialect, names, *word);
        first.note_if(is_broken, word.place, Rule::Reserved);
    }
}

/// Notes each name that the language keeps for itself.
pub fn name_rules(first: &mut First, dialect: Dialect, names: &Names, words: &[Word])
    ensures table { first_of first.new ≡ noted (first_of first.old) (reserved_breaks dialect (map (ident (in_table names.now)) words.now)) }
    ensures spelled { (spelling : Spelling) → Spells names.now spelling → first_of first.new ≡ noted (first_of first.old) (reserved_breaks dialect (map (ident spelling) words.now)) }
{
    note_reserved(first, dialect, names, words);
}
