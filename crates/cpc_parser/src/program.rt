//! Whole programs.
ghost use Rattle.std.specs.Prelude.{◌≡◌, [], ◌++◌, List, length, map, IfOk};
ghost use Rattle.cpc_tree.specs.Erase.{Names as Spelling, in_table};
ghost use Rattle.cpc_tree.specs.Located.{LProgram};
ghost use Rattle.cpc_tree.specs.Grammar.{nesting_limit, first_place, IsProgram, IsParseFault};
ghost use Rattle.cpc_tree.specs.Tokens.{Placed};
ghost use Rattle.cpc_tree.specs.Locate.{located, located_item};
ghost use Rattle.cpc_parser_types.specs.Views.{placed, Gives};
ghost use Rattle.cpc_parser.specs.ItemViews.{flat, program_whole, IfFault, IsRead};

use crate::item::{begins_item, item};
use cpc_base::{Dialect, Names, Place, Stop};
use cpc_parser_types::{DEEP, ParseFault, Refusal, SYNTAX, fault};
use cpc_tree::program::{Item, Program};
use cpc_tree::token::Token;
use std::alloc::Global;

// How deep a text may nest.
fn nesting_limit(dialect: Dialect) -> usize
    ensures { result ≡ nesting_limit dialect }
{
    match dialect {
        Dialect::Cpc => 256,
        Dialect::Event => 512,
    }
}

// The items that all of the tokens are.
fn items(alloc: Global, depth: usize, tokens: &[Token]) -> Result<Vec<Item>, Refusal>
    ensures { (names : Spelling) → Gives (λ x. (map (located_item names) x.items, 0, [])) result (flat (program_whole depth) (placed names tokens.now)) }
{
    let mut all = Vec::new(alloc);
    let mut rest = tokens;
    'all: while begins_item(rest) {
        rest = item(alloc, depth, &mut all, rest)?;
    }
    if !rest.is_empty() {
        return fault(rest);
    }
    Ok(all)
}

// The place of the first of the last tokens, or the end.
fn place_before(tokens: &[Token], left: usize, end: Place) -> Place
    ensures { (names : Spelling) (front rest : List Placed) → placed names tokens.now ≡ front ++ rest → length rest ≡ left → result ≡ first_place end rest }
{
    match tokens.get(tokens.len().saturating_sub(left)) {
        Some(token) => token.place,
        None => end,
    }
}

/// The program that the tokens are, or the first token at which no program is left.
///
/// `end` is the place behind the text. The names go into the program, and are dropped at a refusal.
pub fn parse(
    alloc: Global,
    tokens: &[Token],
    end: Place,
    dialect: Dialect,
    names: Names,
) -> Result<Program, Stop<ParseFault>>
    ensures program { IfOk result (λ p. (p.names ≡ names) × IsProgram dialect (placed (in_table names) tokens.now) end (located p)) }
    ensures fault { IfFault result (λ f. IsParseFault dialect (placed (in_table names) tokens.now) end f.place f.number) }
    ensures complete { (q : LProgram) → IsProgram dialect (placed (in_table names) tokens.now) end q → IsRead q result }
    // The program's names are those of its tokens: texts of names that agree on the tokens agree on the program.
    ensures alike { IfOk result (λ p. (a b : Spelling) → placed a tokens.now ≡ placed b tokens.now → map (located_item a) p.items.items ≡ map (located_item b) p.items.items) }
{
    match items(alloc, nesting_limit(dialect), tokens) {
        Ok(items) => Ok(Program { names, items, end }),
        Err(Refusal::Memory) => Err(Stop::Memory),
        Err(Refusal::Syntax(left)) => Err(Stop::Fault(ParseFault {
            place: place_before(tokens, left, end),
            number: SYNTAX,
        })),
        Err(Refusal::Deep(left)) => Err(Stop::Fault(ParseFault {
            place: place_before(tokens, left, end),
            number: DEEP,
        })),
    }
}
