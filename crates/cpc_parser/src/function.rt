//! Functions and prototypes (C11 6.9.1).
ghost use Rattle.std.specs.Prelude.{◌≡◌, ◌<◌, List, [], ◌∷◌, length, map, IfOk};
ghost use Rattle.cpc_tree.specs.Erase.{Names, type_of};
ghost use Rattle.cpc_tree.specs.Locate.{located_item, located_parameter};
ghost use Rattle.cpc_tree.specs.declared.program.CType as GType;
ghost use Rattle.cpc_tree.specs.declared.program.Word as GWord;
ghost use Rattle.cpc_tree.specs.ItemGrammar.{all_named};
ghost use Rattle.cpc_parser_types.specs.Views.{placed, Gives};
ghost use Rattle.cpc_parser.specs.ItemReaders.{head_at, behind_at, has_body};
ghost use Rattle.cpc_parser.specs.ItemViews.{flat, signature_at, head_view};

use cpc_base::Place;
use cpc_parser_statements::block;
use cpc_parser_types::{
    Refusal, base_type, begins_mark, deep, expect_mark, fault, name, parameters, stars,
};
use cpc_tree::program::{CType, Function, Item, Mode, Parameter, Word};
use cpc_tree::token::{Punctuator, Token};
use std::alloc::Global;

/// The head of a function: its result, its name and its parameters.
#[derive(Drop)]
pub struct Head {
    pub word: Word,
    pub result: CType,
    pub parameters: Vec<Parameter>,
}

/// The parameters of a function in their brackets.
pub fn signature(
    alloc: Global,
    depth: usize,
    tokens: &[Token],
) -> Result<(Vec<Parameter>, &[Token]), Refusal>
    ensures gives { (names : Names) → Gives (λ x. (map (located_parameter names) x.0.items, 0, placed names x.1.now)) result (flat (signature_at depth) (placed names tokens.now)) }
    ensures shorter { IfOk result (λ x. length x.1.now < length tokens.now) }
{
    let (_, rest) = expect_mark(tokens, Punctuator::LeftParen)?;
    let (all, _, rest) = parameters(alloc, depth, rest)?;
    let (_, rest) = expect_mark(rest, Punctuator::RightParen)?;
    Ok((all, rest))
}

/// The head of a function.
pub fn head_of(alloc: Global, depth: usize, tokens: &[Token]) -> Result<(Head, &[Token]), Refusal>
    ensures gives { (names : Names) → Gives (λ x. (head_view names x.0.word x.0.result x.0.parameters.items, 0, placed names x.1.now)) result (flat (head_at depth) (placed names tokens.now)) }
    ensures shorter { IfOk result (λ x. length x.1.now < length tokens.now) }
{
    let (base, rest) = base_type(tokens)?;
    let (result, _, rest) = stars(alloc, depth, base, rest)?;
    let (word, rest) = name(rest)?;
    let (parameters, rest) = signature(alloc, depth, rest)?;
    let whole = Head {
        word,
        result,
        parameters,
    };
    Ok((whole, rest))
}

// Whether every parameter has its name.
fn all_named(parameters: &[Parameter]) -> bool
    ensures { (names : Names) → result ≡ all_named (λ p. p.called) (map (located_parameter names) parameters.now) }
{
    for parameter in parameters {
        if parameter.word.is_none() {
            return false;
        }
    }
    true
}

// Whether a body may stand behind the parameters.
fn has_body(mode: Mode, parameters: &[Parameter]) -> bool
    ensures { (names : Names) (word : GWord.Word) (type : GType.CType) → result ≡ has_body mode (head_view names word type parameters.now) }
{
    match mode {
        Mode::Extern => false,
        _ => all_named(parameters),
    }
}

/// What stands behind the head of a function that begins at the place: the end of a prototype, or its body.
pub fn behind(
    alloc: Global,
    depth: usize,
    place: Place,
    mode: Mode,
    head: Head,
    tokens: &[Token],
) -> Result<(Item, &[Token]), Refusal>
    ensures gives { (names : Names) → Gives (λ x. (located_item names x.0 ∷ [], 0, placed names x.1.now)) result (flat (behind_at place mode (head_view names head.word head.result head.parameters.items) depth) (placed names tokens.now)) }
    ensures shorter { IfOk result (λ x. length x.1.now < length tokens.now) }
{
    let Head {
        word,
        result,
        parameters,
    } = head;
    if !begins_mark(tokens, Punctuator::LeftBrace) {
        let (_, rest) = expect_mark(tokens, Punctuator::Semicolon)?;
        let whole = Item::Prototype {
            place,
            mode,
            word,
            result,
            parameters,
        };
        return Ok((whole, rest));
    }
    if !has_body(mode, &parameters) {
        return fault(tokens);
    }
    if depth == 0 {
        return deep(tokens);
    }
    let (body, _, rest) = block(alloc, depth, tokens)?;
    let whole = Item::Function(Function {
        place,
        mode,
        word,
        result,
        parameters,
        body,
    });
    Ok((whole, rest))
}
