//! Statements (C11 6.8).
ghost use Rattle.std.specs.Prelude.{◌≡◌, ◌+◌, ◌-◌, ◌<◌, ◌≤◌, length, IfOk};
ghost use Rattle.cpc_tree.specs.Erase.{Names};
ghost use Rattle.cpc_tree.specs.Locate.{located_stmt};
ghost use Rattle.cpc_parser_types.specs.Views.{placed, Gives};
ghost use Rattle.cpc_parser_statements.specs.StmtReaders.{stmt_low, statement_at};
ghost use Rattle.cpc_parser_statements.specs.CodeViews.{seen, class_seen, class_in, block_in, if_in, while_in, do_in, for_in, labelled_at, entry_at, entries_at, braced_at};

use crate::class::{Class, begins_entry, begins_label, class_of, is_sentence, least};
use crate::making;
use crate::pieces::{
    broken, continued, declaration, first_part, goto, last_part, maybe, returned, sentence, spawn,
    test,
};
use cpc_base::Place;
use cpc_parser_types::{
    Refusal, begins_base, begins_name, begins_word, deep, deeper, expect_mark, expect_word, fault,
    name,
};
use cpc_tree::program::Statement;
use cpc_tree::token::{Keyword, Punctuator, Token};
use std::alloc::Global;

/// A statement.
#[cycle(statement)]
pub fn statement(
    alloc: Global,
    depth: usize,
    tokens: &[Token],
) -> Result<(Statement, usize, &[Token]), Refusal>
    requires { 0 < depth }
    ensures gives { (names : Names) → Gives (λ x. (located_stmt names x.0, x.1, placed names x.2.now)) result (statement_at depth (placed names tokens.now)) }
    ensures nest { IfOk result (λ x. x.1 ≤ depth) }
    ensures shorter { IfOk result (λ x. length x.2.now < length tokens.now) }
{
    let Some(class) = class_of(tokens) else {
        return fault(tokens);
    };
    if depth < least(class) {
        return deep(tokens);
    }
    if is_sentence(class) {
        return labelled(alloc, depth, tokens);
    }
    let Some((token, rest)) = tokens.split_first() else {
        return fault(tokens);
    };
    inside(alloc, depth - 1, token.place, class, rest)
}

// What stands behind the first token of a statement of a class, which stands at the place.
#[cycle(statement)]
fn inside(
    alloc: Global,
    room: usize,
    place: Place,
    class: Class,
    tokens: &[Token],
) -> Result<(Statement, usize, &[Token]), Refusal>
    requires low { stmt_low (class_seen class) ≤ room + 1 }
    requires high { room < usize.MAX }
    ensures gives { (names : Names) → Gives (λ x. (located_stmt names x.0, x.1, placed names x.2.now)) result (class_in place room (class_seen class) (placed names tokens.now)) }
    ensures nest { IfOk result (λ x. x.1 ≤ room + 1) }
    ensures shorter { IfOk result (λ x. length x.2.now ≤ length tokens.now) }
{
    match class {
        Class::Block => braced(alloc, room, place, tokens),
        Class::Empty => Ok((Statement::Empty { place }, 1, tokens)),
        Class::If => conditional(alloc, room, place, tokens),
        Class::While => while_loop(alloc, room, place, tokens),
        Class::Do => do_loop(alloc, room, place, tokens),
        Class::For => for_loop(alloc, room, place, tokens),
        Class::Goto => goto(place, tokens),
        Class::Break => broken(place, tokens),
        Class::Continue => continued(place, tokens),
        Class::Return => returned(alloc, room, place, tokens),
        Class::Spawn => spawn(alloc, room, place, tokens),
        Class::Simple => fault(tokens),
    }
}

// A statement that stands in another one, in the box in which that holds it. So no function of this cycle keeps a whole
// statement while it reads the next, and what nests takes little of the stack.
#[cycle(statement)]
fn inner(
    alloc: Global,
    depth: usize,
    tokens: &[Token],
) -> Result<(Box<Statement>, usize, &[Token]), Refusal>
    requires { 0 < depth }
    ensures gives { (names : Names) → Gives (λ x. (located_stmt names x.0.value, x.1, placed names x.2.now)) result (statement_at depth (placed names tokens.now)) }
    ensures nest { IfOk result (λ x. x.1 ≤ depth) }
    ensures shorter { IfOk result (λ x. length x.2.now < length tokens.now) }
{
    let (statement, nest, rest) = statement(alloc, depth, tokens)?;
    let held = Box::new(alloc, statement)?;
    Ok((held, nest, rest))
}

// A label and its statement, or a statement that begins with an expression, a mark or a section.
#[cycle(statement)]
fn labelled(
    alloc: Global,
    depth: usize,
    tokens: &[Token],
) -> Result<(Statement, usize, &[Token]), Refusal>
    requires { 0 < depth }
    ensures gives { (names : Names) → Gives (λ x. (located_stmt names x.0, x.1, placed names x.2.now)) result (labelled_at depth (placed names tokens.now)) }
    ensures nest { IfOk result (λ x. x.1 ≤ depth) }
    ensures shorter { IfOk result (λ x. length x.2.now < length tokens.now) }
{
    if depth < 2 {
        if begins_name(tokens) {
            return deep(tokens);
        }
        return sentence(alloc, depth, tokens);
    }
    if !begins_label(tokens) {
        return sentence(alloc, depth, tokens);
    }
    let (label, rest) = name(tokens)?;
    let (_, rest) = expect_mark(rest, Punctuator::Colon)?;
    let (inner, nest, rest) = inner(alloc, depth - 1, rest)?;
    Ok((making::labels(label, inner), nest + 1, rest))
}

/// A block.
pub fn block(
    alloc: Global,
    depth: usize,
    tokens: &[Token],
) -> Result<(Statement, usize, &[Token]), Refusal>
    requires { 0 < depth }
    ensures gives { (names : Names) → Gives (λ x. (located_stmt names x.0, x.1, placed names x.2.now)) result (braced_at depth (placed names tokens.now)) }
    ensures nest { IfOk result (λ x. x.1 ≤ depth) }
    ensures shorter { IfOk result (λ x. length x.2.now < length tokens.now) }
{
    let (place, rest) = expect_mark(tokens, Punctuator::LeftBrace)?;
    braced(alloc, depth - 1, place, rest)
}

// What stands behind the brace of a block, which stands at the place.
#[cycle(statement)]
fn braced(
    alloc: Global,
    room: usize,
    place: Place,
    tokens: &[Token],
) -> Result<(Statement, usize, &[Token]), Refusal>
    requires { room < usize.MAX }
    ensures gives { (names : Names) → Gives (λ x. (located_stmt names x.0, x.1, placed names x.2.now)) result (block_in place room (placed names tokens.now)) }
    ensures nest { IfOk result (λ x. x.1 ≤ room + 1) }
    ensures shorter { IfOk result (λ x. length x.2.now < length tokens.now) }
{
    let (inner, nest, rest) = entries(alloc, room, tokens)?;
    let (_, rest) = expect_mark(rest, Punctuator::RightBrace)?;
    Ok((making::block(place, inner), nest + 1, rest))
}

// The statements and declarations of a block.
#[cycle(statement)]
fn entries(
    alloc: Global,
    room: usize,
    tokens: &[Token],
) -> Result<(Vec<Statement>, usize, &[Token]), Refusal>
    ensures gives { (names : Names) → Gives (λ x. (seen names x.0.items, x.1, placed names x.2.now)) result (entries_at room (placed names tokens.now)) }
    ensures nest { IfOk result (λ x. x.1 ≤ room) }
    ensures shorter { IfOk result (λ x. length x.2.now ≤ length tokens.now) }
{
    let mut all = Vec::new(alloc);
    let mut nest = 0;
    let mut rest = tokens;
    'entries: while begins_entry(rest) {
        if room == 0 {
            return deep(rest);
        }
        let (more, other, behind) = entry(alloc, room, all, rest)?;
        all = more;
        nest = deeper(nest, other);
        rest = behind;
    }
    Ok((all, nest, rest))
}

// A statement or a declaration of a block, behind the statements before it.
#[cycle(statement)]
fn entry(
    alloc: Global,
    room: usize,
    all: Vec<Statement>,
    tokens: &[Token],
) -> Result<(Vec<Statement>, usize, &[Token]), Refusal>
    requires { 0 < room }
    ensures gives { (names : Names) → Gives (λ x. (seen names x.0.items, x.1, placed names x.2.now)) result (entry_at (seen names all.items) room (placed names tokens.now)) }
    ensures nest { IfOk result (λ x. x.1 ≤ room) }
    ensures shorter { IfOk result (λ x. length x.2.now < length tokens.now) }
{
    if begins_base(tokens) {
        return declaration(alloc, room, all, tokens);
    }
    let (statement, nest, rest) = statement(alloc, room, tokens)?;
    let mut all = all;
    all.push(statement)?;
    Ok((all, nest, rest))
}

// An `if` behind its keyword, which stands at the place. An `else` belongs to the last `if` that can have it.
#[cycle(statement)]
fn conditional(
    alloc: Global,
    room: usize,
    place: Place,
    tokens: &[Token],
) -> Result<(Statement, usize, &[Token]), Refusal>
    requires low { 0 < room }
    requires high { room < usize.MAX }
    ensures gives { (names : Names) → Gives (λ x. (located_stmt names x.0, x.1, placed names x.2.now)) result (if_in place room (placed names tokens.now)) }
    ensures nest { IfOk result (λ x. x.1 ≤ room + 1) }
    ensures shorter { IfOk result (λ x. length x.2.now < length tokens.now) }
{
    let (test, outer, rest) = test(alloc, room, tokens)?;
    let (yes, first, rest) = inner(alloc, room, rest)?;
    if !begins_word(rest, Keyword::Else) {
        let made = making::branched(place, test, yes, None);
        return Ok((made, deeper(outer, first) + 1, rest));
    }
    let (_, rest) = expect_word(rest, Keyword::Else)?;
    let (no, second, rest) = inner(alloc, room, rest)?;
    let made = making::branched(place, test, yes, Some(no));
    Ok((made, deeper(outer, deeper(first, second)) + 1, rest))
}

// A `while` behind its keyword, which stands at the place.
#[cycle(statement)]
fn while_loop(
    alloc: Global,
    room: usize,
    place: Place,
    tokens: &[Token],
) -> Result<(Statement, usize, &[Token]), Refusal>
    requires low { 0 < room }
    requires high { room < usize.MAX }
    ensures gives { (names : Names) → Gives (λ x. (located_stmt names x.0, x.1, placed names x.2.now)) result (while_in place room (placed names tokens.now)) }
    ensures nest { IfOk result (λ x. x.1 ≤ room + 1) }
    ensures shorter { IfOk result (λ x. length x.2.now < length tokens.now) }
{
    let (test, outer, rest) = test(alloc, room, tokens)?;
    let (body, nest, rest) = inner(alloc, room, rest)?;
    let made = making::looped(place, test, body);
    Ok((made, deeper(outer, nest) + 1, rest))
}

// A `do` behind its keyword, which stands at the place.
#[cycle(statement)]
fn do_loop(
    alloc: Global,
    room: usize,
    place: Place,
    tokens: &[Token],
) -> Result<(Statement, usize, &[Token]), Refusal>
    requires low { 0 < room }
    requires high { room < usize.MAX }
    ensures gives { (names : Names) → Gives (λ x. (located_stmt names x.0, x.1, placed names x.2.now)) result (do_in place room (placed names tokens.now)) }
    ensures nest { IfOk result (λ x. x.1 ≤ room + 1) }
    ensures shorter { IfOk result (λ x. length x.2.now < length tokens.now) }
{
    let (body, nest, rest) = inner(alloc, room, tokens)?;
    let (_, rest) = expect_word(rest, Keyword::While)?;
    let (test, outer, rest) = test(alloc, room, rest)?;
    let (_, rest) = expect_mark(rest, Punctuator::Semicolon)?;
    let made = making::until(place, body, test);
    Ok((made, deeper(nest, outer) + 1, rest))
}

// A `for` behind its keyword, which stands at the place.
#[cycle(statement)]
fn for_loop(
    alloc: Global,
    room: usize,
    place: Place,
    tokens: &[Token],
) -> Result<(Statement, usize, &[Token]), Refusal>
    requires low { 0 < room }
    requires high { room < usize.MAX }
    ensures gives { (names : Names) → Gives (λ x. (located_stmt names x.0, x.1, placed names x.2.now)) result (for_in place room (placed names tokens.now)) }
    ensures nest { IfOk result (λ x. x.1 ≤ room + 1) }
    ensures shorter { IfOk result (λ x. length x.2.now < length tokens.now) }
{
    let (_, rest) = expect_mark(tokens, Punctuator::LeftParen)?;
    let (first, one, rest) = first_part(alloc, room, rest)?;
    let (test, two, rest) = maybe(alloc, room, rest)?;
    let (step, three, rest) = last_part(alloc, room, rest)?;
    let (body, four, rest) = inner(alloc, room, rest)?;
    let made = making::counted(place, first, test, step, body);
    let nest = deeper(one, deeper(two, deeper(three, four)));
    Ok((made, nest + 1, rest))
}
