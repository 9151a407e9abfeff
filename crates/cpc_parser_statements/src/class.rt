//! How statements begin and go on.
ghost use Rattle.std.specs.Prelude.{◌≡◌, is_some, ◌||◌};
ghost use Rattle.std.specs.Option.{option_map};
ghost use Rattle.cpc_tree.specs.Erase.{Names};
ghost use Rattle.cpc_parser_types.specs.Views.{placed};
ghost use Rattle.cpc_parser_expressions.specs.ShapeViews.{shape_of};
ghost use Rattle.cpc_parser_statements.specs.SimpleReaders.{Begun, simple_class, more_class};
ghost use Rattle.cpc_parser_statements.specs.StmtReaders.{stmt_class, stmt_low};
ghost use Rattle.cpc_parser_statements.specs.CodeViews.{of_first, first_seen, more_seen, class_seen, begins_entry, begins_label, is_sentence};

use cpc_base::Place;
use cpc_num::Op;
use cpc_parser_expressions::{Shape, begins_expr};
use cpc_parser_types::{
    assigning, begins_base, begins_mark, begins_name, first_mark, first_word, stepping,
};
use cpc_tree::token::{Keyword, Punctuator, Token};

/// How a statement that ends with a semicolon begins.
#[derive(Clone, Copy)]
pub enum First {
    /// With `cpc_detached`.
    Section,
    /// With `++` or `--`.
    Step(Op),
    /// With an expression.
    Expression,
}

/// How it goes on behind its first expression.
#[derive(Clone, Copy)]
pub enum More {
    Sets,
    Updates(Op),
    Steps(Op),
}

/// Which statement it is.
#[derive(Clone, Copy)]
pub enum Class {
    Block,
    Empty,
    If,
    While,
    Do,
    For,
    Goto,
    Break,
    Continue,
    Return,
    Spawn,
    /// A label and its statement, or one that begins as `First` says.
    Simple,
}

/// How the tokens begin a statement that ends with a semicolon, if they do.
pub fn first_of(tokens: &[Token]) -> Option<First>
    ensures { (names : Names) → option_map first_seen result ≡ of_first simple_class (placed names tokens.now) }
{
    if let Some(word) = first_word(tokens) {
        if word == Keyword::CpcDetached {
            return Some(First::Section);
        }
    }
    if let Some(mark) = first_mark(tokens) {
        if let Some(op) = stepping(mark) {
            return Some(First::Step(op));
        }
    }
    if begins_expr(tokens) {
        Some(First::Expression)
    } else {
        None
    }
}

/// How the tokens go on behind the shape.
pub fn more_of(shape: &Shape, tokens: &[Token]) -> Option<More>
    ensures { (names : Names) (place : Place) → option_map (more_seen (shape_of names shape.now)) result ≡ of_first (more_class (Begun place (shape_of names shape.now))) (placed names tokens.now) }
{
    let mark = first_mark(tokens)?;
    if mark == Punctuator::Equal {
        return Some(More::Sets);
    }
    if let Some(op) = assigning(mark) {
        return Some(More::Updates(op));
    }
    match shape {
        Shape::Other(_) => None,
        _ => match stepping(mark) {
            Some(op) => Some(More::Steps(op)),
            None => None,
        },
    }
}

/// Which statement the tokens begin, if they begin one.
pub fn class_of(tokens: &[Token]) -> Option<Class>
    ensures { (names : Names) → option_map class_seen result ≡ of_first stmt_class (placed names tokens.now) }
{
    match first_word(tokens) {
        Some(Keyword::If) => Some(Class::If),
        Some(Keyword::While) => Some(Class::While),
        Some(Keyword::Do) => Some(Class::Do),
        Some(Keyword::For) => Some(Class::For),
        Some(Keyword::Goto) => Some(Class::Goto),
        Some(Keyword::Break) => Some(Class::Break),
        Some(Keyword::Continue) => Some(Class::Continue),
        Some(Keyword::Return) => Some(Class::Return),
        Some(Keyword::CpcSpawn) => Some(Class::Spawn),
        _ => match first_mark(tokens) {
            Some(Punctuator::LeftBrace) => Some(Class::Block),
            Some(Punctuator::Semicolon) => Some(Class::Empty),
            _ => match first_of(tokens) {
                Some(_) => Some(Class::Simple),
                None => None,
            },
        },
    }
}

/// The least nesting of the statements of a class; one that begins as `First` says has its own.
pub fn least(class: Class) -> usize
    ensures { result ≡ stmt_low (class_seen class) }
{
    match class {
        Class::If => 2,
        Class::While => 2,
        Class::Do => 2,
        Class::For => 2,
        _ => 1,
    }
}

/// Whether a name and a colon come next.
pub fn begins_label(tokens: &[Token]) -> bool
    ensures { (names : Names) → result ≡ begins_label (placed names tokens.now) }
{
    let Some((_, rest)) = tokens.split_first() else {
        return false;
    };
    begins_name(tokens) && begins_mark(rest, Punctuator::Colon)
}

/// Whether the tokens begin with what stands in a block.
pub fn begins_entry(tokens: &[Token]) -> bool
    ensures { (names : Names) → result ≡ begins_entry (placed names tokens.now) }
{
    begins_base(tokens) || class_of(tokens).is_some()
}

/// Whether a statement of the class is a label's, or begins as `First` says.
pub fn is_sentence(class: Class) -> bool
    ensures { result ≡ is_sentence (class_seen class) }
{
    match class {
        Class::Simple => true,
        _ => false,
    }
}
