//! Statements that hold others, from their parts.
ghost use Rattle.std.specs.Prelude.{◌≡◌, option_map};
ghost use Rattle.cpc_tree.specs.Erase.{Names};
ghost use Rattle.cpc_tree.specs.Locate.{ident, located_expr, located_stmt};
ghost use Rattle.cpc_parser_statements.specs.StmtReaders.{block_of, if_of, while_of, do_of, for_of, label_of};
ghost use Rattle.cpc_parser_statements.specs.CodeViews.{held, seen};

use cpc_base::Place;
use cpc_tree::program::{Operand, Statement, Word};

/// A block.
pub fn block(place: Place, inner: Vec<Statement>) -> Statement
    ensures { (names : Names) → located_stmt names result ≡ block_of place (seen names inner.items) }
{
    Statement::Block { place, inner }
}

/// An `if`.
pub fn branched(
    place: Place,
    test: Operand,
    yes: Box<Statement>,
    no: Option<Box<Statement>>,
) -> Statement
    ensures { (names : Names) → located_stmt names result ≡ if_of place (located_expr names test, (located_stmt names yes.value, held names no)) }
{
    Statement::If {
        place,
        test,
        yes,
        no,
    }
}

/// A `while`.
pub fn looped(place: Place, test: Operand, body: Box<Statement>) -> Statement
    ensures { (names : Names) → located_stmt names result ≡ while_of place (located_expr names test, located_stmt names body.value) }
{
    Statement::While { place, test, body }
}

/// A `do`.
pub fn until(place: Place, body: Box<Statement>, test: Operand) -> Statement
    ensures { (names : Names) → located_stmt names result ≡ do_of place (located_stmt names body.value, located_expr names test) }
{
    Statement::DoWhile { place, body, test }
}

/// A `for`.
pub fn counted(
    place: Place,
    first: Vec<Statement>,
    test: Option<Operand>,
    step: Option<Box<Statement>>,
    body: Box<Statement>,
) -> Statement
    ensures { (names : Names) → located_stmt names result ≡ for_of place (seen names first.items, (option_map (located_expr names) test, (held names step, located_stmt names body.value))) }
{
    Statement::For {
        place,
        first,
        test,
        step,
        body,
    }
}

/// A statement with a label.
pub fn labels(label: Word, inner: Box<Statement>) -> Statement
    ensures { (names : Names) → located_stmt names result ≡ label_of (ident names label, located_stmt names inner.value) }
{
    Statement::Label { label, inner }
}
