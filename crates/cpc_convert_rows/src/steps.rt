//! What the rows of pieces have to know of a node.
ghost use Rattle.std.specs.Prelude.{◌≡◌, ℕ, Option, not};
ghost use Rattle.cpc_tree.specs.Erase.{Names, expr_of, stmt_of};
ghost use Rattle.cpc_forms_code.specs.Seen.{manner_seen, stood_seen};
ghost use Rattle.cpc_forms_code.specs.Graphs.{node_seen};
ghost use Rattle.cpc_chains_event.specs.Lines as L;
ghost use Rattle.cpc_chains_event.specs.Pieces as P;
ghost use Rattle.cpc_convert_routines.specs.Routines.{Routine};
ghost use Rattle.cpc_chains_event.specs.Rows as R;
ghost use Rattle.cpc_convert_rows.specs.Steps.{IsOf, no_step, step_of};
ghost use Rattle.cpc_convert_rows.specs.Ways as W;

use cpc_forms_code::{Manner, Node, SplitFunction, Stood};
use cpc_tree::program::Statement;

/// Where control goes from a node: as a test holds or not, and behind a call that is left over a frame; the way of the test that stands
/// there, and where control falls behind its lines; whether it has a row of its own, waits, or returns a value.
#[derive(Clone, Copy)]
pub struct Step {
    pub yes: Option<usize>,
    pub no: Option<usize>,
    pub behind: Option<usize>,
    pub test: Option<usize>,
    pub falls: Option<usize>,
    pub has_row: bool,
    pub waits: bool,
    pub returns: bool,
}

// Where control goes on from the arrival of a native call.
fn behind_arrival(split: &SplitFunction<'_>, arrival: Option<usize>) -> Option<usize>
    ensures { (names : Names) (r : Routine) → IsOf names split.now r → result ≡ L.behind_arrival r arrival }
{
    match arrival {
        Some(number) => match split.graph.nodes.get(number) {
            Some(node) => node.yes,
            None => None,
        },
        None => None,
    }
}

// The way of the test that stands at a node.
fn test(node: Node<'_>) -> Option<usize>
    ensures { (names : Names) → result ≡ W.test_of (stood_seen names node.entry.stood) node.entry.yes }
{
    match node.stood {
        Stood::Test(Some(_)) => node.yes,
        _ => None,
    }
}

// Where control falls behind a simple statement in place.
fn simple_falls(s: &Statement, next: Option<usize>) -> Option<usize>
    ensures { (names : Names) → result ≡ W.simple_falls (stmt_of names s.now) next }
{
    match s {
        Statement::Return { .. } => None,
        _ => next,
    }
}

// Where control falls behind what stands at a node.
fn falls(node: Node<'_>, behind: Option<usize>) -> Option<usize>
    ensures { (names : Names) → result ≡ W.stood_falls (manner_seen node.entry.manner) (stood_seen names node.entry.stood) node.entry.yes node.entry.no behind }
{
    match node.stood {
        Stood::Simple(s) => match node.manner {
            Manner::InPlace => simple_falls(s, node.yes),
            Manner::ByFrame => behind,
            Manner::AsCps => None,
        },
        Stood::Empty => match node.manner {
            Manner::InPlace => node.yes,
            Manner::ByFrame => behind,
            Manner::AsCps => None,
        },
        Stood::Test(t) => match t {
            Some(_) => match node.yes {
                Some(_) => node.no,
                None => None,
            },
            None => node.yes,
        },
        Stood::Arrival(_) => node.yes,
        Stood::End => None,
    }
}

// Whether a node has a row of its own; the arrival of a call that is left over a frame stands with its call.
fn has_row(node: Node<'_>) -> bool
    ensures { (names : Names) → result ≡ not (R.stands_with (stood_seen names node.entry.stood) (manner_seen node.entry.manner)) }
{
    match node.stood {
        Stood::Arrival(_) => match node.manner {
            Manner::ByFrame => false,
            Manner::InPlace | Manner::AsCps => true,
        },
        _ => true,
    }
}

// Whether a statement waits there.
fn waits(node: Node<'_>) -> bool
    ensures { (names : Names) → result ≡ P.is_wait (manner_seen node.entry.manner) (stood_seen names node.entry.stood) }
{
    match node.manner {
        Manner::AsCps => match node.stood {
            Stood::Simple(_) | Stood::Empty | Stood::Test(_) => true,
            Stood::Arrival(_) | Stood::End => false,
        },
        Manner::InPlace | Manner::ByFrame => false,
    }
}

// Whether a value is returned there.
fn returns(node: Node<'_>) -> bool
    ensures { (names : Names) → result ≡ P.is_result (stood_seen names node.entry.stood) }
{
    match node.stood {
        Stood::Simple(Statement::Return { value: Some(_), .. }) => true,
        _ => false,
    }
}

// Where control goes on behind a call that is left over a frame.
fn behind(manner: Manner, onwards: Option<usize>) -> Option<usize>
    ensures { (r : Routine) (a : Option ℕ) → onwards ≡ L.behind_arrival r a → result ≡ R.behind_call r (manner_seen manner) a }
{
    match manner {
        Manner::ByFrame => onwards,
        Manner::InPlace | Manner::AsCps => None,
    }
}

/// Where there is no node.
pub(crate) fn no_step() -> Step
    ensures { result ≡ no_step }
{
    Step {
        yes: None,
        no: None,
        behind: None,
        test: None,
        falls: None,
        has_row: true,
        waits: false,
        returns: false,
    }
}

/// A node as a step.
pub(crate) fn node_step(split: &SplitFunction<'_>, node: Node<'_>) -> Step
    ensures { (names : Names) (r : Routine) → IsOf names split.now r → result ≡ step_of r (node_seen names split.now.graph.now.boxed.now.variables.items node.entry) }
{
    let onwards = behind_arrival(split, node.arrival);
    Step {
        yes: node.yes,
        no: node.no,
        behind: behind(node.manner, onwards),
        test: test(node),
        falls: falls(node, onwards),
        has_row: has_row(node),
        waits: waits(node),
        returns: returns(node),
    }
}
