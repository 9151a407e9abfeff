//! What stands among the nodes of a piece.
ghost use Rattle.std.specs.Prelude.{◌≡◌};
ghost use Rattle.cpc_chains_event.specs.Pieces as P;
ghost use Rattle.cpc_convert_routines.specs.Routines.{Routine};
ghost use Rattle.cpc_convert_rows.specs.Steps.{IsStepped};

use crate::stepped::Stepped;

/// Whether a statement waits at one of these nodes.
pub fn any_waits(stepped: &Stepped<'_>, nodes: &[usize]) -> bool
    ensures { (r : Routine) → IsStepped r stepped.now → result ≡ P.any_node r (λ node. P.is_wait node.manner node.stood) nodes.now }
{
    for node in nodes {
        if stepped.step(*node).waits {
            return true;
        }
    }
    false
}

/// Whether a value is returned at one of these nodes.
pub fn any_returns(stepped: &Stepped<'_>, nodes: &[usize]) -> bool
    ensures { (r : Routine) → IsStepped r stepped.now → result ≡ P.any_node r (λ node. P.is_result node.stood) nodes.now }
{
    for node in nodes {
        if stepped.step(*node).returns {
            return true;
        }
    }
    false
}
