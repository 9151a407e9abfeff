//! What stands around statements.
ghost use Rattle.std.specs.Prelude.{◌≡◌};
ghost use Rattle.cpc_tree.specs.Erase.{Names as Spelling};
ghost use Rattle.cpc_check_values.specs.Stands.{where_of};
ghost use Rattle.cpc_check_statements.specs.Standing.{standing};

use cpc_base::{Dialect, Names};
use cpc_check_values::Where;
use cpc_tree::program::{CType, Mode};
use cpc_types::Scope;

/// What stands around a statement apart from what is in scope: how its function runs, what the function's result is, the
/// dialect, and the table of names.
#[derive(Drop)]
pub struct Around<'s> {
    /// How the function runs.
    pub mode: Mode,
    /// The result of the function.
    pub result: &'s CType,
    /// The dialect of the text.
    pub dialect: Dialect,
    /// The table of the program's names.
    pub names: &'s Names,
}

/// Where a statement stands that has this in scope.
pub(crate) fn standing<'a: 's, 's, 'p>(around: &Around<'a>, scope: &'s Scope<'p>) -> Where<'s, 'p>
    ensures stands { (names : Spelling) → where_of names result ≡ standing names scope.now around.now }
    ensures named { result.names.now ≡ around.now.names.now }
{
    Where {
        scope,
        mode: around.mode,
        result: around.result,
        dialect: around.dialect,
        names: around.names,
    }
}
