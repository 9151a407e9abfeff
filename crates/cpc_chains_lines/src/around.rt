//! What is around the lines that are written.
ghost use Rattle.std.specs.Prelude.{◌≡◌, ◌<◌, length, IfOk};
ghost use Rattle.cpc_tree.specs.Erase as E;
ghost use Rattle.cpc_tree.specs.Erase.{Table, type_of};
ghost use Rattle.cpc_tree.specs.Syntax as S;
ghost use Rattle.cpc_forms.specs.Flow.{At};
ghost use Rattle.cpc_convert_routines.specs.Names.{piece_name, box_tag, node_label};
ghost use Rattle.cpc_convert_routines.specs.Routines.{Routine, local_of, closure_of, is_plain};
ghost use Rattle.cpc_convert_names.specs.Called.{variables_in, nodes_in};
ghost use Rattle.cpc_chains_lines.specs.Around.{Stands, reads, IsNode, IsVariable};
ghost use Rattle.cpc_convert_images.specs.Readings.{Reads, readings_by};

use crate::trees::to_struct;
use cpc_base::{Name, Names, NoMemory, Place};
use cpc_convert_images::Readings;
use cpc_convert_names::{Book, Called};
use cpc_shapes::copy_of;
use cpc_tree::program::CType;
use std::alloc::Global;

/// The table of the source, all names of the conversion, and those of the function whose lines are written; each of its lines is given the
/// place of the function (no clause speaks of places).
#[derive(Clone, Copy)]
pub struct Around<'a> {
    pub place: Place,
    pub texts: &'a Names,
    pub book: &'a Book<'a>,
    pub called: &'a Called<'a>,
}

/// How names are read where this variable is the innermost one in scope.
pub fn readings(around: Around<'_>, scope: Option<usize>) -> Readings<'_>
    ensures read { (source : Table) (from to : E.Names) (p : S.Program) (r : Routine) → Stands source from to p r around.entry → Reads from to (is_plain r) result }
    ensures are { (from : E.Names) (r : Routine) → readings_by from (is_plain r) result ≡ reads from r around.entry scope }
{
    Readings {
        variables: around.called.variables(),
        locals: &around.called.locals,
        scope,
    }
}

/// The piece of a node that is a leader.
pub fn piece(around: Around<'_>, number: usize) -> Name
    ensures { (source : Table) (from to : E.Names) (p : S.Program) (r : Routine) → Stands source from to p r around.entry → IsNode around.entry number
        → to result ≡ piece_name r.function.called (At number) }
{
    around.called.piece(number)
}

/// The label of a node.
pub fn label(around: Around<'_>, number: usize) -> Name
    ensures { (source : Table) (from to : E.Names) (p : S.Program) (r : Routine) → Stands source from to p r around.entry → IsNode around.entry number
        → to result ≡ node_label number }
{
    around.called.label(number)
}

/// The local of a variable.
pub fn local(around: Around<'_>, number: usize) -> Name
    ensures { (source : Table) (from to : E.Names) (p : S.Program) (r : Routine) → Stands source from to p r around.entry → IsVariable around.entry number
        → to result ≡ (local_of r number).called }
{
    around.called.local(number)
}

/// The tag of the box of a variable.
pub fn tag(around: Around<'_>, number: usize) -> Name
    ensures { (source : Table) (from to : E.Names) (p : S.Program) (r : Routine) → Stands source from to p r around.entry → IsVariable around.entry number
        → to result ≡ box_tag r.function.called number }
{
    around.called.tag(number)
}

/// The type of the local of a variable. `NoMemory` is want of memory.
pub fn local_type(alloc: Global, around: Around<'_>, number: usize) -> Result<CType, NoMemory>
    ensures { IfOk result (λ t. (source : Table) (from to : E.Names) (p : S.Program) (r : Routine) → Stands source from to p r around.entry → IsVariable around.entry number
        → type_of to t ≡ (local_of r number).type) }
{
    match around.called.variables().get(number) {
        Some(variable) => {
            if variable.is_register {
                let t = copy_of(alloc, variable.of)?;
                return Ok(t);
            }
            let t = to_struct(alloc, tag(around, number))?;
            Ok(t)
        }
        None => Ok(CType::Void),
    }
}

/// The variables that a leader keeps, by their numbers.
pub fn closure(around: Around<'_>, leader: usize) -> &[usize]
    ensures { (source : Table) (from to : E.Names) (p : S.Program) (r : Routine) → Stands source from to p r around.entry → IsNode around.entry leader
        → result.now ≡ closure_of r (At leader) }
{
    match around.called.lifted.closures.split_first() {
        Some((_, rest)) => match rest.get(leader) {
            Some(row) => row,
            None => &[],
        },
        None => &[],
    }
}
