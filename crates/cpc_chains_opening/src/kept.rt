//! What the frames of an owner keep, and what its piece loads and declares.
ghost use Rattle.std.specs.Prelude.{◌≡◌, ◌&&◌, ◌++◌, [], not, All, get_or, IfOk, OnOk};
ghost use Rattle.cpc_tree.specs.Erase as E;
ghost use Rattle.cpc_tree.specs.Erase.{Table};
ghost use Rattle.cpc_tree.specs.Syntax as S;
ghost use Rattle.cpc_forms_code.specs.Splits.{place_of};
ghost use Rattle.cpc_convert_routines.specs.Names as N;
ghost use Rattle.cpc_chains_event.specs.Pieces as P;
ghost use Rattle.cpc_convert_routines.specs.Routines as R;
ghost use Rattle.cpc_convert_routines.specs.Routines.{Routine};
ghost use Rattle.cpc_chains_lines.specs.Around.{Stands, IsVariable};
ghost use Rattle.cpc_chains_lines.specs.Known.{boxes_among};
ghost use Rattle.cpc_chains_opening.specs.Whole.{IsWhole, rows_in};
ghost use Rattle.cpc_convert_rows.specs.Steps.{IsStepped, IsOwner};

use cpc_base::{Name, NoMemory};
use cpc_chains_lines::Around;
use cpc_convert_rows::{Stepped, add_if};
use cpc_forms_code::{Owner, Variable, keep_unless};
use std::alloc::Global;

/// The name of the piece of an owner, which is the tag of its frames.
pub fn owner_name(around: Around<'_>, stepped: &Stepped<'_>, owner: Owner) -> Name
    ensures { (source : Table) (from to : E.Names) (p : S.Program) (r : Routine) → Stands source from to p r around.entry → IsWhole from p r around.entry stepped.now → IsOwner stepped.now owner
        → to result ≡ N.piece_name r.function.called (place_of owner) }
{
    let _stepped = stepped;
    match owner {
        Owner::Start => around.called.start,
        Owner::Leader(number) => around.called.piece(number),
    }
}

// The owner whose variables an owner keeps.
fn keeper(stepped: &Stepped<'_>, owner: Owner) -> Owner
    ensures { (r : Routine) → IsStepped r stepped.now → place_of result ≡ R.keeper r.split (place_of owner) }
{
    match owner {
        Owner::Start => match stepped.split.owners.first() {
            Some(Some(other)) => *other,
            _ => Owner::Start,
        },
        Owner::Leader(number) => Owner::Leader(number),
    }
}

// The closure of an owner.
fn closure<'b>(around: Around<'b>, owner: Owner) -> &'b [usize]
    ensures { result.now ≡ get_or (rows_in around.entry) (R.owner_number (place_of owner)) [] }
{
    let rows = &around.called.lifted.closures;
    match owner {
        Owner::Start => match rows.get(0) {
            Some(row) => row,
            None => &[],
        },
        Owner::Leader(leader) => match leader.checked_add(1) {
            Some(number) => match rows.get(number) {
                Some(row) => row,
                None => &[],
            },
            None => &[],
        },
    }
}

/// The variables that the frames of an owner keep.
pub(crate) fn kept<'b>(around: Around<'b>, stepped: &Stepped<'_>, owner: Owner) -> &'b [usize]
    ensures { (from : E.Names) (p : S.Program) (r : Routine) → IsWhole from p r around.entry stepped.now → IsOwner stepped.now owner → result.now ≡ R.closure_of r (place_of owner) }
{
    closure(around, keeper(stepped, owner))
}

// Whether a variable is a parameter.
fn is_parameter(around: Around<'_>, number: usize) -> bool
    ensures { (source : Table) (from to : E.Names) (p : S.Program) (r : Routine) → Stands source from to p r around.entry → result ≡ R.is_parameter r.function number }
{
    number < around.called.function().parameters.len()
}

// Whether a variable is a register.
fn is_plain(around: Around<'_>, number: usize) -> bool
    ensures { (source : Table) (from to : E.Names) (p : S.Program) (r : Routine) → Stands source from to p r around.entry → IsVariable around.entry number → result ≡ R.is_plain r number }
{
    match around.called.variables().get(number) {
        Some(variable) => variable.is_register,
        None => true,
    }
}

// Whether a variable is a parameter and a register.
fn is_passed(around: Around<'_>, number: usize) -> bool
    ensures { (source : Table) (from to : E.Names) (p : S.Program) (r : Routine) → Stands source from to p r around.entry → IsVariable around.entry number → result ≡ (R.is_parameter r.function number && R.is_plain r number) }
{
    is_parameter(around, number) && is_plain(around, number)
}

// Whether a variable is a register and no parameter.
fn is_begun(around: Around<'_>, number: usize) -> bool
    ensures { (source : Table) (from to : E.Names) (p : S.Program) (r : Routine) → Stands source from to p r around.entry → IsVariable around.entry number → result ≡ (not (R.is_parameter r.function number) && R.is_plain r number) }
{
    !is_parameter(around, number) && is_plain(around, number)
}

// The parameters among variables that are registers. `NoMemory` is want of memory.
fn passed(alloc: Global, around: Around<'_>, kept: &[usize]) -> Result<Vec<usize>, NoMemory>
    ensures { IfOk result (λ all. (source : Table) (from to : E.Names) (p : S.Program) (r : Routine) → Stands source from to p r around.entry → All (IsVariable around.entry) kept.now
        → all.items ≡ R.chosen (λ k. R.is_parameter r.function k && R.is_plain r k) kept.now) }
{
    let mut all = Vec::new(alloc);
    for number in kept {
        add_if(is_passed(around, *number), *number, &mut all)?;
    }
    Ok(all)
}

/// The variables that the piece of an owner loads, which keeps these. `NoMemory` is want of memory.
pub(crate) fn loaded(
    alloc: Global,
    around: Around<'_>,
    owner: Owner,
    kept: &[usize],
) -> Result<Vec<usize>, NoMemory>
    ensures { IfOk result (λ all. (source : Table) (from to : E.Names) (p : S.Program) (r : Routine) → Stands source from to p r around.entry → All (IsVariable around.entry) kept.now → kept.now ≡ R.closure_of r (place_of owner)
        → all.items ≡ P.loaded r (place_of owner)) }
{
    match owner {
        Owner::Start => passed(alloc, around, kept),
        Owner::Leader(_) => {
            let all = Vec::from_slice(alloc, kept)?;
            Ok(all)
        }
    }
}

// The variables among these that are registers and no parameters, and then all boxes. `NoMemory` is want of memory.
fn begun_here(alloc: Global, around: Around<'_>, kept: &[usize]) -> Result<Vec<usize>, NoMemory>
    ensures { IfOk result (λ all. (source : Table) (from to : E.Names) (p : S.Program) (r : Routine) → Stands source from to p r around.entry → All (IsVariable around.entry) kept.now
        → all.items ≡ R.chosen (λ k. not (R.is_parameter r.function k) && R.is_plain r k) kept.now ++ r.boxes) }
{
    let mut all = Vec::new(alloc);
    for number in kept {
        add_if(is_begun(around, *number), *number, &mut all)?;
    }
    add_boxes(around.called.variables(), &mut all)?;
    Ok(all)
}

// All boxes among variables are added. `NoMemory` is want of memory.
fn add_boxes(variables: &[Variable<'_>], all: &mut Vec<usize>) -> Result<(), NoMemory>
    ensures { OnOk result (all.new.items ≡ all.old.items ++ boxes_among 0 variables.now) }
{
    for number in 0..variables.len() {
        keep_unless(variables[number].is_register, number, all)?;
    }
    Ok(())
}

/// The variables that the piece of an owner declares without a value, which keeps these. `NoMemory` is want of memory.
pub(crate) fn begun(
    alloc: Global,
    around: Around<'_>,
    owner: Owner,
    kept: &[usize],
) -> Result<Vec<usize>, NoMemory>
    ensures { IfOk result (λ all. (source : Table) (from to : E.Names) (p : S.Program) (r : Routine) → Stands source from to p r around.entry → All (IsVariable around.entry) kept.now → kept.now ≡ R.closure_of r (place_of owner)
        → all.items ≡ P.begun r (place_of owner)) }
{
    match owner {
        Owner::Start => begun_here(alloc, around, kept),
        Owner::Leader(_) => Ok(Vec::new(alloc)),
    }
}
