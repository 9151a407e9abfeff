//! What structs, globals and prototypes break by what stands in them, and functions before their bodies.
ghost use Rattle.std.specs.Prelude.{◌≡◌, [], OnOk, map, option_map};
ghost use Rattle.cpc_tree.specs.Erase.{Names as Spelling, type_of};
ghost use Rattle.cpc_tree.specs.Locate.{ident, located_expr, located_field, located_function, located_parameter};
ghost use Rattle.cpc_tree.specs.Syntax.{Program};
ghost use Rattle.cpc_check_rules.specs.Apart.{Spells};
ghost use Rattle.cpc_check_rules.specs.Noted.{noted, first_of};
ghost use Rattle.cpc_types.specs.Scoped.{scope_of};
ghost use Rattle.cpc_check_parts.specs.ItemParts as P;

use cpc_base::{NoMemory, Place};
use cpc_check::{Ground, global_start};
use cpc_check_items::{
    Signature, cps_rules, field_rules, field_words, is_unlike_host, parameter_rules, size_rules,
};
use cpc_check_names::{name_rules, repeated_rules};
use cpc_check_rules::{First, Rule};
use cpc_tree::program::{CType, Field, Function, Operand, Word};
use cpc_types::{Scope, are_oversized, is_sized};
use std::alloc::Global;

/// Notes what a struct breaks by what stands in it, where the items in scope are those before it. `NoMemory` is want of memory.
pub(crate) fn struct_own(
    alloc: Global,
    first: &mut First,
    tag: Word,
    fields: &[Field],
    scope: &Scope,
    ground: &Ground,
) -> Result<(), NoMemory>
    ensures { OnOk result ((names : Spelling) → Spells ground.now.names.now names → first_of first.new ≡ noted (first_of first.old) (P.struct_own ground.now.dialect (scope_of names scope.now).items (ident names tag) (map (located_field names) fields.now))) }
{
    name_rules(first, ground.dialect, ground.names, &[tag]);
    let is_oversized = are_oversized(fields, scope);
    first.note_if(is_oversized, tag.place, Rule::Incomplete);
    let words = field_words(alloc, fields)?;
    repeated_rules(alloc, first, Rule::Twice, &words)?;
    field_rules(first, scope, fields);
    Ok(())
}

/// Notes what a global variable breaks by what stands in it, where the items in scope are those before it. `NoMemory` is want of
/// memory.
pub(crate) fn global_own(
    alloc: Global,
    first: &mut First,
    word: Word,
    of: &CType,
    start: &Option<Operand>,
    scope: &Scope,
    ground: &Ground,
) -> Result<(), NoMemory>
    ensures { OnOk result ((names : Spelling) (before : Program) → Spells ground.now.names.now names → scope_of names scope.now ≡ record { items = before; blocks = [] }
        → first_of first.new ≡ noted (first_of first.old) (P.global_own ground.now.dialect before (ident names word) (type_of names of.now) (option_map (located_expr names) start.now))) }
{
    name_rules(first, ground.dialect, ground.names, &[word]);
    let is_fine = is_sized(of, scope);
    first.note_if(!is_fine, word.place, Rule::Incomplete);
    global_start(alloc, first, word, of, start, scope, ground)?;
    Ok(())
}

/// Notes what a prototype breaks by what stands in it; `place` is its first byte. `NoMemory` is want of memory.
pub(crate) fn prototype_own(
    alloc: Global,
    first: &mut First,
    place: Place,
    word: Word,
    declared: &Signature,
    ground: &Ground,
) -> Result<(), NoMemory>
    ensures { OnOk result ((names : Spelling) → Spells ground.now.names.now names → first_of first.new ≡ noted (first_of first.old)
        (P.prototype_own ground.now.dialect place declared.now.mode (ident names word) (type_of names declared.now.result.now) (map (located_parameter names) declared.now.parameters.now))) }
{
    name_rules(first, ground.dialect, ground.names, &[word]);
    cps_rules(first, ground.dialect, declared.mode, place);
    let is_broken = is_unlike_host(declared);
    first.note_if(is_broken, word.place, Rule::Disagree);
    parameter_rules(
        alloc,
        first,
        ground.dialect,
        ground.names,
        declared.parameters,
    )?;
    Ok(())
}

/// Notes what a function breaks by what stands before its body, where the items in scope are those before it. `NoMemory` is want of
/// memory.
pub(crate) fn head_own(
    alloc: Global,
    first: &mut First,
    function: &Function,
    scope: &Scope,
    ground: &Ground,
) -> Result<(), NoMemory>
    ensures { OnOk result ((names : Spelling) → Spells ground.now.names.now names → first_of first.new ≡ noted (first_of first.old) (P.head_own ground.now.dialect (scope_of names scope.now).items (located_function names function.now))) }
{
    name_rules(first, ground.dialect, ground.names, &[function.word]);
    cps_rules(first, ground.dialect, function.mode, function.place);
    parameter_rules(
        alloc,
        first,
        ground.dialect,
        ground.names,
        &function.parameters,
    )?;
    size_rules(first, scope, &function.parameters);
    Ok(())
}
