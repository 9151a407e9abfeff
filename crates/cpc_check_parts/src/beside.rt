//! What lies between items, or in the whole of a program.
ghost use Rattle.std.specs.Prelude.{◌≡◌, [], None, IfOk, OnOk, false, map};
ghost use Rattle.cpc_tree.specs.Erase.{Names as Spelling, item_of, type_of};
ghost use Rattle.cpc_tree.specs.Locate.{ident, located_field, located_item, located_parameter};
ghost use Rattle.cpc_tree.specs.Located.{LStruct, LPrototype};
ghost use Rattle.cpc_tree.specs.Syntax.{Program as Items};
ghost use Rattle.cpc_check_rules.specs.Apart.{AreApart, Spells};
ghost use Rattle.cpc_check_rules.specs.Noted.{noted, first_of};
ghost use Rattle.cpc_types.specs.Scoped.{all_items, scope_of};
ghost use Rattle.cpc_check_items.specs.Pasts.{AreEarlier};
ghost use Rattle.cpc_check_parts.specs.ItemParts as P;
ghost use Rattle.cpc_check_parts.specs.Parts as W;

use cpc_base::{Dialect, NoMemory, Place};
use cpc_check_items::{Earlier, Signature, declared_rules, lacks_body, taken_rules};
use cpc_check_names::{breadth_rules, main_rules};
use cpc_check_rules::{First, Rule};
use cpc_tree::program::{Field, Item, Program, Word};
use cpc_types::Scope;
use std::alloc::Global;

// Notes a struct whose tag a struct in scope has.
fn struct_beside(first: &mut First, tag: Word, fields: &[Field], scope: &Scope)
    ensures { (names : Spelling) → AreApart names → first_of first.new ≡ noted (first_of first.old)
        (P.item_beside (map (item_of names) (all_items scope.now)) (scope_of names scope.now).items (LStruct (ident names tag) (map (located_field names) fields.now))) }
{
    let is_declared = scope.fields(tag.name).is_some();
    first.note_if(is_declared, tag.place, Rule::Twice);
}

// Notes a prototype that may not be declared beside earlier items, or disagrees with one, or that is none of the host and has no body.
fn prototype_beside(
    first: &mut First,
    place: Place,
    word: Word,
    declared: &Signature,
    scope: &Scope,
    earlier: &Earlier,
)
    requires { declared.now.is_defined ≡ false }
    ensures { (names : Spelling) → AreApart names → (before : Items) → AreEarlier names before earlier.now → first_of first.new ≡ noted (first_of first.old)
        (P.item_beside (map (item_of names) (all_items scope.now)) before
        (LPrototype place declared.now.mode (ident names word) (type_of names declared.now.result.now) (map (located_parameter names) declared.now.parameters.now))) }
{
    declared_rules(first, earlier, word, declared);
    let is_broken = lacks_body(declared, scope, word.name);
    first.note_if(is_broken, word.place, Rule::Undeclared);
}

// Notes what lies between an item and the earlier ones, which are those in scope.
fn item_beside(first: &mut First, item: &Item, scope: &Scope, earlier: &Earlier)
    ensures { (names : Spelling) → AreApart names → AreEarlier names (scope_of names scope.now).items earlier.now
        → first_of first.new ≡ noted (first_of first.old) (P.item_beside (map (item_of names) (all_items scope.now)) (scope_of names scope.now).items (located_item names item.now)) }
{
    match item {
        Item::Struct { tag, fields } => struct_beside(first, *tag, fields, scope),
        Item::Global { word, .. } => taken_rules(first, earlier, *word),
        Item::Prototype {
            place,
            mode,
            word,
            result,
            parameters,
        } => {
            let declared = Signature {
                mode: *mode,
                result,
                parameters,
                is_defined: false,
            };
            prototype_beside(first, *place, *word, &declared, scope, earlier);
        }
        Item::Function(function) => {
            let declared = Signature::of(function);
            declared_rules(first, earlier, function.word, &declared);
        }
    }
}

// Notes what lies between the items of a program. `NoMemory` is want of memory.
fn items_beside(alloc: Global, first: &mut First, program: &Program) -> Result<(), NoMemory>
    ensures { OnOk result ((names : Spelling) → AreApart names → first_of first.new ≡ noted (first_of first.old)
        (P.items_beside (map (item_of names) program.now.items.items) [] (map (located_item names) program.now.items.items))) }
{
    let mut scope = Scope::of(alloc, program)?;
    let mut earlier = Earlier::new(alloc);
    for (i, item) in program.items.iter().enumerate() {
        let count = i as u64;
        scope.enter_items(count);
        item_beside(first, item, &scope, &earlier);
        earlier.add(item)?;
    }
    Ok(())
}

/// The first of what lies between the items of a program, or in the whole. `NoMemory` is want of memory.
pub(crate) fn whole_rules(
    alloc: Global,
    program: &Program,
    dialect: Dialect,
) -> Result<First, NoMemory>
    ensures { IfOk result (λ first. (names : Spelling) → Spells program.now.names names
        → first_of first ≡ noted None (W.whole dialect (record { items = map (located_item names) program.now.items.items; end = program.now.end }))) }
{
    let mut first = First::new();
    items_beside(alloc, &mut first, program)?;
    main_rules(&mut first, &program.names, &program.items, program.end);
    breadth_rules(alloc, &mut first, dialect, &program.items)?;
    Ok(first)
}
