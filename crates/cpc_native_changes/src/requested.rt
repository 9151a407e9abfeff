//! What a primitive does to the live cells, told before it is called. Nothing is changed and no memory is taken.
ghost use Rattle.std.specs.Prelude.{◌≡◌, ◌-◌, ◌^◌, [], ◌∷◌, min, pos, unsigned_abs, int_lt, Some, None, if◌then◌else◌, IfSome, option_map};
ghost use Rattle.cpc_tree.specs.Erase.{Names as Texts, exprs_of};
ghost use Rattle.cpc_tree.specs.Primitives as P;
ghost use Rattle.cpc_store.specs.Store as S;
ghost use Rattle.cpc_store.specs.Seen.{seen, IsLawful};
ghost use Rattle.cpc_meaning.specs.Act as M;
ghost use Rattle.cpc_meaning.specs.Eval as E;
ghost use Rattle.cpc_meaning.specs.Section.{allocated, freed};
ghost use Rattle.cpc_eval_values.specs.Shown.{value_of, store_of};
ghost use Rattle.cpc_eval_values.specs.Takes.{taken_of};
ghost use Rattle.cpc_eval_index.specs.Indexed.{items_of};
ghost use Rattle.cpc_native_points.specs.Finds.{found_of};
ghost use Rattle.cpc_eval.specs.Around.{context_of, IsToldIn};
ghost use Rattle.cpc_eval.specs.Numbers.{AllNumbers, FoundNumbers};
ghost use Rattle.cpc_eval.specs.Spots.{AreLawful};
ghost use Rattle.cpc_tree.specs.PrimitiveNames.{primitive_of};
ghost use Rattle.cpc_native_plans.specs.Rows as W;
ghost use Rattle.cpc_native_changes.specs.Foreseen.{Foresees, EntersOwnly, MakesSo, FreesSo, maker, freer, IsAlone};

use crate::changes::Change;
use crate::looked::is_delivered;
use cpc_eval::{Around, value};
use cpc_eval_values::{Taken, taken_as};
use cpc_native_points::Found;
use cpc_num::Kind;
use cpc_store::{Block, Class, Scalar, Value};
use cpc_tree::primitive::Primitive;
use cpc_tree::program::Expr;

// The one argument as a primitive takes it, if it has a value that suits.
fn alone<'a>(taken: Taken, arguments: &'a [Expr], around: &Around<'a>) -> Option<Value>
    requires { AreLawful around.now.slots.now }
    ensures value { (names : Texts) (t : P.Taken) → taken_of t ≡ Some taken → IsToldIn names around.now → AllNumbers (items_of names around.now.index.now) (exprs_of names arguments.now)
        → IsAlone (option_map (value_of names) result) (W.taken (context_of names around.now) (t ∷ []) (exprs_of names arguments.now)) }
    ensures lawful { IfSome result (λ v. IsLawful (seen v)) }
{
    if arguments.len() != 1 {
        return None;
    }
    match value(&arguments[0], around) {
        Ok(value) => taken_as(taken, value).ok(),
        Err(_) => None,
    }
}

// The number of cells of a length that is not negative; `u64::MAX` stands for every greater number.
fn cells_of(length: i128) -> Option<u64>
    ensures { result ≡ (if int_lt length (pos 0) then None else Some (min (unsigned_abs length) (2 ^ 64 - 1))) }
{
    if length < 0 {
        None
    } else if length > u64::MAX as i128 {
        Some(u64::MAX)
    } else {
        Some(length as u64)
    }
}

// A block of a class of so many cells is made, where the pointer to it arrives.
fn made<'a>(class: Class, length: Value, there: Found<'a>, around: &Around<'a>) -> Change<'a>
    requires { AreLawful around.now.slots.now }
    ensures value { (names : Texts) → IsToldIn names around.now → FoundNumbers (items_of names around.now.index.now) (found_of names there.entry)
        → MakesSo (context_of names around.now) (M.AtStatement (found_of names there.entry)) result (allocated class (value_of names length) (store_of names around.now.store.now)) }
    ensures own { EntersOwnly around.now.index.now result }
{
    let Value::Int(_, length) = length else {
        return Change::Stays;
    };
    let block = Block {
        class,
        number: around.store.made(class),
    };
    match cells_of(length) {
        Some(cells) => {
            if is_delivered(there, Value::At(block, 0), around) {
                Change::Makes(cells)
            } else {
                Change::Stays
            }
        }
        None => Change::Stays,
    }
}

// Whether two classes are one.
fn is_same(class: Class, other: Class) -> bool
    ensures { result ≡ S.same_class class other }
{
    class == other
}

// A block of a class is freed.
fn dropped<'a>(class: Class, pointer: Value, around: &Around<'a>) -> Change<'a>
    ensures value { (names : Texts) (c : E.Context) → c.store ≡ store_of names around.now.store.now → FreesSo c result (freed class (value_of names pointer) c.store) }
    ensures own { EntersOwnly around.now.index.now result }
{
    match pointer {
        Value::At(block, offset) => match around.store.size(block) {
            Some(cells) => {
                if offset == 0 && is_same(class, block.class) {
                    Change::Frees(cells)
                } else {
                    Change::Stays
                }
            }
            None => Change::Stays,
        },
        _ => Change::Stays,
    }
}

// A block of a class is asked for.
fn makes<'a>(
    class: Class,
    there: Found<'a>,
    arguments: &'a [Expr],
    around: &Around<'a>,
) -> Change<'a>
    requires { AreLawful around.now.slots.now }
    ensures value { (names : Texts) (b : P.Primitive) → Some class ≡ maker b → IsToldIn names around.now → FoundNumbers (items_of names around.now.index.now) (found_of names there.entry) → AllNumbers (items_of names around.now.index.now) (exprs_of names arguments.now)
        → Foresees names (context_of names around.now) (M.AtStatement (found_of names there.entry)) result (M.asks_with (context_of names around.now) b (exprs_of names arguments.now) None) }
    ensures own { EntersOwnly around.now.index.now result }
{
    match alone(Taken::SetOf(Scalar::Int(Kind::Long)), arguments, around) {
        Some(length) => made(class, length, there, around),
        None => Change::Stays,
    }
}

// A pointer to a block of a class is handed back.
fn frees<'a>(class: Class, arguments: &'a [Expr], around: &Around<'a>) -> Change<'a>
    requires { AreLawful around.now.slots.now }
    ensures value { (names : Texts) (stood : M.Stood) (b : P.Primitive) → Some class ≡ freer b → IsToldIn names around.now → AllNumbers (items_of names around.now.index.now) (exprs_of names arguments.now)
        → Foresees names (context_of names around.now) stood result (M.asks_with (context_of names around.now) b (exprs_of names arguments.now) None) }
    ensures own { EntersOwnly around.now.index.now result }
{
    match alone(Taken::SetOf(Scalar::Pointer), arguments, around) {
        Some(pointer) => dropped(class, pointer, around),
        None => Change::Stays,
    }
}

// The class of the blocks that a primitive makes, if it makes any.
fn class_made(primitive: Primitive) -> Option<Class>
    ensures { result ≡ maker (primitive_of primitive) }
{
    match primitive {
        Primitive::Malloc => Some(Class::Heap),
        Primitive::RtFrame => Some(Class::Frame),
        Primitive::RtBox => Some(Class::Auto),
        _ => None,
    }
}

// The class of the blocks that a primitive frees, if it frees any.
fn class_freed(primitive: Primitive) -> Option<Class>
    ensures { result ≡ freer (primitive_of primitive) }
{
    match primitive {
        Primitive::Free => Some(Class::Heap),
        Primitive::RtFrameFree => Some(Class::Frame),
        Primitive::RtUnbox => Some(Class::Auto),
        _ => None,
    }
}

/// A primitive is asked for with these arguments, by the call that stands there.
pub(crate) fn requested<'a>(
    builtin: Primitive,
    there: Found<'a>,
    arguments: &'a [Expr],
    around: &Around<'a>,
) -> Change<'a>
    requires { AreLawful around.now.slots.now }
    ensures value { (names : Texts) → IsToldIn names around.now → FoundNumbers (items_of names around.now.index.now) (found_of names there.entry) → AllNumbers (items_of names around.now.index.now) (exprs_of names arguments.now)
        → Foresees names (context_of names around.now) (M.AtStatement (found_of names there.entry)) result
        (M.asks_with (context_of names around.now) (primitive_of builtin) (exprs_of names arguments.now) (M.puts_text (primitive_of builtin) (exprs_of names arguments.now))) }
    ensures own { EntersOwnly around.now.index.now result }
{
    match class_made(builtin) {
        Some(class) => makes(class, there, arguments, around),
        None => match class_freed(builtin) {
            Some(class) => frees(class, arguments, around),
            None => Change::Stays,
        },
    }
}
