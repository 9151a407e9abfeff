//! The arguments of what the machine is asked: as primitives and functions of the host take them.
ghost use Rattle.std.specs.Prelude.{◌≡◌, IfOk, OnOk, IfSome, Some, List, map, option_map, slice_get, true};
ghost use Rattle.std.specs.List.{All};
ghost use Rattle.std.specs.Result.{result_map_both};
ghost use Rattle.cpc_tree.specs.Erase.{Names, exprs_of};
ghost use Rattle.cpc_tree.specs.Primitives as P;
ghost use Rattle.cpc_store.specs.Seen.{seen, IsLawful};
ghost use Rattle.cpc_meaning.specs.Act as M;
ghost use Rattle.cpc_meaning.specs.Requests as R;
ghost use Rattle.cpc_eval_values.specs.Meets.{Meets};
ghost use Rattle.cpc_eval_values.specs.Shown.{value_of, values_of, shown};
ghost use Rattle.cpc_eval_values.specs.Takes.{taken_of};
ghost use Rattle.cpc_eval_index.specs.Indexed.{items_of};
ghost use Rattle.cpc_eval.specs.Around.{context_of, IsToldIn};
ghost use Rattle.cpc_eval.specs.Numbers.{AllNumbers};
ghost use Rattle.cpc_eval.specs.Spots.{AreLawful};
ghost use Rattle.cpc_tree.specs.PrimitiveNames.{primitive_of};
ghost use Rattle.cpc_native_plans.specs.Stops.{MeetsOr, row_shown};
ghost use Rattle.cpc_native_acts.specs.Taken.{are_taken, IsByte, IsLong, IsAskedWith};
ghost use Rattle.cpc_native_plans.specs.Rows.{by_nth, taken, longs, asked_with, text_in};

use crate::detached::detached;
use crate::fits::{are_long, are_taken};
use cpc_base::{NoMemory, Stop};
use cpc_eval::Around;
use cpc_eval_values::{Taken, all_long, taken_as};
use cpc_native_builtins::takes;
use cpc_native_plans::{stopped, values};
use cpc_num::{Fault, Kind};
use cpc_store::Value;
use cpc_tree::primitive::Primitive;
use cpc_tree::program::Expr;
use std::alloc::Global;

// How the argument of a number is taken.
fn take_at(takes: &[Taken], i: usize) -> Option<Taken>
    ensures { result ≡ slice_get takes.now i }
{
    takes.get(i).copied()
}

/// A value as the argument of a number is taken.
pub(crate) fn taken_at(takes: &[Taken], i: usize, value: Value) -> Result<Value, Fault>
    requires { IsLawful (seen value) }
    ensures value { (names : Names) (ts : List P.Taken) → map Some takes.now ≡ map taken_of ts → Meets (shown names result) (by_nth R.taken_as ts i (value_of names value)) }
    ensures lawful { IfOk result (λ v. IsLawful (seen v)) }
{
    match take_at(takes, i) {
        Some(taken) => taken_as(taken, value),
        None => Err(Fault::Kind),
    }
}

// Makes of arguments what a primitive takes.
fn take_all(takes: &[Taken], values: &mut [Value]) -> Result<(), Fault>
    requires { All (λ v. IsLawful (seen v)) values.old }
    ensures value { (names : Names) (ts : List P.Taken) → map Some takes.now ≡ map taken_of ts → Meets (result_map_both (λ _. values_of names values.new) (λ fault. fault) result) (R.all_taken ts (values_of names values.old)) }
    ensures lawful { All (λ v. IsLawful (seen v)) values.new }
{
    for i in 0..values.len() {
        values[i] = taken_at(takes, i, values[i])?;
    }
    Ok(())
}

// Makes of arguments what a primitive takes, one for each that it takes. `Kind` where they are no such row, of which no rule
// says anything.
fn take_row(takes: &[Taken], values: &mut [Value]) -> Result<(), Fault>
    requires { All (λ v. IsLawful (seen v)) values.old }
    ensures value { (names : Names) (ts : List P.Taken) → map Some takes.now ≡ map taken_of ts → Meets (result_map_both (λ _. values_of names values.new) (λ fault. fault) result) (R.all_taken ts (values_of names values.old)) }
    ensures lawful { All (λ v. IsLawful (seen v)) values.new }
    ensures takes { OnOk result (are_taken (map Some takes.now) values.new ≡ true) }
{
    take_all(takes, values)?;
    if are_taken(takes, values) {
        Ok(())
    } else {
        Err(Fault::Kind)
    }
}

// The values of arguments as they are taken.
fn taken<'a>(
    alloc: Global,
    takes: &[Taken],
    arguments: &'a [Expr],
    around: &Around<'a>,
) -> Result<Vec<Value>, Stop<Fault>>
    requires { AreLawful around.now.slots.now }
    ensures value { (names : Names) (ts : List P.Taken) → map Some takes.now ≡ map taken_of ts → IsToldIn names around.now → AllNumbers (items_of names around.now.index.now) (exprs_of names arguments.now)
        → MeetsOr (row_shown names result) (taken (context_of names around.now) ts (exprs_of names arguments.now)) }
    ensures lawful { IfOk result (λ vs. All (λ v. IsLawful (seen v)) vs.items) }
    ensures takes { IfOk result (λ vs. are_taken (map Some takes.now) vs.items ≡ true) }
{
    let mut row = values(alloc, arguments, around)?;
    stopped(take_row(takes, &mut row))?;
    Ok(row)
}

// Makes of arguments what a function of the host takes. `Kind` where they are no such row, of which no rule says anything.
fn long_row(values: &mut [Value]) -> Result<(), Fault>
    requires { All (λ v. IsLawful (seen v)) values.old }
    ensures value { (names : Names) → Meets (result_map_both (λ _. values_of names values.new) (λ fault. fault) result) (R.all_long (values_of names values.old)) }
    ensures lawful { All (λ v. IsLawful (seen v)) values.new }
    ensures takes { OnOk result (All IsLong values.new) }
{
    all_long(values)?;
    if are_long(values) {
        Ok(())
    } else {
        Err(Fault::Kind)
    }
}

/// The values of arguments of a function of the host.
///
/// The faults are those of `cpc_eval`, from left to right, and then `Unset` of the first that is not set.
pub(crate) fn longs<'a>(
    alloc: Global,
    arguments: &'a [Expr],
    around: &Around<'a>,
) -> Result<Vec<Value>, Stop<Fault>>
    requires { AreLawful around.now.slots.now }
    ensures value { (names : Names) → IsToldIn names around.now → AllNumbers (items_of names around.now.index.now) (exprs_of names arguments.now)
        → MeetsOr (row_shown names result) (longs (context_of names around.now) (exprs_of names arguments.now)) }
    ensures lawful { IfOk result (λ vs. All (λ v. IsLawful (seen v)) vs.items) }
    ensures takes { IfOk result (λ vs. All IsLong vs.items) }
{
    let mut row = values(alloc, arguments, around)?;
    stopped(long_row(&mut row))?;
    Ok(row)
}

// Bytes, as values of unsigned char.
fn byte_values(alloc: Global, bytes: &[u8]) -> Result<Vec<Value>, NoMemory>
    ensures value { IfOk result (λ vs. (names : Names) → values_of names vs.items ≡ R.byte_values bytes.now) }
    ensures lawful { IfOk result (λ vs. All (λ v. IsLawful (seen v)) vs.items) }
    ensures bytes { IfOk result (λ vs. All IsByte vs.items) }
{
    let mut row = Vec::new(alloc);
    for byte in bytes {
        row.push(Value::Int(Kind::UChar, i128::from(*byte)))?;
    }
    Ok(row)
}

// The bytes of a string that is the one argument.
fn text_in(arguments: &[Expr]) -> Option<&[u8]>
    ensures { (names : Names) → option_map (λ bytes. bytes.now) result ≡ M.puts_text P.Puts (exprs_of names arguments.now) }
{
    if arguments.len() == 1 {
        arguments[0].text()
    } else {
        None
    }
}

// The bytes of the string of `cpc_puts`.
fn puts_text(builtin: Primitive, arguments: &[Expr]) -> Option<&[u8]>
    ensures value { (names : Names) → option_map (λ bytes. bytes.now) result ≡ M.puts_text (primitive_of builtin) (exprs_of names arguments.now) }
    ensures puts { IfSome result (λ bytes. primitive_of builtin ≡ P.Puts) }
{
    match builtin {
        Primitive::Puts => text_in(arguments),
        _ => None,
    }
}

/// What a primitive is asked with.
///
/// The faults are those of `cpc_eval`, from left to right, and then `Unset` of the first that is to be set.
pub(crate) fn asked_with<'a>(
    alloc: Global,
    builtin: Primitive,
    arguments: &'a [Expr],
    around: &Around<'a>,
) -> Result<Vec<Value>, Stop<Fault>>
    requires { AreLawful around.now.slots.now }
    ensures value { (names : Names) → IsToldIn names around.now → AllNumbers (items_of names around.now.index.now) (exprs_of names arguments.now)
        → MeetsOr (row_shown names result) (asked_with (context_of names around.now) (primitive_of builtin) (exprs_of names arguments.now) (M.puts_text (primitive_of builtin) (exprs_of names arguments.now))) }
    ensures lawful { IfOk result (λ vs. All (λ v. IsLawful (seen v)) vs.items) }
    ensures takes { IfOk result (λ vs. IsAskedWith (primitive_of builtin) vs.items) }
{
    match puts_text(builtin, arguments) {
        Some(bytes) => Ok(byte_values(alloc, bytes)?),
        None => match builtin {
            Primitive::RtDetach => detached(alloc, arguments, around),
            _ => taken(alloc, takes(builtin), arguments, around),
        },
    }
}
