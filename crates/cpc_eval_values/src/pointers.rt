//! Operators on pointers.
ghost use Rattle.std.specs.Prelude.{◌≡◌, ◌*ℤ◌, ◌≤ℤ◌, ◌<◌, ◌^◌, ℕ, ℤ, pos, negsuc, int_div, Option, Some, IfOk};
ghost use Rattle.cpc_num.specs.Number as N;
ghost use Rattle.cpc_num.specs.declared.kinds.Kind.TheVariants as K;
ghost use Rattle.cpc_tree.specs.Erase.{Names};
ghost use Rattle.cpc_tree.specs.Syntax.{Ty, Program};
ghost use Rattle.cpc_store.specs.Seen.{seen, IsLawful};
ghost use Rattle.cpc_store.specs.Store as S;
ghost use Rattle.cpc_meaning.specs.Eval as E;
ghost use Rattle.cpc_eval_values.specs.Meets.{Meets};
ghost use Rattle.cpc_eval_values.specs.Shown.{value_of, store_of, shown, spot_shown};
ghost use Rattle.cpc_eval_values.specs.Counted.{capped, IsSize};
ghost use Rattle.cpc_eval_values.specs.Ordered.{order_of, AreAlike};

use crate::truth::truth_value;
use cpc_num::{Fault, Kind, Op};
use cpc_store::{Block, Store, Value};

/// The cell that a pointer points to.
///
/// - `Unset`: the value is unset.
/// - `Null`: it is null.
pub fn pointed(value: Value) -> Result<(Block, u64), Fault>
    ensures { (names : Names) → Meets (spot_shown result) (E.pointed (value_of names value)) }
{
    match value {
        Value::Unset => Err(Fault::Unset),
        Value::Null => Err(Fault::Null),
        Value::At(block, offset) => Ok((block, offset)),
        _ => Err(Fault::Kind),
    }
}

/// A pointer to an offset within a block, or to its end.
fn moved_within(store: &Store, block: Block, offset: u64, by: i128) -> Result<Value, Fault>
    requires { offset < 2 ^ 63 }
    ensures value { (names : Names) (d : ℤ) → AreAlike d by → Meets (shown names result) (E.moved (store_of names store.now) (S.At block.class block.number offset) d) }
    ensures lawful { IfOk result (λ v. IsLawful (seen v)) }
{
    let size = match store.size(block) {
        Some(size) => size,
        None => return Err(Fault::Freed),
    };
    // No block has more cells than all that are live.
    let _ = store.live_cells();
    let target = i128::from(offset).saturating_add(by);
    if 0 <= target && target <= i128::from(size) {
        Ok(Value::At(block, target as u64))
    } else {
        Err(Fault::Bounds)
    }
}

/// A pointer moved by so many cells, at most to the end of its block. No block tells moves apart that are alike.
///
/// - `Unset`: the value is unset.
/// - `Null`: it is null.
/// - `Freed`: its block is not live.
/// - `Bounds`: it would leave the block.
pub fn moved(store: &Store, value: Value, by: i128) -> Result<Value, Fault>
    requires { IsLawful (seen value) }
    ensures value { (names : Names) (d : ℤ) → AreAlike d by → Meets (shown names result) (E.moved (store_of names store.now) (value_of names value) d) }
    ensures lawful { IfOk result (λ v. IsLawful (seen v)) }
{
    match value {
        Value::Unset => Err(Fault::Unset),
        Value::Null => Err(Fault::Null),
        Value::At(block, offset) => moved_within(store, block, offset, by),
        _ => Err(Fault::Kind),
    }
}

/// A pointer moved by so many elements of so many cells each, at most to the end of its block.
///
/// The faults are those of `moved`.
pub fn moved_by(store: &Store, value: Value, count: i128, cells: u64) -> Result<Value, Fault>
    requires { IsLawful (seen value) }
    ensures value { (names : Names) (n : ℕ) → cells ≡ capped n → Meets (shown names result) (E.moved (store_of names store.now) (value_of names value) (count *ℤ pos n)) }
    ensures lawful { IfOk result (λ v. IsLawful (seen v)) }
{
    moved(store, value, count.saturating_mul(i128::from(cells)))
}

/// A pointer moved up by so many cells, the greatest `u64` where it is more, as to a field of a struct.
///
/// The faults are those of `moved`.
pub fn moved_up(store: &Store, value: Value, cells: u64) -> Result<Value, Fault>
    requires { IsLawful (seen value) }
    ensures value { (names : Names) (n : ℕ) → cells ≡ capped n → Meets (shown names result) (E.moved (store_of names store.now) (value_of names value) (pos n)) }
    ensures lawful { IfOk result (λ v. IsLawful (seen v)) }
{
    moved(store, value, i128::from(cells))
}

/// Two offsets, where the blocks that they are in are one that is live.
fn offsets_within(
    store: &Store,
    block: Block,
    offset: u64,
    other: Block,
    place: u64,
) -> Result<(u64, u64), Fault>
    ensures value { (names : Names) → Meets result (E.offsets (store_of names store.now) (S.At block.class block.number offset) (S.At other.class other.number place)) }
    ensures same { IfOk result (λ p. p ≡ (offset, place)) }
{
    if store.size(block).is_none() || store.size(other).is_none() {
        Err(Fault::Freed)
    } else if block == other {
        Ok((offset, place))
    } else {
        Err(Fault::Compare)
    }
}

/// The offsets of two pointers into one live block.
///
/// - `Null`: one of them is null.
/// - `Freed`: the block of one of them is not live.
/// - `Compare`: they point into different blocks.
fn offsets(store: &Store, left: Value, right: Value) -> Result<(u64, u64), Fault>
    requires left { IsLawful (seen left) }
    requires right { IsLawful (seen right) }
    ensures value { (names : Names) → Meets result (E.offsets (store_of names store.now) (value_of names left) (value_of names right)) }
    ensures small { IfOk result (λ p. (p.0 < 2 ^ 63) × (p.1 < 2 ^ 63)) }
{
    match left {
        Value::Null => Err(Fault::Null),
        Value::At(block, offset) => match right {
            Value::Null => Err(Fault::Null),
            Value::At(other, place) => offsets_within(store, block, offset, other, place),
            _ => Err(Fault::Kind),
        },
        _ => Err(Fault::Kind),
    }
}

/// How many elements of so many cells a number of cells is, towards zero; none, where an element has no cells.
fn elements(apart: i128, cells: u64) -> i128
    requires low { negsuc 9223372036854775807 ≤ℤ apart }
    requires high { apart ≤ℤ pos 9223372036854775807 }
    ensures value { (n : ℕ) → cells ≡ capped n → result ≡ int_div apart (pos n) }
    ensures lawful { N.IsOf K.Long result }
{
    if cells == 0 {
        0
    } else {
        apart / i128::from(cells)
    }
}

/// The elements of so many cells each between two pointers into one block, towards zero.
///
/// - `Null`: one of them is null.
/// - `Freed`: the block of one of them is not live.
/// - `Compare`: they point into different blocks.
pub fn distance(store: &Store, left: Value, right: Value, cells: u64) -> Result<Value, Fault>
    requires left { IsLawful (seen left) }
    requires right { IsLawful (seen right) }
    ensures value { (names : Names) (p : Program) (t : Option Ty) → IsSize (Some cells) (E.element_size p t) → Meets (shown names result) (E.distance p (store_of names store.now) t (value_of names left) (value_of names right)) }
    ensures lawful { IfOk result (λ v. IsLawful (seen v)) }
{
    let (j, k) = offsets(store, left, right)?;
    let apart = i128::from(j) - i128::from(k);
    Ok(Value::Int(Kind::Long, elements(apart, cells)))
}

/// A comparison of two pointers into one block: `<`, `<=`, `>`, and else `>=`.
///
/// - `Null`: one of them is null.
/// - `Freed`: the block of one of them is not live.
/// - `Compare`: they point into different blocks.
pub fn ordered(store: &Store, op: Op, left: Value, right: Value) -> Result<Value, Fault>
    requires left { IsLawful (seen left) }
    requires right { IsLawful (seen right) }
    ensures value { (names : Names) → Meets (shown names result) (E.ordered (store_of names store.now) (order_of op) (value_of names left) (value_of names right)) }
    ensures lawful { IfOk result (λ v. IsLawful (seen v)) }
{
    let (j, k) = offsets(store, left, right)?;
    Ok(truth_value(is_ordered(op, j, k)))
}

/// The test of a comparison: `<`, `<=`, `>`, and else `>=`.
fn is_ordered(op: Op, left: u64, right: u64) -> bool
    ensures { result ≡ order_of op (pos left) (pos right) }
{
    match op {
        Op::Lt => left < right,
        Op::Le => left <= right,
        Op::Gt => left > right,
        _ => left >= right,
    }
}
