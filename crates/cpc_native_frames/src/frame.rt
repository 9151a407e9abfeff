//! The frame of a call: its function, where it stands, and its variables.
ghost use Rattle.std.specs.Prelude.{◌≡◌, IfOk, OnErr};
ghost use Rattle.std.specs.List.{All};
ghost use Rattle.cpc_tree.specs.Erase.{Names, function_of};
ghost use Rattle.cpc_tree.specs.Points as T;
ghost use Rattle.cpc_store.specs.Store as S;
ghost use Rattle.cpc_store.specs.Seen.{seen, IsLawful};
ghost use Rattle.cpc_meaning.specs.Answer as A;
ghost use Rattle.cpc_meaning.specs.Plain as P;
ghost use Rattle.cpc_meaning.specs.Trees.{trees};
ghost use Rattle.cpc_eval_values.specs.Shown.{values_of, store_of};
ghost use Rattle.cpc_eval_index.specs.Indexed.{items_of, IsOwn};
ghost use Rattle.cpc_tree.specs.Registers as R;
ghost use Rattle.cpc_eval_variables.specs.Kept.{kept_from};
ghost use Rattle.cpc_eval_locals.specs.Kept.{kept_by};
ghost use Rattle.cpc_eval_variables.specs.Told.{IsTold};
ghost use Rattle.cpc_native_points.specs.Depth.{capped, deep};
ghost use Rattle.cpc_native_frames.specs.Back.{IsAsBefore, CanTakeBack};
ghost use Rattle.cpc_native_frames.specs.Frames.{frame_of, IsWellFrame};
ghost use Rattle.cpc_native_frames.specs.Made.{slots_of};

use crate::making::make_slots;
use cpc_base::NoMemory;
use cpc_eval::Slot;
use cpc_eval_index::Index;
use cpc_eval_locals::Variable;
use cpc_native_points::{Point, begin};
use cpc_store::{Store, Value};
use cpc_tree::program::Function;
use std::alloc::Global;

/// A call of a function: where it stands in the body, and its variables. Its point has room for every path of the body.
pub struct Frame<'p> {
    pub function: &'p Function,
    pub point: Point,
    pub slots: Vec<Slot>,
}

impl Drop for Frame<'_> {
    fn drop(self) {
        let Frame {
            function: _,
            point,
            slots,
        } = self;
        drop(point);
        drop(slots);
    }
}

// The variables of a function of the program.
fn variables_of<'p>(index: &Index<'p>, function: &Function) -> &'p [Variable]
    requires { IsOwn index.now function.now }
    ensures { (names : Names) → IsTold names function.now.parameters.items
        → kept_by names result.now ≡ kept_from (function_of names function.now) 0 (R.variables (function_of names function.now)) }
{
    match index.locals(function.word.name) {
        Some(locals) => locals.variables(),
        None => unreachable!(),
    }
}

// How deep the body of a function of the program is. `usize::MAX` stands for every greater number.
fn depth_of(index: &Index<'_>, function: &Function) -> usize
    requires { IsOwn index.now function.now }
    ensures { result ≡ capped (deep function.now.body) }
{
    match index.locals(function.word.name) {
        Some(locals) => locals.labels().depth(),
        None => unreachable!(),
    }
}

/// The frame of a call with these arguments, at the beginning of the body, and its blocks in the store. Its point has room
/// for every path of the body. Where the size of a type is not known nothing is said.
///
/// `NoMemory` is want of memory, or of numbers for so many cells; the blocks that were made are freed, and the store is as it
/// was but for their numbers.
pub fn enter<'p>(
    alloc: Global,
    index: &Index<'p>,
    function: &'p Function,
    arguments: &[Value],
    store: &mut Store,
) -> Result<Frame<'p>, NoMemory>
    requires arguments { All (λ v. IsLawful (seen v)) arguments.now }
    requires own { IsOwn index.now function.now }
    ensures made { IfOk result (λ frame. (names : Names) → IsTold names function.now.parameters.items
        → (a : P.Frame T.Point × S.Store) → P.make_frame (trees (items_of names index.now)) (function_of names function.now) (values_of names arguments.now) (store_of names store.old) ≡ A.Gives a
        → (frame_of names frame, store_of names store.new) ≡ a) }
    ensures well { IfOk result (λ frame. IsWellFrame index.now frame) }
    ensures function { IfOk result (λ frame. frame.function.now ≡ function.now) }
    ensures back { IfOk result (λ frame. (names : Names) → CanTakeBack (slots_of names frame.slots.items) (store_of names store.old) (store_of names store.new)) }
    ensures err { OnErr result ((names : Names) → IsAsBefore (store_of names store.old) (store_of names store.new)) }
{
    let variables = variables_of(index, function);
    let depth = depth_of(index, function);
    let mut point = Point::with_depth(alloc, depth)?;
    begin(&function.body, &mut point);
    let slots = make_slots(alloc, index, variables, arguments, store)?;
    Ok(Frame {
        function,
        point,
        slots,
    })
}
