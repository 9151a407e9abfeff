//! A step of a frame.
ghost use Rattle.std.specs.Prelude.{◌≡◌, true, false, length, option_map, IfOk, OnErr};
ghost use Rattle.cpc_tree.specs.Erase.{Names as Texts, type_of};
ghost use Rattle.cpc_check_rules.specs.Apart.{AreApart, Spells};
ghost use Rattle.cpc_tree.specs.Typing.{function_named};
ghost use Rattle.cpc_meaning.specs.Answer.{needed};
ghost use Rattle.cpc_meaning.specs.Eval as E;
ghost use Rattle.cpc_store.specs.Seen.{seen, IsLawful};
ghost use Rattle.cpc_meaning.specs.Act as M;
ghost use Rattle.cpc_eval_values.specs.Shown.{value_of, store_of};
ghost use Rattle.cpc_eval.specs.Spots.{AreLawful};
ghost use Rattle.cpc_native_frames.specs.Frames.{IsWellFrame, RiseFrom};
ghost use Rattle.cpc_native_frames.specs.Made.{slots_of};
ghost use Rattle.cpc_native_acts.specs.Deeds.{Plans, did, enters_deed, takes_call, IsLawfulDeed, IsServedDeed, IsTakenDeed};
ghost use Rattle.cpc_native_plans.specs.Stops.{MeetsOr, wants_memory};
ghost use Rattle.cpc_eval_index.specs.Indexed.{items_of, IsOwn};
ghost use Rattle.cpc_native_acts.specs.Acts.{acted, called, enters_act, function_shown, is_call_stood, IsLawfulAct, IsLawfulIf, EntersOwn, AsksServed, AsksTaken, Keeps};
ghost use Rattle.cpc_native_stood.specs.Stood.{stood_of, context_in, IsTexts, IsServing};

use crate::deeds::{Deed, arrives, found};
use crate::writing::write;
use cpc_base::{Name, Names, Stop};
use cpc_eval::{Around, Slot};
use cpc_eval_index::Index;
use cpc_native_builtins::Call;
use cpc_native_frames::{Frame, leave};
use cpc_native_plans::stopped;
use cpc_native_points::{Phase, standing};
use cpc_num::Fault;
use cpc_store::{Store, Value};
use cpc_tree::program::Function;
use std::alloc::Global;

/// What a step of a frame comes to, apart from where control goes.
#[derive(Drop)]
pub enum Act<'p> {
    /// Control goes on, as a test there holds or not.
    GoesOn(bool),
    /// A function is entered with these arguments.
    Enters(&'p Function, Vec<Value>),
    /// The function is left with this value, its blocks freed.
    Leaves(Value),
    /// The machine is asked.
    Asks(Call, Vec<Value>),
}

// What is to be done where a frame stands, where this value is arriving.
#[tactic(auto, using(cpc_native_plans::proofs::Stopping::never_called))]
fn planned(
    alloc: Global,
    index: &Index<'_>,
    texts: &Names,
    frame: &Frame<'_>,
    store: &Store,
    arriving: Option<Value>,
) -> Result<Deed, Stop<Fault>>
    requires well { IsWellFrame index.now frame.now }
    requires arriving { IsLawfulIf arriving }
    ensures value { (names : Texts) → IsTexts names index.now texts.now frame.now → IsServing names index.now frame.now
        → Plans names (context_in names index.now frame.now store.now) result (M.act (context_in names index.now frame.now store.now) (type_of names frame.now.function.now.result) (option_map (value_of names) arriving) (stood_of names frame.now)) }
    ensures lawful { IfOk result (λ d. IsLawfulDeed d) }
    ensures served { IfOk result (λ d. (names : Texts) → Spells texts.now names → IsServing names index.now frame.now → IsServedDeed d) }
    ensures takes { IfOk result (λ d. IsTakenDeed d) }
    ensures call { (names : Texts) → takes_call result ≡ true → is_call_stood (stood_of names frame.now) ≡ true }
{
    let around = Around {
        index,
        function: frame.function,
        path: &frame.point.path,
        slots: &frame.slots,
        store,
    };
    match frame.point.phase {
        Phase::Here => {
            let there = standing(&frame.function.body, &frame.point.path);
            found(alloc, &frame.function.result, there, &around, texts)
        }
        Phase::Arrival => match arriving {
            Some(value) => {
                let there = standing(&frame.function.body, &frame.point.path);
                arrives(alloc, there, value, &around)
            }
            None => Err(Stop::Fault(Fault::Kind)),
        },
        Phase::End => Ok(Deed::Leaves(Value::Unset)),
    }
}

// The function of a name.
#[tactic(auto, using(cpc_native_plans::proofs::Stopping::wants_stopped))]
fn entered<'p>(index: &Index<'p>, name: Name) -> Result<&'p Function, Stop<Fault>>
    ensures value { (names : Texts) → AreApart names → MeetsOr (function_shown names result) (needed (function_named (items_of names index.now) (names name))) }
    ensures own { IfOk result (λ function. IsOwn index.now function.now) }
    ensures memory { wants_memory result ≡ false }
{
    match index.function(name) {
        Some(function) => Ok(function),
        None => Err(Stop::Fault(Fault::Code)),
    }
}

// Does what is to be done.
#[tactic(auto, using(cpc_native_plans::proofs::Stopping::wants_stopped))]
fn perform<'p>(
    index: &Index<'p>,
    deed: Deed,
    slots: &mut [Slot],
    store: &mut Store,
) -> Result<Act<'p>, Stop<Fault>>
    requires deed { IsLawfulDeed deed }
    requires slots { AreLawful slots.old }
    requires rise { RiseFrom 0 slots.old }
    requires takes { IsTakenDeed deed }
    ensures value { (names : Texts) (c : E.Context) → AreApart names → c.program ≡ items_of names index.now → c.slots ≡ slots_of names slots.old → c.store ≡ store_of names store.old
        → MeetsOr (acted names slots.new store.new result) (did names c deed) }
    ensures lawful_slots { AreLawful slots.new }
    ensures rise { RiseFrom 0 slots.new }
    ensures slots { OnErr result (slots.new ≡ slots.old) }
    ensures store { OnErr result (store.new ≡ store.old) }
    ensures slots_kept { IfOk result (λ act. Keeps act slots.old slots.new) }
    ensures store_kept { IfOk result (λ act. Keeps act store.old store.new) }
    ensures lawful { IfOk result (λ act. IsLawfulAct act) }
    ensures own { IfOk result (λ act. EntersOwn index.now act) }
    ensures asked { IfOk result (λ act. IsServedDeed deed → AsksServed act) }
    ensures takes { IfOk result (λ act. AsksTaken act) }
    ensures memory { wants_memory result ≡ false }
    ensures enters { IfOk result (λ act. enters_act act ≡ enters_deed deed) }
{
    match deed {
        Deed::Passes(holds) => Ok(Act::GoesOn(holds)),
        Deed::Writes(spot, value) => {
            stopped(write(slots, store, spot, value))?;
            Ok(Act::GoesOn(true))
        }
        Deed::Enters(name, row) => {
            let function = entered(index, name)?;
            Ok(Act::Enters(function, row))
        }
        Deed::Leaves(value) => {
            stopped(leave(slots, store))?;
            Ok(Act::Leaves(value))
        }
        Deed::Asks(call, row) => Ok(Act::Asks(call, row)),
    }
}

/// A step of a frame, where this value is arriving. Control stays; it goes on by `cpc_native_points`.
///
/// - `Memory`: want of memory. Only a call, which takes arguments, needs some.
/// - `Fault`: the first fault of the expressions, from left to right, or of what is done with their values: `Code` of a
///   call of a code that is not that of a function of the wanted type, `Freed` and `Bounds` of an assignment, `BadFree`
///   where a block of the call that is left is freed already.
///
/// An error leaves the slots and the store as they were. There are as many slots afterwards as there were. A function is
/// entered at a call alone.
#[tactic(auto, using(cpc_native_plans::proofs::Stopping::never_called))]
pub fn step<'p>(
    alloc: Global,
    index: &Index<'p>,
    texts: &Names,
    frame: &mut Frame<'p>,
    store: &mut Store,
    arriving: Option<Value>,
) -> Result<Act<'p>, Stop<Fault>>
    requires well { IsWellFrame index.now frame.old }
    requires arriving { IsLawfulIf arriving }
    ensures value { (names : Texts) → IsTexts names index.now texts.now frame.old → IsServing names index.now frame.old
        → MeetsOr (acted names frame.new.slots.items store.new result) (M.act (context_in names index.now frame.old store.old) (type_of names frame.old.function.now.result) (option_map (value_of names) arriving) (stood_of names frame.old)) }
    ensures function { frame.new.function ≡ frame.old.function }
    ensures point { frame.new.point ≡ frame.old.point }
    ensures well { IsWellFrame index.now frame.new }
    ensures count { length frame.new.slots.items ≡ length frame.old.slots.items }
    ensures slots { OnErr result (frame.new.slots.items ≡ frame.old.slots.items) }
    ensures store { OnErr result (store.new ≡ store.old) }
    ensures slots_kept { IfOk result (λ act. Keeps act frame.old.slots.items frame.new.slots.items) }
    ensures store_kept { IfOk result (λ act. Keeps act store.old store.new) }
    ensures lawful { IfOk result (λ act. IsLawfulAct act) }
    ensures own { IfOk result (λ act. EntersOwn index.now act) }
    ensures asked { IfOk result (λ act. (names : Texts) → Spells texts.now names → IsServing names index.now frame.old → AsksServed act) }
    ensures takes { IfOk result (λ act. AsksTaken act) }
    ensures call { (names : Texts) → called result ≡ true → is_call_stood (stood_of names frame.old) ≡ true }
{
    let deed = planned(alloc, index, texts, frame, store, arriving)?;
    perform(index, deed, &mut frame.slots, store)
}
