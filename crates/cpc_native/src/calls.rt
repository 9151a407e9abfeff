//! The calls upon each other, and how many registers they have.
ghost use Rattle.std.specs.Prelude.{◌≡◌, ◌↔◌, List, [], ◌∷◌, ◌++◌, IsTrue, IfSome, OnOk, OnErr};
ghost use Rattle.std.specs.Option.{IfNone, option_to_list};
ghost use Rattle.std.proofs.Props.{props};
ghost use Rattle.cpc_native_frames.specs.declared.frame.Frame.{Frame};
ghost use Rattle.cpc_native.specs.Counts.{is_register, registers_in, frames_count, slots_count};

use cpc_base::NoMemory;
use cpc_eval::Slot;
use cpc_native_frames::Frame;
use std::alloc::Global;

/// The frames of calls, of which the innermost is the last, with the number of their registers and of all their slots. No
/// step changes how many slots a frame has, so one that was taken can be put back, whatever became of its registers.
#[derive(Drop)]
pub(crate) struct Calls<'p> {
    frames: Vec<Frame<'p>>,
    registers: u64,
    slots: u64,
    ghost counted: { registers ≡ frames_count frames.items } by { Prim.hlevel props },
    ghost sized: { slots ≡ slots_count frames.items } by { Prim.hlevel props },
}

// Whether a slot is a register.
fn is_register(slot: Slot) -> bool
    ensures { result ≡ is_register slot }
{
    match slot {
        Slot::Register(_) => true,
        Slot::Boxed(_) => false,
    }
}

// The number of registers among slots.
fn registers_in(slots: &[Slot]) -> u64
    ensures { result ≡ registers_in slots.now }
{
    slots.iter().filter(|slot| is_register(**slot)).count() as u64
}

impl<'p> Calls<'p> {
    ghost use Rattle.cpc_native.specs.Room.{HasPlace, HasPlaces};

    /// No call.
    pub(crate) fn new(alloc: Global) -> Self
        ensures { result.frames.items ≡ [] }
    {
        Calls {
            frames: Vec::new(alloc),
            registers: 0,
            slots: 0,
        }
    }

    /// Makes room for a frame upon the others. `NoMemory` is want of memory, or of numbers for so many slots.
    pub(crate) fn make_room(&mut self, frame: &Frame<'p>) -> Result<(), NoMemory>
        ensures frames { self.new.frames.items ≡ self.old.frames.items }
        ensures place { OnOk result (HasPlace self.new frame.now) }
    {
        if self.slots.checked_add(frame.slots.len() as u64).is_none() {
            return Err(NoMemory);
        }
        self.frames.reserve(1)?;
        Ok(())
    }

    /// Takes the innermost frame. There is room to put it back.
    pub(crate) fn take(&mut self) -> Option<Frame<'p>>
        ensures rest { self.old.frames.items ≡ self.new.frames.items ++ option_to_list result }
        ensures none { IfNone result (self.old.frames.items ≡ []) }
        ensures place { IfSome result (λ frame. HasPlace self.new frame) }
    {
        let frame = self.frames.pop()?;
        self.registers -= registers_in(&frame.slots);
        self.slots -= frame.slots.len() as u64;
        Some(frame)
    }

    /// Puts a frame upon the others, for which there is room.
    #[tactic(auto, using(crate::proofs::Counting::registers_few, crate::proofs::Counting::counts_few))]
    pub(crate) fn put_back(&mut self, frame: Frame<'p>)
        requires place { HasPlace self.old frame }
        ensures frames { self.new.frames.items ≡ self.old.frames.items ++ frame.entry ∷ [] }
        ensures place { (upper : Frame) → HasPlaces self.old frame.entry upper → HasPlace self.new upper }
    {
        self.registers += registers_in(&frame.slots);
        self.slots += frame.slots.len() as u64;
        self.frames.push_reserved(frame);
    }

    /// Makes room for another frame upon this one. `NoMemory` is want of memory, or of numbers for so many slots.
    pub(crate) fn reserve(&mut self, frame: &Frame<'p>, upper: &Frame<'p>) -> Result<(), NoMemory>
        requires place { HasPlace self.old frame.now }
        ensures frames { self.new.frames.items ≡ self.old.frames.items }
        ensures place { HasPlace self.new frame.now }
        ensures both { OnOk result (HasPlaces self.new frame.now upper.now) }
    {
        let below = self.slots + frame.slots.len() as u64;
        if below.checked_add(upper.slots.len() as u64).is_none() {
            return Err(NoMemory);
        }
        self.frames.reserve(2)?;
        Ok(())
    }

    /// The innermost frame.
    pub(crate) fn last(&self) -> Option<&Frame<'p>>
        ensures some { IfSome result (λ frame. (front : List Frame) × (self.now.frames.items ≡ front ++ frame.now ∷ [])) }
        ensures none { IfNone result (self.now.frames.items ≡ []) }
    {
        self.frames.last()
    }

    /// Drops all frames.
    pub(crate) fn clear(&mut self)
        ensures { self.new.frames.items ≡ [] }
    {
        self.frames.clear();
        self.registers = 0;
        self.slots = 0;
    }

    /// Whether there is no call.
    pub(crate) fn is_empty(&self) -> bool
        ensures { IsTrue result ↔ self.now.frames.items ≡ [] }
    {
        self.frames.is_empty()
    }

    /// How many registers the calls have.
    pub(crate) fn registers(&self) -> u64
        ensures { result ≡ frames_count self.now.frames.items }
    {
        self.registers
    }
}
