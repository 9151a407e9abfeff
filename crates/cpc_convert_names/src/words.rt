//! The words that a conversion uses.
ghost use Rattle.std.specs.Prelude.{◌≡◌, IfOk, OnOk};
ghost use Rattle.cpc_tree.specs.Erase as E;
ghost use Rattle.cpc_convert_names.specs.Tables.{HasGrown, Spells};
ghost use Rattle.cpc_convert_names.specs.Words.{AreOwn, AreOfLoop};

use crate::interned::interned;
use cpc_base::{Name, Names, NoMemory};
use std::alloc::Global;

/// Words of ours: locals, fields, and the driver.
#[derive(Clone, Copy)]
pub struct OwnWords {
    /// `k__`, the pointer that a piece takes.
    pub pointer: Name,
    /// `e__`, the frame that it points to.
    pub frame: Name,
    /// `next__`, the frame below, and its field.
    pub next: Name,
    /// `value__`, the value that arrives, and its field.
    pub value: Name,
    /// `to__`, the frame that is given to the driver.
    pub given: Name,
    /// `under__`, the frame below one that is called.
    pub under: Name,
    /// `result__`, the value that is returned.
    pub returned: Name,
    /// `code__`, the field of the piece that takes a frame up.
    pub code: Name,
    /// `frame__`, the tag of any frame.
    pub any_frame: Name,
    /// `drive__`, the driver.
    pub drive: Name,
    /// `f__`, the frame that the driver takes up.
    pub taken: Name,
    /// `r__`, the result of a wait, which the driver takes.
    pub answer: Name,
}

/// What the loop offers to event programs.
#[derive(Clone, Copy)]
pub struct LoopWords {
    pub frame: Name,
    pub frame_free: Name,
    pub put_in_box: Name,
    pub unbox: Name,
    pub ready: Name,
    pub sleep: Name,
    pub io: Name,
    pub wait: Name,
    pub detach: Name,
}

// The names of three texts, which the table then has. `NoMemory` is want of memory.
fn three(
    alloc: Global,
    names: &mut Names,
    one: &[u8],
    two: &[u8],
    more: &[u8],
) -> Result<(Name, Name, Name), NoMemory>
    ensures grown { OnOk result (HasGrown names.old names.new) }
    ensures first { IfOk result (λ w. (to : E.Names) → Spells names.new to → to w.0 ≡ one.now) }
    ensures second { IfOk result (λ w. (to : E.Names) → Spells names.new to → to w.1 ≡ two.now) }
    ensures third { IfOk result (λ w. (to : E.Names) → Spells names.new to → to w.2 ≡ more.now) }
{
    let first = interned(alloc, names, one)?;
    let second = interned(alloc, names, two)?;
    let third = interned(alloc, names, more)?;
    Ok((first, second, third))
}

impl OwnWords {
    /// The words, which the table then has. `NoMemory` is want of memory.
    pub(crate) fn of(alloc: Global, names: &mut Names) -> Result<OwnWords, NoMemory>
        ensures grown { OnOk result (HasGrown names.old names.new) }
        ensures are { IfOk result (λ words. (to : E.Names) → Spells names.new to → AreOwn to words) }
    {
        let (pointer, frame, next) = three(alloc, names, b"k__", b"e__", b"next__")?;
        let (value, given, under) = three(alloc, names, b"value__", b"to__", b"under__")?;
        let (returned, code, any_frame) = three(alloc, names, b"result__", b"code__", b"frame__")?;
        let (drive, taken, answer) = three(alloc, names, b"drive__", b"f__", b"r__")?;
        Ok(OwnWords {
            pointer,
            frame,
            next,
            value,
            given,
            under,
            returned,
            code,
            any_frame,
            drive,
            taken,
            answer,
        })
    }
}

impl LoopWords {
    /// The words, which the table then has. `NoMemory` is want of memory.
    pub(crate) fn of(alloc: Global, names: &mut Names) -> Result<LoopWords, NoMemory>
        ensures grown { OnOk result (HasGrown names.old names.new) }
        ensures are { IfOk result (λ words. (to : E.Names) → Spells names.new to → AreOfLoop to words) }
    {
        let (frame, frame_free, put_in_box) = three(
            alloc,
            names,
            b"rt_frame",
            b"rt_frame_free",
            b"rt_box",
        )?;
        let (unbox, ready, sleep) = three(alloc, names, b"rt_unbox", b"rt_ready", b"rt_sleep")?;
        let (io, wait, detach) = three(alloc, names, b"rt_io", b"rt_wait", b"rt_detach")?;
        Ok(LoopWords {
            frame,
            frame_free,
            put_in_box,
            unbox,
            ready,
            sleep,
            io,
            wait,
            detach,
        })
    }
}
