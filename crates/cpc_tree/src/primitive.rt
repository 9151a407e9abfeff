//! The primitives of the language.
ghost use Rattle.std.specs.Prelude.{◌≡◌, option_map};
ghost use Rattle.cpc_tree.specs.Primitives as P;
ghost use Rattle.cpc_tree.specs.PrimitiveNames.{primitive_of, spelling_of, primitive_found};

/// A primitive of the language: `Print` to `Free` are of both dialects, `Yield` to `Wait` of that of threads, the others of that of
/// events.
#[derive(Clone, Copy)]
pub enum Primitive {
    /// `cpc_print`: a number and a line's end go out.
    Print,
    /// `cpc_putc`: a byte goes out.
    Putc,
    /// `cpc_puts`: a string's bytes go out.
    Puts,
    /// `cpc_now`: the time, in microseconds.
    Now,
    /// `cpc_cond_new`: a new condition.
    CondNew,
    /// `cpc_cond_free`: a condition is released.
    CondFree,
    /// `cpc_signal`: the one that has waited longest becomes ready.
    Signal,
    /// `cpc_signal_all`: all that wait become ready.
    SignalAll,
    /// `cpc_exit`: the run ends, with this number.
    Exit,
    /// `malloc`: a block of so many cells.
    Malloc,
    /// `free`: such a block is freed.
    Free,
    /// `cpc_yield`: the thread goes to the end of the ready list.
    Yield,
    /// `cpc_sleep`: the thread waits so many microseconds.
    Sleep,
    /// `cpc_io_wait`: the thread waits for a descriptor.
    IoWait,
    /// `cpc_wait`: the thread waits on a condition.
    Wait,
    /// `rt_frame`: a block of so many cells for a frame.
    RtFrame,
    /// `rt_box`: a block of so many cells for a variable.
    RtBox,
    /// `rt_frame_free`: the block of a frame is freed.
    RtFrameFree,
    /// `rt_unbox`: the block of a variable is freed.
    RtUnbox,
    /// `rt_ready`: a callback becomes ready.
    RtReady,
    /// `rt_wait`: a callback waits on a condition.
    RtWait,
    /// `rt_sleep`: a callback waits so many microseconds.
    RtSleep,
    /// `rt_io`: a callback waits for a descriptor.
    RtIo,
    /// `rt_detach`: a callback waits for a section.
    RtDetach,
}

impl Primitive {
    /// Each primitive once.
    pub const ALL: [Primitive; 24] = [
        Primitive::Print,
        Primitive::Putc,
        Primitive::Puts,
        Primitive::Now,
        Primitive::CondNew,
        Primitive::CondFree,
        Primitive::Signal,
        Primitive::SignalAll,
        Primitive::Exit,
        Primitive::Malloc,
        Primitive::Free,
        Primitive::Yield,
        Primitive::Sleep,
        Primitive::IoWait,
        Primitive::Wait,
        Primitive::RtFrame,
        Primitive::RtBox,
        Primitive::RtFrameFree,
        Primitive::RtUnbox,
        Primitive::RtReady,
        Primitive::RtWait,
        Primitive::RtSleep,
        Primitive::RtIo,
        Primitive::RtDetach,
    ];

    /// The name of the primitive.
    pub fn spelling(self) -> &'static [u8]
        ensures { result.now ≡ spelling_of self }
    {
        match self {
            Primitive::Print => b"cpc_print",
            Primitive::Putc => b"cpc_putc",
            Primitive::Puts => b"cpc_puts",
            Primitive::Now => b"cpc_now",
            Primitive::CondNew => b"cpc_cond_new",
            Primitive::CondFree => b"cpc_cond_free",
            Primitive::Signal => b"cpc_signal",
            Primitive::SignalAll => b"cpc_signal_all",
            Primitive::Exit => b"cpc_exit",
            Primitive::Malloc => b"malloc",
            Primitive::Free => b"free",
            Primitive::Yield => b"cpc_yield",
            Primitive::Sleep => b"cpc_sleep",
            Primitive::IoWait => b"cpc_io_wait",
            Primitive::Wait => b"cpc_wait",
            Primitive::RtFrame => b"rt_frame",
            Primitive::RtBox => b"rt_box",
            Primitive::RtFrameFree => b"rt_frame_free",
            Primitive::RtUnbox => b"rt_unbox",
            Primitive::RtReady => b"rt_ready",
            Primitive::RtWait => b"rt_wait",
            Primitive::RtSleep => b"rt_sleep",
            Primitive::RtIo => b"rt_io",
            Primitive::RtDetach => b"rt_detach",
        }
    }
}

// The first primitive that has a name.
#[tactic(auto, unfolding(crate::specs::PrimitiveNames::primitive_found))]
fn primitive_found(text: &[u8]) -> Option<Primitive>
    ensures { result ≡ primitive_found text.now }
{
    Primitive::ALL
        .iter()
        .copied()
        .find(|primitive| text == primitive.spelling())
}

/// The primitive of this name, or `None` where there is none.
#[tactic(auto, using(std::proofs::lemmas::Grind::common_steps, crate::proofs::PrimitiveNames::found_named))]
pub fn primitive_named(text: &[u8]) -> Option<Primitive>
    ensures { option_map primitive_of result ≡ P.primitive_named text.now }
{
    primitive_found(text)
}
