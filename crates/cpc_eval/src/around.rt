//! What an expression is evaluated in.
ghost use Rattle.std.specs.Prelude.{◌≡◌, ◌<◌, ◌^◌, length};
ghost use Rattle.cpc_tree.specs.Erase.{Names};
ghost use Rattle.cpc_eval_index.specs.Indexed.{IsOwn};

use cpc_base::Name;
use cpc_eval_index::{Index, Meant};
use cpc_eval_locals::Local;
use cpc_native_points::Part;
use cpc_store::{Store, Value};
use cpc_tree::program::Function;

/// A variable of a call: its value, or the number of its auto block.
#[derive(Clone, Copy)]
pub enum Slot {
    Register(Value),
    Boxed(u64),
}

/// Where an expression stands: in a call of a function of the program, at a path of its body, with the variables of the call.
#[derive(Clone, Copy)]
pub struct Around<'a> {
    pub index: &'a Index<'a>,
    pub function: &'a Function,
    pub path: &'a [Part],
    pub slots: &'a [Slot],
    pub store: &'a Store,
    pub ghost own: { ∥ IsOwn index.now function.now ∥₁ },
}

impl<'a> Around<'a> {
    ghost use Rattle.cpc_eval_index.specs.Meanings.{meant_if};
    ghost use Rattle.cpc_eval_locals.specs.Held.{local_in, capped_held};
    ghost use Rattle.cpc_eval_locals.specs.Locals.{held_of};
    ghost use Rattle.cpc_eval.specs.Around.{context_of, IsToldIn, meant_in};

    // The innermost parameter or local that a name stands for.
    fn local(&self, name: Name) -> Option<Local<'a>>
        ensures { (names : Names) → IsToldIn names self.now → held_of names result ≡ capped_held (local_in (context_of names self.now).scope (names name)) }
    {
        match self.index.locals(self.function.word.name) {
            Some(locals) => locals.at(self.path, name),
            None => None,
        }
    }

    /// What a name stands for: the innermost local, or else an item. A local's number above `u64::MAX` is `u64::MAX`.
    pub fn meant(&self, name: Name) -> Option<Meant<'a>>
        ensures meant { (names : Names) → IsToldIn names self.now → meant_if names result ≡ meant_in (context_of names self.now) (names name) }
        ensures few { length self.now.slots.now < 2 ^ 64 }
    {
        // No slice is longer than a usize can say.
        let _ = self.slots.len();
        match self.local(name) {
            Some(local) => Some(Meant::Local {
                slot: local.slot,
                of: local.of,
            }),
            None => self.index.meant(name),
        }
    }
}
