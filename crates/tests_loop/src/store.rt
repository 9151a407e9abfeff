//! What a store does, act by act, with ample memory.
use cpc_num::{Fault, Kind};
use cpc_store::{Block, Class, Scalar, Store, Value};
use std::alloc::Global;

const SEVEN: Value = Value::Int(Kind::Int, 7);

const INT: Scalar = Scalar::Int(Kind::Int);

// The first block of two classes, of which only one has a block.
const HEAP: Block = Block {
    class: Class::Heap,
    number: 0,
};

const FRAME: Block = Block {
    class: Class::Frame,
    number: 0,
};

/// An act on a store.
#[derive(Clone, Copy)]
enum Act {
    /// A block of the heap of so many cells is made.
    Makes(u64),
    /// A cell gets the value 7.
    Saves(Block, u64),
    /// A cell is read.
    Loads(Block, u64, Scalar),
    /// A block of this class is dropped.
    Frees(Class, Value),
}

/// What an act comes to.
#[derive(Clone, Copy, PartialEq, Eq)]
enum Seen {
    /// It was done.
    Went,
    /// It was done, and gave this value.
    Gave(Value),
    /// It was refused by this fault.
    Faulted(Fault),
    /// Memory, or numbers, were wanting, or the value is none.
    Starved,
}

fn went(given: Result<(), Fault>) -> Seen {
    match given {
        Ok(()) => Seen::Went,
        Err(fault) => Seen::Faulted(fault),
    }
}

fn made(alloc: Global, store: &mut Store, cells: u64) -> Seen {
    if cells > 1000 || store.live_cells() > 1000 || store.made(Class::Heap) > 1000 {
        return Seen::Starved;
    }
    match store.alloc(alloc, Class::Heap, cells) {
        Ok(block) => Seen::Gave(Value::At(block, 0)),
        Err(_) => Seen::Starved,
    }
}

fn done(alloc: Global, store: &mut Store, act: Act) -> Seen {
    match act {
        Act::Makes(cells) => made(alloc, store, cells),
        Act::Saves(block, offset) => went(store.save(block, offset, SEVEN)),
        Act::Loads(block, offset, of) => match store.load(block, offset, of) {
            Ok(value) => Seen::Gave(value),
            Err(fault) => Seen::Faulted(fault),
        },
        Act::Frees(class, what) => {
            if what.is_lawful() {
                went(store.free(class, what))
            } else {
                Seen::Starved
            }
        }
    }
}

#[test]
fn cells_are_written_and_read_and_blocks_dropped_once(rt: HostRuntime) {
    let mut store = Store::new(rt.alloc());
    let first = Value::At(HEAP, 0);
    for (act, seen) in [
        (Act::Makes(2), Seen::Gave(first)),
        (Act::Loads(HEAP, 0, INT), Seen::Gave(Value::Unset)),
        (Act::Saves(HEAP, 0), Seen::Went),
        (Act::Loads(HEAP, 0, INT), Seen::Gave(SEVEN)),
        (
            Act::Loads(HEAP, 0, Scalar::Pointer),
            Seen::Faulted(Fault::Kind),
        ),
        (Act::Loads(HEAP, 2, INT), Seen::Faulted(Fault::Bounds)),
        (Act::Loads(FRAME, 0, INT), Seen::Faulted(Fault::Freed)),
        (Act::Saves(HEAP, 2), Seen::Faulted(Fault::Bounds)),
        (Act::Saves(FRAME, 0), Seen::Faulted(Fault::Freed)),
        (Act::Frees(Class::Heap, Value::Null), Seen::Went),
        (
            Act::Frees(Class::Heap, Value::Unset),
            Seen::Faulted(Fault::Unset),
        ),
        (
            Act::Frees(Class::Heap, SEVEN),
            Seen::Faulted(Fault::BadFree),
        ),
        (
            Act::Frees(Class::Heap, Value::At(HEAP, 1)),
            Seen::Faulted(Fault::BadFree),
        ),
        (
            Act::Frees(Class::Frame, first),
            Seen::Faulted(Fault::BadFree),
        ),
        (Act::Loads(HEAP, 0, INT), Seen::Gave(SEVEN)),
        (Act::Frees(Class::Heap, first), Seen::Went),
        (
            Act::Frees(Class::Heap, first),
            Seen::Faulted(Fault::BadFree),
        ),
        (Act::Loads(HEAP, 0, INT), Seen::Faulted(Fault::Freed)),
    ] {
        assert!(rt; done(rt.alloc(), &mut store, act) == seen);
    }
    assert_eq!(rt; store.live_cells(), 0);
}
