//! Values that are held while others are made, of whatever type. A function that holds a tree and gives up early lets go of it there, and
//! is proved to: here that is proved once, for all types.
ghost use Rattle.std.specs.Prelude.{◌≡◌, ◌++◌, ◌∷◌, [], Ok, IfOk, OnOk};

use cpc_base::NoMemory;
use std::alloc::Global;

/// A value in a box. `NoMemory` is want of memory.
pub fn boxed<T: Drop>(alloc: Global, value: T) -> Result<Box<T>, NoMemory>
    ensures { IfOk result (λ b. b.value ≡ value) }
{
    let made = Box::new(alloc, value)?;
    Ok(made)
}

/// A value behind others. `NoMemory` is want of memory.
pub fn pushed<T: Drop>(list: &mut Vec<T>, value: T) -> Result<(), NoMemory>
    ensures { OnOk result (list.new.items ≡ list.old.items ++ value ∷ []) }
{
    list.push(value)?;
    Ok(())
}

/// A value that is held, and the one that was made next, if it was. `NoMemory` is want of memory.
pub fn both<A: Drop, B: Drop>(held: A, made: Result<B, NoMemory>) -> Result<(A, B), NoMemory>
    ensures first { IfOk result (λ p. p.0 ≡ held) }
    ensures second { IfOk result (λ p. made ≡ Ok p.1) }
{
    let made = made?;
    Ok((held, made))
}
