//! Refusals behind what was read. A function that lets go of a tree has the tree's destructor in it, once for each
//! early return; here that is done for a type of which nothing else is known, and its callers only hand the tree over.
ghost use Rattle.std.specs.Prelude.{◌≡◌, ◌++◌, ◌∷◌, [], length, Err, IfOk, IfErr};
ghost use Rattle.cpc_parser_types.specs.declared.refusal.Refusal.TheVariants as GRefusal;

use crate::refusal::Refusal;
use cpc_tree::token::Token;
use std::alloc::Global;

/// The refusal. What was read before it is let go of.
pub fn refused<T: Drop, U>(_read: T, refusal: Refusal) -> Result<U, Refusal>
    ensures { result ≡ Err refusal }
{
    Err(refusal)
}

/// The refusal of the first of the tokens, where no program is left. What was read before them is let go of.
pub fn fault_behind<T: Drop, U>(_read: T, tokens: &[Token]) -> Result<U, Refusal>
    ensures { result ≡ Err (GRefusal.Syntax (length tokens.now)) }
{
    Err(Refusal::Syntax(tokens.len()))
}

/// The refusal of the first of the tokens, where each program nests too deep. What was read before them is let go of.
pub fn deep_behind<T: Drop, U>(_read: T, tokens: &[Token]) -> Result<U, Refusal>
    ensures { result ≡ Err (GRefusal.Deep (length tokens.now)) }
{
    Err(Refusal::Deep(tokens.len()))
}

/// The values with one more behind them.
pub fn added<T: Drop>(all: Vec<T>, next: T) -> Result<Vec<T>, Refusal>
    ensures is { IfOk result (λ v. v.items ≡ all.items ++ next ∷ []) }
    ensures wants { IfErr result (λ e. e ≡ GRefusal.Memory) }
{
    let mut all = all;
    all.push(next)?;
    Ok(all)
}

/// The value in a box.
pub fn boxed<T: Drop>(alloc: Global, inner: T) -> Result<Box<T>, Refusal>
    ensures is { IfOk result (λ b. b.value ≡ inner) }
    ensures wants { IfErr result (λ e. e ≡ GRefusal.Memory) }
{
    let inner = Box::new(alloc, inner)?;
    Ok(inner)
}
