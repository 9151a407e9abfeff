//! Copies of types.
ghost use Rattle.std.specs.Prelude.{◌≡◌, IfOk, map};
ghost use Rattle.cpc_tree.specs.Erase.{Names, type_of};
ghost use Rattle.cpc_tree.specs.Syntax.{TyPointer};

use cpc_base::NoMemory;
use cpc_tree::program::CType;
use std::alloc::Global;

/// The same type once more. `NoMemory` is want of memory.
#[tactic(auto, using(std::proofs::lemmas::Grind::common_steps, crate::proofs::CodeParts::code_is))]
#[cycle(copies)]
pub fn copy_of(alloc: Global, of: &CType) -> Result<CType, NoMemory>
    ensures { IfOk result (λ copy. (names : Names) → type_of names copy ≡ type_of names of.now) }
{
    match of {
        CType::Void => Ok(CType::Void),
        CType::Int(kind) => Ok(CType::Int(*kind)),
        CType::Condvar => Ok(CType::Condvar),
        CType::Pointer(to) => {
            let to = copy_of(alloc, to)?;
            Ok(CType::Pointer(Box::new(alloc, to)?))
        }
        CType::Code {
            result: given,
            parameters,
        } => {
            let given = copy_of(alloc, given)?;
            let parameters = copies_of(alloc, parameters)?;
            Ok(CType::Code {
                result: Box::new(alloc, given)?,
                parameters,
            })
        }
        CType::Struct(tag) => Ok(CType::Struct(*tag)),
        CType::Array(of, length) => {
            let of = copy_of(alloc, of)?;
            Ok(CType::Array(Box::new(alloc, of)?, *length))
        }
    }
}

#[cycle(copies)]
fn copies_of(alloc: Global, list: &[CType]) -> Result<Vec<CType>, NoMemory>
    ensures { IfOk result (λ copies. (names : Names) → map (type_of names) copies.items ≡ map (type_of names) list.now) }
{
    let mut copies = Vec::new(alloc);
    for of in list {
        let copy = copy_of(alloc, of)?;
        copies.push(copy)?;
    }
    Ok(copies)
}

/// The type of a pointer to a copy of this type. `NoMemory` is want of memory.
pub fn pointer_to(alloc: Global, of: &CType) -> Result<CType, NoMemory>
    ensures { IfOk result (λ pointer. (names : Names) → type_of names pointer ≡ TyPointer (type_of names of.now)) }
{
    let to = copy_of(alloc, of)?;
    Ok(CType::Pointer(Box::new(alloc, to)?))
}
