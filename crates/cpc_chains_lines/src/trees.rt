//! Expressions and types that are made.
ghost use Rattle.std.specs.Prelude.{◌≡◌, pos, IfOk};
ghost use Rattle.cpc_num.specs.declared.kinds.Kind.TheVariants as K;
ghost use Rattle.cpc_num.specs.declared.kinds.Op.TheVariants as O;
ghost use Rattle.cpc_tree.specs.Erase as E;
ghost use Rattle.cpc_tree.specs.Erase.{expr_of, type_of};
ghost use Rattle.cpc_tree.specs.Syntax as S;
ghost use Rattle.cpc_chains_store_laws.specs.Frames as F;
ghost use Rattle.cpc_chains_store_laws.specs.Driver as D;

use cpc_base::{Name, NoMemory, Place};
use cpc_convert_images::{both, boxed};
use cpc_num::{Kind, Op};
use cpc_tree::program::{CType, Expr, Word};
use std::alloc::Global;

/// A name.
pub fn named(place: Place, name: Name) -> Expr
    ensures { (to : E.Names) → expr_of to result ≡ S.ENamed (to name) }
{
    Expr::Name(Word { place, name })
}

/// The number 0, which is null where a pointer is wanted.
pub fn zero(place: Place) -> Expr
    ensures { (to : E.Names) → expr_of to result ≡ S.EInteger K.Int (pos 0) }
{
    Expr::Integer {
        place,
        kind: Kind::Int,
        value: 0,
    }
}

/// Whether what a name stands for is not 0. `NoMemory` is want of memory.
pub fn is_there(alloc: Global, place: Place, name: Name) -> Result<Expr, NoMemory>
    ensures { IfOk result (λ x. (to : E.Names) → expr_of to x ≡ S.EBinary O.Ne (S.ENamed (to name)) (S.EInteger K.Int (pos 0))) }
{
    let left = boxed(alloc, named(place, name))?;
    let (left, right) = both(left, boxed(alloc, zero(place)))?;
    Ok(Expr::Binary {
        place,
        op: Op::Ne,
        left,
        right,
    })
}

/// The size of a struct.
pub fn size_of(place: Place, tag: Name) -> Expr
    ensures { (to : E.Names) → expr_of to result ≡ S.ESizeOf (S.TyStruct (to tag)) }
{
    Expr::SizeOf {
        place,
        target: CType::Struct(tag),
    }
}

/// A field of what a pointer points to. `NoMemory` is want of memory.
pub fn field(alloc: Global, place: Place, pointer: Expr, name: Name) -> Result<Expr, NoMemory>
    ensures { IfOk result (λ x. (to : E.Names) → expr_of to x ≡ S.EArrow (expr_of to pointer) (to name)) }
{
    let operand = boxed(alloc, pointer)?;
    Ok(Expr::Arrow {
        place,
        operand,
        field: Word { place, name },
    })
}

/// A pointer to a struct. `NoMemory` is want of memory.
pub fn to_struct(alloc: Global, tag: Name) -> Result<CType, NoMemory>
    ensures { IfOk result (λ t. (to : E.Names) → type_of to t ≡ S.TyPointer (S.TyStruct (to tag))) }
{
    let target = boxed(alloc, CType::Struct(tag))?;
    Ok(CType::Pointer(target))
}

/// A pointer to anything. `NoMemory` is want of memory.
pub fn any_pointer(alloc: Global) -> Result<CType, NoMemory>
    ensures { IfOk result (λ t. (to : E.Names) → type_of to t ≡ D.any_pointer) }
{
    let target = boxed(alloc, CType::Void)?;
    Ok(CType::Pointer(target))
}

/// A frame through a pointer of another type. `NoMemory` is want of memory.
pub fn frame_through(
    alloc: Global,
    place: Place,
    pointer: Name,
    tag: Name,
) -> Result<Expr, NoMemory>
    ensures { IfOk result (λ x. (to : E.Names) → expr_of to x ≡ F.frame_through (to pointer) (to tag)) }
{
    let target = to_struct(alloc, tag)?;
    let (target, operand) = both(target, boxed(alloc, named(place, pointer)))?;
    Ok(Expr::Cast {
        place,
        target,
        operand,
    })
}
