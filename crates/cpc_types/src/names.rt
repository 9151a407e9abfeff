//! The types of names.
ghost use Rattle.std.specs.Prelude.{◌≡◌, IfOk, map};
ghost use Rattle.cpc_tree.specs.Erase.{Names, type_of, parameter_of};
ghost use Rattle.cpc_check_rules.specs.Apart.{AreApart};
ghost use Rattle.cpc_tree.specs.Typing as T;
ghost use Rattle.cpc_check_rules.specs.Scopes as R;
ghost use Rattle.cpc_types.specs.Found.{found_of};
ghost use Rattle.cpc_types.specs.Meanings.{meant_of};
ghost use Rattle.cpc_types.specs.Scoped.{scope_of};

use crate::meant::Meant;
use crate::operators::TypeFound;
use crate::scope::Scope;
use cpc_base::{Name, NoMemory};
use cpc_shapes::copy_of;
use cpc_tree::program::{CType, Mode, Parameter};
use std::alloc::Global;

// The types of parameters.
fn parameter_types(alloc: Global, parameters: &[Parameter]) -> Result<Vec<CType>, NoMemory>
    ensures { IfOk result (λ types. (names : Names) → map (type_of names) types.items ≡ map T.parameter_type (map (parameter_of names) parameters.now)) }
{
    let mut types = Vec::new(alloc);
    for parameter in parameters {
        let copy = copy_of(alloc, &parameter.of)?;
        types.push(copy)?;
    }
    Ok(types)
}

// The code type of a function.
#[tactic(auto, using(std::proofs::lemmas::Grind::common_steps, cpc_shapes::proofs::CodeParts::code_is))]
fn code_type(alloc: Global, of: &CType, parameters: &[Parameter]) -> Result<CType, NoMemory>
    ensures { IfOk result (λ code. (names : Names) → type_of names code ≡ T.function_type (type_of names of.now) (map T.parameter_type (map (parameter_of names) parameters.now))) }
{
    let given = copy_of(alloc, of)?;
    let parameters = parameter_types(alloc, parameters)?;
    Ok(CType::Code {
        result: Box::new(alloc, given)?,
        parameters,
    })
}

// The type of what a name stands for. A cps or extern function is no value.
fn meant_type(alloc: Global, meant: Meant) -> Result<TypeFound, NoMemory>
    ensures { IfOk result (λ found. (names : Names) → found_of names found ≡ T.type_named (meant_of names meant.entry)) }
{
    match meant {
        Meant::Local(of) => Ok(TypeFound::Place(copy_of(alloc, of)?)),
        Meant::Global(of) => Ok(TypeFound::Place(copy_of(alloc, of)?)),
        Meant::Function {
            mode,
            result: given,
            parameters,
        } => match mode {
            Mode::Native => Ok(TypeFound::Value(code_type(alloc, given, parameters)?)),
            Mode::Detached => Ok(TypeFound::Value(code_type(alloc, given, parameters)?)),
            Mode::Cps => Ok(TypeFound::Absent),
            Mode::Extern => Ok(TypeFound::Absent),
        },
        Meant::Nothing => Ok(TypeFound::Absent),
    }
}

/// The type of a name. `NoMemory` is want of memory.
pub fn name_type(alloc: Global, name: Name, scope: &Scope) -> Result<TypeFound, NoMemory>
    ensures { IfOk result (λ found. (names : Names) → AreApart names → found_of names found ≡ T.type_named (R.meant (scope_of names scope.now) (names name))) }
{
    meant_type(alloc, scope.meant(name))
}
