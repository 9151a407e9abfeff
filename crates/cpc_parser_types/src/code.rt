//! Pointers to functions.
ghost use Rattle.std.specs.Prelude.{◌≡◌, map, IfOk, IfErr};
ghost use Rattle.cpc_tree.specs.Erase.{Names, type_of};
ghost use Rattle.cpc_tree.specs.Locate.{located_parameter};
ghost use Rattle.cpc_tree.specs.Syntax.{TyCode};
ghost use Rattle.cpc_tree.specs.TypeGrammar.{types, without_void};
ghost use Rattle.cpc_tree.specs.declared.program.Parameter as GParameter;
ghost use Rattle.cpc_parser_types.specs.TypeViews.{void_alone};
ghost use Rattle.cpc_parser_types.specs.declared.refusal.Refusal.TheVariants as GRefusal;

use crate::refusal::Refusal;
use cpc_tree::program::{CType, Parameter};
use std::alloc::Global;

/// The pointer to a function with the result and the parameters.
pub fn code_type(alloc: Global, of: CType, list: Vec<Parameter>) -> Result<CType, Refusal>
    ensures made { IfOk result (λ x. (names : Names) → type_of names x ≡ TyCode (type_of names of) (types (map (located_parameter names) list.items))) }
    ensures memory { IfErr result (λ e. e ≡ GRefusal.Memory) }
{
    let parameters = types_of(alloc, list)?;
    Ok(CType::Code {
        result: Box::new(alloc, of)?,
        parameters,
    })
}

// The types of the parameters.
fn types_of(alloc: Global, list: Vec<Parameter>) -> Result<Vec<CType>, Refusal>
    ensures types { IfOk result (λ x. x.items ≡ map (λ (p : GParameter.Parameter). p.of) list.items) }
    ensures memory { IfErr result (λ e. e ≡ GRefusal.Memory) }
{
    let mut all = Vec::new(alloc);
    'types: for parameter in list {
        all.push(parameter.of)?;
    }
    Ok(all)
}

/// The list without a parameter that is the word `void` alone.
pub fn without_void(list: Vec<Parameter>) -> Vec<Parameter>
    ensures { (names : Names) → map (located_parameter names) result.items ≡ without_void (map (located_parameter names) list.items) }
{
    let mut list = list;
    if is_void_alone(&list) {
        list.clear();
    }
    list
}

// Whether the word `void` alone stands for the list.
fn is_void_alone(list: &[Parameter]) -> bool
    ensures { (names : Names) → result ≡ void_alone (map (located_parameter names) list.now) }
{
    match list {
        [only] => matches!(&only.of, CType::Void) && only.word.is_none(),
        _ => false,
    }
}
