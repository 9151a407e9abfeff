//! What is declared of functions, and whether two declarations agree.
ghost use Rattle.std.specs.Prelude.{◌≡◌};
ghost use Rattle.cpc_tree.specs.Erase.{Names};
ghost use Rattle.cpc_check_rules.specs.Apart.{AreApart};
ghost use Rattle.cpc_check_rules.specs.ItemRules as R;
ghost use Rattle.cpc_check_items.specs.Signatures.{types_of, are_mixed};

use cpc_shapes::same_type;
use cpc_tree::program::{CType, Function, Mode, Parameter};

/// What is declared of a function.
#[derive(Clone, Copy)]
pub struct Signature<'p> {
    /// How it runs.
    pub mode: Mode,
    /// Its result.
    pub result: &'p CType,
    /// Its parameters.
    pub parameters: &'p [Parameter],
    /// Whether it has a body.
    pub is_defined: bool,
}

/// Whether a function is one of the host.
pub(crate) fn is_extern(mode: Mode) -> bool
    ensures { result ≡ R.is_extern mode }
{
    match mode {
        Mode::Extern => true,
        _ => false,
    }
}

/// Whether one function is of the host and another is not.
pub(crate) fn are_mixed(a: Mode, b: Mode) -> bool
    ensures { result ≡ are_mixed a b }
{
    match a {
        Mode::Extern => !is_extern(b),
        _ => is_extern(b),
    }
}

/// Whether two functions run alike.
fn same_mode(a: Mode, b: Mode) -> bool
    ensures { result ≡ R.same_mode a b }
{
    match a {
        Mode::Extern => matches!(b, Mode::Extern),
        Mode::Native => matches!(b, Mode::Native),
        Mode::Cps => matches!(b, Mode::Cps),
        Mode::Detached => matches!(b, Mode::Detached),
    }
}

/// Whether the types of parameters are those of others.
fn same_parameters(list: &[Parameter], others: &[Parameter]) -> bool
    ensures { (names : Names) → AreApart names → result ≡ R.same_list (types_of names list.now) (types_of names others.now) }
{
    if list.len() != others.len() {
        return false;
    }
    for (i, parameter) in list.iter().enumerate() {
        if !same_type(&parameter.of, &others[i].of) {
            return false;
        }
    }
    true
}

impl<'p> Signature<'p> {
    ghost use Rattle.std.specs.Prelude.{true};
    ghost use Rattle.cpc_tree.specs.Locate.{located_function};
    ghost use Rattle.cpc_check_items.specs.Signatures.{signature_of};
    ghost use Rattle.cpc_check_items.specs.Pasts.{agrees_with};

    /// What a function with a body declares.
    pub fn of(function: &'p Function) -> Signature<'p>
        ensures { (names : Names) → signature_of names result ≡ record { mode = function.now.mode; result = (located_function names function.now).result; parameters = R.types (located_function names function.now).parameters; is_defined = true } }
    {
        Signature {
            mode: function.mode,
            result: &function.result,
            parameters: &function.parameters,
            is_defined: true,
        }
    }

    /// Whether another declaration agrees with this one: it runs alike, and has the same result and parameters.
    pub(crate) fn agrees(&self, other: &Signature) -> bool
        ensures { (names : Names) → AreApart names → result ≡ agrees_with names (signature_of names self.now) other.now }
    {
        same_mode(self.mode, other.mode)
            && same_type(self.result, other.result)
            && same_parameters(self.parameters, other.parameters)
    }
}
