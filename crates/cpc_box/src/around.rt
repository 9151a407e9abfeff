//! How statements are left, by what their names stand for.
ghost use Rattle.std.specs.Prelude.{◌≡◌, List, Option, option_map};
ghost use Rattle.cpc_tree.specs.Erase.{Names as Texts, expr_of, stmt_of};
ghost use Rattle.cpc_tree.specs.Points as P;
ghost use Rattle.cpc_tree.specs.Primitives as Q;
ghost use Rattle.cpc_tree.specs.Syntax as S;
ghost use Rattle.cpc_tree.specs.Typing as T;
ghost use Rattle.cpc_check_rules.specs.Apart.{Spells};
ghost use Rattle.cpc_eval_index.specs.Indexed.{items_of};
ghost use Rattle.cpc_meaning.specs.Ways as W;
ghost use Rattle.cpc_tree.specs.PrimitiveNames.{primitive_of};
ghost use Rattle.cpc_forms_code.specs.Seen.{manner_seen, scope_seen, AreNamed};
ghost use Rattle.cpc_box.specs.Manners.{called_manner};

use cpc_base::{Name, Names};
use cpc_check_rules::primitive_at;
use cpc_eval_index::{Index, Meant};
use cpc_forms_code::{Manner, Variable, slot};
use cpc_tree::primitive::Primitive;
use cpc_tree::program::{Expr, Mode, Statement};

/// What the names of a program stand for, and their texts.
#[derive(Clone, Copy)]
pub(crate) struct Around<'a> {
    pub(crate) index: &'a Index<'a>,
    pub(crate) texts: &'a Names,
}

// How the call of a function of a mode is left.
fn mode_manner(mode: Mode) -> Manner
    ensures { (r : S.Ty) (ps : List S.Ty) (prim : Option Q.Primitive) → manner_seen result ≡ W.meant_manner (T.AFunction mode r ps) prim }
{
    match mode {
        Mode::Cps => Manner::AsCps,
        Mode::Extern => Manner::InPlace,
        Mode::Native | Mode::Detached => Manner::ByFrame,
    }
}

// How the call of a primitive is left; without one it is the call of a value.
fn primitive_manner(primitive: Option<Primitive>) -> Manner
    ensures { manner_seen result ≡ W.primitive_manner (option_map primitive_of primitive) }
{
    match primitive {
        Some(Primitive::Yield | Primitive::Sleep | Primitive::IoWait | Primitive::Wait) =>
            Manner::AsCps,
        Some(_) => Manner::InPlace,
        None => Manner::ByFrame,
    }
}

// How the call of a name is left that stands for no local.
fn outside_manner(around: Around<'_>, name: Name) -> Manner
    ensures { (names : Texts) → Spells around.entry.texts.now names → manner_seen result ≡ W.meant_manner (T.item_named 0 (items_of names around.entry.index.now) (names name)) (Q.primitive_named (names name)) }
{
    match around.index.meant(name) {
        None => primitive_manner(primitive_at(around.texts, name)),
        Some(Meant::Function { mode, .. }) => mode_manner(mode),
        Some(_) => Manner::ByFrame,
    }
}

// How the call of a name is left.
fn named_manner(
    around: Around<'_>,
    variables: &[Variable<'_>],
    scope: Option<usize>,
    name: Name,
) -> Manner
    ensures { (names : Texts) → Spells around.entry.texts.now names → AreNamed names variables.now
        → manner_seen result ≡ W.meant_manner (T.named (items_of names around.entry.index.now) (scope_seen names variables.now scope) (names name)) (Q.primitive_named (names name)) }
{
    match slot(variables, scope, name) {
        Some(_) => Manner::ByFrame,
        None => outside_manner(around, name),
    }
}

// How a call is left.
fn called_manner(
    around: Around<'_>,
    variables: &[Variable<'_>],
    scope: Option<usize>,
    function: &Expr,
) -> Manner
    ensures { (names : Texts) → Spells around.entry.texts.now names → AreNamed names variables.now
        → manner_seen result ≡ called_manner (items_of names around.entry.index.now) (scope_seen names variables.now scope) (expr_of names function.now) }
{
    match function {
        Expr::Name(word) => named_manner(around, variables, scope, word.name),
        _ => Manner::ByFrame,
    }
}

/// How a simple statement is left, where the variable with the number `scope` is the innermost one in scope.
pub(crate) fn manner(
    around: Around<'_>,
    variables: &[Variable<'_>],
    scope: Option<usize>,
    s: &Statement,
) -> Manner
    ensures { (names : Texts) → Spells around.entry.texts.now names → AreNamed names variables.now
        → manner_seen result ≡ W.manner_of (items_of names around.entry.index.now) (scope_seen names variables.now scope) (P.Simple (stmt_of names s.now)) }
{
    match s {
        Statement::Call { function, .. } => called_manner(
            around,
            variables,
            scope,
            function.expr(),
        ),
        Statement::Detach { .. } => Manner::AsCps,
        _ => Manner::InPlace,
    }
}
