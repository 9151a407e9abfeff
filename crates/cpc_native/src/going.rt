//! Where control goes on in a call.
ghost use Rattle.std.specs.Prelude.{◌≡◌, ◌≤◌, IfSome, vec_capacity};
ghost use Rattle.cpc_tree.specs.Erase.{Names, stmt_of};
ghost use Rattle.cpc_tree.specs.Points as T;
ghost use Rattle.cpc_check_rules.specs.Apart.{AreApart};
ghost use Rattle.cpc_native_points.specs.Depth.{deep};
ghost use Rattle.cpc_native_points.specs.Seen.{point_of};
ghost use Rattle.cpc_eval_index.specs.Indexed.{IsOwn};

use cpc_eval_index::Index;
use cpc_native_points::{Point, after};
use cpc_tree::program::Function;

/// Control goes on from a point of a function of the program, as a test there holds or not. The point has room for every path
/// of the body, and keeps it.
pub(crate) fn go_on(index: &Index<'_>, function: &Function, point: &mut Point, holds: bool)
    requires own { IsOwn index.now function.now }
    requires room { deep function.now.body ≤ vec_capacity point.old.path }
    ensures point { (names : Names) → AreApart names → IfSome (T.next_point (stmt_of names function.now.body) (point_of point.old) holds) (λ q. point_of point.new ≡ q) }
    ensures room { vec_capacity point.new.path ≡ vec_capacity point.old.path }
{
    match index.locals(function.word.name) {
        Some(locals) => after(&locals.labels(), point, holds),
        None => unreachable!(),
    }
}
