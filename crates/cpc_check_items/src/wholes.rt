//! What the parts that are noted apart make together.
ghost use Rattle.std.specs.Prelude.{◌≡◌, ◌++◌, Option};
ghost use Rattle.cpc_base.specs.declared.stop.Dialect.{Dialect};
ghost use Rattle.cpc_tree.specs.Syntax.{Ty, Program};
ghost use Rattle.cpc_tree.specs.Located.{Ident, LExpr, LFunction};
ghost use Rattle.cpc_check_rules.specs.ItemRules as R;
ghost use Rattle.cpc_check_items.specs.Parts.{global_parts, head_parts, tail_parts};

/// With what it starts with, the parts of a global variable break what it breaks; with its body, those of a function.
pub fn parts_are_wholes()
    ensures globals { (dialect : Dialect) (before : Program) (x : Ident) (t : Ty) (start : Option LExpr)
        → R.global_breaks dialect before x t start ≡ global_parts dialect before x t ++ R.global_start (R.outside dialect before) x t start }
    ensures functions { (dialect : Dialect) (before : Program) (f : LFunction)
        → R.function_breaks dialect before f ≡ head_parts dialect before f ++ (R.body_breaks (R.in_body dialect before f) f.body ++ tail_parts dialect f) }
{}
