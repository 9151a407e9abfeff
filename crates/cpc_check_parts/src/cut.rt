//! What the parts of a program break makes what the program breaks.
ghost use Rattle.std.specs.Prelude.{◌≡◌, ℕ, ◌<◌, ◌⊎◌, ◌↔◌, length};
ghost use Rattle.std.specs.List.{Contains};
ghost use Rattle.cpc_base.specs.declared.stop.Place.{Place};
ghost use Rattle.cpc_base.specs.declared.stop.Dialect.{Dialect};
ghost use Rattle.cpc_tree.specs.Located.{LProgram};
ghost use Rattle.cpc_check_rules.specs.declared.rule.Rule.{Rule};
ghost use Rattle.cpc_check_rules.specs.Rules.{breaks};
ghost use Rattle.cpc_check_parts.specs.Parts.{whole, own};

/// A rule is broken at a place exactly where it is broken there between items or in the whole, or by what stands in one of the items.
pub fn parts_are_breaks()
    ensures { (dialect : Dialect) (p : LProgram) (b : Place × Rule)
        → Contains (breaks dialect p) b ↔ (Contains (whole dialect p) b ⊎ ((i : ℕ) × (i < length p.items) × Contains (own dialect p i) b)) }
{}
