//! Whose sections are run.
ghost use Rattle.std.specs.Prelude.{ℕ, Option, None};
ghost use Rattle.cpc_tree.specs.declared.program.Program.{Program};

use std::marker::Brand;

/// The program whose sections are run, and how many steps each may make.
///
/// A type stands for them, so that threads which share it agree on them. Who starts the threads picks them at `Brand`.
pub trait Assigned {
    /// The program; nothing is known of sections where there is none.
    ghost program: { Option Program };

    /// How many steps a section may make.
    ghost bound: { ℕ };
}

impl Assigned for Brand {
    ghost program = { None };

    ghost bound = { 0 };
}
