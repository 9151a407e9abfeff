//! Laws of printing.
ghost use Rattle.cpc_tree.specs.ItemPrint.{PrintsBack, PrintsLeast};
ghost use Rattle.cpc_printer_laws.specs.Fewest.{PrintsFewest, ReadSpellable};

/// What is printed is read as the program, and nests as deep as said.
#[tactic(auto, using(crate::proofs::ProgramsRead::prints_back))]
pub fn prints_back()
    ensures { PrintsBack }
{}

/// What is read can be printed, and in the tight style it nests no deeper than it was read.
#[tactic(auto, using(crate::proofs::LeastPrograms::prints_least))]
pub fn prints_least()
    ensures { PrintsLeast }
{}

/// Of all tokens that are read as a program, none have fewer parentheses than its print: none of those can be dropped.
#[tactic(auto, using(crate::proofs::FitPrograms::prints_fewest))]
pub fn prints_fewest()
    ensures { PrintsFewest }
{}

/// The print of a program that was read from tokens that can be spelled is of such tokens again.
pub fn read_spellable()
    ensures { ReadSpellable }
{}
