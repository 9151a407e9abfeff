//! Laws of programs that are accepted.
ghost use Rattle.cpc_tree.specs.Erase.{Names, program_of};
ghost use Rattle.cpc_eval.specs.Numbers.{ProgramNumbers};
ghost use Rattle.cpc_native_laws.specs.Laws.{AcceptedHasNumbers, IsSpelling, AreSpellings};

use cpc_base::Name;
use cpc_check::Checked;

/// The literals of a program that is accepted are numbers of their kinds, and no size in it is too great.
pub fn accepted_has_numbers()
    ensures { AcceptedHasNumbers }
{}

/// The same of a program that is checked.
pub fn checked_has_numbers(program: &Checked)
    ensures { ProgramNumbers (program_of program.now.program) }
{}

/// Some texts tell all names from each other and are those of the table for the names of a program that is checked: by
/// them the program is what it is by its own table, and each parameter of its functions has a name.
pub fn is_spelled(program: &Checked)
    ensures { (names : Names) × IsSpelling names program.now.program }
{
    let _ = program.program.names.text(Name(0));
}

/// There are two such spellings, which differ at each name that the table does not have: what is told by any texts is told of
/// names of the table alone.
pub fn is_spelled_twice(program: &Checked)
    ensures { (names : Names) × (other : Names) × AreSpellings names other program.now.program }
{
    let _ = program.program.names.text(Name(0));
}
