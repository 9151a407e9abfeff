//! Programs that break no rule.
ghost use Rattle.std.specs.Prelude.{◌≡◌, [], IfOk};
ghost use Rattle.cpc_tree.specs.Locate.{located};
ghost use Rattle.cpc_check_rules.specs.Rules.{breaks};
ghost use Rattle.cpc_types_structs.specs.Declares.{AreAllDeclared};
ghost use Rattle.cpc_check.specs.Accepted.{IsRead, IsWithin};
ghost use Rattle.cpc_eval_index.specs.Tabled.{IsProgramTable};

use cpc_base::{Dialect, NoMemory};
use cpc_eval_index::{Index, ProgramTable};
use cpc_tree::program::Program;
use cpc_types::Scope;
use cpc_types_structs::Declared;
use std::alloc::Global;

/// A program that some text of its dialect is read as, and that breaks no rule, and what was found out of it once.
pub struct Checked {
    /// The program.
    pub program: Program,
    /// The dialect of its text.
    pub dialect: Dialect,
    /// What its names stand for, the cells of its structs, and the locals and labels of its functions.
    pub table: ProgramTable,
    pub ghost read: { ∥ IsRead dialect (located program) ∥₁ },
    pub ghost within: { ∥ IsWithin program ∥₁ },
    pub ghost unbroken: { breaks dialect (located program) ≡ [] },
    pub ghost tabled: { ∥ IsProgramTable program.items.items table ∥₁ },
}

impl Drop for Checked {
    fn drop(self) {
        let Checked {
            program,
            dialect: _,
            table,
        } = self;
        drop(program);
        drop(table);
    }
}

// What the items of a program declare. `NoMemory` is want of memory.
fn declared_in(alloc: Global, program: &Program) -> Result<Declared, NoMemory>
    ensures { IfOk result (λ declared. AreAllDeclared program.now.items.items declared) }
{
    let scope = Scope::of(alloc, program)?;
    Ok(scope.into_declared())
}

impl Checked {
    ghost use Rattle.std.specs.Prelude.{◌≡◌, [], IfOk, IfErr};
    ghost use Rattle.cpc_tree.specs.Locate.{located};
    ghost use Rattle.cpc_check_rules.specs.Rules.{breaks};
    ghost use Rattle.cpc_check.specs.Accepted.{IsRead, IsWithin};
    ghost use Rattle.cpc_eval_index.specs.Indexed.{program_items};

    /// A program that is known to break no rule of its dialect, with what its names stand for.
    ///
    /// # Errors
    ///
    /// The program is handed back for want of memory.
    pub fn of(
        alloc: Global,
        program: Program,
        dialect: Dialect,
    ) -> Result<Checked, (Program, NoMemory)>
        requires read { IsRead dialect (located program) }
        requires within { IsWithin program }
        requires unbroken { breaks dialect (located program) ≡ [] }
        ensures made { IfOk result (λ c. (c.program ≡ program) × (c.dialect ≡ dialect)) }
        ensures back { IfErr result (λ e. e.0 ≡ program) }
    {
        let declared = match declared_in(alloc, &program) {
            Ok(declared) => declared,
            Err(NoMemory) => return Err((program, NoMemory)),
        };
        match ProgramTable::of(alloc, &program, declared) {
            Ok(table) => Ok(Checked {
                program,
                dialect,
                table,
            }),
            Err(NoMemory) => Err((program, NoMemory)),
        }
    }

    /// The program's index. It takes no memory, and a time that does not grow with the program.
    pub fn index(&self) -> Index<'_>
        ensures { program_items result ≡ self.now.program.items.items }
    {
        Index::over(&self.program, &self.table)
    }
}
