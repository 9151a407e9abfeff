//! All names of a conversion.
ghost use Rattle.std.specs.Prelude.{◌≡◌, map, All, IfOk, OnOk, Option, option_map};
ghost use Rattle.cpc_tree.specs.Erase as E;
ghost use Rattle.cpc_tree.specs.Erase.{Table, in_table, text_of};
ghost use Rattle.cpc_check_rules.specs.Apart.{AreApart};
ghost use Rattle.cpc_convert_common.specs.Converted.{spawner_name};
ghost use Rattle.cpc_convert_names.specs.Tables.{HasGrown, Spells};
ghost use Rattle.cpc_convert_names.specs.Called.{AreCalled, IsNamed};
ghost use Rattle.cpc_convert_names.specs.Book as B;
ghost use Rattle.cpc_convert_names.specs.Book.{IsBook, find};

use crate::called::Called;
use crate::interned::{interned, spawner};
use crate::words::{LoopWords, OwnWords};
use cpc_base::{Name, Names, NoMemory};
use cpc_forms_code::LiftedProgram;
use std::alloc::Global;

/// All names of a conversion: words, for each name of the source what a spawn of it calls, and the names of what is made of the cps
/// functions, in the order of the text.
pub struct Book<'a> {
    pub own: OwnWords,
    pub of_loop: LoopWords,
    pub spawners: Vec<Name>,
    pub of_none: Name,
    pub functions: Vec<Called<'a>>,
}

impl Drop for Book<'_> {
    fn drop(self) {
        let Book {
            own: _,
            of_loop: _,
            spawners,
            of_none: _,
            functions,
        } = self;
        drop(spawners);
        drop(functions);
    }
}

// The spawners of the names of a source. `NoMemory` is want of memory.
fn spawners(alloc: Global, names: &mut Names, source: &Names) -> Result<Vec<Name>, NoMemory>
    ensures grown { OnOk result (HasGrown names.old names.new) }
    ensures are { IfOk result (λ all. (to : E.Names) → HasGrown source.now names.old → Spells names.new to → map (text_of to) all.items ≡ map spawner_name source.now) }
{
    let mut all = Vec::new(alloc);
    for number in 0..u64::MAX {
        match source.text(Name(number)) {
            Some(_) => {
                let name = spawner(alloc, names, Name(number))?;
                all.push(name)?;
            }
            None => return Ok(all),
        }
    }
    // No table that memory holds is as long.
    Err(NoMemory)
}

// The names of what is made of all cps functions. `NoMemory` is want of memory.
fn functions<'a>(
    alloc: Global,
    names: &mut Names,
    lifted: &'a LiftedProgram<'a>,
) -> Result<Vec<Called<'a>>, NoMemory>
    ensures grown { OnOk result (HasGrown names.old names.new) }
    ensures lifted { IfOk result (λ all. map (λ c. c.lifted.now) all.items ≡ lifted.now.functions.items) }
    ensures are { IfOk result (λ all. (source : Table) (to : E.Names) → HasGrown source names.old → Spells names.new to → All (IsNamed source to) lifted.now.functions.items → All (AreCalled to) all.items) }
{
    let mut all = Vec::new(alloc);
    for function in &lifted.functions {
        let called = Called::of(alloc, names, function)?;
        all.push(called)?;
    }
    Ok(all)
}

impl<'a> Book<'a> {
    /// The names of the conversion of a program, which the table then has. `NoMemory` is want of memory.
    pub fn of(
        alloc: Global,
        names: &mut Names,
        lifted: &'a LiftedProgram<'a>,
    ) -> Result<Book<'a>, NoMemory>
        ensures grown { OnOk result (HasGrown names.old names.new) }
        ensures lifted { IfOk result (λ b. map (λ c. c.lifted.now) b.functions.items ≡ lifted.now.functions.items) }
        ensures is { IfOk result (λ b. (to : E.Names) → HasGrown lifted.now.source.now.names names.old → Spells names.new to → All (IsNamed lifted.now.source.now.names to) lifted.now.functions.items → IsBook lifted.now.source.now.names to b) }
    {
        let own = OwnWords::of(alloc, names)?;
        let of_loop = LoopWords::of(alloc, names)?;
        let spawners = spawners(alloc, names, &lifted.source.names)?;
        let of_none = interned(alloc, names, b"__spawn")?;
        let functions = functions(alloc, names, lifted)?;
        Ok(Book {
            own,
            of_loop,
            spawners,
            of_none,
            functions,
        })
    }

    /// What a spawn of a name calls.
    pub fn spawner(&self, of: Name) -> Name
        ensures { (source : Table) (to : E.Names) → IsBook source to self.now → in_table source of ≡ to of → to result ≡ spawner_name (to of) }
    {
        match self.spawners.get(of.0 as usize) {
            Some(name) => *name,
            None => self.of_none,
        }
    }

    /// The first cps function of a name.
    pub fn find(&self, name: Name) -> Option<&Called<'a>>
        ensures { (from : E.Names) → AreApart from → option_map (λ c. c.now) result ≡ find from self.now.functions.items (from name) }
    {
        for called in &self.functions {
            if called.function().word.name.0 == name.0 {
                return Some(called);
            }
        }
        None
    }
}
