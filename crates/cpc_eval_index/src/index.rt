//! An index of a program by name.
ghost use Rattle.std.specs.Prelude.{◌≡◌, ◌<◌, ◌≤◌, IfOk, IfSome, Some, None, length, map, option_map, slice_get};
ghost use Rattle.cpc_tree.specs.Erase.{Names, type_of, field_of, function_of};
ghost use Rattle.cpc_check_rules.specs.Apart.{AreApart};
ghost use Rattle.cpc_tree.specs.Typing as T;
ghost use Rattle.cpc_eval_locals.specs.Owners.{owner_of};
ghost use Rattle.cpc_eval_index.specs.Bodies.{IsItemTable, function_defined};
ghost use Rattle.cpc_tree.specs.declared.program.Item.{Item};
ghost use Rattle.cpc_eval_index.specs.Tabled.{IsProgramTable};
ghost use Rattle.cpc_eval_index.specs.Ends.{items_before, cells_at};
ghost use Rattle.cpc_eval_index.specs.Meanings.{definition_seen, meant_if};
ghost use Rattle.cpc_eval_index.specs.Sized.{capped_size, capped_field};
ghost use Rattle.cpc_shapes.specs.Declaring.{fields_of};
ghost use Rattle.cpc_types_structs.specs.Declares.{Declares};

use crate::bodies::{function_tables, table_at};
use crate::ends::last_struct;
use crate::fields::field_in;
use crate::items::function_of;
use crate::meant::{Meant, meaning};
use crate::offsets::Offsets;
use crate::tables::Tables;
use cpc_base::{Name, NoMemory};
use cpc_eval_locals::{FunctionTable, Locals};
use cpc_tree::program::{CType, Field, Function, Item, Program};
use cpc_types_structs::{Declared, fields_of};
use std::alloc::Global;

/// What is found out of a program once: what its items declare, what is told of their places, where the fields of its structs are, and
/// the tables of its functions. It has nothing of the program itself, so it can be kept beside it.
pub struct ProgramTable {
    pub(crate) items: Tables,
    pub(crate) declared: Declared,
    pub(crate) offsets: Offsets,
    pub(crate) functions: Vec<Option<FunctionTable>>,
}

impl Drop for ProgramTable {
    fn drop(self) {
        let ProgramTable {
            items,
            declared,
            offsets,
            functions,
        } = self;
        drop(items);
        drop(declared);
        drop(offsets);
        drop(functions);
    }
}

impl ProgramTable {
    /// The table of a program, by what its items declare. `NoMemory` is want of memory.
    pub fn of(
        alloc: Global,
        program: &Program,
        declared: Declared,
    ) -> Result<ProgramTable, NoMemory>
        requires { Declares program.now.items.items declared }
        ensures { IfOk result (λ table. IsProgramTable program.now.items.items table) }
    {
        let mut declared = declared;
        let items = Tables::of(alloc, &program.items, &mut declared)?;
        let offsets = Offsets::of(alloc, &program.items, &declared.structs)?;
        let functions = function_tables(alloc, &program.items)?;
        Ok(ProgramTable {
            items,
            declared,
            offsets,
            functions,
        })
    }
}

/// What the names of a program stand for, and the locals of its functions, by the program's table. Each call takes no memory, and a time
/// that does not grow with the number of its items, but for `struct_before` where the last struct of the tag is not among the first items.
#[derive(Clone, Copy)]
pub struct Index<'p> {
    program: &'p Program,
    table: &'p ProgramTable,
    ghost tabled: { ∥ IsProgramTable program.now.items.items table.now ∥₁ },
}

// The item of a number.
fn item_at(program: &Program, place: usize) -> Option<&Item>
    ensures { option_map (λ x. x.now) result ≡ slice_get program.now.items.items place }
{
    program.items.get(place)
}

// The locals of the function that an item defines, by a table of it.
fn locals_in<'p>(item: &'p Item, table: Option<&'p FunctionTable>) -> Option<Locals<'p>>
    requires { ∥ IsItemTable item.now (option_map (λ t. t.now) table) ∥₁ }
    ensures owner { option_map (λ locals. owner_of locals) result ≡ function_defined item.now }
    ensures seen { (names : Names) → option_map (λ locals. function_of names (owner_of locals)) result ≡ definition_seen names item.now }
{
    match item {
        Item::Function(function) => match table {
            Some(table) => Some(Locals::over(function, table)),
            None => None,
        },
        _ => None,
    }
}

impl<'p> Index<'p> {
    ghost use Rattle.cpc_tree.specs.Erase.{item_of};
    ghost use Rattle.cpc_eval_index.specs.Indexed.{program_items, items_of};

    /// The index of a program, by a table of it.
    pub fn over(program: &'p Program, table: &'p ProgramTable) -> Index<'p>
        requires { ∥ IsProgramTable program.now.items.items table.now ∥₁ }
        ensures { program_items result ≡ program.now.items.items }
    {
        Index { program, table }
    }

    /// What a name stands for among the items: the first that declares it. It is no local.
    pub fn meant(&self, name: Name) -> Option<Meant<'p>>
        ensures { (names : Names) → AreApart names → meant_if names result ≡ T.item_named 0 (items_of names self.now) (names name) }
    {
        match self.table.declared.named.at(name) {
            None => None,
            Some(place) => match item_at(self.program, place) {
                None => None,
                Some(item) => meaning(item, self.table.items.globals_before(place)),
            },
        }
    }

    /// The first definition of a function of this name.
    pub fn function(&self, name: Name) -> Option<&'p Function>
        ensures { (names : Names) → AreApart names → option_map (λ f. function_of names f.now) result ≡ T.function_named (items_of names self.now) (names name) }
    {
        match self.table.declared.defined.at(name) {
            None => None,
            Some(place) => match item_at(self.program, place) {
                None => None,
                Some(item) => function_of(item),
            },
        }
    }

    /// The locals of the first definition of a function of this name.
    pub fn locals(&self, name: Name) -> Option<Locals<'p>>
        ensures { ∥ ((names : Names) → AreApart names → option_map (λ locals. function_of names (owner_of locals)) result ≡ T.function_named (items_of names self.now) (names name)) ∥₁ }
    {
        match self.table.declared.defined.at(name) {
            None => None,
            Some(place) => match item_at(self.program, place) {
                None => None,
                Some(item) => locals_in(item, table_at(&self.table.functions, place)),
            },
        }
    }

    /// The locals of the function that the item of a number defines, if it defines one; behind the last item there are none.
    pub fn locals_of(&self, place: usize) -> Option<Locals<'p>>
        ensures some { (item : Item) → slice_get (program_items self.now) place ≡ Some item → option_map (λ locals. owner_of locals) result ≡ function_defined item }
        ensures none { length (program_items self.now) ≤ place → result ≡ None }
    {
        match item_at(self.program, place) {
            None => None,
            Some(item) => locals_in(item, table_at(&self.table.functions, place)),
        }
    }

    /// The number of cells of a type that is complete; u64::MAX stands for every greater number.
    pub fn size(&self, of: &CType) -> Option<u64>
        ensures { (names : Names) → AreApart names → result ≡ capped_size (items_of names self.now) (type_of names of.now) }
    {
        self.table.declared.structs.measure(of)
    }

    /// The offset and the type of a field of the struct that has a tag; for the offset u64::MAX stands for every
    /// greater number. A field behind one of an incomplete type is not found.
    pub fn field(&self, tag: Name, name: Name) -> Option<(u64, &'p CType)>
        ensures { (names : Names) → AreApart names → option_map (λ f. (f.0, type_of names f.1.now)) result ≡ capped_field (T.field (items_of names self.now) (names tag) (names name)) }
    {
        match self.table.declared.structs.tagged(tag) {
            None => None,
            Some(place) => match self.table.offsets.row(place) {
                None => None,
                Some(row) => match self.fields_at(place) {
                    None => None,
                    Some(fields) => field_in(fields, name, row),
                },
            },
        }
    }

    /// The items of the program, in order.
    pub fn items(&self) -> &'p [Item]
        ensures { result.now ≡ program_items self.now }
    {
        &self.program.items
    }

    /// The place of a struct that has the cells of the last struct of a tag among the first items, of which there are so many.
    /// No clause says which of the structs with these cells it is. Where the program's last struct of the tag is among the first items,
    /// the code goes on from each struct whose only field is a struct, or an array of one, to that struct, and tells the one where this
    /// ends, so that the caller walks no chain of these. Elsewhere it tells the struct of the tag itself.
    pub fn struct_before(&self, tag: Name, before: usize) -> Option<usize>
        requires { before ≤ length (program_items self.now) }
        ensures earlier { IfSome result (λ place. place < before) }
        ensures cells { (names : Names) → AreApart names → cells_at names (program_items self.now) result ≡ T.struct_cells (items_before names (program_items self.now) before) (names tag) }
    {
        let last = self.table.declared.structs.tagged(tag)?;
        if last < before {
            return Some(self.table.items.end(last));
        }
        last_struct(&self.program.items, tag, before)
    }

    // The fields of the struct that the item of a number declares.
    fn fields_at(&self, place: usize) -> Option<&'p [Field]>
        ensures { (names : Names) → option_map (λ fs. map (field_of names) fs.now) result ≡ fields_of names (slice_get (program_items self.now) place) }
    {
        match item_at(self.program, place) {
            None => None,
            Some(item) => fields_of(item),
        }
    }
}
