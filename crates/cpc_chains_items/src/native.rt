//! What stays of the source.
ghost use Rattle.std.specs.Prelude.{◌≡◌, ◌++◌, ◌∷◌, [], map, OnOk};
ghost use Rattle.cpc_tree.specs.Erase as E;
ghost use Rattle.cpc_tree.specs.Erase.{Table, in_table, item_of, function_of};
ghost use Rattle.cpc_tree.specs.Syntax as S;
ghost use Rattle.cpc_convert_routines.specs.Kept.{kept_items, kept_function};
ghost use Rattle.cpc_convert_names.specs.Book.{IsBook};
ghost use Rattle.cpc_chains_items.specs.Listed.{listed};

use crate::items::Items;
use cpc_base::NoMemory;
use cpc_convert_images::copy_if;
use cpc_convert_names::Book;
use cpc_convert_respawning::{copy_fields, copy_parameters, respawn};
use cpc_shapes::copy_of;
use cpc_tree::program::{Function, Item};
use std::alloc::Global;

impl Items {
    // A function that is not cps. `NoMemory` is want of memory.
    fn keep_function(
        &mut self,
        alloc: Global,
        book: &Book<'_>,
        function: &Function,
    ) -> Result<(), NoMemory>
        ensures { OnOk result ((table : Table) (to : E.Names) → IsBook table to book.now → function_of (in_table table) function.now ≡ function_of to function.now
            → listed to self.new ≡ listed to self.old ++ S.FunctionItem (kept_function (function_of to function.now)) ∷ []) }
    {
        let given = copy_of(alloc, &function.result)?;
        let parameters = copy_parameters(alloc, &function.parameters)?;
        let body = respawn(alloc, book, &function.body)?;
        self.add(Item::Function(Function {
            place: function.place,
            mode: function.mode,
            word: function.word,
            result: given,
            parameters,
            body,
        }))
    }

    // An item, unless it is that of a cps function. `NoMemory` is want of memory.
    fn keep_one(&mut self, alloc: Global, book: &Book<'_>, item: &Item) -> Result<(), NoMemory>
        ensures { OnOk result ((table : Table) (to : E.Names) → IsBook table to book.now → item_of (in_table table) item.now ≡ item_of to item.now
            → listed to self.new ≡ listed to self.old ++ kept_items (item_of to item.now ∷ [])) }
    {
        match item {
            Item::Struct { tag, fields } => {
                let fields = copy_fields(alloc, fields)?;
                self.add(Item::Struct { tag: *tag, fields })
            }
            Item::Global { word, of, start } => {
                let of = copy_of(alloc, of)?;
                let start = copy_if(alloc, start)?;
                self.add(Item::Global {
                    word: *word,
                    of,
                    start,
                })
            }
            Item::Prototype {
                place,
                mode,
                word,
                result: given,
                parameters,
            } => {
                if mode.is_cps() {
                    return Ok(());
                }
                let given = copy_of(alloc, given)?;
                let parameters = copy_parameters(alloc, parameters)?;
                self.add(Item::Prototype {
                    place: *place,
                    mode: *mode,
                    word: *word,
                    result: given,
                    parameters,
                })
            }
            Item::Function(function) => {
                if function.mode.is_cps() {
                    return Ok(());
                }
                self.keep_function(alloc, book, function)
            }
        }
    }

    /// The items of the source without its cps functions, each spawn as a call of the spawner. `NoMemory` is want of memory.
    pub fn keep(&mut self, alloc: Global, book: &Book<'_>, source: &[Item]) -> Result<(), NoMemory>
        ensures { OnOk result ((table : Table) (to : E.Names) → IsBook table to book.now → map (item_of (in_table table)) source.now ≡ map (item_of to) source.now
            → listed to self.new ≡ listed to self.old ++ kept_items (map (item_of to) source.now)) }
    {
        for item in source {
            self.keep_one(alloc, book, item)?;
        }
        Ok(())
    }
}
