//! What the cells of types hold.
ghost use Rattle.std.specs.Prelude.{◌≡◌, ◌∷◌, ◌++◌, ◌<◌, ◌≤◌, List, [], Some, None, map, option_map, slice_get, IfOk, OnOk, length, reverse, if◌then◌else◌};
ghost use Rattle.cpc_store.specs.declared.values.Scalar as V;
ghost use Rattle.cpc_tree.specs.Erase.{Names, type_of};
ghost use Rattle.cpc_tree.specs.Syntax as S;
ghost use Rattle.cpc_check_rules.specs.Apart.{AreApart};
ghost use Rattle.cpc_eval_index.specs.Ends.{items_before, declared_cells, cells_at};
ghost use Rattle.cpc_eval_index.specs.Indexed.{program_items, items_of};
ghost use Rattle.cpc_run_globals.specs.Rows.{held, type_layout, element_layout, fields_row, joined, repeated};

use crate::peeled::{Element, peel};
use cpc_base::NoMemory;
use cpc_eval_index::Index;
use cpc_store::Scalar;
use cpc_tree::program::{CType, Field, Item};
use std::alloc::Global;

/// What the cells of types hold, by the index of a program, which tells where its structs stand. Nothing is kept of any struct.
#[derive(Clone, Copy)]
pub struct Layouts<'p> {
    index: Index<'p>,
}

// The cells of a row from a place on stand there so many times over.
fn repeat(row: &mut Vec<Scalar>, start: usize, times: u64) -> Result<(), NoMemory>
    ensures { OnOk result ((front cells : List V.Scalar) → row.old.items ≡ front ++ cells → length front ≡ start → row.new.items ≡ front ++ repeated times cells) }
{
    let end = row.len();
    if times == 0 {
        row.truncate(start);
        return Ok(());
    }
    if start >= end {
        return Ok(());
    }
    for _round in 1..times {
        row.extend_from_within(start..end)?;
    }
    Ok(())
}

// The fields of the struct that an item declares; none where it declares none.
fn fields_of(items: &[Item], place: usize) -> Option<&[Field]>
    ensures { (names : Names) (b : List S.Item) → held (declared_cells names b (slice_get items.now place)) ≡ fields_row names b (option_map (λ fs. fs.now) result) }
{
    match items.get(place) {
        Some(Item::Struct { fields, .. }) => Some(fields),
        _ => None,
    }
}

impl<'p> Layouts<'p> {
    ghost use Rattle.cpc_run_globals.specs.Layouts.{AreLayouts};

    // What the cells of a type hold that stands behind so many items is put behind a row; false where it is incomplete.
    #[cycle(put)]
    fn put(&self, before: usize, of: &CType, row: &mut Vec<Scalar>) -> Result<bool, NoMemory>
        requires { before ≤ length (program_items self.now.index) }
        ensures { IfOk result (λ there. (names : Names) (items : List S.Item) → AreLayouts self.now names items
            → joined (Some row.old.items) (type_layout (items_before names (program_items self.now.index) before) (type_of names of.now)) ≡ (if there then Some row.new.items else None)) }
    {
        let peeled = peel(of)?;
        let start = row.len();
        if !self.put_element(before, peeled.element, row)? {
            return Ok(false);
        }
        repeat(row, start, peeled.times)?;
        Ok(true)
    }

    // The same of a type that is no array.
    #[cycle(put)]
    fn put_element(
        &self,
        before: usize,
        element: Element,
        row: &mut Vec<Scalar>,
    ) -> Result<bool, NoMemory>
        requires { before ≤ length (program_items self.now.index) }
        ensures { IfOk result (λ there. (names : Names) (items : List S.Item) → AreLayouts self.now names items
            → joined (Some row.old.items) (element_layout names (items_before names (program_items self.now.index) before) element) ≡ (if there then Some row.new.items else None)) }
    {
        match element {
            Element::Incomplete => Ok(false),
            Element::Cell(scalar) => {
                row.push(scalar)?;
                Ok(true)
            }
            Element::Struct(tag) => match self.index.struct_before(tag, before) {
                Some(place) => self.put_fields(place, row),
                None => Ok(false),
            },
        }
    }

    // The same of the struct that stands at a place.
    #[cycle(put)]
    fn put_fields(&self, place: usize, row: &mut Vec<Scalar>) -> Result<bool, NoMemory>
        requires { place < length (program_items self.now.index) }
        ensures { IfOk result (λ there. (names : Names) (items : List S.Item) → AreLayouts self.now names items
            → joined (Some row.old.items) (held (cells_at names (program_items self.now.index) (Some place))) ≡ (if there then Some row.new.items else None)) }
    {
        let Some(fields) = fields_of(self.index.items(), place) else {
            return Ok(false);
        };
        for field in fields {
            if !self.put(place, &field.of, row)? {
                return Ok(false);
            }
        }
        Ok(true)
    }

    /// What the cells of a type hold, in order; nothing where it is incomplete. `NoMemory` is want of memory.
    pub fn of_type(&self, alloc: Global, of: &CType) -> Result<Option<Vec<Scalar>>, NoMemory>
        ensures { IfOk result (λ o. (names : Names) (items : List S.Item) → AreLayouts self.now names items → option_map (λ row. row.items) o ≡ type_layout items (type_of names of.now)) }
    {
        let mut row = Vec::new(alloc);
        if self.put(self.index.items().len(), of, &mut row)? {
            return Ok(Some(row));
        }
        Ok(None)
    }

    /// What the cells of types hold in the program of an index.
    pub fn over(index: Index<'p>) -> Layouts<'p>
        ensures { (names : Names) → AreApart names → AreLayouts result names (reverse (items_of names index.entry)) }
    {
        Layouts { index }
    }
}
