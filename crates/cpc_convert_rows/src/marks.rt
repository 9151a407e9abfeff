//! Marks by numbers, and numbers that are added to others. A mark is a number and no `bool`: a row of numbers is let go of at once, and
//! one of `bool`s mark by mark, which is as many steps as a function has nodes, for each of its pieces.
ghost use Rattle.std.specs.Prelude.{◌≡◌, ℕ, List, ◌<◌, ◌==◌, ◌||◌, ◌∷◌, ◌++◌, [], true, not, length, IfOk, OnOk};
ghost use Rattle.cpc_tree.specs.Lists.{holds_number};
ghost use Rattle.cpc_forms.specs.Flow.{as_list};
ghost use Rattle.cpc_forms.specs.Pieces.{is_next};
ghost use Rattle.cpc_chains_event.specs.Rows.{number_where};
ghost use Rattle.cpc_convert_rows.specs.Marks.{AreMarked, is_set};

use cpc_base::NoMemory;
use std::alloc::Global;

/// So many marks that are not set. `NoMemory` is want of memory.
pub(crate) fn unmarked(alloc: Global, count: usize) -> Result<Vec<u8>, NoMemory>
    ensures long { IfOk result (λ marks. length marks.items ≡ count) }
    ensures marks { IfOk result (λ marks. AreMarked marks.items []) }
{
    Ok(vec![in alloc; 0u8; count]?)
}

/// One more number is marked.
pub(crate) fn mark(marks: &mut Vec<u8>, number: usize)
    ensures long { length marks.new.items ≡ length marks.old.items }
    ensures marks { (ns : List ℕ) → AreMarked marks.old.items ns → AreMarked marks.new.items (ns ++ number ∷ []) }
    ensures each { (k : ℕ) → k < length marks.old.items → is_set marks.new.items k ≡ (is_set marks.old.items k || (number == k)) }
{
    if number < marks.len() {
        marks[number] = 1;
    }
}

/// The same, where there may be none.
pub(crate) fn mark_some(marks: &mut Vec<u8>, to: Option<usize>)
    ensures long { length marks.new.items ≡ length marks.old.items }
    ensures marks { (ns : List ℕ) → AreMarked marks.old.items ns → AreMarked marks.new.items (ns ++ as_list to) }
    ensures each { (k : ℕ) → k < length marks.old.items → is_set marks.new.items k ≡ (is_set marks.old.items k || is_next k to) }
{
    if let Some(number) = to {
        mark(marks, number);
    }
}

/// Whether a number is marked.
pub fn is_marked(marks: &[u8], number: usize) -> bool
    ensures marked { (ns : List ℕ) → AreMarked marks.now ns → number < length marks.now → result ≡ holds_number ns number }
    ensures within { result ≡ true → number < length marks.now }
    ensures set { result ≡ is_set marks.now number }
{
    match marks.get(number) {
        Some(mark) => *mark == 1,
        None => false,
    }
}

/// A number is added, where it is so. `NoMemory` is want of memory.
pub fn add_if(is_so: bool, number: usize, all: &mut Vec<usize>) -> Result<(), NoMemory>
    ensures { OnOk result (all.new.items ≡ all.old.items ++ number_where is_so number) }
{
    if is_so {
        all.push(number)?;
        return Ok(());
    }
    Ok(())
}

/// Whether a number is not marked.
pub(crate) fn is_unmarked(marks: &[u8], number: usize) -> bool
    ensures { (ns : List ℕ) → AreMarked marks.now ns → number < length marks.now → result ≡ not (holds_number ns number) }
{
    !is_marked(marks, number)
}

/// So many marks, set at these numbers. `NoMemory` is want of memory.
pub(crate) fn marked(alloc: Global, count: usize, numbers: &[usize]) -> Result<Vec<u8>, NoMemory>
    ensures long { IfOk result (λ marks. length marks.items ≡ count) }
    ensures marks { IfOk result (λ marks. AreMarked marks.items numbers.now) }
{
    let mut marks = unmarked(alloc, count)?;
    for number in numbers {
        mark(&mut marks, *number);
    }
    Ok(marks)
}
