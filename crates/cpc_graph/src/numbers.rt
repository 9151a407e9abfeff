//! Numbers of nodes, and numbers that were noted.
ghost use Rattle.std.specs.Prelude.{◌≡◌, ◌+◌, ◌<◌, length, drop};
ghost use Rattle.cpc_tree.specs.Lists.{first_or, rest_of, is_empty};

use cpc_base::is_none;
use cpc_tree::program::Statement;

/// The first of these numbers, or 0.
pub(crate) fn first(numbers: &[usize]) -> usize
    ensures { result ≡ first_or 0 numbers.now }
{
    match numbers.split_first() {
        Some((first, _)) => *first,
        None => 0,
    }
}

/// The numbers after the first.
pub(crate) fn rest(numbers: &[usize]) -> &[usize]
    ensures { result.now ≡ rest_of numbers.now }
{
    match numbers.split_first() {
        Some((_, rest)) => rest,
        None => numbers,
    }
}

/// Whether this is the last statement of a row.
pub(crate) fn is_last(row: &[Statement], place: usize) -> bool
    requires { place < length row.now }
    ensures { result ≡ is_empty (drop (place + 1) row.now) }
{
    is_none(&row[place + 1..])
}
