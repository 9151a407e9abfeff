//! Numbers of variables and nodes.
ghost use Rattle.std.specs.Prelude.{◌≡◌, ◌++◌, [], OnOk};
ghost use Rattle.cpc_forms.specs.Pieces as P;
ghost use Rattle.cpc_forms_code.specs.Lifts.{unless};

use cpc_base::NoMemory;

/// Whether `following` is there and is this number.
pub fn is_next(number: usize, following: Option<usize>) -> bool
    ensures { result ≡ P.is_next number following }
{
    match following {
        Some(next) => next == number,
        None => false,
    }
}

/// Puts a number behind the others, unless `is_so` holds. `NoMemory` is want of memory.
pub fn keep_unless(is_so: bool, number: usize, all: &mut Vec<usize>) -> Result<(), NoMemory>
    ensures { OnOk result (all.new.items ≡ all.old.items ++ unless is_so number []) }
{
    if is_so {
        return Ok(());
    }
    all.push(number)?;
    Ok(())
}
