//! The table of the functions that every run has.
ghost use Rattle.std.specs.Prelude.{◌≡◌, ◌∷◌, ◌++◌, [], length, map, Some, None, codes, IfOk, OnOk};
ghost use Rattle.cpc_hosts.specs.Standard.{StandardAnswers, standard_names};
ghost use Rattle.cpc_hosts.specs.Tables.{AnswersBy, refused};

use crate::rule::{HostRule, StdHosts};
use crate::table::{Answer, HostTable, Kept};
use cpc_base::{NoMemory, Stop};
use std::alloc::Global;

// Puts a function behind the others, which the table does not refuse.
fn put(
    alloc: Global,
    hosts: &mut HostTable<StdHosts>,
    name: &str,
    arity: usize,
    f: Answer,
) -> Result<(), NoMemory>
    requires callable { (xs : _) → length xs.now ≡ arity → Answer.pre f xs }
    requires meets { AnswersBy (Answer.post f) (⟦<StdHosts as HostRule>⟧.answers name.now) arity }
    requires rule { ⟦<HostTable<StdHosts> as Kept>⟧.keeps hosts.old }
    requires taken { refused (⟦<HostTable<StdHosts> as Kept>⟧.names hosts.old) name.now arity ≡ None }
    ensures rule { ⟦<HostTable<StdHosts> as Kept>⟧.keeps hosts.new }
    ensures names { OnOk result (⟦<HostTable<StdHosts> as Kept>⟧.names hosts.new ≡ ⟦<HostTable<StdHosts> as Kept>⟧.names hosts.old ++ (name.now, arity) ∷ []) }
{
    match hosts.add(alloc, name, arity, f) {
        Ok(()) => Ok(()),
        Err(Stop::Memory) => Err(NoMemory),
        Err(Stop::Fault(_)) => unreachable!(),
    }
}

/// A table of the functions that every run has: `abs_diff`, `least`, `greatest`, `clamp` and `sign`. Whoever runs programs makes the
/// five from the functions of these names, since a stored function is to be made where its clauses are seen.
///
/// # Errors
///
/// Want of memory.
pub fn standard_hosts(
    alloc: Global,
    abs_diff: Answer,
    least: Answer,
    greatest: Answer,
    clamp: Answer,
    sign: Answer,
) -> Result<HostTable<StdHosts>, NoMemory>
    requires abs_diff_callable { (xs : _) → length xs.now ≡ 2 → Answer.pre abs_diff xs }
    requires abs_diff_meets { AnswersBy (Answer.post abs_diff) (StandardAnswers (codes "abs_diff")) 2 }
    requires least_callable { (xs : _) → length xs.now ≡ 2 → Answer.pre least xs }
    requires least_meets { AnswersBy (Answer.post least) (StandardAnswers (codes "least")) 2 }
    requires greatest_callable { (xs : _) → length xs.now ≡ 2 → Answer.pre greatest xs }
    requires greatest_meets { AnswersBy (Answer.post greatest) (StandardAnswers (codes "greatest")) 2 }
    requires clamp_callable { (xs : _) → length xs.now ≡ 3 → Answer.pre clamp xs }
    requires clamp_meets { AnswersBy (Answer.post clamp) (StandardAnswers (codes "clamp")) 3 }
    requires sign_callable { (xs : _) → length xs.now ≡ 1 → Answer.pre sign xs }
    requires sign_meets { AnswersBy (Answer.post sign) (StandardAnswers (codes "sign")) 1 }
    ensures rule { IfOk result (λ table. ⟦<HostTable<StdHosts> as Kept>⟧.keeps table) }
    ensures names { IfOk result (λ table. ⟦<HostTable<StdHosts> as Kept>⟧.names table ≡ standard_names) }
{
    let mut hosts: HostTable<StdHosts> = HostTable::new(alloc);
    put(alloc, &mut hosts, "abs_diff", 2, abs_diff)?;
    put(alloc, &mut hosts, "least", 2, least)?;
    put(alloc, &mut hosts, "greatest", 2, greatest)?;
    put(alloc, &mut hosts, "clamp", 3, clamp)?;
    put(alloc, &mut hosts, "sign", 1, sign)?;
    Ok(hosts)
}
