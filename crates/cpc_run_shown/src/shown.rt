//! What goes out for marks and for an end: the bytes of outputs, or the lines of a trace.
ghost use Rattle.std.specs.Prelude.{◌≡◌, ◌++◌, ◌<◌, length, ◌∷◌, [], IfOk, OnOk, OnErr, map, true, List};
ghost use Rattle.cpc_tree.specs.Erase.{in_table};
ghost use Rattle.cpc_tree.specs.Texts as X;
ghost use Rattle.cpc_tree.specs.Trace as T;
ghost use Rattle.cpc_history_marks.specs.Views.{mark_of, told_of};
ghost use Rattle.cpc_run_shown.specs.Outcomes.{outcome_of};
ghost use Rattle.cpc_run_shown.specs.declared.outcome.Ended.TheVariants.{Over as IsOver};
ghost use Rattle.cpc_run_shown.specs.declared.outcome.Outcome.TheVariants.{Failed as IsFailed};
ghost use Rattle.cpc_run_shown.specs.Known.{IsInTable};
ghost use Rattle.cpc_run_shown.specs.Shown.{shown_of, last_of};

use crate::outcome::{Ended, Outcome, before_underscores};
use cpc_base::{Name, Names, NoMemory};
use cpc_history::{history_text, mark_text, outcome_text};
use cpc_history_marks::{Mark, Outcome as End, Told};
use cpc_num::Fault;
use std::alloc::Global;

// The line of a mark.
fn put_line(alloc: Global, mark: &Mark, pending: &mut Vec<u8>) -> Result<(), NoMemory>
    ensures { OnOk result (pending.new.items ≡ pending.old.items ++ (X.mark_text (mark_of mark.now) ++ 10 ∷ [])) }
{
    let mut line = mark_text(alloc, mark)?;
    line.push(b'\n')?;
    pending.extend_from_slice(line.as_slice())?;
    Ok(())
}

/// What goes out for bytes that are output. `NoMemory` is want of memory.
pub fn put_output(
    trace: bool,
    alloc: Global,
    text: &[u8],
    pending: &mut Vec<u8>,
) -> Result<(), NoMemory>
    ensures { OnOk result (pending.new.items ≡ pending.old.items ++ shown_of trace (T.Output text.now)) }
{
    if !trace {
        pending.extend_from_slice(text)?;
        return Ok(());
    }
    let mut bytes = Vec::new(alloc);
    bytes.extend_from_slice(text)?;
    put_line(alloc, &Mark::Out(bytes), pending)
}

/// What goes out for a sleep, a wait on a condition or a wait for a descriptor: its line, where a trace is wanted. `NoMemory` is want of
/// memory.
pub fn put_wait(
    trace: bool,
    alloc: Global,
    mark: &Mark,
    pending: &mut Vec<u8>,
) -> Result<(), NoMemory>
    requires silent { X.output_of (mark_of mark.now) ≡ [] }
    ensures { OnOk result (pending.new.items ≡ pending.old.items ++ shown_of trace (mark_of mark.now)) }
{
    if !trace {
        return Ok(());
    }
    put_line(alloc, mark, pending)
}

/// What goes out for a call of a function of the host, by its name, its arguments and its answer: its line, where a trace is
/// wanted. `NoMemory` is want of memory.
pub fn put_host(
    trace: bool,
    alloc: Global,
    name: &[u8],
    arguments: Vec<i64>,
    answer: i64,
    pending: &mut Vec<u8>,
) -> Result<(), NoMemory>
    ensures { OnOk result (pending.new.items ≡ pending.old.items ++ shown_of trace (T.HostCall name.now arguments.items answer)) }
{
    if !trace {
        return Ok(());
    }
    let name = name.to_vec(alloc)?;
    put_line(alloc, &Mark::Host(name, arguments, answer), pending)
}

/// What goes out for a section that is submitted, by its number and the name of its function: its line, where a trace is wanted.
/// `NoMemory` is want of memory.
pub fn put_section(
    trace: bool,
    alloc: Global,
    number: u64,
    name: &[u8],
    pending: &mut Vec<u8>,
) -> Result<(), NoMemory>
    ensures { OnOk result (pending.new.items ≡ pending.old.items ++ shown_of trace (T.Submitted number name.now)) }
{
    if !trace {
        return Ok(());
    }
    let name = name.to_vec(alloc)?;
    put_line(alloc, &Mark::Section(number, name), pending)
}

/// What goes out for the first of these polls, which is taken: its line, where a trace is wanted. `NoMemory` is want of memory.
pub fn put_poll(
    trace: bool,
    alloc: Global,
    polls: &[Told],
    pending: &mut Vec<u8>,
) -> Result<(), NoMemory>
    requires { 0 < length polls.now }
    ensures { OnOk result ((told : T.Told) (left : List T.Told) → map told_of polls.now ≡ told ∷ left → pending.new.items ≡ pending.old.items ++ shown_of trace (T.Polled told)) }
{
    if !trace {
        return Ok(());
    }
    let line = history_text(alloc, &polls[..1])?;
    pending.extend_from_slice(line.as_slice())?;
    Ok(())
}

// The last line of a run that was left by `cpc_exit`.
fn exit_text(alloc: Global, number: i128) -> Result<Vec<u8>, NoMemory>
    ensures { IfOk result (λ line. line.items ≡ X.last_text (X.Over (T.Exited number))) }
{
    let digits = format!(in alloc; "{number}")?;
    let mut line = Vec::new(alloc);
    line.extend_from_slice(b"exit ")?;
    line.extend_from_slice(digits.as_bytes())?;
    Ok(line)
}

// The last line of a run that failed in a function.
fn fault_text(
    alloc: Global,
    table: &Names,
    fault: Fault,
    function: Name,
) -> Result<Vec<u8>, NoMemory>
    requires { function.0 < length table.now }
    ensures { IfOk result (λ line. line.items ≡ X.last_text (X.Over (outcome_of (in_table table.now) (IsFailed fault function)))) }
{
    let Some(text) = table.text(function) else {
        unreachable!();
    };
    let mut name = Vec::new(alloc);
    name.extend_from_slice(before_underscores(text))?;
    outcome_text(alloc, &End::Fault(fault, name))
}

// The last line of a run that is over, without its line feed.
fn over_text(alloc: Global, table: &Names, outcome: Outcome) -> Result<Vec<u8>, NoMemory>
    requires { IsInTable table.now (IsOver outcome) }
    ensures { IfOk result (λ line. line.items ≡ X.last_text (X.Over (outcome_of (in_table table.now) outcome))) }
{
    match outcome {
        Outcome::Ended(waiters) => outcome_text(alloc, &End::Ended(waiters)),
        Outcome::Exited(number) => exit_text(alloc, number),
        Outcome::Failed(fault, function) => fault_text(alloc, table, fault, function),
        Outcome::HistoryEnded => outcome_text(alloc, &End::HistoryEnded),
        Outcome::BadHistory(section) => outcome_text(alloc, &End::BadHistory(section)),
    }
}

// Puts a last line with its line feed.
fn put_end(line: &[u8], pending: &mut Vec<u8>) -> Result<(), NoMemory>
    ensures { OnOk result (pending.new.items ≡ pending.old.items ++ (line.now ++ 10 ∷ [])) }
{
    pending.extend_from_slice(line)?;
    pending.push(b'\n')?;
    Ok(())
}

// Puts the last line of a trace whose run was left so.
fn put_stop(
    alloc: Global,
    table: &Names,
    ended: Ended,
    pending: &mut Vec<u8>,
) -> Result<(), NoMemory>
    requires { IsInTable table.now ended }
    ensures { OnOk result (pending.new.items ≡ pending.old.items ++ last_of (in_table table.now) true ended) }
{
    match ended {
        Ended::Over(outcome) => {
            let line = over_text(alloc, table, outcome)?;
            put_end(line.as_slice(), pending)
        }
        Ended::Steps => put_end(b"steps", pending),
        Ended::Full(_) => put_end(b"full", pending),
        Ended::WriteFault | Ended::Memory | Ended::NoHost(_) => Ok(()),
    }
}

/// Puts the last line of a run that was left so, where a trace is wanted. `NoMemory` is want of memory, and comes only with a trace.
pub fn put_last(
    trace: bool,
    alloc: Global,
    table: &Names,
    ended: Ended,
    pending: &mut Vec<u8>,
) -> Result<(), NoMemory>
    requires { IsInTable table.now ended }
    ensures put { OnOk result (pending.new.items ≡ pending.old.items ++ last_of (in_table table.now) trace ended) }
    ensures traced { OnErr result (trace ≡ true) }
{
    if !trace {
        return Ok(());
    }
    put_stop(alloc, table, ended, pending)
}
