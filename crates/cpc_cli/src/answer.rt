//! How a call ends, and what it says of that.
ghost use Rattle.std.specs.Prelude.{◌≡◌, ◌⊎◌, IfOk, OnOk, ◌++◌, codes, decimal};
ghost use Rattle.std.specs.Io.KnownBytes.{append_known};
ghost use Rattle.cpc_base.specs.Outside.{Rose};
ghost use Rattle.cpc_tree.specs.Texts as T;
ghost use Rattle.cpc_cli.specs.Answer.{status_of, line_of, outcome_line as line_of_outcome, Said, wrong_text};
ghost use Rattle.cpc_cli.specs.Command.{limit_of, name_of, no_labels};
ghost use Rattle.cpc_cli.specs.Inputs.{labels};
ghost use Rattle.cpc_run_workers.specs.Reports.{Wrote};
ghost use Rattle.cpc_cli.specs.declared.answer.End.{End};
ghost use Rattle.cpc_cli.specs.declared.answer.End.TheVariants as V;
ghost use Rattle.cpc_cli.specs.declared.answer.Outcome.TheVariants as O;

use crate::reading::HISTORY_LIMIT;
use cpc_base::{Failed, Sink, write_all};
use cpc_history::{HistoryFault, fault_name};
use cpc_num::Fault;
use cpc_translate::TextFault;
use std::alloc::{AllocError, Global};

/// A file that a command reads, by what it is for.
#[derive(Clone, Copy)]
pub enum Role {
    /// The text of the program.
    Text,
    /// The history of its run.
    History,
}

/// The files that the words name, as a line tells them.
#[derive(Clone, Copy)]
pub struct Inputs<'a> {
    /// The name of the text's file.
    pub text: &'a str,
    /// The name of the history's file, and no text where none is named.
    pub history: &'a str,
    /// The most bytes of the text.
    pub limit: u64,
}

/// How a command's work stands at its end.
#[derive(Drop)]
pub enum Outcome {
    /// The run is over, and so many wait.
    Ended(u64),
    /// The run is over: the program called `cpc_exit` with this number.
    Exited(i128),
    /// The run is over: the program has a fault, in the function of this name.
    Failed(Fault, Vec<u8>),
    /// The run wanted one more poll than so many, and the history has no more.
    HistoryEnded(u64),
    /// The poll of this number tells that a section of this number is done, which is not out.
    BadHistory(u64, u64),
    /// The run made so many steps, as many as it may, and is not over.
    Stopped(u64),
    /// The run may have so many live cells, and asked for so many.
    Full(u64, u64),
    /// The text was checked and accepted.
    Accepted,
    /// The text was translated.
    Translated,
}

/// Why a call ended.
#[derive(Drop)]
pub enum End {
    /// The command did its work.
    Done(Outcome),
    /// The words are no command line.
    Usage,
    /// The text has a fault.
    Refused(TextFault),
    /// The shelf failed at a file.
    Unread(Role),
    /// `out` failed.
    Unwritten,
    /// Memory was wanting.
    Memory,
    /// A file has more bytes than its limit.
    TooLong(Role),
    /// A line of the history is no poll.
    BadLine(HistoryFault),
    /// A function of the host of this name is declared, and the host has none of its arity.
    NoHost(Vec<u8>),
}

/// What a call tells its caller.
#[derive(Drop)]
pub struct Report {
    /// The exit status of the command.
    pub status: u8,
    /// The printed text, where one was made.
    pub printed: Vec<u8>,
    /// The event steps made.
    pub steps: u64,
    /// The live cells after them, or 0 where no run was begun.
    pub cells: u64,
}

fn outcome_status(outcome: &Outcome) -> u8
    ensures { result ≡ status_of (V.Done outcome.now) }
{
    match outcome {
        Outcome::Ended(waiting) => { if *waiting == 0 { 0 } else { 14 } }
        Outcome::Exited(_) | Outcome::Accepted | Outcome::Translated => 0,
        Outcome::Failed(_, _) => 1,
        Outcome::BadHistory(_, _) => 4,
        Outcome::HistoryEnded(_) => 5,
        Outcome::Stopped(_) => 6,
        Outcome::Full(_, _) => 7,
    }
}

fn status(end: &End) -> u8
    ensures { result ≡ status_of end.now }
{
    match end {
        End::Done(outcome) => outcome_status(outcome),
        End::Usage => 2,
        End::Refused(_) => 3,
        End::BadLine(_) => 4,
        End::Unread(_) => 8,
        End::Unwritten => 9,
        End::Memory => 11,
        End::NoHost(_) => 12,
        End::TooLong(_) => 13,
    }
}

fn fault_line(alloc: Global, fault: Fault, function: &[u8]) -> Result<Vec<u8>, AllocError>
    ensures { IfOk result (λ line. line.items ≡ codes "fault " ++ T.fault_text fault ++ codes " in " ++ function.now ++ codes "\n") }
{
    let mut line = b"fault ".to_vec(alloc)?;
    line.extend_from_slice(fault_name(fault))?;
    line.extend_from_slice(b" in ")?;
    line.extend_from_slice(function)?;
    line.push(b'\n')?;
    Ok(line)
}

fn ended_line(alloc: Global, waiting: u64) -> Result<Vec<u8>, AllocError>
    ensures { IfOk result (λ line. line.items ≡ line_of_outcome (O.Ended waiting)) }
{
    if waiting == 0 {
        Ok(Vec::new(alloc))
    } else {
        Ok(format!(in alloc; "ended with {waiting} waiting\n")?.into_bytes())
    }
}

fn outcome_line(alloc: Global, outcome: &Outcome) -> Result<Vec<u8>, AllocError>
    ensures { IfOk result (λ line. line.items ≡ line_of_outcome outcome.now) }
{
    match outcome {
        Outcome::Ended(waiting) => ended_line(alloc, *waiting),
        Outcome::Exited(number) => Ok(format!(in alloc; "exit {number}\n")?.into_bytes()),
        Outcome::Failed(fault, function) => fault_line(alloc, *fault, function.as_slice()),
        Outcome::HistoryEnded(taken) => {
            Ok(format!(in alloc; "history ended after {taken} polls\n")?.into_bytes())
        }
        Outcome::BadHistory(poll, section) => {
            Ok(format!(in alloc; "history poll {poll} section {section}\n")?.into_bytes())
        }
        Outcome::Stopped(steps) => {
            Ok(format!(in alloc; "stopped after {steps} steps\n")?.into_bytes())
        }
        Outcome::Full(cap, asked) => {
            Ok(format!(in alloc; "full: cap {cap}, asked {asked}\n")?.into_bytes())
        }
        Outcome::Accepted | Outcome::Translated => Ok(Vec::new(alloc)),
    }
}

fn refused_line(alloc: Global, fault: &TextFault) -> Result<Vec<u8>, AllocError>
    ensures { IfOk result (λ line. line.items ≡ line_of no_labels (V.Refused fault.now)) }
{
    let at = fault.place();
    let row = at.line;
    let column = at.column;
    let stage = fault.stage();
    let number = fault.number();
    let name = fault.name();
    Ok(format!(in alloc; "refused {row}:{column} {stage} {number} {name}\n")?.into_bytes())
}

// What is wrong with a line of a history, by its number.
fn wrong(number: u8) -> &'static str
    ensures { result.now ≡ wrong_text number }
{
    if number == 1 { "form" } else { "number" }
}

fn bad_line(alloc: Global, fault: &HistoryFault) -> Result<Vec<u8>, AllocError>
    ensures { IfOk result (λ line. line.items ≡ line_of no_labels (V.BadLine fault.now)) }
{
    let number = fault.line;
    let wrong = wrong(fault.number);
    Ok(format!(in alloc; "history line {number} {wrong}\n")?.into_bytes())
}

fn host_line(alloc: Global, name: &[u8]) -> Result<Vec<u8>, AllocError>
    ensures { IfOk result (λ line. line.items ≡ codes "no host " ++ (name.now ++ codes "\n")) }
{
    let mut line = b"no host ".to_vec(alloc)?;
    line.extend_from_slice(name)?;
    line.push(b'\n')?;
    Ok(line)
}

// The name of a file.
fn name<'a>(inputs: &Inputs<'a>, role: Role) -> &'a str
    ensures { result.now ≡ name_of (labels inputs.now) role }
{
    match role {
        Role::Text => inputs.text,
        Role::History => inputs.history,
    }
}

// The most bytes of a file.
fn limit(inputs: &Inputs<'_>, role: Role) -> u64
    ensures { result ≡ limit_of (labels inputs.now) role }
{
    match role {
        Role::Text => inputs.limit,
        Role::History => HISTORY_LIMIT as u64,
    }
}

fn unread_line(alloc: Global, name: &str) -> Result<Vec<u8>, AllocError>
    ensures { IfOk result (λ line. line.items ≡ codes "read fault: " ++ (name.now ++ codes "\n")) }
{
    Ok(format!(in alloc; "read fault: {name}\n")?.into_bytes())
}

fn long_line(alloc: Global, name: &str, limit: u64) -> Result<Vec<u8>, AllocError>
    ensures { IfOk result (λ line. line.items ≡ codes "too long: " ++ (name.now ++ (codes " limit " ++ (decimal limit ++ codes "\n")))) }
{
    Ok(format!(in alloc; "too long: {name} limit {limit}\n")?.into_bytes())
}

fn line(alloc: Global, inputs: &Inputs<'_>, end: &End) -> Result<Vec<u8>, AllocError>
    ensures { IfOk result (λ line. line.items ≡ line_of (labels inputs.now) end.now) }
{
    match end {
        End::Done(outcome) => outcome_line(alloc, outcome),
        End::Usage => {
            b"usage: cpc check, translate, run or exec FILE with options, or cpc sample N\n".to_vec(
                alloc,
            )
        }
        End::Refused(fault) => refused_line(alloc, fault),
        End::Unread(role) => unread_line(alloc, name(inputs, *role)),
        End::Unwritten => b"write fault\n".to_vec(alloc),
        End::Memory => b"no memory\n".to_vec(alloc),
        End::TooLong(role) => long_line(alloc, name(inputs, *role), limit(inputs, *role)),
        End::BadLine(fault) => bad_line(alloc, fault),
        End::NoHost(name) => host_line(alloc, name.as_slice()),
    }
}

// Writes a line. Where the sink fails in it, the status is 9.
fn say<E: Sink>(line: &[u8], due: u8, err: &mut E) -> u8
    ensures said { Wrote (E.taken err.old) (E.taken err.new) (Said line.now due (Rose (E.faults err.old) (E.faults err.new)) result) }
{
    match write_all(err, line) {
        Ok(()) => due,
        Err(Failed) => 9,
    }
}

/// Writes the line of an end, or that of want of memory where there is none for the line, and gives the status. `inputs`
/// are the files that the words name.
pub fn conclude<E: Sink>(alloc: Global, inputs: &Inputs<'_>, end: &End, err: &mut E) -> u8
    ensures said { Wrote (E.taken err.old) (E.taken err.new) (λ e. (last : End) × (last ≡ end.now ⊎ last ≡ End.Memory)
        × Said (line_of (labels inputs.now) last) (status_of last) (Rose (E.faults err.old) (E.faults err.new)) result e) }
{
    match line(alloc, inputs, end) {
        Ok(line) => say(line.as_slice(), status(end), err),
        Err(_) => say(b"no memory\n", 11, err),
    }
}
