//! The top call with the functions of the host that every run has.
#![tactic(auto)]

ghost use Rattle.std.specs.Prelude.{◌≡◌, length, map, string_bytes, Some, IfOk, MatchResult, OnErr, codes};
ghost use Rattle.cpc_base.specs.Outside.{Rose};
ghost use Rattle.cpc_hosts.specs.Standard.{StandardAnswers, standard_answer, standard_names};
ghost use Rattle.cpc_cli.specs.Reports.{Wrote};
ghost use Rattle.cpc_cli.specs.Answer.{Answer, rises};
ghost use Rattle.cpc_cli.specs.Asked.{AsksUpTo, tells_early, words_end};
ghost use Rattle.cpc_cli.specs.Command.{host_of};

use cpc_base::{NoMemory, Shelf, Sink};
pub use cpc_cli::Report;
use cpc_cli::cpc_main;
use cpc_hosts::{Answer, abs_diff, clamp, greatest, least, sign, standard_hosts};
use cpc_pool::{Gate, NoGate};
use std::alloc::Global;
use std::sync::{Arc, Wait};
use std::thread::Threads;

/// Makes the top call of these words, with the functions of the host that every run has. `threads` is the handle by which workers
/// are started; the gate is called around each section that a worker runs (no clause says so).
///
/// # Errors
///
/// `NoMemory` where there is no memory to begin the call: nothing is written then.
pub fn called_with_gate<F: Shelf, O: Sink, E: Sink, G, T>(
    threads: T,
    alloc: Global,
    words: &[String],
    shelf: &mut F,
    out: &mut O,
    err: &mut E,
    gate: &Arc<G, Global>,
) -> Result<Report, NoMemory>
where
    G: Gate + Send + Sync + 'static,
    T: Threads + Wait + Copy + Send + 'static,
    ensures answer { IfOk result (λ report.
        Wrote (O.taken out.old) (O.taken out.new) (λ o. Wrote (E.taken err.old) (E.taken err.new) (λ e.
        Answer (map string_bytes words.now) (host_of standard_names StandardAnswers) (F.files shelf.old)
        (rises (record { shelf = F.faults shelf.old; asked = F.asked shelf.old; out = O.faults out.old; err = E.faults err.old })
        (record { shelf = F.faults shelf.new; asked = F.asked shelf.new; out = O.faults out.new; err = E.faults err.new }))
        report o e))) }
    ensures silent { OnErr result ((O.taken out.new ≡ O.taken out.old) × (E.taken err.new ≡ E.taken err.old)) }
    ensures stays { F.files shelf.new ≡ F.files shelf.old }
    ensures asked { MatchResult result (λ report. AsksUpTo (F.asked shelf.old) (F.asked shelf.new) (words_end (map string_bytes words.now) (tells_early report.status)))
        (λ _. F.asked shelf.new ≡ F.asked shelf.old) }
{
    let abs_diff_by: Answer = Box::new(
        alloc,
        |args: &[i64]| -> i64
            requires { length args.now ≡ 2 }
            ensures { standard_answer (codes "abs_diff") args.now ≡ Some result }
        { abs_diff(args) },
    )?;
    let least_by: Answer = Box::new(
        alloc,
        |args: &[i64]| -> i64
            requires { length args.now ≡ 2 }
            ensures { standard_answer (codes "least") args.now ≡ Some result }
        { least(args) },
    )?;
    let greatest_by: Answer = Box::new(
        alloc,
        |args: &[i64]| -> i64
            requires { length args.now ≡ 2 }
            ensures { standard_answer (codes "greatest") args.now ≡ Some result }
        { greatest(args) },
    )?;
    let clamp_by: Answer = Box::new(
        alloc,
        |args: &[i64]| -> i64
            requires { length args.now ≡ 3 }
            ensures { standard_answer (codes "clamp") args.now ≡ Some result }
        { clamp(args) },
    )?;
    let sign_by: Answer = Box::new(
        alloc,
        |args: &[i64]| -> i64
            requires { length args.now ≡ 1 }
            ensures { standard_answer (codes "sign") args.now ≡ Some result }
        { sign(args) },
    )?;
    let hosts = standard_hosts(alloc, abs_diff_by, least_by, greatest_by, clamp_by, sign_by)?;
    let report = cpc_main(threads, alloc, words, shelf, out, err, &hosts, gate);
    Ok(report)
}

/// Makes the top call of these words, with the functions of the host that every run has, and no gate.
///
/// # Errors
///
/// `NoMemory` where there is no memory to begin the call: nothing is written then.
pub fn called<F: Shelf, O: Sink, E: Sink, T>(
    threads: T,
    alloc: Global,
    words: &[String],
    shelf: &mut F,
    out: &mut O,
    err: &mut E,
) -> Result<Report, NoMemory>
where
    T: Threads + Wait + Copy + Send + 'static,
    ensures answer { IfOk result (λ report.
        Wrote (O.taken out.old) (O.taken out.new) (λ o. Wrote (E.taken err.old) (E.taken err.new) (λ e.
        Answer (map string_bytes words.now) (host_of standard_names StandardAnswers) (F.files shelf.old)
        (rises (record { shelf = F.faults shelf.old; asked = F.asked shelf.old; out = O.faults out.old; err = E.faults err.old })
        (record { shelf = F.faults shelf.new; asked = F.asked shelf.new; out = O.faults out.new; err = E.faults err.new }))
        report o e))) }
    ensures silent { OnErr result ((O.taken out.new ≡ O.taken out.old) × (E.taken err.new ≡ E.taken err.old)) }
    ensures stays { F.files shelf.new ≡ F.files shelf.old }
    ensures asked { MatchResult result (λ report. AsksUpTo (F.asked shelf.old) (F.asked shelf.new) (words_end (map string_bytes words.now) (tells_early report.status)))
        (λ _. F.asked shelf.new ≡ F.asked shelf.old) }
{
    let gate = Arc::new(alloc, NoGate)?;
    called_with_gate(threads, alloc, words, shelf, out, err, &gate)
}
