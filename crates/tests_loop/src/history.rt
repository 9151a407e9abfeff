//! Histories that are read and printed, and the lines of a trace.
ghost use Rattle.std.specs.Prelude.{◌≡◌};
ghost use Rattle.cpc_tree.specs.Trace as Trace;
ghost use Rattle.cpc_history_marks.specs.Views.{outcome_of};

use cpc_base::{Direction, Event, Stop};
use cpc_history::{history_text, mark_text, out_text, outcome_text, read_history};
use cpc_history_marks::{Mark, Outcome, Told};
use cpc_num::Fault;
use std::alloc::{AllocError, Global};
use std::test::Fail;

#[test]
fn a_history_is_read_and_printed(rt: HostRuntime) -> Result<(), Fail> {
    let text = b"# two polls\n\n  poll\t007 d0 r2\npoll 40 w12 d9223372036854775807";
    let Ok(polls) = read_history(rt.alloc(), text.as_slice()) else {
        return Err(Fail::from(AllocError));
    };
    assert_eq!(rt; polls.len(), 2);
    let printed = history_text(rt.alloc(), &polls);
    let wanted = b"poll 7 d0 r2\npoll 40 w12 d9223372036854775807\n";
    assert!(rt; printed.is_ok_and(|bytes| bytes.as_slice() == wanted.as_slice()));
    Ok(())
}

#[test]
fn the_first_bad_word_of_the_first_bad_line(rt: HostRuntime) {
    for (text, line, number) in [
        (b"poll x".as_slice(), 1, 1),
        (b"poll 9007199254740993", 1, 2),
        (b"poll 1\n#\npoll 2 r2147483648 x\npoll", 3, 2),
        (b"poll 1 dx9 d9223372036854775808", 1, 1),
        (b"\npol 1", 2, 1),
        (
            b"poll 1 d99999999999999999999999999999999999999999999999999x",
            1,
            1,
        ),
    ] {
        let is_due = match read_history(rt.alloc(), text) {
            Err(Stop::Fault(fault)) => fault.line == line && fault.number == number,
            _ => false,
        };
        assert!(rt; is_due, "line {line}, {number}");
    }
}

// The marks of a row, by their numbers.
fn mark(alloc: Global, number: usize) -> Result<Mark, AllocError> {
    Ok(match number {
        0 => Mark::Out(b"1\n\xff".to_vec(alloc)?),
        1 => Mark::Out(Vec::new(alloc)),
        2 => called(alloc)?,
        3 => Mark::Sleep(-3),
        4 => Mark::Wait(2),
        5 => Mark::Io(3, Direction::Write),
        6 => Mark::Section(0, b"sum".to_vec(alloc)?),
        _ => polled(alloc)?,
    })
}

fn called(alloc: Global) -> Result<Mark, AllocError> {
    let arguments = [i64::MIN, 1].to_vec(alloc)?;
    Ok(Mark::Host(b"abs_diff".to_vec(alloc)?, arguments, i64::MAX))
}

fn polled(alloc: Global) -> Result<Mark, AllocError> {
    let events = [Event::Ready(1, Direction::Read)].to_vec(alloc)?;
    Ok(Mark::Poll(Told { clock: 10, events }))
}

#[test]
fn marks_are_lines_of_a_trace(rt: HostRuntime) -> Result<(), Fail> {
    let wanted = [
        b"out 310aff".as_slice(),
        b"out",
        b"host abs_diff -9223372036854775808 1 = 9223372036854775807",
        b"sleep -3",
        b"wait 2",
        b"io 3 w",
        b"section 0 sum",
        b"poll 10 r1",
    ];
    for (number, line) in wanted.into_iter().enumerate() {
        let mark = mark(rt.alloc(), number)?;
        assert!(rt; mark_text(rt.alloc(), &mark).is_ok_and(|text| text.as_slice() == line));
    }
    let out = out_text(rt.alloc(), &mark(rt.alloc(), 0)?);
    assert!(rt; out.is_ok_and(|text| text.as_slice() == b"1\n\xff".as_slice()));
    Ok(())
}

fn ends(alloc: Global, outcome: &Outcome, wanted: &[u8]) -> bool
    requires { ¬ outcome_of outcome.now ≡ Trace.Going }
{
    outcome_text(alloc, outcome).is_ok_and(|text| text.as_slice() == wanted)
}

#[test]
fn outcomes_are_last_lines(rt: HostRuntime) -> Result<(), Fail> {
    let alloc = rt.alloc();
    assert!(rt; ends(alloc, &Outcome::Ended(0), b"done"));
    assert!(rt; ends(alloc, &Outcome::Ended(12), b"waiting 12"));
    assert!(rt; ends(alloc, &Outcome::Exit(-7), b"exit -7"));
    let fault = Outcome::Fault(Fault::SectionSteps, b"spin".to_vec(alloc)?);
    assert!(rt; ends(alloc, &fault, b"fault section steps in spin"));
    assert!(rt; ends(alloc, &Outcome::HistoryEnded, b"history ended"));
    assert!(rt; ends(alloc, &Outcome::BadHistory(5), b"bad history"));
    Ok(())
}
