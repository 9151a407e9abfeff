//! Streams as sinks.
ghost use Rattle.std.specs.Prelude.{◌≡◌, ◌≤◌, length, IfOk, MatchResult, None};
ghost use Rattle.std.specs.Io.KnownBytes.{WriteAppends};
ghost use Rattle.cpc_base.specs.Outside.{one_more};

use crate::faults::Faults;
use cpc_base::{Failed, Sink};
use std::io;
use std::io::{ErrorKind, Write};

/// A stream, with a count of its faults. As a sink it tells nothing of what it took.
#[derive(Drop)]
pub struct StreamSink<W> {
    to: W,
    faults: Faults,
}

impl<W: Write> StreamSink<W> {
    /// A stream as it is, with no fault so far.
    pub fn new(to: W) -> Self
        ensures stream { result.to ≡ to }
        ensures none { result.faults.count ≡ 0 }
    {
        StreamSink {
            to,
            faults: Faults::none(),
        }
    }
}

impl<W: Write> Sink for StreamSink<W> {
    ghost taken = { λ _. None };

    ghost faults = { λ s. s.faults.count };

    /// Where it is known what the stream holds, it grows by the bytes that are said to be taken, and by none where there is a fault.
    fn put(&mut self, piece: &[u8]) -> Result<usize, Failed>
        ensures within { IfOk result (λ n. n ≤ length piece.now) }
        ensures written { WriteAppends (W.contents self.old.to) (W.contents self.new.to) result piece.now }
        ensures later { self.old.faults.count ≤ self.new.faults.count }
        ensures counted { MatchResult result
            (λ n. (n ≡ 0 → length piece.now ≡ 0) × (self.new.faults.count ≡ self.old.faults.count))
            (λ _. self.new.faults.count ≡ one_more self.old.faults.count) }
    {
        let wrote = match self.to.write(piece) {
            Ok(0) if !piece.is_empty() => Err(io::Error::from(ErrorKind::WriteZero)),
            wrote => wrote,
        };
        self.faults.noted(wrote)
    }
}
