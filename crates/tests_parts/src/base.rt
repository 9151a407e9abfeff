//! What no clause says: that each call answers with memory at hand. Files that fail are tested where the command runs.
use cpc_base::{Failed, Name, Names, ReadFault, Shelf, Sink, Stop, read_file, write_all};
use cpc_base_memory::{Calls, MemFile, MemShelf, SteadyShelf, read_held};
use std::alloc::{AllocError, Global};
use std::test::Fail;

fn file(alloc: Global, name: &str, bytes: &[u8]) -> Result<MemFile, AllocError> {
    Ok(MemFile {
        name: name.to_string(alloc)?,
        bytes: bytes.to_vec(alloc)?,
    })
}

// Two files of one name, and an empty one.
fn files(alloc: Global) -> Result<Vec<MemFile>, AllocError> {
    let mut files = Vec::new(alloc);
    files.push(file(alloc, "a", b"one two")?)?;
    files.push(file(alloc, "a", b"behind")?)?;
    files.push(file(alloc, "empty", b"")?)?;
    Ok(files)
}

#[test]
fn names_come_in_order_of_first_use(rt: HostRuntime) -> Result<(), Fail> {
    let mut names = Names::new(rt.alloc());
    for (text, number) in [("a", 0), ("main", 1), ("a", 0), ("", 2), ("main", 1)] {
        let name = names.intern(rt.alloc(), text.as_bytes())?;
        assert!(rt; name == Name(number), "{text}");
    }
    assert!(rt;
        names
            .text(Name(1))
            .is_some_and(|text| text == b"main".as_slice())
    );
    assert!(rt; names.text(Name(2)).is_some_and(|text| text.is_empty()));
    assert!(rt; names.text(Name(3)).is_none());
    assert!(rt; names.text(Name(u64::MAX)).is_none());
    Ok(())
}

#[test]
fn a_held_file_is_read(rt: HostRuntime) -> Result<(), Fail> {
    let alloc = rt.alloc();
    let mut steady = SteadyShelf::new(files(alloc)?);
    let mut piece = [0u8; 2];
    assert!(rt; steady.read_at("b", 0, &mut piece) == Err(Failed));
    assert!(rt; steady.read_at("a", 4, &mut piece) == Ok(2));
    assert_eq!(rt; piece, *b"tw");
    assert!(rt; steady.holds("a"));
    let held = read_held(alloc, &mut steady, "a", 7);
    assert!(rt; held.is_ok_and(|bytes| bytes.as_slice() == b"one two".as_slice()));
    Ok(())
}

// Takes nothing, and counts each refusal.
#[derive(Drop)]
struct Shut {
    refusals: u64,
}

impl Sink for Shut {
    ghost use Rattle.std.specs.Prelude.{None};

    ghost taken = { λ _. None };

    ghost faults = { λ s. s.refusals };

    fn put(&mut self, _piece: &[u8]) -> Result<usize, Failed> {
        self.refusals = self.refusals.saturating_add(1);
        Ok(0)
    }
}

#[test]
fn nothing_taken_is_a_failure(rt: HostRuntime) {
    let mut shut = Shut { refusals: 0 };
    assert!(rt; write_all(&mut shut, b"hello") == Err(Failed));
    assert_eq!(rt; shut.refusals, 1);
    assert!(rt; write_all(&mut shut, b"") == Ok(()));
    assert_eq!(rt; shut.refusals, 1);
}

// What the file `a` of seven bytes is read as, a byte a call, where one call fails.
fn read_but_for(
    alloc: Global,
    limit: usize,
    failing: u64,
) -> Result<Result<usize, ReadFault>, AllocError> {
    let mut calls = Vec::new(alloc);
    calls.push(failing)?;
    let mut shelf = MemShelf::new(files(alloc)?, 1, Calls::new(calls));
    match read_file(alloc, &mut shelf, "a", limit) {
        Ok(bytes) => Ok(Ok(bytes.len())),
        Err(Stop::Fault(fault)) => Ok(Err(fault)),
        Err(Stop::Memory) => Err(AllocError),
    }
}

#[test]
fn nothing_is_read_behind_the_byte_past_the_limit(rt: HostRuntime) -> Result<(), Fail> {
    let alloc = rt.alloc();
    assert!(rt; read_but_for(alloc, 3, 5)? == Err(ReadFault::TooLong));
    assert!(rt; read_but_for(alloc, 3, 4)? == Err(ReadFault::Unread));
    assert!(rt; read_but_for(alloc, 0, 2)? == Err(ReadFault::TooLong));
    assert!(rt; read_but_for(alloc, 7, 9)? == Ok(7));
    assert!(rt; read_but_for(alloc, 7, 8)? == Err(ReadFault::Unread));
    Ok(())
}
