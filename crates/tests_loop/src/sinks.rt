//! A sink in memory, of which one call fails.
use cpc_base::{Failed, Sink};
use cpc_base_memory::{Calls, MemSink};
use std::test::Fail;

#[test]
fn sinks_take_so_many_bytes_a_call(rt: HostRuntime) -> Result<(), Fail> {
    let alloc = rt.alloc();
    let mut failing = Vec::new(alloc);
    failing.push(3)?;
    let mut sink = MemSink::new(alloc, 2, Calls::new(failing));
    assert!(rt; sink.put(b"abc") == Ok(2));
    assert!(rt; sink.put(b"c") == Ok(1));
    assert!(rt; sink.put(b"d") == Err(Failed));
    assert!(rt; !sink.is_starved());
    assert!(rt; sink.bytes() == b"abc".as_slice());
    assert!(rt; sink.put(b"d") == Ok(1));
    assert!(rt; !sink.is_starved());
    assert!(rt; sink.bytes() == b"abcd".as_slice());
    Ok(())
}
