//! The table, with ample memory.
ghost use Rattle.std.specs.Prelude.{◌≡◌, length, Some, codes};
ghost use Rattle.cpc_hosts.specs.Standard.{standard_answer};

use cpc_base::Stop;
use cpc_hosts::{
    Answer, HostFault, HostRule, HostTable, StdHosts, abs_diff, clamp, greatest, least, sign,
};
use std::test::Fail;

#[test]
fn functions_are_taken_and_called(rt: HostRuntime) -> Result<(), Fail> {
    let alloc = rt.alloc();
    let mut hosts: HostTable<StdHosts> = HostTable::new(alloc);
    let f: Answer = Box::new(
        alloc,
        |args: &[i64]| -> i64
            requires { length args.now ≡ 2 }
            ensures { standard_answer (codes "least") args.now ≡ Some result }
        { least(args) },
    )?;
    assert!(rt; hosts.add(alloc, "least", 2, f).is_ok());
    let f: Answer = Box::new(
        alloc,
        |args: &[i64]| -> i64
            requires { length args.now ≡ 2 }
            ensures { standard_answer (codes "abs_diff") args.now ≡ Some result }
        { abs_diff(args) },
    )?;
    assert!(rt; hosts.add(alloc, "abs_diff", 2, f).is_ok());
    assert!(rt; hosts.call(b"least", &[4, -3]) == Some(-3));
    assert!(rt; hosts.call(b"abs_diff", &[i64::MIN, 1]) == Some(i64::MAX));
    assert!(rt; hosts.call(b"least", &[4]) == None);
    assert!(rt; hosts.call(b"cube", &[4]) == None);
    assert!(rt; hosts.has(b"least", 2));
    assert!(rt; !hosts.has(b"least", 3));
    Ok(())
}

#[test]
fn the_functions_of_every_run(rt: HostRuntime) {
    assert!(rt; abs_diff(&[-3, 4]) == 7);
    assert!(rt; abs_diff(&[i64::MAX, i64::MIN]) == i64::MAX);
    assert!(rt; greatest(&[-3, 4]) == 4);
    assert!(rt; clamp(&[50, 0, 9]) == 9);
    assert!(rt; clamp(&[5, 9, 0]) == 9);
    assert!(rt; sign(&[-8]) == -1);
    assert!(rt; sign(&[0]) == 0);
}

/// Any answer of a function of nine arguments is allowed.
struct Nine;

impl HostRule for Nine {
    ghost use Rattle.std.specs.Prelude.{⊤};

    ghost answers = { λ _ _ _. ⊤ };
}

fn zero(_args: &[i64]) -> i64 {
    0
}

/// The number of the fault, and 0 where there is none.
fn refused(added: Result<(), Stop<HostFault>>) -> u8 {
    match added {
        Err(Stop::Fault(fault)) => fault.number,
        _ => 0,
    }
}

#[test]
fn what_the_table_refuses(rt: HostRuntime) -> Result<(), Fail> {
    let alloc = rt.alloc();
    let mut hosts: HostTable<Nine> = HostTable::new(alloc);
    let f: Answer = Box::new(alloc, zero)?;
    assert!(rt; hosts.add(alloc, "zero", 8, f).is_ok());
    let f: Answer = Box::new(alloc, zero)?;
    assert!(rt; refused(hosts.add(alloc, "zero", 9, f)) == 1);
    let f: Answer = Box::new(alloc, zero)?;
    assert!(rt; refused(hosts.add(alloc, "nine", 9, f)) == 2);
    assert!(rt; !hosts.has(b"nine", 9));
    Ok(())
}
