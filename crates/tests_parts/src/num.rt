//! Values that gcc gives, at the corners of each kind.
//!
//! A corner is a value that an operator treats in a way of its own: the ends of the kind, -1, 0, 1,
//! the width and the number below it. The sums stand for the results of all pairs of corners, in
//! the order of the corners: `sum * 31 + form`, then `sum * 31 + payload`, modulo 2 to the 64.
use cpc_num::{Fault, Kind, Op, binary, convert, is_of};

fn corners(kind: Kind) -> [i128; 7] {
    match kind {
        Kind::Char => [-0x80, -1, 0, 1, 7, 8, 0x7f],
        Kind::UChar => [0, 1, 7, 8, 0x7f, 0x80, 0xff],
        Kind::Int => [-0x8000_0000, -1, 0, 1, 31, 32, 0x7fff_ffff],
        Kind::UInt => [0, 1, 31, 32, 0x7fff_ffff, 0x8000_0000, 0xffff_ffff],
        Kind::Long => [
            -0x8000_0000_0000_0000,
            -1,
            0,
            1,
            63,
            64,
            0x7fff_ffff_ffff_ffff,
        ],
        Kind::ULong => [
            0,
            1,
            63,
            64,
            0x7fff_ffff_ffff_ffff,
            0x8000_0000_0000_0000,
            0xffff_ffff_ffff_ffff,
        ],
    }
}

// None where an operand is no value of the kind.
#[tactic(auto, using(cpc_num::proofs::ResultLemmas::operands))]
fn tried(op: Op, kind: Kind, left: i128, right: i128) -> Option<Result<i128, Fault>> {
    if is_of(kind, left) && is_of(kind, right) {
        Some(binary(op, kind, left, right))
    } else {
        None
    }
}

fn folded(sum: u64, outcome: Option<Result<i128, Fault>>) -> u64 {
    let (form, payload) = match outcome {
        Some(Ok(value)) => (
            if value < 0 { 2 } else { 0 },
            value.rem_euclid(0x1_0000_0000_0000_0000) as u64,
        ),
        Some(Err(fault)) => (1, u64::from(fault.number())),
        None => (3, 0),
    };
    sum.wrapping_mul(31)
        .wrapping_add(form)
        .wrapping_mul(31)
        .wrapping_add(payload)
}

/// An operator, a kind, two operands, and what gcc gives.
static ROWS: [(Op, Kind, i128, i128, Result<i128, Fault>); 27] = [
    (Op::Div, Kind::Int, -2147483648, -1, Err(Fault::Overflow)),
    (Op::Rem, Kind::Int, -2147483648, -1, Err(Fault::Overflow)),
    (
        Op::Div,
        Kind::Long,
        -9223372036854775808,
        -1,
        Err(Fault::Overflow),
    ),
    (
        Op::Rem,
        Kind::Long,
        -9223372036854775808,
        -1,
        Err(Fault::Overflow),
    ),
    (Op::Rem, Kind::Int, -1, 32, Ok(-1)),
    (Op::Div, Kind::Int, -1, 32, Ok(0)),
    (Op::Shl, Kind::Int, -1, 31, Ok(-2147483648)),
    (Op::Shl, Kind::Int, 1, 31, Err(Fault::Overflow)),
    (Op::Shl, Kind::Int, 1, 32, Err(Fault::Shift)),
    (Op::Shr, Kind::Int, -1, 31, Ok(-1)),
    (Op::Shr, Kind::Int, 1, 32, Err(Fault::Shift)),
    (Op::Shr, Kind::Int, -2147483648, 31, Ok(-1)),
    (Op::Shl, Kind::UInt, 31, 31, Ok(2147483648)),
    (Op::Shr, Kind::ULong, 18446744073709551615, 63, Ok(1)),
    (
        Op::Mul,
        Kind::ULong,
        18446744073709551615,
        18446744073709551615,
        Ok(1),
    ),
    (
        Op::Mul,
        Kind::Long,
        -9223372036854775808,
        -1,
        Err(Fault::Overflow),
    ),
    (Op::Add, Kind::UInt, 4294967295, 1, Ok(0)),
    (Op::Add, Kind::Int, 2147483647, 1, Err(Fault::Overflow)),
    (Op::Sub, Kind::ULong, 0, 1, Ok(18446744073709551615)),
    (Op::Sub, Kind::Int, -2147483648, 1, Err(Fault::Overflow)),
    (Op::BitAnd, Kind::Int, -1, 2147483647, Ok(2147483647)),
    (Op::BitXor, Kind::Int, -1, 1, Ok(-2)),
    (
        Op::BitOr,
        Kind::Long,
        -9223372036854775808,
        1,
        Ok(-9223372036854775807),
    ),
    (Op::Lt, Kind::Int, -1, 0, Ok(1)),
    (Op::Ne, Kind::Int, -1, 0, Ok(1)),
    (Op::Div, Kind::ULong, 1, 0, Err(Fault::Divide)),
    (Op::Rem, Kind::UInt, 1, 0, Err(Fault::Divide)),
];

#[test]
fn operators_agree_with_gcc(rt: HostRuntime) {
    for (row, (op, kind, left, right, want)) in ROWS.into_iter().enumerate() {
        assert!(rt;
            tried(op, kind, left, right) == Some(want),
            "row {row}: {left} and {right}"
        );
    }
}

/// An operator, and the sums of its results at `int`, `unsigned`, `long` and `unsigned long`.
static SUMS: [(Op, [u64; 4]); 16] = [
    (
        Op::Mul,
        [
            0x0d9c45c3072df3ad,
            0xf1083ebf91ba9b04,
            0x88aa3ffcac32e32d,
            0x3ebdd8693b5aca04,
        ],
    ),
    (
        Op::Div,
        [
            0x3e5770269b284ef8,
            0xe55bf301429a6ff5,
            0xa2ee19fb5c98bdf8,
            0x27c681b47cb88fcd,
        ],
    ),
    (
        Op::Rem,
        [
            0x23cddf4a2dbdeeb5,
            0x7a3970d9baefd88c,
            0x07091577f88eae75,
            0xe64770238e873a44,
        ],
    ),
    (
        Op::Add,
        [
            0x393b67456a3a6b54,
            0x7bbab710d12fb564,
            0x2a33cfd5ef076e54,
            0x29e15478ea3af8e4,
        ],
    ),
    (
        Op::Sub,
        [
            0x8b169dc4124063de,
            0xd28698a8e2f1b380,
            0x1a8410de8566a3de,
            0xf00c8557524b6380,
        ],
    ),
    (
        Op::Shl,
        [
            0x950452329bb36ecc,
            0xe74566243780eab2,
            0xca40dafbb34e578c,
            0xa027455bcb48d372,
        ],
    ),
    (
        Op::Shr,
        [
            0x98028061572b95c5,
            0x2feaef5cdf62f055,
            0x74411fe449748225,
            0x4e491b23c3e25cb5,
        ],
    ),
    (
        Op::Lt,
        [
            0x254af55f3b33f815,
            0x254af55f3b33f815,
            0x254af55f3b33f815,
            0x254af55f3b33f815,
        ],
    ),
    (
        Op::Le,
        [
            0xf9e296d0672f2e1c,
            0xf9e296d0672f2e1c,
            0xf9e296d0672f2e1c,
            0xf9e296d0672f2e1c,
        ],
    ),
    (
        Op::Gt,
        [
            0xeee6663e6d618c15,
            0xeee6663e6d618c15,
            0xeee6663e6d618c15,
            0xeee6663e6d618c15,
        ],
    ),
    (
        Op::Ge,
        [
            0xc37e07af995cc21c,
            0xc37e07af995cc21c,
            0xc37e07af995cc21c,
            0xc37e07af995cc21c,
        ],
    ),
    (
        Op::Eq,
        [
            0xd497a1712bfb3607,
            0xd497a1712bfb3607,
            0xd497a1712bfb3607,
            0xd497a1712bfb3607,
        ],
    ),
    (
        Op::Ne,
        [
            0x14315b9da895842a,
            0x14315b9da895842a,
            0x14315b9da895842a,
            0x14315b9da895842a,
        ],
    ),
    (
        Op::BitAnd,
        [
            0xf79875aaf92dbe36,
            0xe09d8d703269e13e,
            0xd751a91e2df8ff76,
            0x8a01a8c5a99ba27e,
        ],
    ),
    (
        Op::BitXor,
        [
            0x2386452fc8bc35c0,
            0xda736c3c6c5bf2e8,
            0xd303e7884b1ff6c0,
            0x15de02ed9703b3e8,
        ],
    ),
    (
        Op::BitOr,
        [
            0x1b1ebadac1e9f3f6,
            0xbb10f9ac9ec5d426,
            0xaa5590a67918f636,
            0x9fdfabb3409f5666,
        ],
    ),
];

#[test]
fn operators_agree_with_gcc_at_all_corners(rt: HostRuntime) {
    for (op, wants) in SUMS {
        for (kind, want) in [Kind::Int, Kind::UInt, Kind::Long, Kind::ULong]
            .into_iter()
            .zip(wants)
        {
            let mut sum = 0;
            for left in corners(kind) {
                for right in corners(kind) {
                    sum = folded(sum, tried(op, kind, left, right));
                }
            }
            assert_eq!(rt; sum, want);
        }
    }
}

#[test]
fn conversions_agree_with_gcc_at_all_corners(rt: HostRuntime) {
    let table = [
        (Kind::Char, 0x75bbce671d22aebc),
        (Kind::UChar, 0xdc706619068ba1d4),
        (Kind::Int, 0xe115200353cb7640),
        (Kind::UInt, 0x3d518f4353cc57d4),
        (Kind::Long, 0xac7ef3ec5d2729c4),
        (Kind::ULong, 0x20b389fb53cc57d4),
    ];
    for (kind, want) in table {
        let mut sum = 0;
        for from in [
            Kind::Char,
            Kind::UChar,
            Kind::Int,
            Kind::UInt,
            Kind::Long,
            Kind::ULong,
        ] {
            for value in corners(from) {
                sum = folded(sum, Some(Ok(convert(kind, value))));
            }
        }
        assert_eq!(rt; sum, want);
    }
}
