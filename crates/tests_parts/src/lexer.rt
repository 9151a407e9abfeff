//! Rows with answers from the language's text; an answer names each token behind its place.
use cpc_base::{Dialect, Name, Names, Place, Stop};
use cpc_lexer::{LexFault, end_of_text, tokens};
use cpc_num::Kind;
use cpc_tree::token::{Token, TokenKind};
use std::alloc::{AllocError, Global};
use std::process::Abort;
use std::test::Fail;

/// A fault stands at the first byte of the token, and the first is told.
static FAULTS: [(&[u8], &str); 18] = [
    (b"", ""),
    (b" \t\r\n", ""),
    (
        b"int main(void){ int x; x = 99999999999999999999; return 0; }",
        "1:28 fault 3 literal too wide",
    ),
    (b"/* M", "1:1 fault 2 unclosed"),
    (b"x\n  @", "2:3 fault 1 stray byte"),
    (b"x;\r\n\t#y", "2:2 fault 1 stray byte"),
    (b"a\\b", "1:2 fault 1 stray byte"),
    (b"$", "1:1 fault 1 stray byte"),
    (b"`", "1:1 fault 1 stray byte"),
    (b"\x7f", "1:1 fault 1 stray byte"),
    (b"\x80", "1:1 fault 1 stray byte"),
    (b"a\xc3\xa9", "1:2 fault 1 stray byte"),
    (b"\x00", "1:1 fault 1 stray byte"),
    (b"\x0b", "1:1 fault 1 stray byte"),
    (b"\x0c", "1:1 fault 1 stray byte"),
    (b"@ 'ab", "1:1 fault 1 stray byte"),
    (b"0x @", "1:1 fault 5 malformed"),
    (b"08 99999999999999999999 /*", "1:1 fault 5 malformed"),
];

/// Keywords, names, and names of 63 and 64 bytes.
static WORDS: [(&[u8], &str); 18] = [
    (b"x", "1:1 name x"),
    (b"_", "1:1 name _"),
    (b"a1_B", "1:1 name a1_B"),
    (b"int", "1:1 int"),
    (
        b"ints int_ Int",
        "1:1 name ints 1:6 name int_ 1:11 name Int",
    ),
    (
        b"auto break case char const",
        "1:1 auto 1:6 break 1:12 case 1:17 char 1:22 const",
    ),
    (
        b"continue default do double",
        "1:1 continue 1:10 default 1:18 do 1:21 double",
    ),
    (
        b"else enum extern float for",
        "1:1 else 1:6 enum 1:11 extern 1:18 float 1:24 for",
    ),
    (
        b"goto if int long register",
        "1:1 goto 1:6 if 1:9 int 1:13 long 1:18 register",
    ),
    (
        b"return short signed sizeof",
        "1:1 return 1:8 short 1:14 signed 1:21 sizeof",
    ),
    (
        b"static struct switch typedef",
        "1:1 static 1:8 struct 1:15 switch 1:22 typedef",
    ),
    (
        b"union unsigned void volatile",
        "1:1 union 1:7 unsigned 1:16 void 1:21 volatile",
    ),
    (
        b"while inline restrict cps",
        "1:1 while 1:7 inline 1:14 restrict 1:23 cps",
    ),
    (b"detached cpc_spawn", "1:1 detached 1:10 cpc_spawn"),
    (
        b"cpc_detached cpc_condvar",
        "1:1 cpc_detached 1:14 cpc_condvar",
    ),
    (b"cpc_yield main", "1:1 name cpc_yield 1:11 name main"),
    (
        b"aaaaaaaaaaaaaaaaaaaaaaaaaaaaaaaaaaaaaaaaaaaaaaaaaaaaaaaaaaaaaaa;",
        "1:1 name aaaaaaaaaaaaaaaaaaaaaaaaaaaaaaaaaaaaaaaaaaaaaaaaaaaaaaaaaaaaaaa 1:64 ;",
    ),
    (
        b" aaaaaaaaaaaaaaaaaaaaaaaaaaaaaaaaaaaaaaaaaaaaaaaaaaaaaaaaaaaaaaaa",
        "1:2 fault 4 name too long",
    ),
];

/// Integers that are well formed, with the kind of their value.
static INTEGERS: [(&[u8], &str); 30] = [
    (b"0", "1:1 Int 0"),
    (b"7", "1:1 Int 7"),
    (b"2147483647", "1:1 Int 2147483647"),
    (b"2147483648", "1:1 Long 2147483648"),
    (b"4294967295", "1:1 Long 4294967295"),
    (b"9223372036854775807", "1:1 Long 9223372036854775807"),
    (b"18446744073709551615u", "1:1 ULong 18446744073709551615"),
    (b"0x7fffffff", "1:1 Int 2147483647"),
    (b"0x80000000", "1:1 UInt 2147483648"),
    (b"0xffffffff", "1:1 UInt 4294967295"),
    (b"0x100000000", "1:1 Long 4294967296"),
    (b"0X7FFFFFFFFFFFFFFF", "1:1 Long 9223372036854775807"),
    (b"0x8000000000000000", "1:1 ULong 9223372036854775808"),
    (b"0xffffffffffffffff", "1:1 ULong 18446744073709551615"),
    (b"0x00000000000000001aF", "1:1 Int 431"),
    (b"00", "1:1 Int 0"),
    (b"010", "1:1 Int 8"),
    (b"017777777777", "1:1 Int 2147483647"),
    (b"020000000000", "1:1 UInt 2147483648"),
    (b"040000000000", "1:1 Long 4294967296"),
    (b"01777777777777777777777", "1:1 ULong 18446744073709551615"),
    (b"4294967295u", "1:1 UInt 4294967295"),
    (b"4294967296u", "1:1 ULong 4294967296"),
    (b"1U 2l 3L", "1:1 UInt 1 1:4 Long 2 1:7 Long 3"),
    (
        b"1ul 2uL 3Ul 4UL",
        "1:1 ULong 1 1:5 ULong 2 1:9 ULong 3 1:13 ULong 4",
    ),
    (
        b"1lu 2lU 3Lu 4LU",
        "1:1 ULong 1 1:5 ULong 2 1:9 ULong 3 1:13 ULong 4",
    ),
    (b"9223372036854775808ul", "1:1 ULong 9223372036854775808"),
    (b"0x8000000000000000l", "1:1 ULong 9223372036854775808"),
    (b"0xfu 010l", "1:1 UInt 15 1:6 Long 8"),
    (b"1.5", "1:1 Int 1 1:2 . 1:3 Int 5"),
];

/// Integers that are not: the leftmost byte that shows a fault decides.
static BAD_INTEGERS: [(&[u8], &str); 22] = [
    (b"9223372036854775808", "1:1 fault 3 literal too wide"),
    (b"18446744073709551615", "1:1 fault 3 literal too wide"),
    (b"18446744073709551616u", "1:1 fault 3 literal too wide"),
    (b"0x10000000000000000", "1:1 fault 3 literal too wide"),
    (b"02000000000000000000000", "1:1 fault 3 literal too wide"),
    (b"9223372036854775808l", "1:1 fault 3 literal too wide"),
    (b"018", "1:1 fault 5 malformed"),
    (b"08", "1:1 fault 5 malformed"),
    (b"0x", "1:1 fault 5 malformed"),
    (b"0xu", "1:1 fault 5 malformed"),
    (b"0xg", "1:1 fault 5 malformed"),
    (b"1e5", "1:1 fault 5 malformed"),
    (b"1_000", "1:1 fault 5 malformed"),
    (b"1uu", "1:1 fault 5 malformed"),
    (b"1ll", "1:1 fault 5 malformed"),
    (b"1ull", "1:1 fault 5 malformed"),
    (b"1lul", "1:1 fault 5 malformed"),
    (b"99999999999999999999z", "1:1 fault 3 literal too wide"),
    (b"9223372036854775808z", "1:1 fault 5 malformed"),
    (b"18446744073709551616z", "1:1 fault 3 literal too wide"),
    (b"08999999999999999999999", "1:1 fault 5 malformed"),
    (b"0x1ffffffffffffffffg", "1:1 fault 3 literal too wide"),
];

/// Characters and their escapes.
static CHARACTERS: [(&[u8], &str); 9] = [
    (b"'a'", "1:1 '97'"),
    (b"' ' '~' '\"'", "1:1 '32' 1:5 '126' 1:9 '34'"),
    (b"'\\a' '\\b' '\\t'", "1:1 '7' 1:6 '8' 1:11 '9'"),
    (
        b"'\\n' '\\v' '\\f' '\\r'",
        "1:1 '10' 1:6 '11' 1:11 '12' 1:16 '13'",
    ),
    (
        b"'\\\\' '\\'' '\\\"' '\\?'",
        "1:1 '92' 1:6 '39' 1:11 '34' 1:16 '63'",
    ),
    (b"'\\0' '\\12' '\\123'", "1:1 '0' 1:6 '10' 1:12 '83'"),
    (b"'\\x4' '\\x41' '\\x0041'", "1:1 '4' 1:7 '65' 1:14 '65'"),
    (b"'\\177' '\\200' '\\377'", "1:1 '127' 1:8 '-128' 1:15 '-1'"),
    (b"'\\xFf'", "1:1 '-1'"),
];

/// Characters that are none.
static BAD_CHARACTERS: [(&[u8], &str); 20] = [
    (b"'\\400'", "1:1 fault 5 malformed"),
    (b"'\\x100'", "1:1 fault 5 malformed"),
    (b"'\\1234'", "1:1 fault 5 malformed"),
    (b"'\\8'", "1:1 fault 5 malformed"),
    (b"'\\q'", "1:1 fault 5 malformed"),
    (b"'\\x'", "1:1 fault 5 malformed"),
    (b"'\\xg'", "1:1 fault 5 malformed"),
    (b"''", "1:1 fault 5 malformed"),
    (b"'ab", "1:1 fault 5 malformed"),
    (b"'ab'", "1:1 fault 5 malformed"),
    (b"'a\\n'", "1:1 fault 5 malformed"),
    (b"'\xe9'", "1:1 fault 5 malformed"),
    (b"'\x7f'", "1:1 fault 5 malformed"),
    (b"'\t'", "1:1 fault 5 malformed"),
    (b"'", "1:1 fault 2 unclosed"),
    (b"'a", "1:1 fault 2 unclosed"),
    (b"'\\", "1:1 fault 2 unclosed"),
    (b"'\\x", "1:1 fault 2 unclosed"),
    (b"'\n'", "1:1 fault 2 unclosed"),
    (b"'a\n'", "1:1 fault 2 unclosed"),
];

/// Strings, by their bytes.
static STRINGS: [(&[u8], &str); 18] = [
    (b"\"\"", "1:1 \"\""),
    (b"\"ab\"c", "1:1 \"97,98,\" 1:5 name c"),
    (b"\"a'b\"", "1:1 \"97,39,98,\""),
    (b"\"\x80\xff\"", "1:1 \"128,255,\""),
    (
        b"\"\\a\\b\\t\\n\\v\\f\\r\\\\\\'\\\"\\?\"",
        "1:1 \"7,8,9,10,11,12,13,92,39,34,63,\"",
    ),
    (b"\"\\0\\18\\1234\"", "1:1 \"0,1,56,83,52,\""),
    (b"\"\\x1g\\xAb\"", "1:1 \"1,103,171,\""),
    (b"\"\\377\\xff\"", "1:1 \"255,255,\""),
    (b"\"/* x */\" //y\n", "1:1 \"47,42,32,120,32,42,47,\""),
    (b"\"\\400\"", "1:1 fault 5 malformed"),
    (b"x \"\\q\"", "1:3 fault 5 malformed"),
    (b"\"a\tb\"", "1:1 fault 5 malformed"),
    (b"\"a\rb\"", "1:1 fault 5 malformed"),
    (b"\"\x7f\"", "1:1 fault 5 malformed"),
    (b"\"a", "1:1 fault 2 unclosed"),
    (b"\"a\\\"", "1:1 fault 2 unclosed"),
    (b"\"a\nb\"", "1:1 fault 2 unclosed"),
    (b"\"a\\\nb\"", "1:1 fault 2 unclosed"),
];

/// Comments read as one blank.
static COMMENTS: [(&[u8], &str); 11] = [
    (b"a/* b */c", "1:1 name a 1:9 name c"),
    (b"/**/x /***/y /*/*/z", "1:5 name x 1:12 name y 1:19 name z"),
    (b"/* 'a\n \"b\n*/ x", "3:4 name x"),
    (b"a // b\nc", "1:1 name a 2:1 name c"),
    (b"// /*\nx // */\n", "2:1 name x"),
    (b"/*/", "1:1 fault 2 unclosed"),
    (b"a\n/* * /", "2:1 fault 2 unclosed"),
    (b"a // b", "1:3 fault 2 unclosed"),
    (b"//", "1:1 fault 2 unclosed"),
    (b"a / *p", "1:1 name a 1:3 / 1:5 * 1:6 name p"),
    (b"a /*p", "1:3 fault 2 unclosed"),
];

/// The longest mark is taken.
static MARKS: [(&[u8], &str); 14] = [
    (b"(){}[]", "1:1 ( 1:2 ) 1:3 { 1:4 } 1:5 [ 1:6 ]"),
    (b";,:?.~", "1:1 ; 1:2 , 1:3 : 1:4 ? 1:5 . 1:6 ~"),
    (b"+ ++ +=", "1:1 + 1:3 ++ 1:6 +="),
    (b"- -- -= ->", "1:1 - 1:3 -- 1:6 -= 1:9 ->"),
    (
        b"* *= / /= % %= ^ ^=",
        "1:1 * 1:3 *= 1:6 / 1:8 /= 1:11 % 1:13 %= 1:16 ^ 1:18 ^=",
    ),
    (
        b"& && &= | || |=",
        "1:1 & 1:3 && 1:6 &= 1:9 | 1:11 || 1:14 |=",
    ),
    (b"! != = ==", "1:1 ! 1:3 != 1:6 = 1:8 =="),
    (b"< <= << <<=", "1:1 < 1:3 <= 1:6 << 1:9 <<="),
    (b"> >= >> >>=", "1:1 > 1:3 >= 1:6 >> 1:9 >>="),
    (b"a+++b", "1:1 name a 1:2 ++ 1:4 + 1:5 name b"),
    (b"a<<=b", "1:1 name a 1:2 <<= 1:5 name b"),
    (b"x->y", "1:1 name x 1:2 -> 1:4 name y"),
    (b"x-->y", "1:1 name x 1:2 -- 1:4 > 1:5 name y"),
    (
        b"===&&&|||...",
        "1:1 == 1:3 = 1:4 && 1:6 & 1:7 || 1:9 | 1:10 . 1:11 . 1:12 .",
    ),
];

fn kind_name(kind: Kind) -> &'static str {
    match kind {
        Kind::Char => "Char",
        Kind::UChar => "UChar",
        Kind::Int => "Int",
        Kind::UInt => "UInt",
        Kind::Long => "Long",
        Kind::ULong => "ULong",
    }
}

fn push_bytes(out: &mut Vec<u8>, bytes: &[u8]) -> Result<(), AllocError> {
    out.extend_from_slice(bytes)
}

fn push_text(out: &mut Vec<u8>, text: String) -> Result<(), AllocError> {
    out.extend_from_slice(text.as_bytes())
}

fn push_string(alloc: Global, out: &mut Vec<u8>, bytes: &[u8]) -> Result<(), AllocError> {
    push_bytes(out, b"\"")?;
    for b in bytes {
        push_text(out, format!(in alloc; "{b},")?)?;
    }
    push_bytes(out, b"\"")
}

fn push_kind(
    alloc: Global,
    out: &mut Vec<u8>,
    kind: &TokenKind,
    names: &Names,
) -> Result<(), AllocError> {
    match kind {
        TokenKind::Keyword(keyword) => push_bytes(out, keyword.spelling()),
        TokenKind::Punctuator(mark) => push_bytes(out, mark.spelling()),
        TokenKind::Name(name) => {
            push_bytes(out, b"name ")?;
            match names.text(*name) {
                Some(text) => push_bytes(out, text),
                None => push_bytes(out, b"?"),
            }
        }
        TokenKind::Integer(kind, value) => {
            let kind = kind_name(*kind);
            push_text(out, format!(in alloc; "{kind} {value}")?)
        }
        TokenKind::Character(value) => push_text(out, format!(in alloc; "'{value}'")?),
        TokenKind::Text(bytes) => push_string(alloc, out, bytes.as_slice()),
    }
}

fn push_tokens(
    alloc: Global,
    out: &mut Vec<u8>,
    list: &[Token],
    names: &Names,
) -> Result<(), AllocError> {
    for (i, token) in list.iter().enumerate() {
        if i > 0 {
            push_bytes(out, b" ")?;
        }
        let line = token.place.line;
        let column = token.place.column;
        push_text(out, format!(in alloc; "{line}:{column} ")?)?;
        push_kind(alloc, out, &token.kind, names)?;
    }
    Ok(())
}

fn fault_text(alloc: Global, fault: LexFault) -> Result<String, AllocError> {
    let line = fault.place.line;
    let column = fault.place.column;
    let number = fault.number;
    let name = fault.name();
    format!(in alloc; "{line}:{column} fault {number} {name}")
}

fn told(alloc: Global, text: &[u8], dialect: Dialect) -> Result<Vec<u8>, AllocError> {
    let mut names = Names::new(alloc);
    let mut out = Vec::new(alloc);
    match tokens(alloc, text, dialect, &mut names) {
        Ok(list) => push_tokens(alloc, &mut out, list.as_slice(), &names)?,
        Err(Stop::Memory) => return Err(AllocError),
        Err(Stop::Fault(fault)) => push_text(&mut out, fault_text(alloc, fault)?)?,
    }
    Ok(out)
}

fn check(rt: &impl Abort, alloc: Global, text: &[u8], wanted: &str) -> Result<(), AllocError> {
    let found = told(alloc, text, Dialect::Cpc)?;
    assert!(rt;
        found.as_slice() == wanted.as_bytes(),
        "{text:?} gives {found:?}, and not {wanted}"
    );
    Ok(())
}

fn check_all(rt: &impl Abort, alloc: Global, rows: &[(&[u8], &str)]) -> Result<(), Fail> {
    for (text, wanted) in rows {
        check(rt, alloc, text, wanted)?;
    }
    Ok(())
}

#[test]
fn texts_and_their_tokens(rt: HostRuntime) -> Result<(), Fail> {
    let tables: [&[(&[u8], &str)]; 9] = [
        &FAULTS,
        &WORDS,
        &INTEGERS,
        &BAD_INTEGERS,
        &CHARACTERS,
        &BAD_CHARACTERS,
        &STRINGS,
        &COMMENTS,
        &MARKS,
    ];
    for rows in tables {
        check_all(&rt, rt.alloc(), rows)?;
    }
    Ok(())
}

fn repeated(alloc: Global, unit: &[u8], count: usize) -> Result<Vec<u8>, AllocError> {
    let mut text = Vec::new(alloc);
    for _ in 0..count {
        text.extend_from_slice(unit)?;
    }
    Ok(text)
}

/// A name of a length, and whether it is permitted.
static NAMES: [(usize, Dialect, bool); 6] = [
    (63, Dialect::Cpc, true),
    (64, Dialect::Cpc, false),
    (64, Dialect::Event, true),
    (95, Dialect::Event, true),
    (96, Dialect::Event, false),
    (262144, Dialect::Event, false),
];

#[test]
fn name_limits(rt: HostRuntime) -> Result<(), Fail> {
    for (length, dialect, permitted) in NAMES {
        let text = repeated(rt.alloc(), b"q", length)?;
        let found = told(rt.alloc(), text.as_slice(), dialect)?;
        if permitted {
            assert!(rt; found.as_slice().starts_with(b"1:1 name q"), "{length}");
        } else {
            assert!(rt;
                found.as_slice() == b"1:1 fault 4 name too long".as_slice(),
                "{length}"
            );
        }
    }
    Ok(())
}

/// The texts of a table, each with a blank behind it.
fn table_text(alloc: Global, names: &Names) -> Result<Vec<u8>, AllocError> {
    let mut out = Vec::new(alloc);
    for i in 0..8 {
        if let Some(text) = names.text(Name(i)) {
            push_bytes(&mut out, text)?;
            push_bytes(&mut out, b" ")?;
        }
    }
    Ok(out)
}

#[test]
fn names_in_order_of_first_use(rt: HostRuntime) -> Result<(), Fail> {
    let mut names = Names::new(rt.alloc());
    let first = tokens(rt.alloc(), b"b a int b c", Dialect::Cpc, &mut names);
    assert!(rt; first.is_ok());
    let table = table_text(rt.alloc(), &names)?;
    assert!(rt; table.as_slice() == b"b a c ".as_slice());
    let second = tokens(rt.alloc(), b"d a e @ f", Dialect::Cpc, &mut names);
    assert!(rt; second.is_err());
    let table = table_text(rt.alloc(), &names)?;
    assert!(rt; table.as_slice() == b"b a c d e ".as_slice());
    Ok(())
}

/// A front, what is repeated behind it and how often, a back; how many tokens, or 0 for a fault; the number of the fault.
static HOSTILE: [(&[u8], &[u8], usize, &[u8], usize, u8); 13] = [
    (b"/*", b"*", 262140, b"*/", 0, 0),
    (b"/*", b"/", 262142, b"", 0, 2),
    (b"//", b"x", 262141, b"\n", 0, 0),
    (b"\"", b"x", 262142, b"\"", 1, 0),
    (b"\"", b"\\", 262143, b"", 0, 2),
    (b"\"\\x", b"0", 262140, b"\"", 1, 0),
    (b"", b"<<=", 87381, b"", 87381, 0),
    (b"", b"+", 262144, b"", 131072, 0),
    (b"", b"\n", 262144, b"", 0, 0),
    (b"", b"z", 262144, b"", 0, 4),
    (b"", b"9", 262144, b"", 0, 3),
    (b"", b"0", 262144, b"", 1, 0),
    (b"", b"a ", 131072, b"", 131072, 0),
];

#[test]
fn long_texts(rt: HostRuntime) -> Result<(), Fail> {
    for (front, unit, count, back, wanted, number) in HOSTILE {
        let mut text = front.to_vec(rt.alloc())?;
        for _ in 0..count {
            text.extend_from_slice(unit)?;
        }
        text.extend_from_slice(back)?;
        let mut names = Names::new(rt.alloc());
        match tokens(rt.alloc(), text.as_slice(), Dialect::Cpc, &mut names) {
            Ok(list) => {
                assert_eq!(rt; number, 0);
                assert_eq!(rt; list.len(), wanted);
            }
            Err(Stop::Fault(fault)) => assert_eq!(rt; fault.number, number),
            Err(Stop::Memory) => assert!(rt; false, "memory"),
        }
    }
    Ok(())
}

fn ends_at(text: &[u8], line: u64, column: u64) -> bool {
    let end = end_of_text(text);
    end.line == line && end.column == column
}

#[test]
fn end_of_texts(rt: HostRuntime) {
    assert!(rt; ends_at(b"", 1, 1));
    assert!(rt; ends_at(b"ab\xc3\xa9\t", 1, 6));
    assert!(rt; ends_at(b"a\r\n\n  b", 3, 4));
}
