//! Texts as deep as they may be, and those that are deeper.
use crate::answers::{Answer, found};
use cpc_base::Dialect;
use std::alloc::{AllocError, Global};
use std::test::Fail;

/// A front, what is repeated behind it and how often, a middle, what is repeated behind it as often, a back, and the
/// column at which the whole is too deep, or 0.
static DEEP: [(&str, &str, usize, &str, &str, &str, u64); 22] = [
    ("int ", "*", 256, "x", "", ";", 0),
    ("int ", "*", 257, "x", "", ";", 261),
    ("int ", "*", 257, "", "", "", 261),
    ("int f(int ", "*", 256, "x", "", ");", 0),
    ("int f(int ", "*", 257, "x", "", ");", 267),
    // the stars of a local stand in a body and in a declaration
    ("void f(void){int ", "*", 254, "x", "", ";}", 0),
    ("void f(void){int ", "*", 255, "x", "", ";}", 272),
    // a body, an assignment and 253 operators, each above all before it, and a name
    ("void f(void){x=a", "+a", 253, "", "", ";}", 0),
    ("void f(void){x=a", "+a", 254, "", "", ";}", 523),
    ("void f(void){x=a", "+a", 300, "", "", ";}", 523),
    // a body and the statements in it, an expression within the last
    ("void f(void){", "if(a)", 254, "", "", ";}", 0),
    ("void f(void){", "if(a)", 255, "", "", ";}", 1284),
    ("void f(void){", "if(a);else ", 254, "", "", ";}", 0),
    ("void f(void){", "if(a);else ", 255, "", "", ";}", 2808),
    // a body, a statement, and parentheses round a name
    ("void f(void){x=", "(", 253, "a", ")", ";}", 0),
    ("void f(void){x=", "(", 254, "a", ")", ";}", 269),
    // a call taken apart counts nothing, but with an operator behind it
    ("void f(void){x=f(", "!", 253, "a)", "", ";}", 0),
    ("void f(void){x=f(", "!", 253, "a)", "", "+1;}", 273),
    ("void f(void){x=f(", "!", 254, "a)", "", ";}", 271),
    ("void f(void){f(", "!", 253, "a)", "", "=1;}", 271),
    ("void f(void){", "{", 255, "", "}", "}", 0),
    ("void f(void){", "{", 256, "", "}", "}", 269),
];

fn repeated(
    alloc: Global,
    front: &str,
    (open, close): (&str, &str),
    count: usize,
    (middle, back): (&str, &str),
) -> Result<Vec<u8>, AllocError> {
    let mut text = front.as_bytes().to_vec(alloc)?;
    for _ in 0..count {
        text.extend_from_slice(open.as_bytes())?;
    }
    text.extend_from_slice(middle.as_bytes())?;
    for _ in 0..count {
        text.extend_from_slice(close.as_bytes())?;
    }
    text.extend_from_slice(back.as_bytes())?;
    Ok(text)
}

// Refused at this column as too deep, or a program where it is 0.
fn deep(column: u64) -> Answer {
    if column == 0 {
        Answer::Program
    } else {
        Answer::Refused(column, 2)
    }
}

#[test]
fn deep_texts(rt: HostRuntime) -> Result<(), Fail> {
    for (front, open, count, middle, close, back, column) in DEEP {
        let text = repeated(rt.alloc(), front, (open, close), count, (middle, back))?;
        let found = found(rt.alloc(), text.as_slice(), Dialect::Cpc);
        assert!(rt;
            found == deep(column),
            "{front} {open} {count} {middle} {back}"
        );
    }
    // in the other dialect twice as much is permitted
    for (count, column) in [(512, 0), (513, 517)] {
        let text = repeated(rt.alloc(), "int ", ("*", ""), count, ("x;", ""))?;
        let found = found(rt.alloc(), text.as_slice(), Dialect::Event);
        assert!(rt; found == deep(column), "{count}");
    }
    Ok(())
}
