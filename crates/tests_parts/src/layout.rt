//! The layout of what nests deep, of which no clause speaks.
use cpc_base::{Name, Names, NoMemory};
use cpc_num::Kind;
use cpc_printer_layout::{Lexeme, Sheet, text};
use cpc_tree::token::{Keyword, Punctuator};
use std::test::Fail;

// Writes a block on the sheet, with lines in it and behind it.
fn write(sheet: &mut Sheet, x: Name) -> Result<(), NoMemory> {
    sheet.mark(Punctuator::LeftBrace)?;
    sheet.set_in();
    sheet.line();
    sheet.name(x)?;
    sheet.between(Punctuator::Equal)?;
    sheet.put(Lexeme::Integer(Kind::ULong, 20))?;
    sheet.mark(Punctuator::Minus)?;
    sheet.mark(Punctuator::Minus)?;
    sheet.set_out();
    sheet.line();
    sheet.word(Keyword::Else)
}

#[test]
fn lines_and_levels(rt: HostRuntime) -> Result<(), Fail> {
    let mut names = Names::new(rt.alloc());
    let mut sheet = Sheet::new(rt.alloc(), true);
    let x = names.intern(rt.alloc(), b"x")?;
    write(&mut sheet, x)?;
    let out = text(rt.alloc(), &names, &sheet)?;
    assert!(rt; out.as_slice() == b"{\n    x = 20ul- -\nelse\n".as_slice());
    Ok(())
}
