//! Types, declarators and parameters (C11 6.7).
ghost use Rattle.std.specs.Prelude.{◌≡◌, [], ◌∷◌, ◌++◌, Some, OnOk, map, pos};
ghost use Rattle.cpc_tree.specs.Erase.{Names, text_of, type_of, parameter_of};
ghost use Rattle.cpc_tree.specs.Tokens.{Word, Mark, Number};
ghost use Rattle.cpc_tree.specs.Syntax.{TyPointer};
ghost use Rattle.cpc_tree.specs.TypePrint.{name_row, kind_row, base_row, stars, length_kind, param_row, list_row, lone_name, params_row, declarator_row, type_row};
ghost use Rattle.cpc_tree.specs.declared.token.Keyword.TheVariants as K;
ghost use Rattle.cpc_tree.specs.declared.token.Punctuator.TheVariants as P;
ghost use Rattle.cpc_printer_layout.specs.Sheets.{lexeme_of, row_of};
ghost use Rattle.cpc_printer.specs.Types.{called_by, listed_types, before_row, behind_row, one_param_row};

use cpc_base::{Name, NoMemory};
use cpc_num::Kind;
use cpc_printer_layout::{Lexeme, Sheet};
use cpc_tree::program::{CType, Parameter};
use cpc_tree::token::{Keyword, Punctuator};

/// What is declared: a thing with a name, one without, or the parameter that needs a name and has none.
#[derive(Clone, Copy)]
pub(crate) enum Declared {
    Named(Name),
    Unnamed,
    Filler,
}

fn put_declared(out: &mut Sheet, what: Declared) -> Result<(), NoMemory>
    ensures row { OnOk result ((names : Names) → row_of names out.new ≡ row_of names out.old ++ name_row (called_by names what)) }
    ensures style { out.new.is_tight ≡ out.old.is_tight }
{
    match what {
        Declared::Named(name) => out.name(name),
        Declared::Unnamed => Ok(()),
        Declared::Filler => out.put(Lexeme::Filler),
    }
}

fn kind(out: &mut Sheet, kind: Kind) -> Result<(), NoMemory>
    ensures row { OnOk result ((names : Names) → row_of names out.new ≡ row_of names out.old ++ kind_row kind) }
    ensures style { out.new.is_tight ≡ out.old.is_tight }
{
    match kind {
        Kind::Char => out.word(Keyword::Char),
        Kind::Int => out.word(Keyword::Int),
        Kind::Long => out.word(Keyword::Long),
        Kind::UInt => out.word(Keyword::Unsigned),
        Kind::UChar => unsigned(out, Keyword::Char),
        Kind::ULong => unsigned(out, Keyword::Long),
    }
}

fn unsigned(out: &mut Sheet, word: Keyword) -> Result<(), NoMemory>
    ensures row { OnOk result ((names : Names) → row_of names out.new ≡ row_of names out.old ++ Word K.Unsigned ∷ Word word ∷ []) }
    ensures style { out.new.is_tight ≡ out.old.is_tight }
{
    out.word(Keyword::Unsigned)?;
    out.blank();
    out.word(word)
}

/// The type that a declaration of the type begins with.
pub(crate) fn base(out: &mut Sheet, of: &CType) -> Result<(), NoMemory>
    ensures row { OnOk result ((names : Names) → row_of names out.new ≡ row_of names out.old ++ base_row (type_of names of.now)) }
    ensures style { out.new.is_tight ≡ out.old.is_tight }
{
    match of {
        CType::Void => out.word(Keyword::Void),
        CType::Int(of) => kind(out, *of),
        CType::Condvar => out.word(Keyword::CpcCondvar),
        CType::Pointer(to) => base(out, to),
        CType::Code { result: given, .. } => base(out, given),
        CType::Struct(tag) => {
            out.word(Keyword::Struct)?;
            out.blank();
            out.name(*tag)
        }
        CType::Array(of, _) => base(out, of),
    }
}

/// The stars of pointers.
pub(crate) fn stars(out: &mut Sheet, of: &CType) -> Result<(), NoMemory>
    ensures row { OnOk result ((names : Names) → row_of names out.new ≡ row_of names out.old ++ stars (type_of names of.now)) }
    ensures style { out.new.is_tight ≡ out.old.is_tight }
{
    match of {
        CType::Pointer(to) => {
            stars(out, to)?;
            out.mark(Punctuator::Star)
        }
        _ => Ok(()),
    }
}

/// What stands behind the base type: the name of what is declared, with parts on both sides of it.
#[tactic(auto, using(std::proofs::lemmas::Grind::common_steps, crate::proofs::TypeRows::declarator_parts))]
#[cycle(declarators)]
pub(crate) fn declarator(out: &mut Sheet, what: Declared, of: &CType) -> Result<(), NoMemory>
    ensures row { OnOk result ((names : Names) → row_of names out.new ≡ row_of names out.old ++ declarator_row out.old.is_tight (called_by names what) (type_of names of.now)) }
    ensures style { out.new.is_tight ≡ out.old.is_tight }
{
    before(out, of)?;
    put_declared(out, what)?;
    behind(out, of)
}

/// What a declarator has before its name.
fn before(out: &mut Sheet, of: &CType) -> Result<(), NoMemory>
    ensures row { OnOk result ((names : Names) → row_of names out.new ≡ row_of names out.old ++ before_row (type_of names of.now)) }
    ensures style { out.new.is_tight ≡ out.old.is_tight }
{
    match of {
        CType::Array(of, _) => stars(out, of),
        CType::Code { result: given, .. } => {
            stars(out, given)?;
            out.mark(Punctuator::LeftParen)?;
            out.mark(Punctuator::Star)
        }
        _ => stars(out, of),
    }
}

/// What a declarator has behind its name.
#[cycle(declarators)]
fn behind(out: &mut Sheet, of: &CType) -> Result<(), NoMemory>
    ensures row { OnOk result ((names : Names) → row_of names out.new ≡ row_of names out.old ++ behind_row out.old.is_tight (type_of names of.now)) }
    ensures style { out.new.is_tight ≡ out.old.is_tight }
{
    match of {
        CType::Array(_, length) => array_length(out, *length),
        CType::Code { parameters, .. } => {
            out.mark(Punctuator::RightParen)?;
            out.mark(Punctuator::LeftParen)?;
            parameter_types(out, parameters)?;
            out.mark(Punctuator::RightParen)
        }
        _ => Ok(()),
    }
}

/// The length of an array in its brackets.
fn array_length(out: &mut Sheet, length: u64) -> Result<(), NoMemory>
    ensures row { OnOk result ((names : Names) → row_of names out.new ≡ row_of names out.old ++ Mark P.LeftBracket ∷ Number (length_kind length) (pos length) ∷ Mark P.RightBracket ∷ []) }
    ensures style { out.new.is_tight ≡ out.old.is_tight }
{
    out.mark(Punctuator::LeftBracket)?;
    out.put(length_literal(length))?;
    out.mark(Punctuator::RightBracket)
}

/// The literal of an array's length, of the least kind that has it.
fn length_literal(length: u64) -> Lexeme
    ensures { (names : Names) → lexeme_of names result ≡ Number (length_kind length) (pos length) }
{
    let value = i128::from(length);
    if length < 2147483648 {
        Lexeme::Integer(Kind::Int, value)
    } else if length < 9223372036854775808 {
        Lexeme::Integer(Kind::Long, value)
    } else {
        Lexeme::Integer(Kind::ULong, value)
    }
}

/// The parameters of a type.
#[tactic(auto, using(std::proofs::lemmas::Grind::common_steps, crate::proofs::TypeRows::list_none, crate::proofs::TypeRows::list_some, crate::proofs::TypeRows::rest_more, crate::proofs::TypeRows::rest_end))]
#[cycle(declarators)]
fn parameter_types(out: &mut Sheet, list: &[CType]) -> Result<(), NoMemory>
    ensures row { OnOk result ((names : Names) → row_of names out.new ≡ row_of names out.old ++ list_row out.old.is_tight (listed_types names list.now)) }
    ensures style { out.new.is_tight ≡ out.old.is_tight }
{
    match list.split_first() {
        None => out.word(Keyword::Void),
        Some((first, rest)) => {
            parameter(out, lone(first, rest), first)?;
            for of in rest {
                out.mark(Punctuator::Comma)?;
                out.blank();
                parameter(out, Declared::Unnamed, of)?;
            }
            Ok(())
        }
    }
}

/// The name of the first parameter of a type. One alone of type void has one, since `(void)` has no parameter.
fn lone(first: &CType, rest: &[CType]) -> Declared
    ensures { (names : Names) → called_by names result ≡ lone_name (type_of names first.now) (listed_types names rest.now) }
{
    match first {
        CType::Void => {
            if rest.is_empty() {
                Declared::Filler
            } else {
                Declared::Unnamed
            }
        }
        _ => Declared::Unnamed,
    }
}

/// A parameter. A type has none that is an array, and of such nothing is put.
#[tactic(auto, using(std::proofs::lemmas::Grind::common_steps, crate::proofs::TypeRows::param_pointer, crate::proofs::TypeRows::param_bracketed, crate::proofs::TypeRows::param_array, crate::proofs::TypeRows::param_other))]
#[cycle(declarators)]
fn parameter(out: &mut Sheet, what: Declared, of: &CType) -> Result<(), NoMemory>
    ensures row { OnOk result ((names : Names) → row_of names out.new ≡ row_of names out.old ++ param_row out.old.is_tight (called_by names what) (type_of names of.now)) }
    ensures style { out.new.is_tight ≡ out.old.is_tight }
{
    match of {
        CType::Array(_, _) => Ok(()),
        CType::Pointer(to) => {
            if out.is_tight {
                bracketed(out, what, to)
            } else {
                starred(out, what, to)
            }
        }
        _ => {
            base(out, of)?;
            gap(out, what, of);
            declarator(out, what, of)
        }
    }
}

/// A parameter with its outermost star.
fn starred(out: &mut Sheet, what: Declared, to: &CType) -> Result<(), NoMemory>
    ensures row { OnOk result ((names : Names) → row_of names out.new ≡ row_of names out.old ++ (base_row (type_of names to.now) ++ (stars (TyPointer (type_of names to.now)) ++ name_row (called_by names what)))) }
    ensures style { out.new.is_tight ≡ out.old.is_tight }
{
    base(out, to)?;
    out.blank();
    stars(out, to)?;
    out.mark(Punctuator::Star)?;
    put_declared(out, what)
}

/// A parameter with brackets in place of its outermost star.
fn bracketed(out: &mut Sheet, what: Declared, to: &CType) -> Result<(), NoMemory>
    ensures row { OnOk result ((names : Names) → row_of names out.new ≡ row_of names out.old ++ (base_row (type_of names to.now) ++ (stars (type_of names to.now) ++ (name_row (called_by names what) ++ Mark P.LeftBracket ∷ Mark P.RightBracket ∷ [])))) }
    ensures style { out.new.is_tight ≡ out.old.is_tight }
{
    base(out, to)?;
    gap(out, what, to);
    stars(out, to)?;
    put_declared(out, what)?;
    out.mark(Punctuator::LeftBracket)?;
    out.mark(Punctuator::RightBracket)
}

/// A blank before what is declared, if there is anything.
pub(crate) fn gap(out: &mut Sheet, what: Declared, of: &CType)
    ensures row { (names : Names) → row_of names out.new ≡ row_of names out.old }
    ensures style { out.new.is_tight ≡ out.old.is_tight }
{
    match (what, of) {
        (Declared::Unnamed, CType::Void | CType::Int(_) | CType::Condvar | CType::Struct(_)) => {}
        _ => out.blank(),
    }
}

/// The parameters of a function.
#[tactic(auto, using(std::proofs::lemmas::Grind::common_steps, crate::proofs::TypeRows::params_some, crate::proofs::TypeRows::params_end, crate::proofs::TypeRows::params_more))]
pub(crate) fn parameters(out: &mut Sheet, list: &[Parameter]) -> Result<(), NoMemory>
    ensures row { OnOk result ((names : Names) → row_of names out.new ≡ row_of names out.old ++ params_row out.old.is_tight (map (parameter_of names) list.now)) }
    ensures style { out.new.is_tight ≡ out.old.is_tight }
{
    match list.split_first() {
        None => out.word(Keyword::Void),
        Some((first, rest)) => {
            named_parameter(out, first)?;
            for next in rest {
                out.mark(Punctuator::Comma)?;
                out.blank();
                named_parameter(out, next)?;
            }
            Ok(())
        }
    }
}

/// A parameter of a function.
fn named_parameter(out: &mut Sheet, given: &Parameter) -> Result<(), NoMemory>
    ensures row { OnOk result ((names : Names) → row_of names out.new ≡ row_of names out.old ++ one_param_row out.old.is_tight (parameter_of names given.now)) }
    ensures style { out.new.is_tight ≡ out.old.is_tight }
{
    let what = match given.word {
        Some(word) => Declared::Named(word.name),
        None => Declared::Unnamed,
    };
    parameter(out, what, &given.of)
}

/// A variable behind its base type.
pub(crate) fn variable(out: &mut Sheet, name: Name, of: &CType) -> Result<(), NoMemory>
    ensures row { OnOk result ((names : Names) → row_of names out.new ≡ row_of names out.old ++ declarator_row out.old.is_tight (Some (text_of names name)) (type_of names of.now)) }
    ensures style { out.new.is_tight ≡ out.old.is_tight }
{
    out.blank();
    declarator(out, Declared::Named(name), of)
}

/// A type without a name.
pub(crate) fn type_name(out: &mut Sheet, of: &CType) -> Result<(), NoMemory>
    ensures row { OnOk result ((names : Names) → row_of names out.new ≡ row_of names out.old ++ type_row out.old.is_tight (type_of names of.now)) }
    ensures style { out.new.is_tight ≡ out.old.is_tight }
{
    base(out, of)?;
    gap(out, Declared::Unnamed, of);
    declarator(out, Declared::Unnamed, of)
}
