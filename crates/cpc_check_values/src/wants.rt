//! What calls want of their arguments.
ghost use Rattle.std.specs.Prelude.{◌≡◌, IfOk, length, map, option_map, slice_get};
ghost use Rattle.cpc_tree.specs.Erase.{Names, type_of};
ghost use Rattle.cpc_tree.specs.PrimitiveNames.{primitive_of};
ghost use Rattle.cpc_check_rules.specs.Calls as C;
ghost use Rattle.cpc_shapes.specs.Listed.{optional_of};
ghost use Rattle.cpc_check_values.specs.Wants.{want_of, front_wants, primitive_wants, section_wants, wants_of, callee_of, wants_count};

use cpc_base::NoMemory;
use cpc_num::Kind;
use cpc_shapes::copy_of;
use cpc_tree::primitive::Primitive;
use cpc_tree::program::{CType, Mode, Parameter};
use std::alloc::Global;

/// What an argument must be.
#[derive(Clone, Copy)]
pub(crate) enum Wanted<'s> {
    /// Any integer.
    AnyInteger,
    /// Assignable to this type.
    Of(&'s CType),
    /// Assignable to `int`.
    Int,
    /// Assignable to `long`.
    Long,
    /// A condition.
    Condvar,
    /// Assignable to `void *`.
    Pointer,
    /// The name of a function that takes a `void *` and an `int`, and gives nothing.
    Callback,
    /// A string.
    Text,
    /// The name of the function of a section.
    Section,
    /// Anything.
    Anything,
}

/// What is called.
#[derive(Drop)]
pub(crate) enum Callee<'s> {
    /// A function by its name.
    Function {
        mode: Mode,
        result: &'s CType,
        parameters: &'s [Parameter],
    },
    /// A primitive and how many arguments are given; of `rt_detach` the parameters of the section's function, where it is one.
    Primitive {
        primitive: Primitive,
        section: Option<&'s [Parameter]>,
        given: usize,
    },
    /// The function of a section, which gives an `int`.
    Section {
        parameters: &'s [Parameter],
    },
    /// What a pointer points to.
    Code {
        result: Box<CType>,
        parameters: Vec<CType>,
    },
    /// A name that is not declared.
    Unknown,
    /// No function.
    NoCode,
}

// One of a row.
fn one_of<'s>(row: &[Wanted<'s>], place: usize) -> Option<Wanted<'s>>
    ensures { result ≡ slice_get row.now place }
{
    row.get(place).copied()
}

// What an argument of a primitive must be, in front of those of a section's function.
fn front_want(primitive: Primitive, place: usize) -> Option<Wanted<'static>>
    ensures { (names : Names) → option_map (want_of names) result ≡ slice_get (front_wants (primitive_of primitive)) place }
{
    use Wanted::{AnyInteger, Callback, Condvar, Int, Long, Pointer, Section, Text};
    match primitive {
        Primitive::Print | Primitive::Putc => one_of(&[AnyInteger], place),
        Primitive::Puts => one_of(&[Text], place),
        Primitive::Now | Primitive::CondNew | Primitive::Yield => None,
        Primitive::CondFree | Primitive::Signal | Primitive::SignalAll | Primitive::Wait => {
            one_of(&[Condvar], place)
        }
        Primitive::Exit => one_of(&[Int], place),
        Primitive::Malloc | Primitive::Sleep | Primitive::RtFrame | Primitive::RtBox => {
            one_of(&[Long], place)
        }
        Primitive::Free | Primitive::RtFrameFree | Primitive::RtUnbox => one_of(&[Pointer], place),
        Primitive::IoWait => one_of(&[Int, Int], place),
        Primitive::RtReady => one_of(&[Callback, Pointer], place),
        Primitive::RtWait => one_of(&[Condvar, Callback, Pointer], place),
        Primitive::RtSleep => one_of(&[Long, Callback, Pointer], place),
        Primitive::RtIo => one_of(&[Int, Int, Callback, Pointer], place),
        Primitive::RtDetach => one_of(&[Callback, Pointer, Section], place),
    }
}

// How many arguments a primitive wants in front of those of a section's function.
fn front_count(primitive: Primitive) -> usize
    ensures { result ≡ length (front_wants (primitive_of primitive)) }
{
    match primitive {
        Primitive::Now | Primitive::CondNew | Primitive::Yield => 0,
        Primitive::IoWait | Primitive::RtReady => 2,
        Primitive::RtWait | Primitive::RtSleep | Primitive::RtDetach => 3,
        Primitive::RtIo => 4,
        _ => 1,
    }
}

// The type of what a primitive gives.
fn given(alloc: Global, primitive: Primitive) -> Result<CType, NoMemory>
    ensures { IfOk result (λ of. (names : Names) → type_of names of ≡ C.gives (primitive_of primitive)) }
{
    match primitive {
        Primitive::Now => Ok(CType::Int(Kind::Long)),
        Primitive::CondNew => Ok(CType::Condvar),
        Primitive::Sleep | Primitive::IoWait => Ok(CType::Int(Kind::Int)),
        Primitive::Malloc | Primitive::RtFrame | Primitive::RtBox => {
            Ok(CType::Pointer(Box::new(alloc, CType::Void)?))
        }
        _ => Ok(CType::Void),
    }
}

// What an argument for a parameter must be.
fn parameter_want(parameters: &[Parameter], place: usize) -> Option<Wanted<'_>>
    ensures { (names : Names) → option_map (want_of names) result ≡ slice_get (wants_of names parameters.now) place }
{
    match parameters.get(place) {
        Some(parameter) => Some(Wanted::Of(&parameter.of)),
        None => None,
    }
}

// What an argument for a parameter of a pointer's function must be.
fn code_want(parameters: &[CType], place: usize) -> Option<Wanted<'_>>
    ensures { (names : Names) → option_map (want_of names) result ≡ slice_get (map (λ t. C.Of t) (map (type_of names) parameters.now)) place }
{
    match parameters.get(place) {
        Some(of) => Some(Wanted::Of(of)),
        None => None,
    }
}

// What an argument for a section's function must be.
fn section_want<'s>(
    section: Option<&'s [Parameter]>,
    given: usize,
    place: usize,
) -> Option<Wanted<'s>>
    ensures { (names : Names) → option_map (want_of names) result ≡ slice_get (section_wants names given (option_map (λ ps. ps.now) section.entry)) place }
{
    match section {
        Some(parameters) => parameter_want(parameters, place),
        None if place < given.saturating_sub(3).max(1) => Some(Wanted::Anything),
        None => None,
    }
}

// What an argument of a primitive must be.
fn primitive_want<'s>(
    primitive: Primitive,
    section: Option<&'s [Parameter]>,
    given: usize,
    place: usize,
) -> Option<Wanted<'s>>
    ensures { (names : Names) → option_map (want_of names) result ≡ slice_get (primitive_wants names (primitive_of primitive) given (option_map (λ ps. ps.now) section.entry)) place }
{
    match primitive {
        Primitive::RtDetach if place >= 3 => section_want(section, given, place - 3),
        _ => front_want(primitive, place),
    }
}

impl<'s> Callee<'s> {
    /// What the argument at a place must be, counted from 0; `None` where no argument is wanted there.
    pub(crate) fn wanted(&self, place: usize) -> Option<Wanted<'_>>
        ensures { (names : Names) → option_map (want_of names) result ≡ slice_get (C.wanted (callee_of names self.now)) place }
    {
        match self {
            Callee::Function { parameters, .. } => parameter_want(parameters, place),
            Callee::Primitive {
                primitive,
                section,
                given,
            } => primitive_want(*primitive, *section, *given, place),
            Callee::Section { parameters } => parameter_want(parameters, place),
            Callee::Code { parameters, .. } => code_want(parameters, place),
            Callee::Unknown | Callee::NoCode => None,
        }
    }

    /// How many arguments are wanted, where a function is called.
    pub(crate) fn count(&self) -> Option<usize>
        ensures { (names : Names) → option_map (λ n. n) result ≡ wants_count (callee_of names self.now) }
    {
        match self {
            Callee::Function { parameters, .. } => Some(parameters.len()),
            Callee::Primitive {
                primitive,
                section,
                given,
            } => Some(primitive_count(*primitive, *section, *given)),
            Callee::Section { parameters } => Some(parameters.len()),
            Callee::Code { parameters, .. } => Some(parameters.len()),
            Callee::Unknown | Callee::NoCode => None,
        }
    }

    /// Whether a function is called.
    pub(crate) fn is_code(&self) -> bool
        ensures { (names : Names) → result ≡ C.is_callee (callee_of names self.now) }
    {
        match self {
            Callee::Unknown | Callee::NoCode => false,
            _ => true,
        }
    }

    /// The type of the call's result, where a function is called. `NoMemory` is want of memory.
    pub(crate) fn result(self, alloc: Global) -> Result<Option<CType>, NoMemory>
        ensures { IfOk result (λ of. (names : Names) → optional_of names of ≡ C.result (callee_of names self.entry)) }
    {
        match self {
            Callee::Function { result: of, .. } => Ok(Some(copy_of(alloc, of)?)),
            Callee::Primitive { primitive, .. } => Ok(Some(given(alloc, primitive)?)),
            Callee::Section { .. } => Ok(Some(CType::Int(Kind::Int))),
            Callee::Code { result: of, .. } => Ok(Some(Box::into_inner(of))),
            Callee::Unknown | Callee::NoCode => Ok(None),
        }
    }
}

// How many arguments a primitive wants.
fn primitive_count(primitive: Primitive, section: Option<&[Parameter]>, given: usize) -> usize
    ensures { (names : Names) → result ≡ length (primitive_wants names (primitive_of primitive) given (option_map (λ ps. ps.now) section.entry)) }
{
    match primitive {
        Primitive::RtDetach => match section {
            None => given.max(4),
            Some(parameters) => parameters.len() + 3,
        },
        _ => front_count(primitive),
    }
}
