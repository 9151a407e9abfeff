//! The rules that a program can break.
ghost use Rattle.std.specs.Prelude.{◌≡◌};
ghost use Rattle.cpc_check_rules.specs.Rule.{number, rule_text};

/// A rule of the language.
#[derive(Clone, Copy)]
pub enum Rule {
    /// A name of which no declaration is in scope (C11 6.5.1), a prototype that is not `extern` and has no definition, or the name of a
    /// primitive that is not called.
    Undeclared,
    /// A name that is declared twice in one block, or as two things (C11 6.7).
    Twice,
    /// An operator, an argument or a declaration whose types do not fit (C11 6.5, 6.7).
    Disagree,
    /// Something written to, or `&` applied to something, that is no place, or a write to a place that is never written whole (C11 6.5.16, 6.5.3.2).
    NoPlace,
    /// A call with too few or too many arguments (C11 6.5.2.2).
    WrongNumber,
    /// A native function that calls what only a cps function may call.
    CpsInNative,
    /// A `goto` whose label its function does not have (C11 6.8.6.1).
    NoLabel,
    /// A label that its function has twice (C11 6.8.1).
    LabelTwice,
    /// `break` or `continue` outside of a loop (C11 6.8.6.2, 6.8.6.3).
    Stray,
    /// A field that the struct does not have (C11 6.5.2.3).
    NoField,
    /// A type that is not complete (C11 6.2.5), or of more than 65,536 cells; an array of length 0.
    Incomplete,
    /// A name that the language keeps for itself.
    Reserved,
    /// A `return` that does not fit its function's result (C11 6.8.6.4).
    BadReturn,
    /// A detached function that uses a global, a function that is not detached, a call through a pointer, a spawn, or a primitive but
    /// `malloc` and `free`.
    NotClosed,
    /// A cps function that is used as a value.
    CpsAsValue,
    /// No function `main` to begin with.
    NoMain,
    /// More than 255 variables in a function, its parameters among them; more than 1,023 in a program of the event loop.
    TooMany,
    /// The sum over the cps functions of their statements, times one more than their variables, is above 500,000.
    TooBroad,
    /// A call inside an expression.
    CallInside,
    /// A primitive of the event loop in a threaded program.
    RtCall,
    /// A form of threads in a program of the event loop.
    CpsForm,
}

impl Rule {
    /// The number by which the rule is told, 1 to 21.
    pub fn number(self) -> u8
        ensures { result ≡ number self }
    {
        match self {
            Rule::Undeclared => 1,
            Rule::Twice => 2,
            Rule::Disagree => 3,
            Rule::NoPlace => 4,
            Rule::WrongNumber => 5,
            Rule::CpsInNative => 6,
            Rule::NoLabel => 7,
            Rule::LabelTwice => 8,
            Rule::Stray => 9,
            Rule::NoField => 10,
            Rule::Incomplete => 11,
            Rule::Reserved => 12,
            Rule::BadReturn => 13,
            Rule::NotClosed => 14,
            Rule::CpsAsValue => 15,
            Rule::NoMain => 16,
            Rule::TooMany => 17,
            Rule::TooBroad => 18,
            Rule::CallInside => 19,
            Rule::RtCall => 20,
            Rule::CpsForm => 21,
        }
    }

    /// The words by which the rule is told.
    pub fn text(self) -> &'static str
        ensures { result.now ≡ rule_text self }
    {
        match self {
            Rule::Undeclared => "undeclared name",
            Rule::Twice => "declared twice",
            Rule::Disagree => "types disagree",
            Rule::NoPlace => "not a place to write",
            Rule::WrongNumber => "wrong number of arguments",
            Rule::CpsInNative => "cps call in a native function",
            Rule::NoLabel => "no such label",
            Rule::LabelTwice => "label twice",
            Rule::Stray => "break or continue outside",
            Rule::NoField => "no such field",
            Rule::Incomplete => "incomplete or oversized type",
            Rule::Reserved => "reserved name",
            Rule::BadReturn => "return disagrees",
            Rule::NotClosed => "detached function not closed",
            Rule::CpsAsValue => "cps function as a value",
            Rule::NoMain => "no main",
            Rule::TooMany => "too many variables",
            Rule::TooBroad => "too broad",
            Rule::CallInside => "call inside an expression",
            Rule::RtCall => "rt call in dialect Cpc",
            Rule::CpsForm => "cps form in dialect Event",
        }
    }
}
