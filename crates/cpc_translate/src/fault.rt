//! The fault of a text that is not accepted.
ghost use Rattle.std.specs.Prelude.{◌≡◌};

use cpc_base::Place;
use cpc_check_rules::Breach;
use cpc_lexer::LexFault;
use cpc_parser_types::ParseFault;

/// Why a text is refused.
#[derive(Clone, Copy)]
pub enum TextFault {
    /// It is not cut into tokens.
    Lex(LexFault),
    /// Its tokens are no program, or nest too deep.
    Parse(ParseFault),
    /// Its program breaks a rule.
    Check(Breach),
}

impl TextFault {
    ghost use Rattle.cpc_translate.specs.Faults.{place_of, stage_of, number_of, name_of};

    /// Where it stands.
    pub fn place(&self) -> Place
        ensures { result ≡ place_of self.now }
    {
        match self {
            TextFault::Lex(fault) => fault.place,
            TextFault::Parse(fault) => fault.place,
            TextFault::Check(breach) => breach.place,
        }
    }

    /// The stage of reading that it stopped: `lex`, `parse` or `check`.
    pub fn stage(&self) -> &'static str
        ensures { result.now ≡ stage_of self.now }
    {
        match self {
            TextFault::Lex(_) => "lex",
            TextFault::Parse(_) => "parse",
            TextFault::Check(_) => "check",
        }
    }

    /// Its number among the faults of its stage.
    pub fn number(&self) -> u8
        ensures { result ≡ number_of self.now }
    {
        match self {
            TextFault::Lex(fault) => fault.number,
            TextFault::Parse(fault) => fault.number,
            TextFault::Check(breach) => breach.rule.number(),
        }
    }

    /// The words by which it is told.
    pub fn name(&self) -> &'static str
        ensures { result.now ≡ name_of self.now }
    {
        match self {
            TextFault::Lex(fault) => fault.name(),
            TextFault::Parse(fault) => fault.name(),
            TextFault::Check(breach) => breach.rule.text(),
        }
    }
}
