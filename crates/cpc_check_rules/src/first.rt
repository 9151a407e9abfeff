//! The first broken rule of those that were noted.
ghost use Rattle.std.specs.Prelude.{◌≡◌, [], Some, None};
ghost use Rattle.cpc_check_rules.specs.Rule.{Broken, at_if, IsFirst};
ghost use Rattle.cpc_check_rules.specs.Noted.{comes_before, earlier, noted, pair_of, first_of};

use crate::rule::Rule;
use cpc_base::Place;

/// A rule that is broken, and where.
#[derive(Clone, Copy)]
pub struct Breach {
    /// Where the text shows it.
    pub place: Place,
    /// The rule.
    pub rule: Rule,
}

// Whether one breach stands before another.
fn comes_before(a: Breach, b: Breach) -> bool
    ensures { result ≡ comes_before (pair_of a) (pair_of b) }
{
    if a.place.line != b.place.line {
        return a.place.line < b.place.line;
    }
    if a.place.column != b.place.column {
        return a.place.column < b.place.column;
    }
    a.rule.number() < b.rule.number()
}

/// The first broken rule of those that were noted: by their places, and at one place by the numbers of the rules.
#[derive(Drop)]
pub struct First {
    /// The first of them, where there is one.
    pub breach: Option<Breach>,
}

impl First {
    /// Nothing was noted.
    pub fn new() -> First
        ensures { first_of result ≡ None }
    {
        First { breach: None }
    }

    /// Notes a broken rule.
    pub fn note(&mut self, place: Place, rule: Rule)
        ensures { first_of self.new ≡ earlier (first_of self.old) (place, rule) }
    {
        let breach = Breach { place, rule };
        match self.breach {
            Some(first) if !comes_before(breach, first) => {}
            _ => self.breach = Some(breach),
        }
    }

    /// Notes a rule where it is broken.
    pub fn note_if(&mut self, is_broken: bool, place: Place, rule: Rule)
        ensures { first_of self.new ≡ noted (first_of self.old) (at_if is_broken place rule) }
    {
        if is_broken {
            self.note(place, rule);
        }
    }
}

/// What was noted of a row of broken rules is the first of them, and nothing only where there is none.
pub fn noted_is_first()
    ensures first { (broken : Broken) (place : Place) (rule : Rule) → noted None broken ≡ Some (place, rule) → IsFirst broken place rule }
    ensures nothing { (broken : Broken) → noted None broken ≡ None → broken ≡ [] }
{}
