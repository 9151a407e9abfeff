//! What the conversion makes of names, of functions, and of native code, whose spawns become calls.
#![tactic(auto)]

ghost use Rattle.cpc_convert_common.specs.Laws.{MadeNamesAreApart, SpawnsAsCallsGoOn};

/// A name that is made is told from every name without two underscores side by side.
pub fn made_names_are_apart()
    ensures { MadeNamesAreApart }
{}

/// A spawn as a call of the spawner leaves every point where it is: control goes on from each as before.
pub fn spawns_as_calls_go_on()
    ensures { SpawnsAsCallsGoOn }
{}
