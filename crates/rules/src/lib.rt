// The rules of the console as definitions (specs/), and worked lines computed from them.
#![tactic(auto)]

ghost use Rattle.rules.specs.Samples.{Samples};

// Nothing to run: its contract says what the rules give for the worked lines of docs/COMMANDS.md.
pub fn samples_hold()
    ensures { Samples }
{}
