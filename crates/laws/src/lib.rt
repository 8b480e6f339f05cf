// What holds of every run of the console, over every drive. There is nothing to run here: the contracts are the laws.
#![tactic(auto)]

ghost use Rattle.laws.specs.Instances.{Instances};
ghost use Rattle.laws.specs.Laws.{EveryRunLawful, Words};

mod striking;

pub use striking::striking_holds;

// Once an opening is accepted, every run is lawful: the drive does what it is told and nothing else, every axis stays within its limits, no
// start asks more than the maxima, and desk and drive agree with the ledger.
pub fn every_run_is_lawful()
    ensures { EveryRunLawful }
{}

// What the words mean that ledger and rules share: being a member, and the smallest figures.
pub fn shared_words_hold()
    ensures { Words }
{}

// Runs in which each law has something to say: a group with a waiting waypoint under changed own figures, and a limit that is reached.
pub fn instances_hold()
    ensures { Instances }
{}
