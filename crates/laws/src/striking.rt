// Refused commands and lines that are too long can be struck out of a run.
ghost use Rattle.laws.specs.Strike.{LinesSent, LinesStruck, Striking, StrikingSample};

// Nothing to run: what its contract says is that runs are made of the calls, what striking does to a line, the law of striking, and a
// run in which it bites.
pub fn striking_holds()
    ensures calls { LinesSent }
    ensures lines { LinesStruck }
    ensures law { Striking }
    ensures sample { StrikingSample }
{}
