//! Laws of runs over shelves that heed orders alone, and of lines in which nothing fails. Each call does nothing: its contract is the law.
ghost use Rattle.lvm_program.specs.Heeding.{HarmlessRunsGoWell, HarmlessScriptsGoWell, LinesOrderAlone, RunsHeedAlone, SomeRunGoesWell};
ghost use Rattle.lvm_program.specs.Landing.{LinesLandWell, SomeLineLandsWell};

/// Lines that order neither a disk to fail nor the power to be cut, over a shelf that heeds orders alone, are refused for
/// nothing that a shelf does, as a failed transfer or a power cut; they may heal disks. In each run over such a shelf
/// nothing happens by itself.
pub fn harmless_runs_go_well()
    ensures scripts { HarmlessScriptsGoWell }
    ensures runs { HarmlessRunsGoWell }
    ensures heed { RunsHeedAlone }
    ensures ordered { LinesOrderAlone }
{}

/// A run of one line, which is refused, over a shelf that was just made meets what the law asks.
pub fn worked_run()
    ensures { SomeRunGoesWell }
{}

/// Each request that lands in a line which makes requests or turns lands as done or got, or where no copy of it could be used when
/// the session began, while no transfer has failed since then and the power isn't cut in the line. Where copies move in the line
/// that is said of the session at some moment of it.
pub fn request_lines_land_well()
    ensures lines { LinesLandWell }
    // There is such a line.
    ensures met { SomeLineLandsWell }
{}
