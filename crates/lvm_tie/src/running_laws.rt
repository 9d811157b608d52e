//! Laws of a session that runs on. Each call does nothing: its contract is the law.
ghost use Rattle.lvm_tie.specs.Laws.{CallsRunOn, RunsJoin, TurnRunsOn};

/// Each turn of a sound session runs it on: a good session is good after it and its span goes on, no descriptor becomes
/// found, all that a crash may leave stays from before each later moment, and each landing has its cause.
pub fn turns_run_on()
    ensures { TurnRunsOn }
{}

/// So does each call of a client, and an order to the shelf leaves the rest of it.
pub fn calls_run_on()
    ensures { CallsRunOn }
{}

/// One run behind another is a run.
pub fn runs_join()
    ensures { RunsJoin }
{}
