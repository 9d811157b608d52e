//! Laws of causes. Each call does nothing: its contract is the law.
ghost use Rattle.lvm_tie.specs.Landings.{BeginningHasCauses, CallsKeepCauses, TurnKeepsCauses};
ghost use Rattle.lvm_tie.specs.Causes.{CausesAreSeen, FaultsAreThere};

/// As a session begins nothing has landed since.
pub fn beginning_has_causes()
    ensures { BeginningHasCauses }
{}

/// Each landing of a turn has its cause: requests land as Lost, ReadFailed, NoFresh and Off only by faults of disks since
/// the session began, or as NoFresh where they had no usable copy from the beginning.
pub fn turn_keeps_causes()
    ensures { TurnKeepsCauses }
{}

/// The calls of a client leave each landing its cause.
pub fn calls_keep_causes()
    ensures { CallsKeepCauses }
{}

/// Each sound session has what causes are judged by.
pub fn faults_are_there()
    ensures { FaultsAreThere }
{}

/// So the state as which a tied session is seen has the causes of the induction.
pub fn causes_are_seen()
    ensures { CausesAreSeen }
{}
