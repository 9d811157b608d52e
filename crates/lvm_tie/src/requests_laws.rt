//! Laws of requests that are submitted, admitted and pin their track group: each leaves a tied session tied. Each call
//! does nothing: its contract is the law.
ghost use Rattle.lvm_tie.specs.Requests.{AdmitTies, PinTies, SubmitTies};

/// A request that is submitted, or isn't taken, leaves a tied session tied.
pub fn submit_ties()
    ensures { SubmitTies }
{}

/// So does one that is admitted, or admitted again, also where its volume is wanted dirty with it.
pub fn admit_ties()
    ensures { AdmitTies }
{}

/// So does one that pins its track group.
pub fn pin_ties()
    ensures { PinTies }
{}
