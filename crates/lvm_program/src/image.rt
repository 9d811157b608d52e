//! New images of disks.
ghost use Rattle.std.specs.Prelude.{◌≡◌, ◌⊎◌, ◌≤◌, ◌++◌, replicate};
ghost use Rattle.lvm_io.specs.Count.{Rose};
ghost use Rattle.lvm_io.specs.Stream.{WhereTold, WritesFront};
ghost use Rattle.lvm_program.specs.Blank.{blank_image};

use lvm_io::{Sink, SinkFault, write_all};
use lvm_top::ExitStatus;

const ZEROS: [[u8; 65_536]; 16] = [[0; 65_536]; 16];

// A MiB of zeros, which are written at once.
fn zeros() -> &'static [u8]
    ensures { result.now ≡ replicate 1048576 0 }
{
    ZEROS.as_flattened()
}

/// Writes so many MiB of zeros: all, or where the sink failed a front of them.
pub fn run_image<O: Sink>(mib: u32, out: &mut O) -> ExitStatus
    ensures status { (result ≡ ExitStatus.Well) ⊎ (result ≡ ExitStatus.SinkFault) }
    ensures whole { result ≡ ExitStatus.Well → WhereTold (O.held out.old) (O.held out.new) (λ a b. b ≡ a ++ blank_image mib) }
    ensures front { result ≡ ExitStatus.SinkFault → WhereTold (O.held out.old) (O.held out.new) (λ a b. WritesFront (blank_image mib) a b) }
    ensures image { (O.chosen out.new ≡ O.chosen out.old) × (O.choices out.new ≡ O.choices out.old) }
    ensures later { O.faults out.old ≤ O.faults out.new }
    ensures cause { result ≡ ExitStatus.SinkFault → Rose (O.faults out.old) (O.faults out.new) }
    ensures well { result ≡ ExitStatus.Well → O.faults out.new ≡ O.faults out.old }
{
    for _ in 0..mib {
        match write_all(out, zeros()) {
            Ok(()) => {}
            Err(SinkFault) => return ExitStatus::SinkFault,
        }
    }
    ExitStatus::Well
}
