//! What workers ask of the value that they share.
ghost use Rattle.std.specs.Prelude.{◌≡◌, ◌≤◌, ℕ, List};
ghost use Rattle.lvm_vol.specs.Facts.{Request};
ghost use Rattle.lvm_vol.specs.Fronts.{NoneFell};
ghost use Rattle.lvm_workers.specs.declared.service.Asked.{Asked as Given};
ghost use Rattle.lvm_workers.specs.declared.service.Seen.{Seen as Sight};
ghost use Rattle.lvm_workers.specs.declared.words.Draw.{Draw as Drawn};
ghost use Rattle.lvm_workers.specs.Serving.{AskGives, LookGives, Awaits};

use crate::words::Draw;
use lvm_vol::Shown;

/// What became of a request that was asked for.
#[derive(Clone, Copy)]
pub enum Asked {
    /// It has begun, under this number.
    Begun(u64),
    /// It isn't taken, and a later one may be.
    Full,
    /// It isn't taken, and no later one will be.
    Refused,
}

/// What a worker sees of its request.
#[derive(Clone, Copy)]
pub enum Seen {
    /// It has landed, and its answer is taken.
    Taken,
    /// It hasn't landed, and something was done.
    Moved,
    /// It hasn't landed, and none of the transfers that are out has ended.
    Idle,
}

/// A value that serves the requests of clients 1 to `clients`, one event in each call.
pub trait Service: Shown {
    /// Its clients are numbered from 1 up to this.
    ghost clients: { ℕ };

    /// The request that a client's draw makes, with so many drawn before it.
    ghost asks: { ℕ → ℕ → Drawn → Request → Type 0 };

    /// As the value is, that request isn't taken, with this answer.
    ghost refuses: { Self → ℕ → ℕ → Drawn → Given → Type 0 };

    /// What a look of a client for the answer of this number makes of the value, where this is seen.
    ghost looks: { Self → ℕ → ℕ → Sight → Self → Type 0 };

    /// How often no transfer had ended, among the counts that never fall.
    ghost waits: { List ℕ → ℕ };

    /// Asks for a request of a client that is drawn, with so many drawn before it.
    fn ask(&mut self, client: u32, number: u32, drawn: &Draw) -> Asked
        requires always { Self.always self.old }
        requires client { (1 ≤ client) × (client ≤ clients) }
        ensures { AskGives Self.tells Self.past Self.always (asks client number drawn.now) (λ y said. refuses y client number drawn.now said) client self.old result self.new };

    /// Takes the answer of a client's request where it has landed, and makes one event where it hasn't.
    fn look(&mut self, client: u32, id: u64) -> Seen
        requires always { Self.always self.old }
        requires awaits { Awaits client id (Self.tells self.old).entries }
        ensures { LookGives Self.tells Self.past Self.always waits (λ x seen y. looks x client id seen y) client id self.old result self.new };

    /// That count is one of those that never fall.
    ghost waits_stay: { (old new : List ℕ) → NoneFell old new → waits old ≤ waits new };
}
