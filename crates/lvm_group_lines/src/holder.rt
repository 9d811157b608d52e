//! Who holds the shelf and the history between two lines.
ghost use Rattle.std.specs.Prelude.{◌≡◌, IsTrue, IsFalse, None, length};
ghost use Rattle.std.specs.Option.{option_map};
ghost use Rattle.lvm_disk.specs.Steps.{MayArrange, ArrangeGives};
ghost use Rattle.lvm_session.specs.Dark.{after_arrange};
ghost use Rattle.lvm_group_lines.specs.Stages.{GivesBack, IsOfKind, IsOnIn, history_after, history_of, open_in, session_of, shelf_of};

use lvm_disk::{Arrange, Shelf};
use lvm_history::History;
use lvm_quiesce::below::Closed;
use lvm_session::Power;
use lvm_tie_commands::below::driver;

/// Who holds the shelf and the history: nobody, while no group is on, or its session.
#[derive(Drop)]
pub enum Holder<S: Shelf> {
    /// No group is on: the shelf beside the history.
    Off {
        shelf: S,
        history: History,
    },
    /// The session of a group without volumes. It takes commands on the group at once, since nothing is under way.
    Empty {
        driver: lvm_quiesce::below::CommandDriver<S>,
    },
    /// The session of a group with volumes. It takes requests.
    Serving {
        driver: driver::Driver<S>,
    },
}

impl<S: Shelf> Holder<S> {
    /// How many disks the shelf has.
    pub fn disks(&self) -> u16
        ensures { result ≡ length (S.device (shelf_of self.now)).sizes }
    {
        match self {
            Holder::Off { shelf, history: _ } => shelf.disks(),
            Holder::Empty { driver } => driver.disks(),
            Holder::Serving { driver } => driver.disks(),
        }
    }

    /// How many requests of its session are open: submitted, and their answers not taken.
    pub fn open(&self) -> u32
        ensures { result ≡ open_in (session_of self.now) }
    {
        match self {
            Holder::Off {
                shelf: _,
                history: _,
            } => 0,
            Holder::Empty { driver } => driver.open(),
            Holder::Serving { driver } => driver.open(),
        }
    }

    /// Whether its session isn't over, where it has one of a group with volumes.
    pub fn goes_on(&self) -> bool
        ensures on { IsTrue result → IsOnIn self.now }
        ensures off { IsFalse result → IsOnIn self.now → ⊥ }
    {
        match self {
            Holder::Off {
                shelf: _,
                history: _,
            }
            | Holder::Empty { driver: _ } => true,
            Holder::Serving { driver } => match driver.power() {
                Power::On => true,
                Power::Off | Power::Dark | Power::Stuck => false,
            },
        }
    }

    /// Arranges a fault or a power cut on the shelf, where that takes such orders. A power cut ends the session, which is on.
    pub fn arrange(&mut self, what: Arrange) -> bool
        requires on { IsOnIn self.old }
        requires may { MayArrange (S.device (shelf_of self.old)) what }
        ensures shelf { ArrangeGives (S.device (shelf_of self.old)) (S.device (shelf_of self.new)) what result }
        ensures session { session_of self.new ≡ option_map (after_arrange what result) (session_of self.old) }
        ensures history { history_of self.new ≡ history_after what result (history_of self.old) (session_of self.old) }
        ensures kind { IsOfKind self.old → IsOfKind self.new }
    {
        match self {
            Holder::Off { shelf, history: _ } => shelf.arrange(what),
            Holder::Empty { driver } => driver.arrange(what),
            Holder::Serving { driver } => driver.arrange(what),
        }
    }

    /// The shelf and the history. A session that is on ends without a write; transfers that are out stay with the shelf.
    pub fn close(self) -> Closed<S>
        ensures shelf { GivesBack (S.device (shelf_of self)) (S.device result.shelf) }
        ensures off { session_of self ≡ None → S.device result.shelf ≡ S.device (shelf_of self) }
        ensures history { result.history ≡ history_of self }
    {
        match self {
            Holder::Off { shelf, history } => Closed { shelf, history },
            Holder::Empty { driver } => driver.close(),
            Holder::Serving { driver } => {
                let driver::Closed { shelf, history } = driver.close();
                Closed { shelf, history }
            }
        }
    }
}
