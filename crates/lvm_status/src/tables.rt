//! The tables of a group's next descriptor.
ghost use Rattle.std.specs.Prelude.{◌≡◌};

use crate::below::Descriptor;
use crate::table::StaleTable;
use std::marker::Model;

/// The tables of a group with other members, or of another size, whose memory is taken before the group turns to
/// its next descriptor. Contracts see them as that group without its volumes, and the status in its rows.
#[derive(Drop)]
pub struct Tables {
    pub(crate) group: Descriptor,
    // the status in the rows of the group
    pub(crate) told: StaleTable,
    // two more with as many rows
    pub(crate) committed: StaleTable,
    pub(crate) flying: StaleTable,
}

impl Model for Tables {
    ghost use Rattle.lvm_status.specs.Tables.{NextTables, AreReady};

    ghost Value = { NextTables };

    ghost view = { λ t. record { group = t.group; told = t.told } };

    ghost invariant = { λ t. AreReady t.group t.told t.committed t.flying };
}

impl Tables {
    /// The status in the rows of the group.
    pub fn told(&self) -> &StaleTable
        ensures { result.now ≡ self.now.told }
    {
        &self.told
    }
}
