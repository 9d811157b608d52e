//! The newest record of a disk.
ghost use Rattle.std.specs.Prelude.{◌≡◌, Some};
ghost use Rattle.lvm_num.specs.Record.{newer};
ghost use Rattle.lvm_rec.specs.Latest.{home_of, stamped_found, under, IsHome};

use lvm_num::Stamp;

const NEITHER: u8 = 2;

const NO_STAMP: Stamp = Stamp { epoch: 0, seq: 0 };

/// A record that a slot holds.
#[derive(Drop)]
pub struct Found<T> {
    pub stamp: Stamp,
    pub value: T,
}

/// The newest record of a disk, and which slot has it.
#[derive(Drop)]
pub struct Latest<T> {
    pub value: Option<T>,
    pub stamp: Stamp,
    pub home: u8,
}

/// The newer of what slots 0 and 1 hold; of two with one stamp that of slot 0.
pub fn newest<T: Drop>(first: Option<Found<T>>, second: Option<Found<T>>) -> Latest<T>
    ensures newest { under result.value result.stamp ≡ newer (stamped_found first) (stamped_found second) }
    ensures home { result.home ≡ home_of (stamped_found first) (stamped_found second) }
    ensures found { IsHome result.value result.stamp result.home }
{
    match (first, second) {
        (None, None) => Latest {
            value: None,
            stamp: NO_STAMP,
            home: NEITHER,
        },
        (Some(first), None) => of_slot(first, 0),
        (None, Some(second)) => of_slot(second, 1),
        (Some(first), Some(second)) => {
            if first.stamp.is_before(second.stamp) {
                of_slot(second, 1)
            } else {
                of_slot(first, 0)
            }
        }
    }
}

fn of_slot<T>(found: Found<T>, home: u8) -> Latest<T>
    ensures { result ≡ record { value = Some found.value; stamp = found.stamp; home = home } }
{
    let Found { stamp, value } = found;
    Latest {
        value: Some(value),
        stamp,
        home,
    }
}
