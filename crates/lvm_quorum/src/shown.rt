//! A record as a disk shows it.
ghost use Rattle.std.specs.Prelude.{◌≡◌};
ghost use Rattle.lvm_num.specs.Record.{newer};
ghost use Rattle.lvm_quorum.specs.passed.Transfer.{if_passes, is_of, is_status_of};
ghost use Rattle.lvm_quorum.specs.Reading.{under};
ghost use Rattle.lvm_quorum.specs.Groups.{shown_record_if, epoch_of};

use crate::row::SurveyRow;
use lvm_num::{Descriptor, Stamp, Status};

/// A record that a disk shows, under its stamp.
#[derive(Drop)]
pub struct Shown<'a, T> {
    pub stamp: Stamp,
    pub value: &'a T,
}

/// The newer of two; of two with one stamp the first.
pub fn newer<'a, T>(one: Option<Shown<'a, T>>, other: Option<Shown<'a, T>>) -> Option<Shown<'a, T>>
    ensures { shown_record_if result ≡ newer (shown_record_if one.entry) (shown_record_if other.entry) }
{
    match (one, other) {
        (None, other) => other,
        (one, None) => one,
        (Some(one), Some(other)) => {
            if one.stamp < other.stamp {
                Some(other)
            } else {
                Some(one)
            }
        }
    }
}

/// The epoch of a record, 0 where there is none.
pub fn epoch_of<T>(shown: Option<Shown<'_, T>>) -> u64
    ensures { result ≡ epoch_of (shown_record_if shown.entry) }
{
    match shown {
        Some(shown) => shown.stamp.epoch,
        None => 0,
    }
}

/// The newest descriptor of a disk, if it is of the group.
pub fn descriptor_of(row: &SurveyRow, id: u64) -> Option<Shown<'_, Descriptor>>
    ensures { shown_record_if result ≡ if_passes (is_of id) (under row.now.descriptor row.now.descriptor_stamp) }
{
    let value = row.descriptor.as_ref()?;
    if value.id != id {
        return None;
    }
    let stamp = row.descriptor_stamp;
    Some(Shown { stamp, value })
}

/// The newest status of a disk, if it is of the group.
pub fn status_of(row: &SurveyRow, id: u64) -> Option<Shown<'_, Status>>
    ensures { shown_record_if result ≡ if_passes (is_status_of id) (under row.now.status row.now.status_stamp) }
{
    let value = row.status.as_ref()?;
    if value.id != id {
        return None;
    }
    let stamp = row.status_stamp;
    Some(Shown { stamp, value })
}
