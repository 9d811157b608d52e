//! What stands before the rows, field by field.
ghost use Rattle.std.specs.Prelude.{◌≡◌, ◌≤◌, ◌==◌, not, length, bytes_eq, OnOk};
ghost use Rattle.std.specs.List.{list_any};
ghost use Rattle.std.specs.Int.{w16};
ghost use Rattle.lvm_num.specs.declared.descriptor.LvRow.{LvRow};
ghost use Rattle.lvm_num.specs.Descriptor.{is_size, most_members, most_volumes};
ghost use Rattle.lvm_num.specs.DescriptorBytes.{name_at, version_at, member_count_at};
ghost use Rattle.lvm_num.specs.Reading.{number_at};
ghost use Rattle.lvm_fields.specs.Reading.{Gives, rest_of, skipped};
ghost use Rattle.lvm_vgda.specs.Parts.{begin_at, rules_at, counts_at};

use lvm_fields::{
    Fault, Unread, bytes_at, name_in, u8_up_to, u16_at, u16_from_1, u16_up_to, u64_nonzero,
    zeros_at,
};
use lvm_num::{LvRow, Name, PARTITION_SIZES};

/// Whether the group is big, and its id.
#[tactic(auto, unfolding(crate::specs::Parts::begin_at))]
pub fn begin_at(unread: Unread) -> Result<((bool, u64), Unread), Fault>
    ensures { Gives (λ x. (x.0, rest_of x.1)) result (begin_at (rest_of unread.entry)) }
{
    let (big, unread) = version_at(unread)?;
    let (id, unread) = u64_nonzero(unread)?;
    Ok(((big, id), unread))
}

/// The size of a partition, and whether the group needs a quorum and has even votes.
#[tactic(auto, unfolding(crate::specs::Parts::rules_at))]
pub fn rules_at(unread: Unread) -> Result<((u16, bool, bool), Unread), Fault>
    ensures { Gives (λ x. (x.0, rest_of x.1)) result (rules_at (rest_of unread.entry)) }
{
    let (mib, unread) = size_at(unread)?;
    let (quorum, unread) = u8_up_to(1, unread)?;
    let (even, unread) = u8_up_to(1, unread)?;
    Ok(((mib, quorum == 1, even == 1), unread))
}

/// How many members and how many volumes follow.
#[tactic(auto, unfolding(crate::specs::Parts::counts_at))]
pub fn counts_at(big: bool, even: bool, unread: Unread) -> Result<((u16, u16), Unread), Fault>
    ensures { Gives (λ x. (x.0, rest_of x.1)) result (counts_at big even (rest_of unread.entry)) }
{
    let (members, unread) = member_count_at(big, even, unread)?;
    let (volumes, unread) = u16_up_to(most_volumes(big), unread)?;
    let unread = zeros_at(12, unread)?;
    Ok(((members, volumes), unread))
}

// Whether the group is big, which the version says.
#[tactic(auto, unfolding(lvm_num::specs::DescriptorBytes::version_at))]
fn version_at(unread: Unread) -> Result<(bool, Unread), Fault>
    ensures { Gives (λ x. (x.0, rest_of x.1)) result (version_at (rest_of unread.entry)) }
{
    let (magic, after) = bytes_at(4, unread)?;
    if magic == b"VGD1".as_slice() {
        Ok((false, after))
    } else if magic == b"VGD2".as_slice() {
        Ok((true, after))
    } else {
        Err(Fault::At(unread.place))
    }
}

// The size of a partition.
fn size_at(unread: Unread) -> Result<(u16, Unread), Fault>
    ensures { Gives (λ x. (x.0, rest_of x.1)) result (number_at w16 is_size (rest_of unread.entry)) }
{
    let read = u16_at(unread);
    if let Ok((mib, _)) = &read
        && !is_size(*mib)
    {
        return Err(Fault::At(unread.place));
    }
    read
}

fn is_size(mib: u16) -> bool
    ensures { result ≡ is_size mib }
{
    PARTITION_SIZES.contains(&mib)
}

// The number of members. Where votes are even and it isn't 2, the flag before it is the fault.
#[tactic(auto, unfolding(lvm_num::specs::DescriptorBytes::member_count_at))]
fn member_count_at(big: bool, even: bool, unread: Unread) -> Result<(u16, Unread), Fault>
    ensures { Gives (λ x. (x.0, rest_of x.1)) result (member_count_at big even (rest_of unread.entry)) }
{
    let (count, _) = u16_at(unread)?;
    if even && count != 2 {
        return Err(Fault::At(unread.place.saturating_sub(1)));
    }
    u16_from_1(most_members(big), unread)
}

fn most_members(big: bool) -> u16
    ensures { result ≡ most_members big }
{
    if big { 128 } else { 32 }
}

/// The most volumes of a group, and their greatest number.
pub fn most_volumes(big: bool) -> u16
    ensures { result ≡ most_volumes big }
{
    if big { 511 } else { 255 }
}

/// A name that none of these volumes has, in sixteen bytes.
#[tactic(auto, unfolding(lvm_num::specs::DescriptorBytes::name_at))]
pub fn name_at(earlier: &[LvRow], unread: Unread) -> Result<Name, Fault>
    ensures read { Gives (λ name. (name, skipped 16 (rest_of unread.entry))) result (name_at (λ bytes. not (list_any (λ (row : LvRow). bytes_eq row.name bytes) earlier.now)) (rest_of unread.entry)) }
    ensures long { OnOk result (16 ≤ length unread.entry.bytes.now) }
{
    let (field, _) = bytes_at(16, unread)?;
    let Some(name) = name_in(field) else {
        return Err(Fault::At(unread.place));
    };
    if has_name(earlier, &name) {
        return Err(Fault::At(unread.place));
    }
    Ok(name)
}

fn has_name(rows: &[LvRow], name: &Name) -> bool
    ensures { result ≡ list_any (λ (row : LvRow). bytes_eq row.name name.now) rows.now }
{
    for row in rows {
        if row.name == *name {
            return true;
        }
    }
    false
}
