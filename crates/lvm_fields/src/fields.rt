//! Fields from the front of some bytes.
ghost use Rattle.std.specs.Prelude.{◌≡◌, true, ◌≤◌, ◌==◌, ◌&&◌, not, nat_le, length, IfOk};
ghost use Rattle.std.specs.List.{list_all};
ghost use Rattle.std.specs.Int.{w8, w16, w32, w64};
ghost use Rattle.lvm_num.specs.Reading.{bytes_at, number_at, zeros_at};
ghost use Rattle.lvm_fields.specs.Reading.{Gives, rest_of, skipped};

use crate::fault::Fault;
use crate::unread::Unread;

/// All of the bytes.
pub fn all(bytes: &[u8]) -> Unread
    ensures { rest_of result ≡ (0, bytes.now) }
{
    Unread { place: 0, bytes }
}

/// What is behind so many bytes.
pub fn behind(count: usize, unread: Unread) -> Unread
    requires { count ≤ length unread.bytes.now }
    ensures { rest_of result ≡ skipped count (rest_of unread.entry) }
{
    Unread {
        place: unread.place + count,
        bytes: &unread.bytes[count..],
    }
}

/// So many bytes.
pub fn bytes_at(count: usize, unread: Unread) -> Result<(&[u8], Unread), Fault>
    ensures read { Gives (λ x. (x.0.now, rest_of x.1)) result (bytes_at count (λ bytes. true) (rest_of unread.entry)) }
    ensures size { IfOk result (λ x. length x.0.now ≡ count) }
{
    let Unread { place, bytes } = unread;
    if bytes.len() < count {
        return Err(Fault::At(place + bytes.len()));
    }
    let (field, bytes) = bytes.split_at(count);
    let place = place + count;
    Ok((field, Unread { place, bytes }))
}

/// A byte.
pub fn u8_at(unread: Unread) -> Result<(u8, Unread), Fault>
    ensures { Gives (λ x. (x.0, rest_of x.1)) result (number_at w8 (λ n. true) (rest_of unread.entry)) }
{
    let (field, after) = bytes_at(1, unread)?;
    Ok((field[0], after))
}

/// A number of two bytes.
pub fn u16_at(unread: Unread) -> Result<(u16, Unread), Fault>
    ensures { Gives (λ x. (x.0, rest_of x.1)) result (number_at w16 (λ n. true) (rest_of unread.entry)) }
{
    let (field, after) = bytes_at(2, unread)?;
    Ok((u16::from_be_bytes([field[0], field[1]]), after))
}

/// A number of four bytes.
pub fn u32_at(unread: Unread) -> Result<(u32, Unread), Fault>
    ensures { Gives (λ x. (x.0, rest_of x.1)) result (number_at w32 (λ n. true) (rest_of unread.entry)) }
{
    let (field, after) = bytes_at(4, unread)?;
    let number = u32::from_be_bytes([field[0], field[1], field[2], field[3]]);
    Ok((number, after))
}

/// A number of eight bytes.
pub fn u64_at(unread: Unread) -> Result<(u64, Unread), Fault>
    ensures { Gives (λ x. (x.0, rest_of x.1)) result (number_at w64 (λ n. true) (rest_of unread.entry)) }
{
    let (field, after) = bytes_at(8, unread)?;
    let number = u64::from_be_bytes([
        field[0], field[1], field[2], field[3], field[4], field[5], field[6], field[7],
    ]);
    Ok((number, after))
}

/// A number of eight bytes that isn't 0.
pub fn u64_nonzero(unread: Unread) -> Result<(u64, Unread), Fault>
    ensures { Gives (λ x. (x.0, rest_of x.1)) result (number_at w64 (λ n. not (n == 0)) (rest_of unread.entry)) }
{
    let read = u64_at(unread);
    if let Ok((0, _)) = &read {
        return Err(Fault::At(unread.place));
    }
    read
}

/// What is behind so many zeros.
pub fn zeros_at(count: usize, unread: Unread) -> Result<Unread, Fault>
    ensures { Gives rest_of result (zeros_at count (rest_of unread.entry)) }
{
    let (field, after) = bytes_at(count, unread)?;
    if !are_zeros(field) {
        return Err(Fault::At(unread.place));
    }
    Ok(after)
}

fn are_zeros(bytes: &[u8]) -> bool
    ensures { result ≡ list_all (λ b. b == 0) bytes.now }
{
    bytes.iter().all(|byte| *byte == 0)
}

/// A byte up to a greatest one.
pub fn u8_up_to(most: u8, unread: Unread) -> Result<(u8, Unread), Fault>
    ensures { Gives (λ x. (x.0, rest_of x.1)) result (number_at w8 (λ n. nat_le n most) (rest_of unread.entry)) }
{
    let read = u8_at(unread);
    if let Ok((number, _)) = &read
        && *number > most
    {
        return Err(Fault::At(unread.place));
    }
    read
}

/// A byte from 1 up to a greatest one.
pub fn u8_from_1(most: u8, unread: Unread) -> Result<(u8, Unread), Fault>
    ensures { Gives (λ x. (x.0, rest_of x.1)) result (number_at w8 (λ n. nat_le 1 n && nat_le n most) (rest_of unread.entry)) }
{
    let read = u8_at(unread);
    if let Ok((number, _)) = &read
        && (*number < 1 || *number > most)
    {
        return Err(Fault::At(unread.place));
    }
    read
}

/// A number of two bytes up to a greatest one.
pub fn u16_up_to(most: u16, unread: Unread) -> Result<(u16, Unread), Fault>
    ensures { Gives (λ x. (x.0, rest_of x.1)) result (number_at w16 (λ n. nat_le n most) (rest_of unread.entry)) }
{
    let read = u16_at(unread);
    if let Ok((number, _)) = &read
        && *number > most
    {
        return Err(Fault::At(unread.place));
    }
    read
}

/// A number of two bytes from 1 up to a greatest one.
pub fn u16_from_1(most: u16, unread: Unread) -> Result<(u16, Unread), Fault>
    ensures read { Gives (λ x. (x.0, rest_of x.1)) result (number_at w16 (λ n. nat_le 1 n && nat_le n most) (rest_of unread.entry)) }
    ensures most { IfOk result (λ x. x.0 ≤ most) }
{
    let read = u16_at(unread);
    if let Ok((number, _)) = &read
        && (*number < 1 || *number > most)
    {
        return Err(Fault::At(unread.place));
    }
    read
}
