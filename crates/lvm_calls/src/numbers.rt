//! The number of the next request.
ghost use Rattle.std.specs.Prelude.{◌≡◌, ◌≤◌, ◌<◌, ◌^◌, [], length};
ghost use Rattle.lvm_vol.specs.Log.{next_id};
ghost use Rattle.lvm_vol.specs.Order.{Ordered};
ghost use Rattle.lvm_calls.specs.Numbers.{IsNumberAt, number_of};

use lvm_session::below::History;
use lvm_vol::Entry;

// The number of the request that begins by an entry, if one does.
fn number_of(entry: Entry) -> Option<u64>
    ensures { result ≡ number_of entry }
{
    match entry {
        Entry::Begun { id, .. } => Some(id),
        _ => None,
    }
}

// The number of the request that begins by the entry at an index, if one does.
fn number_at(history: &History, k: u32) -> Option<u64>
    requires ordered { Ordered history.now.run [] history.now.facts }
    requires within { k < length history.now.facts }
    ensures { IsNumberAt history.now k result }
{
    number_of(history.entry(k))
}

/// The number of a history's next request. It is that behind the last one that has begun, which is looked for
/// from the end on.
pub fn next_id(history: &History) -> u64
    requires { Ordered history.now.run [] history.now.facts }
    ensures id { result ≡ next_id history.now }
    ensures few { result ≤ 2 ^ 32 }
{
    for k in (0..history.len()).rev() {
        if let Some(id) = number_at(history, k) {
            return id + 1;
        }
    }
    1
}
