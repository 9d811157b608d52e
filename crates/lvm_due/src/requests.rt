//! The work that is left of the requests.
ghost use Rattle.std.specs.Prelude.{◌≡◌, ◌≤◌, ◌+◌, ◌*◌, ◌<◌, if◌then◌else◌, length, slice_get, sum_by, Some};
ghost use Rattle.std.specs.List.{list_any};
ghost use Rattle.lvm_num.specs.Descriptor.{IsValid};
ghost use Rattle.lvm_path.specs.declared.target.Target.{Target};
ghost use Rattle.lvm_path.specs.Targets.{is_done};
ghost use Rattle.lvm_session.specs.declared.open.Open.{Open};
ghost use Rattle.lvm_session.specs.Fields.{core_of};
ghost use Rattle.lvm_session.specs.Left.{read_left, request_left, waiting_targets};
ghost use Rattle.lvm_session.specs.Requests.{IsLaid};
ghost use Rattle.lvm_session.specs.Sound.{IsGoing};

use crate::below::is_waiting;
use crate::writes::{waiting_targets, write_left};
use lvm_path::{Phase, Request, any_is_done};
use lvm_session::{Open, Session};

// A read that is admitted.
fn tried_left(request: &Request) -> u64
    requires { length request.now.targets.items ≤ 4 }
    ensures is { result ≡ (if list_any (λ (t : Target). is_done t.state) request.now.targets.items then 1 else 1 + 2 * waiting_targets request.now) }
    ensures few { result ≤ 1024 }
{
    if any_is_done(&request.targets) {
        1
    } else {
        1 + 2 * waiting_targets(request)
    }
}

fn read_left(request: &Request) -> u64
    requires { length request.now.targets.items ≤ 4 }
    ensures is { result ≡ read_left request.now.phase request.now }
    ensures few { result ≤ 1024 }
{
    match request.phase {
        Phase::Held => 8,
        Phase::WantEntry | Phase::WantRecord | Phase::Data | Phase::WantStatus | Phase::Landed =>
            tried_left(request),
    }
}

// One that hasn't landed; nothing is left of one that has.
fn request_left(session: &Session, open: &Open) -> u64
    requires valid { IsValid session.now.descriptor }
    requires laid { IsLaid (core_of session.now) open.now.request }
    ensures is { result ≡ request_left (core_of session.now) open.now }
    ensures few { result ≤ 1024 }
{
    if !is_waiting(open) {
        0
    } else if open.request.ask.is_write() {
        write_left(session, &open.request)
    } else {
        read_left(&open.request)
    }
}

fn request_left_at(session: &Session, place: usize) -> u64
    requires going { IsGoing (core_of session.now) }
    requires there { place < length session.now.requests.items }
    ensures is { (o : Open) → slice_get session.now.requests.items place ≡ Some o → result ≡ request_left (core_of session.now) o }
    ensures few { result ≤ 1024 }
{
    request_left(session, &session.requests[place])
}

/// All requests that haven't landed.
pub fn requests_left(session: &Session) -> u64
    requires { IsGoing (core_of session.now) }
    ensures is { result ≡ sum_by (request_left (core_of session.now)) session.now.requests.items }
    ensures few { result ≤ 1048576 }
{
    let mut left = 0;
    for place in 0..session.requests.len() {
        left += request_left_at(session, place);
    }
    left
}
