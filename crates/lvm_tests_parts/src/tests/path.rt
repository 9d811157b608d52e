use crate::tests::fixtures::check;
use crate::tests::path::Step::{Admit, Does, Ended, HasPin, Is, Landed, Pinned, Started};
use lvm_num::{Mode, Policy, Pp};
use lvm_path::{Ask, Facts, Next, Phase, Request, Target};
use lvm_sched::TargetState;
use lvm_vol::Outcome;
use std::process::Abort;

// A session in which nothing keeps a write from its data, nor from its landing.
const READY: Facts = Facts {
    blocked: false,
    pending: false,
    pinned: true,
    named: true,
    dirty: true,
    marked: true,
    usable: true,
    changed: false,
    kept: true,
};

const WRITE: Ask = Ask::Write {
    lv: 1,
    at: 512,
    count: 2,
};

const READ: Ask = Ask::Read {
    lv: 1,
    at: 512,
    count: 2,
};

// Facts of which one isn't so.
const UNPINNED: Facts = Facts {
    pinned: false,
    ..READY
};

const UNNAMED: Facts = Facts {
    named: false,
    ..READY
};

const UNMARKED: Facts = Facts {
    marked: false,
    ..READY
};

const UNKEPT: Facts = Facts {
    kept: false,
    ..READY
};

// The copies have changed, of which then none is usable, and then something is pending too.
const CHANGED: Facts = Facts {
    changed: true,
    ..UNPINNED
};

const GONE: Facts = Facts {
    usable: false,
    ..CHANGED
};

const PENDING: Facts = Facts {
    pending: true,
    ..GONE
};

const FIRST: Target = Target {
    pp: Pp { disk: 0, pp: 3 },
    sector: 4096,
    usable: true,
    moves: false,
    faults: 0,
    state: TargetState::Waiting,
};

const SECOND: Target = Target {
    pp: Pp { disk: 1, pp: 3 },
    ..FIRST
};

const PAIR: [Target; 2] = [FIRST, SECOND];

const ALONE: [Target; 1] = [FIRST];

// whether it is blocked, something is pending and a copy is usable, and what it does next
static HELD: [(bool, bool, bool, Next); 6] = [
    (false, false, true, Next::Admit),
    (true, false, true, Next::Wait),
    (false, true, true, Next::Wait),
    (false, true, false, Next::Wait),
    (true, false, false, Next::Wait),
    (
        false,
        false,
        false,
        Next::Land {
            outcome: Outcome::NoFresh,
        },
    ),
];

// What a request does next that is held.
fn held(ask: Ask, facts: Facts) -> Next {
    Request::new(1, 1, ask).next(facts)
}

#[test]
fn a_held_request_waits_or_is_admitted_or_finds_no_copy(rt: HostRuntime) {
    for (blocked, pending, usable, want) in &HELD {
        let facts = Facts {
            blocked: *blocked,
            pending: *pending,
            usable: *usable,
            ..READY
        };
        check(&rt, held(WRITE, facts) == *want, "a write");
        check(&rt, held(READ, facts) == *want, "a read");
    }
}

static BEGINNINGS: [(Ask, Mode, Phase); 5] = [
    (WRITE, Mode::Active, Phase::WantEntry),
    (WRITE, Mode::Passive, Phase::WantRecord),
    (WRITE, Mode::Off, Phase::Data),
    (READ, Mode::Active, Phase::Data),
    (READ, Mode::Passive, Phase::Data),
];

// How far a request is that has got two copies, and then once it has got one of them again.
fn begun(ask: Ask, mode: Mode) -> (Phase, Phase) {
    let mut request = Request::new(1, 1, ask);
    request.admit(Policy::Parallel, mode, &PAIR);
    let phase = request.phase();
    request.admit(Policy::Parallel, mode, &ALONE);
    (phase, request.phase())
}

#[test]
fn a_request_that_is_admitted_begins_by_the_mode_of_its_volume(rt: HostRuntime) {
    for (ask, mode, want) in &BEGINNINGS {
        check(&rt, begun(*ask, *mode) == (*want, Phase::Data), "a phase");
    }
}

// What happens to a request, and what is seen of it.
#[derive(Clone, Copy)]
enum Step {
    // It gets these copies, by the policy and the mode of its volume.
    Admit(Policy, Mode, &'static [Target]),
    Pinned,
    // The transfer of the target at a place is started, and ends, well or badly.
    Started(u8),
    Ended(u8, bool),
    Landed,
    // What it does next where these are the facts.
    Does(Facts, Next),
    Is(Phase),
    HasPin(bool),
}

fn admit(rt: &impl Abort, request: &mut Request, policy: Policy, mode: Mode, targets: &[Target]) {
    let few = targets.len() <= 4;
    assert!(rt; few);
    request.admit(policy, mode, targets);
}

fn start(rt: &impl Abort, request: &mut Request, target: u8) {
    let there = usize::from(target) < request.targets.len();
    assert!(rt; there);
    request.started(target);
}

fn end(rt: &impl Abort, request: &mut Request, target: u8, ok: bool) {
    let there = usize::from(target) < request.targets.len();
    assert!(rt; there);
    request.ended(target, ok);
}

fn next(rt: &impl Abort, request: &Request, facts: Facts) -> Next {
    let few = request.targets.len() <= 4;
    assert!(rt; few);
    request.next(facts)
}

fn go(rt: &impl Abort, request: &mut Request, step: &Step) {
    match step {
        Admit(policy, mode, targets) => admit(rt, request, *policy, *mode, targets),
        Pinned => request.pinned(),
        Started(target) => start(rt, request, *target),
        Ended(target, ok) => end(rt, request, *target, *ok),
        Landed => request.landed(),
        _ => {}
    }
}

fn is_so(rt: &impl Abort, request: &Request, step: &Step) -> bool {
    match step {
        Does(facts, want) => next(rt, request, *facts) == *want,
        Is(phase) => request.phase() == *phase,
        HasPin(pinned) => request.pinned == *pinned,
        _ => true,
    }
}

// Lets this happen to a request, and ends the test at the first step that isn't so.
fn play(rt: &impl Abort, ask: Ask, steps: &[(&str, Step)]) {
    let mut request = Request::new(1, 1, ask);
    for (name, step) in steps {
        go(rt, &mut request, step);
        check(rt, is_so(rt, &request, step), name);
    }
}

static TO_ITS_LANDING: [(&str, Step); 19] = [
    (
        "two copies",
        Admit(Policy::ParallelWrite, Mode::Active, &PAIR),
    ),
    ("its entry", Does(UNPINNED, Next::Pin)),
    ("it is pinned", Pinned),
    ("its note", Does(UNNAMED, Next::Wait)),
    ("the first start", Does(READY, Next::Start { target: 0 })),
    ("the first is started", Started(0)),
    ("the second start", Does(READY, Next::Start { target: 1 })),
    ("the second is started", Started(1)),
    ("its transfers", Does(READY, Next::Wait)),
    ("the first is written", Ended(0, true)),
    ("one is out", Is(Phase::Data)),
    ("the second isn't", Ended(1, false)),
    ("both have ended", Is(Phase::WantStatus)),
    ("its staleness", Does(UNMARKED, Next::Wait)),
    (
        "one is kept",
        Does(
            READY,
            Next::Land {
                outcome: Outcome::Done,
            },
        ),
    ),
    (
        "none is kept",
        Does(
            UNKEPT,
            Next::Land {
                outcome: Outcome::Lost,
            },
        ),
    ),
    ("it lands", Landed),
    ("it has landed", Does(READY, Next::Wait)),
    ("its pin is given up", HasPin(false)),
];

#[test]
fn a_write_goes_from_its_entry_to_its_landing(rt: HostRuntime) {
    play(&rt, WRITE, &TO_ITS_LANDING);
}

// Of a volume in mode active, and of one in mode off.
static AGAIN: [[(&str, Step); 4]; 2] = [
    [
        ("two copies", Admit(Policy::Sequential, Mode::Active, &PAIR)),
        ("other copies", Does(CHANGED, Next::Admit)),
        (
            "no copy",
            Does(
                GONE,
                Next::Land {
                    outcome: Outcome::NoFresh,
                },
            ),
        ),
        ("something is pending", Does(PENDING, Next::Pin)),
    ],
    [
        ("two copies", Admit(Policy::Sequential, Mode::Off, &PAIR)),
        ("other copies", Does(CHANGED, Next::Admit)),
        (
            "no copy",
            Does(
                GONE,
                Next::Land {
                    outcome: Outcome::NoFresh,
                },
            ),
        ),
        ("something is pending", Does(PENDING, Next::Wait)),
    ],
];

static ONE_AFTER_THE_OTHER: [(&str, Step); 6] = [
    ("two copies", Admit(Policy::Sequential, Mode::Off, &PAIR)),
    ("the first copy", Does(READY, Next::Start { target: 0 })),
    ("the first is started", Started(0)),
    ("one after the other", Does(GONE, Next::Wait)),
    ("the first isn't written", Ended(0, false)),
    ("the next copy", Does(GONE, Next::Start { target: 1 })),
];

#[test]
fn a_write_that_has_not_started_looks_at_its_copies_again(rt: HostRuntime) {
    for steps in &AGAIN {
        play(&rt, WRITE, steps);
    }
    play(&rt, WRITE, &ONE_AFTER_THE_OTHER);
}

static EACH_COPY: [(&str, Step); 12] = [
    (
        "two copies",
        Admit(Policy::Parallel, Mode::Active, &[SECOND, FIRST]),
    ),
    ("the first copy", Does(READY, Next::Start { target: 0 })),
    ("the first is started", Started(0)),
    ("it is being read", Does(READY, Next::Wait)),
    ("the first isn't read", Ended(0, false)),
    ("the second copy", Does(READY, Next::Start { target: 1 })),
    ("the second is started", Started(1)),
    ("the second isn't read", Ended(1, false)),
    (
        "each has failed",
        Does(
            READY,
            Next::Land {
                outcome: Outcome::ReadFailed,
            },
        ),
    ),
    ("the second is read", Ended(1, true)),
    (
        "one was read",
        Does(
            READY,
            Next::Land {
                outcome: Outcome::Got,
            },
        ),
    ),
    ("a read waits for no status", Is(Phase::Data)),
];

#[test]
fn a_read_tries_one_copy_after_the_other(rt: HostRuntime) {
    play(&rt, READ, &EACH_COPY);
}
