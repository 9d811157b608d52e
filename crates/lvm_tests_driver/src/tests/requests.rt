//! Requests that nothing disturbs.
use crate::tests::fixtures::{MIRROR, MODES, POLICIES, Setup, begin};
use crate::tests::steps::{Step, play_out};
use lvm_session::Taken;

const READ: [(&str, Step); 4] = [
    ("written", Step::Written(255, 9, Taken::Done)),
    ("and read", Step::Got(255, Ok(9))),
    ("alone", Step::Got(254, Ok(0))),
    ("taken once", Step::Take(1, Taken::Unknown)),
];

#[test]
fn what_is_written_is_read(rt: HostRuntime) {
    for mode in &MODES {
        for policy in &POLICIES {
            for copies in 1..4 {
                let setup = Setup {
                    mode: *mode,
                    policy: *policy,
                    copies,
                    ..MIRROR
                };
                play_out(&rt, begin(&rt, &setup, &[]), &READ);
            }
        }
    }
}

// Of two writes of a block and a read between them each sees what came before it.
const IN_ORDER: [(&str, Step); 12] = [
    ("the first", Step::Write(7, 1, Ok(1))),
    ("the one between", Step::Read(7, Ok(2))),
    ("the last", Step::Write(7, 2, Ok(3))),
    ("another", Step::Write(256, 3, Ok(4))),
    ("nothing is done yet", Step::Take(1, Taken::NotYet)),
    (
        "it is another client's",
        Step::TakeForAnother(1, Taken::Unknown),
    ),
    ("all is done", Step::Drain(Ok(()))),
    ("the first is done", Step::Take(1, Taken::Done)),
    ("the one between sees it", Step::Answer(2, Ok(1))),
    ("the last is done", Step::Take(3, Taken::Done)),
    ("another is", Step::Take(4, Taken::Done)),
    ("the last stands", Step::Got(7, Ok(2))),
];

static POOLS: [u32; 3] = [1, 2, 16];

#[test]
fn one_buffer_is_enough(rt: HostRuntime) {
    for mode in &MODES {
        for pool in &POOLS {
            let setup = Setup {
                mode: *mode,
                pool: *pool,
                ..MIRROR
            };
            play_out(&rt, begin(&rt, &setup, &[]), &IN_ORDER);
        }
    }
}
