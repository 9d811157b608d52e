ghost use Rattle.lvm_sched.specs.Reads.{AreCopies};

use crate::tests::fixtures::check;
use lvm_num::Policy;
use lvm_num::Policy::{Parallel, ParallelWrite, RoundRobin, Sequential};
use lvm_sched::TargetState::{Done, Failed, Flying, Waiting};
use lvm_sched::{read_order, write_next};

static THREE: [(Policy, u8, [u32; 3], [u8; 3]); 6] = [
    (Parallel, 0, [4, 2, 2], [2, 1, 3]),
    (Parallel, 0, [1, 1, 0], [3, 1, 2]),
    (ParallelWrite, 1, [9, 0, 0], [1, 2, 3]),
    (RoundRobin, 0, [9, 0, 0], [1, 2, 3]),
    (RoundRobin, 1, [0; 3], [2, 1, 3]),
    (RoundRobin, 3, [0; 3], [1, 2, 3]),
];

// Whether the copies are read in this order.
fn is_read_so(policy: Policy, usable: &[u8], last: u8, loads: [u32; 3], want: &[u8]) -> bool
    requires { AreCopies usable.now }
{
    read_order(policy, usable, last, loads).as_slice() == want
}

#[test]
fn three_copies_are_read_in_the_order_of_the_policy(rt: HostRuntime) {
    for (policy, last, loads, want) in &THREE {
        let so = is_read_so(*policy, &[1, 2, 3], *last, *loads, want);
        check(&rt, so, "an order of three");
    }
}

#[test]
fn fewer_copies_are_read_in_the_order_of_the_policy(rt: HostRuntime) {
    let none = is_read_so(Parallel, &[], 0, [0; 3], &[]);
    check(&rt, none, "none");
    let lowest = is_read_so(Parallel, &[1, 3], 3, [9, 0, 9], &[1, 3]);
    check(&rt, lowest, "the lowest of equal loads");
    let lowest = is_read_so(Sequential, &[2, 3], 2, [9, 9, 0], &[2, 3]);
    check(&rt, lowest, "the lowest");
    let next = is_read_so(RoundRobin, &[1, 3], 1, [0; 3], &[3, 1]);
    check(&rt, next, "the next one");
    let first = is_read_so(RoundRobin, &[1, 2], 2, [0; 3], &[1, 2]);
    check(&rt, first, "the first again");
}

#[test]
fn a_target_is_started_where_the_policy_lets_it(rt: HostRuntime) {
    for (policy, states, want) in [
        (Sequential, [Waiting, Waiting, Waiting, Waiting], Some(0)),
        (Sequential, [Flying, Waiting, Waiting, Waiting], None),
        (Sequential, [Done, Failed, Waiting, Waiting], Some(2)),
        (Sequential, [Done, Failed, Done, Done], None),
        (Parallel, [Flying, Waiting, Waiting, Done], Some(1)),
        (ParallelWrite, [Flying, Flying, Failed, Waiting], Some(3)),
        (RoundRobin, [Done, Flying, Done, Failed], None),
        (RoundRobin, [Waiting, Flying, Waiting, Done], Some(0)),
    ] {
        check(&rt, write_next(policy, &states) == want, "the next target");
    }
    check(&rt, write_next(Sequential, &[]).is_none(), "no target");
}
