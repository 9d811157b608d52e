use crate::tests::fixtures::check;
use lvm_pbuf::Pool;
use std::process::Abort;

#[test]
fn a_pool_of_two_gives_each_buffer_once_and_again_when_it_is_back(rt: HostRuntime) {
    let mut pool = Pool::new(rt.alloc(), 2).expect(&rt, "memory");
    let zero = pool.take().expect(&rt, "a buffer is in");
    let mut one = pool.take().expect(&rt, "a buffer is in");
    let numbers = [zero.number(), one.number()];
    check(&rt, numbers == [0, 1], "taken");
    check(&rt, !pool.has_inside(), "both are out");
    assert!(rt; pool.take().is_none());

    one.set_sector(255, &[7; 512]);
    pool.give(one);
    check(&rt, pool.has_inside(), "one is back");
    check(&rt, taken_again(&rt, &mut pool) == (1, true), "as it was");
}

// The number of the buffer that is taken, and whether its last sector is sevens.
fn taken_again(rt: &impl Abort, pool: &mut Pool) -> (u32, bool) {
    let buf = pool.take().expect(rt, "a buffer is in");
    (buf.number(), buf.sector(255) == &[7; 512])
}
