//! In which order the copies of a volume are read.
ghost use Rattle.std.specs.Prelude.{◌≡◌, ◌≤◌, ◌<◌, [], Contains, All, MatchOption, nat_lt};
ghost use Rattle.std.specs.List.{find};
ghost use Rattle.lvm_sched.specs.Reads.{AreCopies, load_of, IsLowest, IsPreferred, IsNextAround, IsFirst, IsReadOrder};

use arrayvec::ArrayVec;
use lvm_num::Policy;

/// The order in which the usable copies are tried. Copies are numbered from 1. `last` is the copy at
/// which the volume's last read of the session began, 0 before there was one; `loads` has for each copy
/// the flights that are out on its disk.
pub fn read_order(policy: Policy, usable: &[u8], last: u8, loads: [u32; 3]) -> ArrayVec<u8, 3>
    requires { AreCopies usable.now }
    ensures { IsReadOrder policy usable.now last loads result.items }
{
    let mut order = ArrayVec::new();
    let Some(first) = first_copy(policy, usable, last, &loads) else {
        return order;
    };
    order.push(first);
    for copy in usable {
        if *copy != first {
            order.push(*copy);
        }
    }
    order
}

// The copy that is read first.
fn first_copy(policy: Policy, usable: &[u8], last: u8, loads: &[u32; 3]) -> Option<u8>
    requires { AreCopies usable.now }
    ensures { MatchOption result (usable.now ≡ []) (λ first. Contains usable.now first × IsFirst policy usable.now last loads.now first) }
{
    match policy {
        Policy::Parallel => least_loaded(usable, loads),
        Policy::Sequential | Policy::ParallelWrite => lowest(usable),
        Policy::RoundRobin => next_around(usable, last),
    }
}

fn lowest(usable: &[u8]) -> Option<u8>
    requires { AreCopies usable.now }
    ensures { MatchOption result (usable.now ≡ []) (λ first. Contains usable.now first × IsLowest usable.now first) }
{
    usable.first().copied()
}

// The one on the disk with the fewest flights, and of those the lowest.
fn least_loaded(usable: &[u8], loads: &[u32; 3]) -> Option<u8>
    requires { AreCopies usable.now }
    ensures { MatchOption result (usable.now ≡ []) (λ first. Contains usable.now first × All (IsPreferred loads.now first) usable.now) }
{
    let mut best = *usable.first()?;
    for copy in usable {
        if load_of(*copy, loads) < load_of(best, loads) {
            best = *copy;
        }
    }
    Some(best)
}

fn load_of(copy: u8, loads: &[u32; 3]) -> u32
    requires some { 1 ≤ copy }
    requires most { copy ≤ 3 }
    ensures { result ≡ load_of loads.now copy }
{
    loads[usize::from(copy) - 1]
}

// The next one after the last, going round.
fn next_around(usable: &[u8], last: u8) -> Option<u8>
    requires { AreCopies usable.now }
    ensures { MatchOption result (usable.now ≡ []) (λ first. Contains usable.now first × IsNextAround usable.now last first) }
{
    first_after(usable, last).or(lowest(usable))
}

fn first_after(usable: &[u8], last: u8) -> Option<u8>
    ensures { result ≡ find (λ copy. nat_lt last copy) usable.now }
{
    usable.iter().copied().find(|copy| *copy > last)
}
