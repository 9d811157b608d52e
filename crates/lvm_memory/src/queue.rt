//! Which transfer in memory is next.
ghost use Rattle.std.specs.Prelude.{◌≡◌, ◌≤◌, ◌<◌, ◌==◌, false, if◌then◌else◌, length, Some, slice_get, vec_capacity};
ghost use Rattle.std.specs.List.{position, list_any, remove};
ghost use Rattle.lvm_memory.specs.Flights.{delayed, passed, NoDelays, flight_of, flights_of, delays_of};
ghost use Rattle.lvm_memory.specs.Tickets.{IsLeastFree, AreBitsOf, AllTaken};

use crate::flying::Flying;

// Which of the tickets below 64 some transfer has, as the bits of a word.
fn taken_of(flights: &[Flying]) -> u64
    ensures { AreBitsOf flights.now result }
{
    let mut taken = 0;
    for flying in flights {
        if flying.ticket < 64 {
            taken |= 1 << flying.ticket;
        }
    }
    taken
}

// Whether some transfer has the ticket.
fn is_taken(flights: &[Flying], ticket: u64) -> bool
    ensures { result ≡ list_any (λ flying. flying.ticket == ticket) flights.now }
{
    flights.iter().any(|flying| flying.ticket == ticket)
}

// The least ticket that no transfer has, where those below 64 are taken.
fn later_ticket(flights: &[Flying]) -> u64
    requires taken { AllTaken 64 flights.now }
    requires few { length flights.now < 1024 }
    ensures least { IsLeastFree result (flights_of flights.now) }
    ensures few { result ≤ length flights.now }
{
    let mut ticket = 64;
    while is_taken(flights, ticket) {
        ticket += 1;
    }
    ticket
}

/// The least ticket that no transfer has.
pub fn free_ticket(flights: &[Flying]) -> u64
    requires few { length flights.now < 1024 }
    ensures least { IsLeastFree result (flights_of flights.now) }
    ensures few { result ≤ length flights.now }
{
    let taken = taken_of(flights);
    if taken == u64::MAX {
        later_ticket(flights)
    } else {
        taken.trailing_ones() as u64
    }
}

/// The place of the oldest transfer that isn't passed over.
pub fn first_due(flights: &[Flying]) -> Option<usize>
    ensures { result ≡ position (λ flying. flying.delay == 0) flights.now }
{
    flights.iter().position(|flying| flying.delay == 0)
}

/// Counts a reap that passed over those that are to be.
pub fn pass_over(flights: &mut [Flying])
    ensures flights { flights_of flights.new ≡ flights_of flights.old }
    ensures delays { delays_of flights.new ≡ passed (delays_of flights.old) }
{
    for flying in flights.iter_mut() {
        flying.delay = flying.delay.saturating_sub(1);
    }
}

// How many reaps pass a transfer over, where those with this ticket are to be passed over by so many.
fn delay_of(flying: &Flying, ticket: u64, delay: u32) -> u32
    ensures { result ≡ (if flying.now.ticket == ticket then delay else flying.now.delay) }
{
    if flying.ticket == ticket {
        delay
    } else {
        flying.delay
    }
}

/// Has the transfers with this ticket passed over by so many reaps.
pub fn delay_by_ticket(flights: &mut [Flying], ticket: u64, delay: u32)
    ensures flights { flights_of flights.new ≡ flights_of flights.old }
    ensures delays { delays_of flights.new ≡ delayed ticket delay flights.old }
{
    for flying in flights.iter_mut() {
        flying.delay = delay_of(flying, ticket, delay);
    }
}

// Takes a transfer out, and passes over the others.
fn take_from_delayed(flights: &mut Vec<Flying>, place: usize) -> Flying
    requires { place < length flights.old.items }
    ensures there { slice_get (flights_of flights.old.items) place ≡ Some (flight_of result) }
    ensures flights { flights_of flights.new.items ≡ remove (flights_of flights.old.items) place }
    ensures delays { delays_of flights.new.items ≡ passed (remove (delays_of flights.old.items) place) }
    ensures capacity { vec_capacity flights.new ≡ vec_capacity flights.old }
{
    let flying = flights.remove(place);
    pass_over(flights);
    flying
}

/// Takes a transfer out, and counts the reap that does so as one that passed over the others. `delayed` is
/// false only where none is to be passed over.
pub fn take_flight(flights: &mut Vec<Flying>, place: usize, delayed: bool) -> Flying
    requires there { place < length flights.old.items }
    requires delayed { delayed ≡ false → NoDelays (delays_of flights.old.items) }
    ensures there { slice_get (flights_of flights.old.items) place ≡ Some (flight_of result) }
    ensures flights { flights_of flights.new.items ≡ remove (flights_of flights.old.items) place }
    ensures delays { delays_of flights.new.items ≡ passed (remove (delays_of flights.old.items) place) }
    ensures capacity { vec_capacity flights.new ≡ vec_capacity flights.old }
{
    if delayed {
        take_from_delayed(flights, place)
    } else {
        flights.remove(place)
    }
}
