//! The places at which events are due, and how each event changes them.
ghost use Rattle.std.specs.Prelude.{◌≡◌, ◌<◌, ◌≤◌, ℕ, Bool, true, false, List, Option, Some, length, slice_get};
ghost use Rattle.lvm_num.specs.Buffer.{Buffer};
ghost use Rattle.lvm_vol.specs.declared.entry.Outcome.{Outcome};
ghost use Rattle.lvm_path.specs.declared.ask.Ask.{Ask};
ghost use Rattle.lvm_session.specs.declared.event.Event.TheVariants as kind;
ghost use Rattle.lvm_session.specs.declared.flown.Owner.TheVariants as whose;
ghost use Rattle.lvm_session.specs.declared.open.Open.{Open};
ghost use Rattle.lvm_session.specs.Fields.{core_of};
ghost use Rattle.lvm_session.specs.State.{Core, State, state};
ghost use Rattle.lvm_session.specs.Judging.{is_waiting};
ghost use Rattle.lvm_session.specs.Calls.{after_take, submitted};
ghost use Rattle.lvm_session.specs.Events.{Admits, Lands, Pins, StartsData};
ghost use Rattle.lvm_session.specs.Ends.{DataLearns, Learns, NoteLearns};
ghost use Rattle.lvm_session.specs.Turns.{is_start, Makes};
ghost use Rattle.lvm_session.specs.Sound.{IsGoing, IsTold};
ghost use Rattle.lvm_due.specs.Due.{none, AddsMaking, Covers, HoldsPin, IsDue, NoneFailsAt, NoneFailsFor, ChangesOne};

use crate::below::any_is_failing;
use crate::making::{might_make_admission, might_make_data, might_make_landing, might_make_note};
use crate::phases::might_pin;
use crate::places::{add_if, entries, entries_if, freed_by, join};
use crate::quiet::{any_fails, is_quiet, place_of, stays_quiet};
use crate::span::Span;
use lvm_session::{Event, Owner, Session};

/// For each kind of event the places of the table at which it may be due; and whether some write may be failing, which is
/// looked for only where one may be.
#[derive(Clone, Copy)]
pub struct Due {
    pub landing: Span,
    pub admission: Span,
    pub pinning: Span,
    pub note: Span,
    pub data: Span,
    /// Whether it is known that no write is failing.
    pub unfailing: bool,
}

impl Due {
    /// Of a table of so many requests all places.
    pub fn all(len: usize) -> Due
        ensures { (core : Core) → length core.requests ≡ len → IsDue core result }
    {
        let span = Span::all(len);
        Due {
            landing: span,
            admission: span,
            pinning: span,
            note: span,
            data: span,
            unfailing: len == 0,
        }
    }

    // All places are due, and failing writes are looked for.
    fn fill(&mut self, session: &Session)
        ensures { IsDue (core_of session.now) self.new }
    {
        *self = Due::all(session.requests.len());
        self.unfailing = !any_is_failing(session);
    }

    // The request at a place might make the events that it shows by itself.
    fn add(&mut self, session: &Session, place: usize)
        requires { place < length session.now.requests.items }
        ensures { (o : Open) → slice_get session.now.requests.items place ≡ Some o → AddsMaking o.request place self.old self.new }
    {
        let request = &session.requests[place].request;
        add_if(&mut self.landing, place, might_make_landing(request));
        add_if(&mut self.admission, place, might_make_admission(request));
        add_if(&mut self.pinning, place, might_pin(request));
        add_if(&mut self.note, place, might_make_note(request));
        add_if(&mut self.data, place, might_make_data(request));
    }

    // The request at a place has changed: those that are freed may land or be admitted, and those of the entries may pin.
    fn moved(&mut self, session: &Session, place: usize, freed: Span, entries: Span)
        requires { place < length session.now.requests.items }
        ensures { (frees pins : Open → Bool) (old : Core) → Covers frees session.now.requests.items (length session.now.requests.items) freed → Covers pins session.now.requests.items (length session.now.requests.items) entries → ChangesOne frees pins old (core_of session.now) place → IsDue old self.old → IsDue (core_of session.now) self.new }
    {
        self.add(session, place);
        join(&mut self.landing, freed);
        join(&mut self.admission, freed);
        join(&mut self.pinning, entries);
    }

    // So it has, where nothing else has; else all places are due.
    fn moved_if(&mut self, session: &Session, place: usize, still: bool, freed: Span, entries: Span)
        requires { place < length session.now.requests.items }
        ensures { (frees pins : Open → Bool) (old : Core) → Covers frees session.now.requests.items (length session.now.requests.items) freed → Covers pins session.now.requests.items (length session.now.requests.items) entries → (still ≡ true → ChangesOne frees pins old (core_of session.now) place) → IsDue old self.old → IsDue (core_of session.now) self.new }
    {
        if still {
            self.moved(session, place, freed, entries);
        } else {
            self.fill(session);
        }
    }

    /// The request at a place has landed; it held a pin before, where this is so.
    pub fn landed(&mut self, session: &Session, place: usize, pinned: bool)
        requires there { place < length session.now.requests.items }
        ensures { (old : State) (how : Outcome) → IsGoing old.core → HoldsPin old.core place pinned → Lands old (state old.device (core_of session.now)) place how → IsDue old.core self.old → IsDue (core_of session.now) self.new }
    {
        let freed = freed_by(session, &session.requests[place].request.ask);
        let still = is_quiet(session, place);
        self.moved_if(session, place, still, freed, entries_if(session, pinned));
        self.landing.skip(place);
    }

    /// It has been admitted; the session was quiet there before, and it held a pin, where this is so.
    pub fn admitted(&mut self, session: &Session, place: usize, quiet: bool, pinned: bool)
        requires there { place < length session.now.requests.items }
        ensures { (old : State) → IsGoing old.core → (quiet ≡ true → NoneFailsAt old.core place) → HoldsPin old.core place pinned → Admits old (state old.device (core_of session.now)) place → IsDue old.core self.old → IsDue (core_of session.now) self.new }
    {
        let still = stays_quiet(session, place, quiet);
        self.moved_if(
            session,
            place,
            still,
            Span::all(0),
            entries_if(session, pinned),
        );
    }

    /// It has pinned its track group.
    pub fn pinned(&mut self, session: &Session, place: usize)
        requires there { place < length session.now.requests.items }
        ensures { (old : State) → IsGoing old.core → Pins old (state old.device (core_of session.now)) place → IsDue old.core self.old → IsDue (core_of session.now) self.new }
    {
        self.moved(session, place, Span::all(0), entries(session));
    }

    // A transfer of the request at a place has been started.
    fn data_started(&mut self, session: &Session, place: usize)
        requires { place < length session.now.requests.items }
        ensures { (old new : State) (target : ℕ) → new.core ≡ core_of session.now → StartsData old new place target → IsDue old.core self.old → IsDue new.core self.new }
    {
        let fails = any_fails(session, place);
        self.moved_if(session, place, !fails, Span::all(0), Span::all(0));
    }

    /// A transfer has been started.
    pub fn started(&mut self, session: &Session, event: Event)
        requires there { (place target : ℕ) → event ≡ kind.StartData place target → place < length session.now.requests.items }
        ensures { (old new : State) → IsGoing old.core → new.core ≡ core_of session.now → is_start event ≡ true → Makes event old new → IsDue old.core self.old → IsDue new.core self.new }
    {
        match event {
            Event::StartData { place, .. } => self.data_started(session, place),
            // It names no track group that wasn't named, and no other note may start there.
            Event::StartNote { .. } => {}
            _ => self.fill(session),
        }
    }

    // The transfer of the request at a place has ended well.
    fn data_ended_at(&mut self, session: &Session, place: usize, quiet: bool)
        requires { place < length session.now.requests.items }
        ensures { (old : Core) → (quiet ≡ true → NoneFailsAt (core_of session.now) place → ChangesOne none none old (core_of session.now) place) → IsDue old self.old → IsDue (core_of session.now) self.new }
    {
        let still = stays_quiet(session, place, quiet);
        self.moved_if(session, place, still, Span::all(0), Span::all(0));
    }

    // The transfer of the request of a number has ended well.
    fn data_ended(&mut self, session: &Session, id: u64, quiet: bool)
        ensures { (old : Core) (at target : ℕ) (buf : Buffer) → IsGoing old → (quiet ≡ true → NoneFailsFor old (whose.Data id target)) → DataLearns old at id target true buf (core_of session.now) → IsDue old self.old → IsDue (core_of session.now) self.new }
    {
        match place_of(session, id) {
            None => self.fill(session),
            Some(place) => self.data_ended_at(session, place, quiet),
        }
    }

    // A note has ended well: more track groups may be named, and another note may start there.
    fn note_ended(&mut self, session: &Session)
        ensures { (old : Core) (at disk : ℕ) (buf : Buffer) → NoteLearns old at disk true buf (core_of session.now) → IsDue old self.old → IsDue (core_of session.now) self.new }
    {
        let all = Span::all(session.requests.len());
        self.note = all;
        self.data = all;
    }

    // A transfer has ended well.
    fn ended_well(&mut self, session: &Session, owner: Owner, quiet: bool)
        ensures { (old : Core) (at : ℕ) (buf : Buffer) → IsGoing old → (quiet ≡ true → NoneFailsFor old owner) → Learns owner old at true buf (core_of session.now) → IsDue old self.old → IsDue (core_of session.now) self.new }
    {
        match owner {
            Owner::Data { id, .. } => self.data_ended(session, id, quiet),
            Owner::Note { .. } => self.note_ended(session),
            Owner::Status { .. } | Owner::Copy => self.fill(session),
        }
    }

    /// A transfer has ended, and its owner has learned how; the session was quiet before at the place of its request, where
    /// this is so.
    pub fn ended(&mut self, session: &Session, owner: Owner, ok: bool, quiet: bool)
        ensures { (old : Core) (at : ℕ) (buf : Buffer) → IsGoing old → (quiet ≡ true → NoneFailsFor old owner) → Learns owner old at ok buf (core_of session.now) → IsDue old self.old → IsDue (core_of session.now) self.new }
    {
        if ok {
            self.ended_well(session, owner, quiet);
        } else {
            self.fill(session);
        }
    }

    /// A request has begun.
    pub fn submitted(&mut self, session: &Session)
        requires some { 1 ≤ length session.now.requests.items }
        ensures { (old : Core) (client : ℕ) (ask : Ask) (bytes : Option (List ℕ)) → IsTold old → core_of session.now ≡ submitted old client ask bytes → IsDue old self.old → IsDue (core_of session.now) self.new }
    {
        self.add(session, session.requests.len() - 1);
    }

    /// A request that had landed has left the table.
    pub fn taken(&mut self, session: &Session)
        ensures { (old : Core) (place id : ℕ) (o : Open) → slice_get old.requests place ≡ Some o → is_waiting o ≡ false → core_of session.now ≡ after_take old place id → IsDue old self.old → IsDue (core_of session.now) self.new }
    {
        let len = session.requests.len();
        self.landing.leave(len);
        self.admission.leave(len);
        self.pinning.leave(len);
        self.note.leave(len);
        self.data.leave(len);
    }
}
