//! At which places of the table events of a kind may be due.
ghost use Rattle.std.specs.Prelude.{◌≡◌, ◌<◌, ◌+◌, ◌^◌};
ghost use Rattle.lvm_due.specs.Spans.{Adds, Shifts, Skips};

/// Places of the table, from 0: from one on, up to another.
#[derive(Clone, Copy)]
pub struct Span {
    pub from: usize,
    pub to: usize,
}

impl Span {
    /// The first places, so many.
    pub fn all(len: usize) -> Span
        ensures { result ≡ record { from = 0; to = len } }
    {
        Span { from: 0, to: len }
    }

    /// With a place more, and those between.
    pub fn add(&mut self, place: usize)
        requires { place + 1 < 2 ^ 64 }
        ensures { Adds place self.old self.new }
    {
        if self.from < self.to {
            self.from = self.from.min(place);
            self.to = self.to.max(place + 1);
        } else {
            self.from = place;
            self.to = place + 1;
        }
    }

    /// A request left the table, and so many are left: those that stood behind it stand one place lower.
    pub fn leave(&mut self, len: usize)
        ensures { Shifts len self.old self.new }
    {
        if self.from < self.to {
            self.from = self.from.saturating_sub(1);
        }
        self.to = self.to.min(len);
    }

    /// A place is left out, where it is the first.
    pub fn skip(&mut self, place: usize)
        requires { place + 1 < 2 ^ 64 }
        ensures { Skips place self.old self.new }
    {
        if self.from == place {
            self.from += 1;
        }
    }
}
