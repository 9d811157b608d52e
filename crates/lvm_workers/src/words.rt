//! Words are drawn, three for each request.
ghost use Rattle.std.specs.Prelude.{◌≡◌};
ghost use Rattle.lvm_workers.specs.Draws.{after_draw, after_word, blocks_of, draw_at, is_write, seeded, word_at};

use rand_core::SeedableRng;
use rand_core::utils::NextWord;
use rand_pcg::Lcg64Xsh32;

// A request has at most so many blocks.
const MOST_BLOCKS: u32 = 8;

/// The three words that a request is made of.
#[derive(Clone, Copy)]
pub struct Draw {
    /// Where it begins, by the remainder.
    pub at: u32,
    /// How many blocks it has, by the remainder.
    pub count: u32,
    /// Whether it is a write, by being odd.
    pub kind: u32,
}

/// The generator of words that a seed makes.
pub fn generator(seed: u64) -> Lcg64Xsh32
    ensures { result ≡ seeded seed }
{
    Lcg64Xsh32::seed_from_u64(seed)
}

/// Draws the next word.
pub fn next_word(rng: &mut Lcg64Xsh32) -> u32
    ensures word { result ≡ word_at rng.old }
    ensures after { rng.new ≡ after_word rng.old }
{
    rng.next_word()
}

/// Draws the words of a request.
pub fn draw_request(rng: &mut Lcg64Xsh32) -> Draw
    ensures words { result ≡ draw_at rng.old }
    ensures after { rng.new ≡ after_draw rng.old }
{
    let at = next_word(rng);
    let count = next_word(rng);
    let kind = next_word(rng);
    Draw { at, count, kind }
}

impl Draw {
    /// Whether it is a write.
    pub fn is_write(&self) -> bool
        ensures { result ≡ is_write self.now }
    {
        self.kind % 2 == 1
    }

    /// How many blocks it has where no border is near.
    pub fn blocks(&self) -> u32
        ensures { result ≡ blocks_of self.now }
    {
        1 + self.count % MOST_BLOCKS
    }
}
