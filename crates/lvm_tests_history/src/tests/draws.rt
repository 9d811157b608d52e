//! Numbers drawn from a seed.
ghost use Rattle.std.specs.Prelude.{◌<◌};

/// A number below a limit.
pub fn draw(seed: &mut u64, below: u64) -> u64
    requires { 0 < below }
    ensures { result < below }
{
    *seed = seed
        .wrapping_mul(6_364_136_223_846_793_005)
        .wrapping_add(1_442_695_040_888_963_407);
    (*seed >> 33) % below
}
