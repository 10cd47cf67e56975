//! The generator of a seed.
ghost use Rattle.std.specs.Prelude.{◌≡◌};
ghost use Rattle.pm_draw.specs.Drawn.{generator_of};

use rand_pcg::Pcg64;

/// The generator that [`Pcg64::new`] gives for the seed as its state, and the stream 0.
pub fn rng_of(seed: u64) -> Pcg64
    ensures { result ≡ generator_of seed }
{
    Pcg64::new(u128::from(seed), 0)
}
