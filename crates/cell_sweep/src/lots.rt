//! Numbers that are drawn.
ghost use Rattle.std.specs.Prelude.{◌≡◌, ◌<◌};
ghost use Rattle.cell_sweep.specs.Cases.{below, generator_of};

use rand_core::SeedableRng;
use rand_core::utils::NextWord;
use rand_xoshiro::Xoshiro256PlusPlus;

/// The numbers that are drawn for a run: those of one generator.
#[derive(Drop)]
pub(crate) struct Lots {
    pub(crate) generator: Xoshiro256PlusPlus,
}

impl Lots {
    /// The lots of a run. Each run of a seed has a generator of its own.
    #[tactic(auto, unfolding(crate::specs::Cases::generator_of))]
    pub(crate) fn of_run(seed: u32, run: u64) -> Lots
        ensures { result.generator ≡ generator_of seed run }
    {
        let state = (u64::from(seed) * 0x1_0000_0000).wrapping_add(run);
        Lots {
            generator: Xoshiro256PlusPlus::seed_from_u64(state),
        }
    }

    /// A number below another, evenly: the upper half of its product with 64 drawn bits.
    #[tactic(auto, unfolding(crate::specs::Cases::below))]
    pub(crate) fn below(&mut self, limit: u64) -> u64
        requires { 0 < limit }
        ensures inside { result < limit }
        ensures drawn { (result, self.new.generator) ≡ below limit self.old.generator }
    {
        let product = u128::from(self.generator.next_word()) * u128::from(limit);
        (product / 0x1_0000_0000_0000_0000) as u64
    }
}
