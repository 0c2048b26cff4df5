//! Numbers that a seed determines.
ghost use Rattle.std.specs.Prelude.{◌<◌};

/// Numbers that follow from a seed, their first state, and look random, by the generator SplitMix64.
#[derive(Clone, Copy)]
pub(crate) struct Random {
    pub(crate) state: u64,
}

impl Random {
    /// A number from 0 to one below `count`: the rest of the next number, of which any bits may be set.
    pub(crate) fn below(&mut self, count: u64) -> usize
        requires { 0 < count }
        ensures { result < count }
    {
        self.state = self.state.wrapping_add(0x9e37_79b9_7f4a_7c15);
        let mixed = (self.state ^ (self.state >> 30)).wrapping_mul(0xbf58_476d_1ce4_e5b9);
        let mixed = (mixed ^ (mixed >> 27)).wrapping_mul(0x94d0_49bb_1331_11eb);
        ((mixed ^ (mixed >> 31)) % count) as usize
    }

    /// True so often in 1,024 times.
    pub(crate) fn chance(&mut self, times: u32) -> bool {
        self.below(1024) < times as usize
    }
}
