//! At which of its calls a device fails.

/// At which of its commands a port fails, or at which of their acts hands fail, counted from 1.
#[derive(Clone, Copy, PartialEq, Eq, Debug)]
pub enum Failing {
    Never,
    /// At this one alone.
    At(u32),
    /// At each whose number this divides.
    Each(u32),
    Always,
}

impl Failing {
    /// Whether it fails at the call of this number.
    pub fn fails(self, number: u32) -> bool {
        match self {
            Failing::Never => false,
            Failing::At(place) => number == place,
            Failing::Each(step) => number.checked_rem(step) == Some(0),
            Failing::Always => true,
        }
    }
}
