//! How often each refusal came.
ghost use Rattle.std.specs.Prelude.{◌<◌};

use plate_book::Refusal;

/// How many refusals there are.
const KINDS: usize = 20;

/// How often each refusal came, in their order.
#[derive(Clone, Copy, Debug)]
pub(crate) struct Refusals {
    /// Of each the first that came, and how often it did. At `u32::MAX` a count stays.
    kinds: [Option<(Refusal, u32)>; KINDS],
}

// A refusal's place in their order, from 0.
fn place_of(why: Refusal) -> usize
    ensures { result < 20 }
{
    match why {
        Refusal::JournalFull => 0,
        Refusal::PlateLimit => 1,
        Refusal::MachineFailed(_) => 2,
        Refusal::MachineHealthy(_) => 3,
        Refusal::OwnerFailed(_) => 4,
        Refusal::WrongPose(_) => 5,
        Refusal::ZoneTaken(_) => 6,
        Refusal::NotHolder(_) => 7,
        Refusal::NotNeighbour => 8,
        Refusal::StationEmpty(_) => 9,
        Refusal::StationFull(_) => 10,
        Refusal::WrongPlate => 11,
        Refusal::LampRed(_) => 12,
        Refusal::LampAlready(_) => 13,
        Refusal::NoPress => 14,
        Refusal::AlreadyAsked(_) => 15,
        Refusal::PlateStillThere(_) => 16,
        Refusal::PlateExpected => 17,
        Refusal::NotReturnable => 18,
        Refusal::OutOfMemory => 19,
    }
}

impl Refusals {
    /// None came yet.
    pub(crate) fn none() -> Refusals {
        Refusals {
            kinds: [None; KINDS],
        }
    }

    /// Counts one that came.
    pub(crate) fn count(&mut self, why: Refusal) {
        let place = place_of(why);
        self.kinds[place] = match self.kinds[place] {
            Some((first, count)) => Some((first, count.saturating_add(1))),
            None => Some((why, 1)),
        };
    }

    /// How many came. At `u32::MAX` the count stays.
    pub(crate) fn total(&self) -> u32 {
        let mut total: u32 = 0;
        for kind in self.kinds {
            if let Some((_, count)) = kind {
                total = total.saturating_add(count);
            }
        }
        total
    }

    /// Those that came, in their order, each with how often it did.
    pub(crate) fn kinds(&self) -> [Option<(Refusal, u32)>; KINDS] {
        self.kinds
    }
}
