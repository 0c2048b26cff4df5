//! The number of a plate.
ghost use Rattle.std.specs.Prelude.{◌≡◌, ◌↔◌, ◌≤◌, IsSome, IfSome};
ghost use Rattle.cell_types.specs.Limits.{max_plates};

use crate::MAX_PLATES;
use std::marker::Model;

/// A plate's number, from 1 to 100,000. The limit is this project's profile.
#[derive(Clone, Copy, Debug, PartialEq, Eq, Hash)]
pub struct PlateId {
    number: u32,
}

impl Model for PlateId {
    ghost use Rattle.std.specs.Prelude.{ℕ, ◌≤◌};
    ghost use Rattle.cell_types.specs.Limits.{max_plates};

    ghost Value = { ℕ };

    ghost view = { λ p. p.number };

    ghost invariant = { λ p. (1 ≤ p.number) × (p.number ≤ max_plates) };

    ghost inverse = { λ n. record { number = n } };
}

impl PlateId {
    /// The plate of this number; `None` outside 1..=100,000.
    pub fn new(number: u32) -> Option<Self>
        ensures valid { IsSome result ↔ (1 ≤ number) × (number ≤ max_plates) }
        ensures value { IfSome result (λ plate. plate ≡ number) }
    {
        if 1 <= number && number <= MAX_PLATES {
            Some(PlateId { number })
        } else {
            None
        }
    }

    /// The plate's number.
    pub fn number(self) -> u32
        ensures value { result ≡ self }
        ensures positive { 1 ≤ result }
        ensures limited { result ≤ max_plates }
    {
        self.number
    }
}

/// The first plate's number. A list of fixed capacity fills its unused places with it.
impl Default for PlateId {
    fn default() -> Self
        ensures { result ≡ 1 }
    {
        PlateId { number: 1 }
    }
}
