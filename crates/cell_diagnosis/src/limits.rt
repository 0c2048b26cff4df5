//! How many readings a motion may take.
ghost use Rattle.std.specs.Prelude.{◌≡◌, ◌↔◌, ◌≤◌, IsSome, IfSome};
ghost use Rattle.cell_diagnosis.specs.Bounds.{AreBounds};

use std::marker::Model;

/// Two numbers of readings, counted from a motion's start: at reading LEAVE an axis that has shown nothing but its
/// first pose hasn't left, and at reading LIMIT a motion that hasn't ended is late. LEAVE is 2 to 999, and LIMIT is
/// above it and at most 1000: the ranges of this project's settings.
#[derive(Clone, Copy, Debug, PartialEq, Eq)]
pub struct Limits {
    leave: u16,
    limit: u16,
}

impl Model for Limits {
    ghost use Rattle.cell_diagnosis.specs.Bounds.{Bounds, AreBounds};

    ghost Value = { Bounds };

    ghost view = { λ l. record { leave = l.leave; limit = l.limit } };

    ghost invariant = { λ l. AreBounds l.leave l.limit };

    ghost inverse = { λ b. record { leave = b.leave; limit = b.limit } };
}

impl Limits {
    /// These limits, or None where `leave` is outside 2 to 999 or `limit` is outside `leave + 1` to 1000.
    pub fn new(leave: u16, limit: u16) -> Option<Self>
        ensures valid { IsSome result ↔ AreBounds leave limit }
        ensures value { IfSome result (λ limits. limits ≡ record { leave = leave; limit = limit }) }
    {
        if 2 <= leave && leave <= 999 && leave < limit && limit <= 1000 {
            Some(Limits { leave, limit })
        } else {
            None
        }
    }

    /// By which reading the axis has to have left its first pose, 2 to 999.
    pub fn leave(self) -> u16
        ensures value { result ≡ self.leave }
        ensures least { 2 ≤ result }
        ensures most { result ≤ 999 }
    {
        self.leave
    }

    /// By which reading the motion has to have ended, 3 to 1000.
    pub fn limit(self) -> u16
        ensures value { result ≡ self.limit }
        ensures least { 3 ≤ result }
        ensures most { result ≤ 1000 }
    {
        self.limit
    }
}
