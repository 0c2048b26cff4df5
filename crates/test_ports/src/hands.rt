//! The operator's hands, which tell what they did and fail as a test wants.
ghost use Rattle.std.specs.Prelude.{◌≡◌, ◌+◌, ◌++◌, ◌∷◌, [], true, is_ok, if◌then◌else◌};

use crate::Failing;
use cell_ports::{Act, OperatorPort, PortFault};
use cell_types::{Machine, Station};
use std::alloc::{AllocError, Global};

/// Hands over others. They keep their acts in room that was reserved when they were made, and fail at some of those,
/// and at all for which no room is left; what failed isn't done. Some fail at acts of one kind alone. They tell until
/// their failures can't be counted.
#[derive(Debug, Drop)]
pub struct TellingHands<O> {
    hands: O,
    removing: Failing,
    homing: Failing,
    asked: u32,
    acts: Vec<Act>,
    failures: u32,
    telling: bool,
}

impl<O> TellingHands<O> {
    /// Hands over others, with room for so many acts: at which of all acts, by their number, taking out a plate fails,
    /// and at which putting a machine at home.
    pub fn new(
        alloc: Global,
        hands: O,
        removing: Failing,
        homing: Failing,
        room: usize,
    ) -> Result<TellingHands<O>, AllocError>
    where
        O: Drop,
    {
        Ok(TellingHands {
            hands,
            removing,
            homing,
            asked: 0,
            acts: Vec::with_capacity(alloc, room)?,
            failures: 0,
            telling: true,
        })
    }

    /// How many acts they were asked to do.
    pub fn asked(&self) -> u32 {
        self.asked
    }

    /// The acts that they did, where they still tell.
    pub fn acts(&self) -> Option<&[Act]> {
        if self.telling {
            Some(self.acts.as_slice())
        } else {
            None
        }
    }

    /// How many acts failed.
    pub fn failures(&self) -> u32 {
        self.failures
    }

    // Whether the next act fails without the other hands, and is counted.
    fn begin(&mut self, failing: Failing) -> bool
        ensures telling { self.new.telling ≡ self.old.telling }
        ensures acts { self.new.acts ≡ self.old.acts }
        ensures failures { self.new.failures ≡ self.old.failures }
    {
        self.asked = self.asked.saturating_add(1);
        failing.fails(self.asked)
    }

    // Keeps an act that was done or failed, and answers that.
    fn keep(&mut self, act: Act, done: bool) -> Result<(), PortFault>
        ensures still { self.new.telling ≡ true → self.old.telling ≡ true }
        ensures acts { self.new.telling ≡ true
            → self.new.acts.items ≡ self.old.acts.items ++ (if is_ok result then act ∷ [] else []) }
        ensures failures { self.new.telling ≡ true
            → self.new.failures ≡ self.old.failures + (if is_ok result then 0 else 1) }
    {
        if done && self.acts.len() < self.acts.capacity() {
            self.acts.push_reserved(act);
            return Ok(());
        }
        match self.failures.checked_add(1) {
            Some(failures) => self.failures = failures,
            None => self.telling = false,
        }
        Err(PortFault)
    }

    fn has_room(&self) -> bool {
        self.acts.len() < self.acts.capacity()
    }
}

impl<O: OperatorPort> OperatorPort for TellingHands<O> {
    ghost tells = { λ p. p.telling };

    ghost log = { λ p. record { acts = p.acts.items; failures = p.failures } };

    fn remove(&mut self, station: Station) -> Result<(), PortFault> {
        let fails = self.begin(self.removing) || !self.has_room();
        let done = !fails && self.hands.remove(station).is_ok();
        self.keep(Act::Remove(station), done)
    }

    fn home(&mut self, machine: Machine) -> Result<(), PortFault> {
        let fails = self.begin(self.homing) || !self.has_room();
        let done = !fails && self.hands.home(machine).is_ok();
        self.keep(Act::Home(machine), done)
    }
}
