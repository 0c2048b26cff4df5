//! A port that tells what it was asked and fails as a test wants.
ghost use Rattle.std.specs.Prelude.{◌≡◌, ◌+◌, true, if◌then◌else◌};

use crate::Failing;
use cell_diagnosis::Reading;
use cell_ports::{Port, PortFault};
use cell_types::Command;
use std::alloc::{AllocError, Global};

/// A port over another. It keeps its answers and its commands in room that was reserved when it was made. It fails at
/// some of its commands, and at all for which no room is left; those don't reach the other port. It tells until an
/// answer found no room, or its failures can't be counted.
#[derive(Debug, Drop)]
pub struct TellingPort<P> {
    port: P,
    failing: Failing,
    asked: u32,
    answers: Vec<Option<Reading>>,
    sent: Vec<Command>,
    failures: u32,
    telling: bool,
}

impl<P> TellingPort<P> {
    /// A port over another, with room for so many answers and as many commands.
    pub fn new(
        alloc: Global,
        port: P,
        failing: Failing,
        room: usize,
    ) -> Result<TellingPort<P>, AllocError>
    where
        P: Drop,
    {
        Ok(TellingPort {
            port,
            failing,
            asked: 0,
            answers: Vec::with_capacity(alloc, room)?,
            sent: Vec::with_capacity(alloc, room)?,
            failures: 0,
            telling: true,
        })
    }

    /// At which of its commands it was to fail.
    pub fn failing(&self) -> Failing {
        self.failing
    }

    /// How many commands it was asked to send.
    pub fn asked(&self) -> u32 {
        self.asked
    }

    /// How many answers it gave to `read`, where it still tells.
    pub fn answer_count(&self) -> Option<usize> {
        if self.telling {
            Some(self.answers.len())
        } else {
            None
        }
    }

    /// The commands that it was sent, where it still tells.
    pub fn sent(&self) -> Option<&[Command]> {
        if self.telling {
            Some(self.sent.as_slice())
        } else {
            None
        }
    }

    /// How many of its commands failed.
    pub fn failures(&self) -> u32 {
        self.failures
    }

    fn count_failure(&mut self)
        ensures still { self.new.telling ≡ true → self.old.telling ≡ true }
        ensures counted { self.new.telling ≡ true → self.new.failures ≡ self.old.failures + 1 }
        ensures lists { (self.new.answers ≡ self.old.answers) × (self.new.sent ≡ self.old.sent) }
    {
        match self.failures.checked_add(1) {
            Some(failures) => self.failures = failures,
            None => self.telling = false,
        }
    }
}

impl<P: Port> Port for TellingPort<P> {
    ghost tells = { λ p. p.telling };

    ghost log = { λ p. record { answers = p.answers.items; sent = p.sent.items; failures = p.failures } };

    fn read(&mut self) -> Option<Reading> {
        let reading = self.port.read();
        if self.answers.len() < self.answers.capacity() {
            self.answers.push_reserved(reading);
        } else {
            self.telling = false;
        }
        reading
    }

    fn command(&mut self, command: Command) -> Result<(), PortFault> {
        self.asked = self.asked.saturating_add(1);
        if self.failing.fails(self.asked)
            || self.sent.len() >= self.sent.capacity()
            || self.port.command(command).is_err()
        {
            self.count_failure();
            return Err(PortFault);
        }
        self.sent.push_reserved(command);
        Ok(())
    }
}
