//! A port and hands that reach no machine.
use cell_diagnosis::Reading;
use cell_ports::{OperatorPort, Port, PortFault};
use cell_turns::Six;
use cell_types::{Command, Machine, Station};

/// A port that shows the same reading for ever, and takes every command.
#[derive(Clone, Copy, PartialEq, Eq, Debug)]
pub struct StillPort {
    pub shown: Option<Reading>,
}

impl StillPort {
    /// Such a port for each machine.
    pub fn for_all(self) -> Six<StillPort> {
        Six {
            feed: self,
            table: self,
            robot: self,
            press1: self,
            press2: self,
            deposit: self,
        }
    }
}

impl Port for StillPort {
    fn read(&mut self) -> Option<Reading> {
        self.shown
    }

    fn command(&mut self, _command: Command) -> Result<(), PortFault> {
        Ok(())
    }
}

/// Hands that do every act.
#[derive(Clone, Copy, PartialEq, Eq, Debug)]
pub struct StillHands;

impl OperatorPort for StillHands {
    fn remove(&mut self, _station: Station) -> Result<(), PortFault> {
        Ok(())
    }

    fn home(&mut self, _machine: Machine) -> Result<(), PortFault> {
        Ok(())
    }
}
