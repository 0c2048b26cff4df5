//! What the workers reach: the ports of machines, and the operator's hands.
use cell_diagnosis::Reading;
use cell_types::{Command, Machine, Station};

/// The device failed.
#[derive(Clone, Copy, PartialEq, Eq, Debug)]
pub struct PortFault;

/// A machine's port. It may tell what it was asked: its answers to `read`, the commands that it sent, and how many of
/// its commands failed. A port that stores neither lists nor count, or whose lists or count can hold no more, needn't
/// tell them; one that ceased to tell doesn't begin again.
pub trait Port {
    ghost use Rattle.std.specs.Prelude.{◌≡◌, Bool, true, false, is_ok};
    ghost use Rattle.cell_ports.specs.Logs.{Log, no_log, after_read, after_command};

    /// Whether it tells what it was asked.
    ghost tells: { Self → Bool } = { λ _. false };

    /// What it was asked, where it tells.
    ghost log: { Self → Log } = { λ _. no_log };

    /// What the machine's switches and sensors show; `None` where the reading is missing.
    fn read(&mut self) -> Option<Reading>
        ensures still { tells self.new ≡ true → tells self.old ≡ true }
        ensures told { tells self.new ≡ true → log self.new ≡ after_read (log self.old) result };

    /// Sends a command. It fails only where the device failed in this call; the command then isn't sent.
    fn command(&mut self, command: Command) -> Result<(), PortFault>
        ensures still { tells self.new ≡ true → tells self.old ≡ true }
        ensures told { tells self.new ≡ true → log self.new ≡ after_command (log self.old) command (is_ok result) };
}

/// What the operator does by hand.
#[derive(Clone, Copy, PartialEq, Eq, Debug)]
pub enum Act {
    /// Takes out the plate at a station.
    Remove(Station),
    /// Puts the axes of a machine at home.
    Home(Machine),
}

/// The operator's hands. They may tell what they did: the acts in order, and how many failed, as a `Port` tells its
/// commands.
pub trait OperatorPort {
    ghost use Rattle.std.specs.Prelude.{◌≡◌, Bool, true, false, is_ok};
    ghost use Rattle.cell_ports.specs.Logs.{ActLog, no_acts, after_act};

    /// Whether it tells what it did.
    ghost tells: { Self → Bool } = { λ _. false };

    /// What it did, where it tells.
    ghost log: { Self → ActLog } = { λ _. no_acts };

    /// Takes out the plate at a station. It fails only where the device failed in this call.
    fn remove(&mut self, station: Station) -> Result<(), PortFault>
        ensures still { tells self.new ≡ true → tells self.old ≡ true }
        ensures told { tells self.new ≡ true → log self.new ≡ after_act (log self.old) (Act.Remove station)
            (is_ok result) };

    /// Puts the axes of a machine at home. It fails only where the device failed in this call.
    fn home(&mut self, machine: Machine) -> Result<(), PortFault>
        ensures still { tells self.new ≡ true → tells self.old ≡ true }
        ensures told { tells self.new ≡ true → log self.new ≡ after_act (log self.old) (Act.Home machine)
            (is_ok result) };
}
