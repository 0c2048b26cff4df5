//! A whole cell that is always reached, lent to one step: to the port of the machine whose turn it is, or to the
//! operator's hands.
use cell_diagnosis::Reading;
use cell_plant::Plant;
use cell_turns::Six;
use cell_types::{Command, Machine, Station};
use cell_workers::{OperatorPort, Port, PortFault, Ports, Step};

/// A machine's port in a cell that is lent to it, if it is. Without it nothing is shown, and no command is sent.
/// Nothing is told of what it was asked.
#[derive(Drop)]
pub(crate) struct LentPort<'a, C> {
    machine: Machine,
    plant: Option<&'a mut C>,
}

impl<C: Plant> Port for LentPort<'_, C> {
    fn read(&mut self) -> Option<Reading> {
        match &mut self.plant {
            Some(plant) => plant.read(self.machine),
            None => None,
        }
    }

    fn command(&mut self, command: Command) -> Result<(), PortFault> {
        let sent = match &mut self.plant {
            Some(plant) => plant.command(self.machine, command) == Ok(true),
            None => false,
        };
        if sent { Ok(()) } else { Err(PortFault) }
    }
}

/// The operator's hands in a cell that is lent to them, if it is. Without it each act fails. Nothing is told of what
/// they did.
#[derive(Drop)]
pub(crate) struct LentHands<'a, C> {
    pub(crate) plant: Option<&'a mut C>,
}

impl<C: Plant> OperatorPort for LentHands<'_, C> {
    fn remove(&mut self, station: Station) -> Result<(), PortFault> {
        let done = match &mut self.plant {
            Some(plant) => plant.remove(station) == Ok(true),
            None => false,
        };
        if done { Ok(()) } else { Err(PortFault) }
    }

    fn home(&mut self, machine: Machine) -> Result<(), PortFault> {
        let done = match &mut self.plant {
            Some(plant) => plant.home(machine) == Ok(true),
            None => false,
        };
        if done { Ok(()) } else { Err(PortFault) }
    }
}

// The port of a machine, to which nothing is lent yet.
fn port_of<'a, C>(machine: Machine) -> LentPort<'a, C> {
    LentPort {
        machine,
        plant: None,
    }
}

/// The ports of a cell's machines. Where the step is a machine's turn, the cell is lent to that machine's.
pub(crate) fn lend_port<'a, C>(
    step: &Step,
    lent: &mut Option<&'a mut C>,
) -> Ports<LentPort<'a, C>> {
    let mut ports = Six {
        feed: port_of(Machine::Feed),
        table: port_of(Machine::Table),
        robot: port_of(Machine::Robot),
        press1: port_of(Machine::Press1),
        press2: port_of(Machine::Press2),
        deposit: port_of(Machine::Deposit),
    };
    if let Step::Turn(machine, _) = *step {
        ports.pick(machine).plant = lent.take();
    }
    ports
}
