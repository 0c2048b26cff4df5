//! The ports of six machines with the operator's hands, as one cell.
use crate::desk::{Reply, Wish};
use crate::gone::Gone;
use crate::plant::Plant;
use cell_diagnosis::Reading;
use cell_ports::{OperatorPort, Port};
use cell_turns::Ports;
use cell_types::{Command, Machine, Station};
use operator_desk::Task;
use plate_book::Refusal;

/// The ports of six machines with the operator's hands. Each machine is read where it takes its turn, the cell is
/// always reached, and nobody does or wants anything there.
#[derive(Drop)]
pub struct Ported<P, O> {
    pub ports: Ports<P>,
    pub hands: O,
}

impl<P: Port, O: OperatorPort> Plant for Ported<P, O> {
    ghost use Rattle.std.specs.Prelude.{◌&&◌};
    ghost use Rattle.cell_turns.specs.Six.{map_six};
    ghost use Rattle.cell_plant.specs.PlantLogs.{Tells, all_tell, plant_log};

    ghost told = { λ old new asked. Tells (all_tell P.tells old.ports && O.tells old.hands)
        (all_tell P.tells new.ports && O.tells new.hands) (plant_log (map_six P.log old.ports) (O.log old.hands))
        (plant_log (map_six P.log new.ports) (O.log new.hands)) asked };

    fn begin_round(&mut self) -> Result<(), Gone> {
        Ok(())
    }

    fn read(&mut self, machine: Machine) -> Option<Reading> {
        self.ports.pick(machine).read()
    }

    fn command(&mut self, machine: Machine, command: Command) -> Result<bool, Gone> {
        Ok(self.ports.pick(machine).command(command).is_ok())
    }

    fn remove(&mut self, station: Station) -> Result<bool, Gone> {
        Ok(self.hands.remove(station).is_ok())
    }

    fn home(&mut self, machine: Machine) -> Result<bool, Gone> {
        Ok(self.hands.home(machine).is_ok())
    }

    fn act_done(&mut self) -> Option<Task> {
        None
    }

    fn refuse_act(&mut self, _task: Task, _why: Refusal) {}

    fn wish(&mut self) -> Option<Wish> {
        None
    }

    fn reply(&mut self, _reply: Reply) -> Result<(), Gone> {
        Ok(())
    }

    fn end_round(&mut self) -> Result<(), Gone> {
        Ok(())
    }
}
