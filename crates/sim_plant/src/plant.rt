//! A simulated cell as a controller in rounds reaches it.
ghost use Rattle.std.specs.Prelude.{◌≡◌};
ghost use Rattle.sim_plant.specs.Answers.{sim_cell};

use cell_diagnosis::Reading;
use cell_plant::{Gone, Plant, Reply, Wish};
use cell_sim::{FaultScript, World};
use cell_types::{Command, Machine, Station};
use operator_desk::Task;
use plate_book::Refusal;
use std::marker::Model;

/// A simulated cell that one thread has for itself, with the faults of its motions. It is always reached, nobody does
/// or wants anything there, and its world counts the rounds. Each call does to the world what its definitions say.
#[derive(Debug, Drop)]
pub struct SimPlant<'a> {
    world: World,
    faults: &'a FaultScript,
}

impl<'a> Model for SimPlant<'a> {
    ghost use Rattle.sim_plant.specs.Answers.{SimCell, sim_cell};

    ghost Value = { SimCell };

    ghost view = { λ plant. sim_cell plant.world plant.faults.now };
}

impl<'a> SimPlant<'a> {
    /// A world whose motions have these faults.
    pub fn new(world: World, faults: &'a FaultScript) -> SimPlant<'a>
        ensures { result ≡ sim_cell world faults.now }
    {
        SimPlant { world, faults }
    }

    /// The world as it is.
    pub fn world(&self) -> &World
        ensures { result.now ≡ self.now.world }
    {
        &self.world
    }
}

impl Plant for SimPlant<'_> {
    ghost use Rattle.sim_plant.specs.Answers.{AnswersSo};

    ghost told = { λ old new asked. AnswersSo old new asked };

    fn begin_round(&mut self) -> Result<(), Gone> {
        Ok(())
    }

    fn read(&mut self, machine: Machine) -> Option<Reading> {
        self.world.read(machine)
    }

    fn command(&mut self, _machine: Machine, command: Command) -> Result<bool, Gone> {
        Ok(self.world.command(command, self.faults).is_ok())
    }

    fn remove(&mut self, station: Station) -> Result<bool, Gone> {
        self.world.remove(station);
        Ok(true)
    }

    fn home(&mut self, machine: Machine) -> Result<bool, Gone> {
        self.world.home(machine);
        Ok(true)
    }

    fn act_done(&mut self) -> Option<Task> {
        None
    }

    fn refuse_act(&mut self, _task: Task, _why: Refusal) {}

    fn wish(&mut self) -> Option<Wish> {
        None
    }

    fn reply(&mut self, _reply: Reply) -> Result<(), Gone> {
        Ok(())
    }

    fn end_round(&mut self) -> Result<(), Gone> {
        self.world.end_round();
        Ok(())
    }
}
