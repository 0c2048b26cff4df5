//! A simulated cell whose motions have no faults.
ghost use Rattle.std.specs.Prelude.{◌≡◌, ◌≤◌, [], replicate};
ghost use Rattle.cell_sim.specs.Commands.{IsWithin, motion_number};
ghost use Rattle.cell_sim.specs.Script.{latest_of};
ghost use Rattle.sim_plant.specs.Faultless.{IsNoEarlier, faultless_cell};

use cell_diagnosis::Reading;
use cell_plant::{Gone, Plant, Reply, Wish};
use cell_sim::laws::later_faults_do_nothing_yet;
use cell_sim::{FaultScript, World};
use cell_types::{Axis, Command, Machine, Station, axis_number};
use operator_desk::Task;
use plate_book::Refusal;
use std::alloc::Global;
use std::marker::Model;

/// A simulated cell whose motions have no faults, and the number of each axis's latest motion. So far it has answered
/// as one with faults in later motions alone does.
#[derive(Debug, Drop)]
pub struct Faultless {
    world: World,
    latest: [u32; 9],
    none: FaultScript,
    ghost empty: { none ≡ [] },
}

impl Model for Faultless {
    ghost use Rattle.sim_plant.specs.Faultless.{FaultlessCell, faultless_cell};

    ghost Value = { FaultlessCell };

    ghost view = { λ plant. faultless_cell plant.world plant.latest };
}

impl Faultless {
    /// A world in which no motion has begun that counts.
    pub fn new(alloc: Global, world: World) -> Faultless
        ensures { result ≡ faultless_cell world (replicate 9 0) }
    {
        Faultless {
            world,
            latest: [0; 9],
            none: FaultScript::none(alloc),
        }
    }

    /// The same once more.
    pub fn copy(&self, alloc: Global) -> Faultless
        ensures { result ≡ self.now }
    {
        Faultless {
            world: self.world.copy(),
            latest: self.latest,
            none: FaultScript::none(alloc),
        }
    }

    /// The world as it is.
    pub fn world(&self) -> &World
        ensures { result.now ≡ self.now.world }
    {
        &self.world
    }

    /// The number of each axis's latest motion, in the order of the axes; 0 where it had none.
    pub fn latest(&self) -> &[u32; 9]
        ensures { result.now ≡ self.now.latest }
    {
        &self.latest
    }

    // Notes that the next motion of an axis begins.
    fn note(&mut self, axis: Axis)
        ensures world { self.new.world ≡ self.old.world }
        ensures latest { IsNoEarlier self.old self.new }
        ensures noted { motion_number self.old.world axis ≤ latest_of self.new.latest axis }
    {
        let number = self.world.next_motion(axis);
        let place = axis_number(axis);
        if self.latest[place] < number {
            self.latest[place] = number;
        }
    }

    // Notes the motion that a command begins.
    fn note_command(&mut self, command: Command)
        ensures world { self.new.world ≡ self.old.world }
        ensures latest { IsNoEarlier self.old self.new }
        ensures within { IsWithin self.new.latest self.old.world command }
    {
        if let Command::On(axis, _) = command {
            self.note(axis);
        }
    }
}

impl Plant for Faultless {
    ghost use Rattle.sim_plant.specs.Faultless.{AnswersYet};

    ghost told = { λ old new asked. AnswersYet old new asked };

    fn begin_round(&mut self) -> Result<(), Gone> {
        Ok(())
    }

    fn read(&mut self, machine: Machine) -> Option<Reading> {
        self.world.read(machine)
    }

    fn command(&mut self, _machine: Machine, command: Command) -> Result<bool, Gone> {
        later_faults_do_nothing_yet();
        self.note_command(command);
        Ok(self.world.command(command, &self.none).is_ok())
    }

    fn remove(&mut self, station: Station) -> Result<bool, Gone> {
        self.world.remove(station);
        Ok(true)
    }

    fn home(&mut self, machine: Machine) -> Result<bool, Gone> {
        self.world.home(machine);
        Ok(true)
    }

    fn act_done(&mut self) -> Option<Task> {
        None
    }

    fn refuse_act(&mut self, _task: Task, _why: Refusal) {}

    fn wish(&mut self) -> Option<Wish> {
        None
    }

    fn reply(&mut self, _reply: Reply) -> Result<(), Gone> {
        Ok(())
    }

    fn end_round(&mut self) -> Result<(), Gone> {
        self.world.end_round();
        Ok(())
    }
}
