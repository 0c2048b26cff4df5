//! The simulated cell, watched and measured on its way.
ghost use Rattle.std.specs.Prelude.{◌≡◌, IfOk, IfSome};
ghost use Rattle.sim_plant.specs.Answers.{sim_cell};
ghost use Rattle.cell_drive.specs.Measured.{TellsCounts, run_counts};

use crate::measures::Measures;
use crate::report::{write_times, write_world};
use cell_diagnosis::Reading;
use cell_journal::Journal;
use cell_measures::Durations;
use cell_plant::{Gone, Plant, Reply, Wish};
use cell_sim::{FaultScript, World};
use cell_types::{Command, Machine, Station};
use operator_desk::Task;
use plate_book::Refusal;
use sim_plant::SimPlant;
use std::alloc::{AllocError, Global};
use std::io;
use std::io::Write;
use std::marker::Model;

/// A simulated cell that one thread has for itself, with its measures. A round is noted, and ends in the world, where
/// the next one begins; the last is noted where the run is told.
#[derive(Drop)]
pub(crate) struct GaugedPlant<'a> {
    cell: SimPlant<'a>,
    measures: Measures,
    durations: Durations,
}

impl<'a> Model for GaugedPlant<'a> {
    ghost use Rattle.sim_plant.specs.Answers.{SimCell};

    ghost Value = { SimCell };

    ghost view = { λ gauged. gauged.cell };
}

// How many rounds a run took and how many entries its journal has, as it is told.
fn counts_text(alloc: Global, rounds: u32, entries: u32) -> Result<Vec<u8>, AllocError>
    ensures { IfOk result (λ text. text.items ≡ run_counts rounds entries) }
{
    Ok(format!(in alloc; "rounds {rounds}\nentries {entries}\n")?.into_bytes())
}

impl<'a> GaugedPlant<'a> {
    /// A world before its first round, whose motions have these faults and take so long.
    pub(crate) fn new(
        alloc: Global,
        world: World,
        faults: &'a FaultScript,
        durations: Durations,
    ) -> GaugedPlant<'a>
        ensures { result ≡ sim_cell world faults.now }
    {
        let measures = Measures::new(alloc, &world);
        GaugedPlant {
            cell: SimPlant::new(world, faults),
            measures,
            durations,
        }
    }

    // Notes what the round so far did in the world.
    fn note_round(&mut self)
        ensures { self.new ≡ self.old }
    {
        let round = self.measures.rounds();
        if round > 0 {
            self.measures.open(round, self.cell.world());
        }
    }

    // What is told of a run below the counts of its rounds and entries.
    fn below_counts(&mut self, alloc: Global, journal: &Journal) -> io::Result<Vec<u8>> {
        let mut text = Vec::new(alloc);
        writeln!(text, "collisions {}", self.cell.world().collisions())?;
        write_world(&mut text, self.cell.world(), &mut self.measures)?;
        write_times(alloc, &mut text, journal, &self.durations)?;
        Ok(text)
    }

    // What is told of a run with this journal.
    fn told_of(&mut self, alloc: Global, journal: &Journal) -> io::Result<Vec<u8>>
        ensures { IfOk result (λ text. TellsCounts journal.now.entries text.items) }
    {
        self.note_round();
        let mut told = counts_text(alloc, self.measures.rounds(), journal.len())?;
        let below = self.below_counts(alloc, journal)?;
        told.extend_from_slice(below.as_slice())?;
        Ok(told)
    }

    /// What is measured of a run with this journal; `None` where memory was refused.
    pub(crate) fn measured(&mut self, alloc: Global, journal: &Journal) -> Option<Vec<u8>>
        ensures { IfSome result (λ text. TellsCounts journal.now.entries text.items) }
    {
        let Ok(text) = self.told_of(alloc, journal) else {
            return None;
        };
        if self.measures.lacks_memory() {
            return None;
        }
        Some(text)
    }
}

impl Plant for GaugedPlant<'_> {
    ghost use Rattle.cell_drive.specs.Gauged.{Gauges};

    ghost told = { λ old new asked. Gauges old new asked };

    fn begin_round(&mut self) -> Result<(), Gone> {
        let is_first = self.measures.rounds() == 0;
        self.note_round();
        self.measures.begin();
        if is_first {
            return Ok(());
        }
        self.cell.end_round()
    }

    fn read(&mut self, machine: Machine) -> Option<Reading> {
        self.cell.read(machine)
    }

    fn command(&mut self, machine: Machine, command: Command) -> Result<bool, Gone> {
        self.cell.command(machine, command)
    }

    fn remove(&mut self, station: Station) -> Result<bool, Gone> {
        self.cell.remove(station)
    }

    fn home(&mut self, machine: Machine) -> Result<bool, Gone> {
        self.cell.home(machine)
    }

    fn act_done(&mut self) -> Option<Task> {
        self.cell.act_done()
    }

    fn refuse_act(&mut self, task: Task, why: Refusal) {
        self.cell.refuse_act(task, why);
    }

    fn wish(&mut self) -> Option<Wish> {
        self.cell.wish()
    }

    fn reply(&mut self, reply: Reply) -> Result<(), Gone> {
        self.cell.reply(reply)
    }

    fn end_round(&mut self) -> Result<(), Gone> {
        Ok(())
    }
}
