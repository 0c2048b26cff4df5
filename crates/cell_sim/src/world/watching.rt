//! The watch of a world: what it looks at, and what a broken rule does to plates. In a world that isn't watched all
//! this does nothing.
ghost use Rattle.std.specs.Prelude.{◌≡◌, Some};
ghost use Rattle.cell_sim.specs.Looks.{arm_of, can_lie, carrying_looked, looked, plate_of_arm_lost, release_looked};
ghost use Rattle.cell_sim.specs.Looks.{situation_looked, start_looked, with_watch};
ghost use Rattle.cell_sim.specs.Parts.{broke, in_turn};

use crate::watch::rules::{
    SITUATIONS, Situation, broken_by_release, broken_by_start, can_table_take,
};
use crate::watch::{Occasion, SafetyRule, Watch};
use crate::world::World;
use cell_types::{Arm, Axis, Command, Pose, Station, station_of_arm};

impl World {
    /// The same cell, watched from here on. What is so already isn't counted as broken anew.
    pub fn with_watch(self) -> World
        ensures { result ≡ with_watch self }
    {
        let standing = [
            Situation::ArmInPress(Arm::Arm1).is_so(&self),
            Situation::ArmInPress(Arm::Arm2).is_so(&self),
            Situation::ArmOverTable(Arm::Arm1).is_so(&self),
            Situation::ArmOverBelt(Arm::Arm2).is_so(&self),
            Situation::TurnWithArmOut(Arm::Arm1).is_so(&self),
            Situation::TurnWithArmOut(Arm::Arm2).is_so(&self),
            Situation::TableNotReady.is_so(&self),
        ];
        let watch = Watch {
            is_on: true,
            standing,
            ..self.watch
        };
        World { watch, ..self }
    }

    /// Counts that a rule was broken by a command.
    pub(super) fn count_broken(&mut self, rule: SafetyRule, command: Command)
        ensures { self.new ≡ broke rule (Some command) self.old }
    {
        self.count_at(rule, Some(command));
    }

    #[tactic(auto, unfolding(crate::specs::Parts::broke))]
    fn count_at(&mut self, rule: SafetyRule, command: Option<Command>)
        ensures { self.new ≡ broke rule command self.old }
    {
        let occasion = Occasion {
            round: self.round,
            command,
        };
        self.watch.count(rule, occasion);
    }

    /// Looks at the cell as it stands after a command, or after a motion that it began has ended, or the operator's
    /// hands (`None`). What wasn't so when it was looked at before breaks its rule.
    #[tactic(auto, unfolding(crate::specs::Looks::looked))]
    pub(super) fn look(&mut self, command: Option<Command>)
        ensures { self.new ≡ looked command self.old }
    {
        if self.watch.is_on {
            self.look_at_each(&SITUATIONS, command);
        }
    }

    fn look_at_each(&mut self, situations: &[Situation], command: Option<Command>)
        ensures { self.new ≡ in_turn (situation_looked command) situations.now self.old }
    {
        for situation in situations {
            self.look_at(*situation, command);
        }
    }

    #[tactic(auto, unfolding(crate::specs::Looks::situation_looked))]
    fn look_at(&mut self, situation: Situation, command: Option<Command>)
        ensures { self.new ≡ situation_looked command situation self.old }
    {
        let is_so = situation.is_so(self);
        if self.watch.is_new(situation, is_so) {
            self.count_at(situation.rule(), command);
            self.lose_held(situation);
        }
    }

    // An arm where it mustn't be loses its plate.
    fn lose_held(&mut self, situation: Situation)
        ensures { self.new ≡ plate_of_arm_lost (arm_of situation) self.old }
    {
        if let Some(arm) = situation.arm() {
            self.lose_plate(station_of_arm(arm));
        }
    }

    /// Looks at a command to move an axis before it is carried out.
    #[tactic(auto, unfolding(crate::specs::Looks::start_looked))]
    pub(super) fn look_at_start(&mut self, axis: Axis, to: Pose)
        ensures { self.new ≡ start_looked axis to self.old }
    {
        if !self.watch.is_on {
            return;
        }
        if let Some(rule) = broken_by_start(self, axis, to) {
            self.count_broken(rule, Command::On(axis, to));
        }
    }

    /// Looks at a magnet that lets go over a full station or none. The plate that it held is gone.
    #[tactic(auto, unfolding(crate::specs::Looks::release_looked))]
    pub(super) fn look_at_release(&mut self, arm: Arm, below: Option<Station>)
        ensures { self.new ≡ release_looked arm below self.old }
    {
        if !self.watch.is_on {
            return;
        }
        if let Some(rule) = broken_by_release(self, arm, below) {
            self.count_broken(rule, Command::MagnetOff(arm));
            self.lose_plate(station_of_arm(arm));
        }
    }

    /// Looks at a plate that comes to the end of a belt's motion. Where it can't lie there it is gone; the motion broke
    /// a rule when it began, or when the table left.
    #[tactic(auto, unfolding(crate::specs::Looks::carrying_looked))]
    pub(super) fn look_at_carrying(&mut self, from: Station, to: Station)
        ensures { self.new ≡ carrying_looked from to self.old }
    {
        if self.watch.is_on && !self.can_lie(to) {
            self.lose_plate(from);
        }
    }

    // Whether a plate that a belt brings can lie at a station.
    fn can_lie(&self, to: Station) -> bool
        ensures { result ≡ can_lie self.now to }
    {
        match to {
            Station::Table => can_table_take(self),
            _ => self.plate_at(to).is_none(),
        }
    }
}
