//! What commands do in a world.
ghost use Rattle.std.specs.Prelude.{◌≡◌, is_err};
ghost use Rattle.cell_types.specs.declared.words.Belt.TheVariants as belt;
ghost use Rattle.cell_sim.specs.Commands.{after_command, all_stopped, axis_stopped, fails, feed_lit, gripped};
ghost use Rattle.cell_sim.specs.Commands.{has_arm_at, is_refused, is_station_of, laid_down, lit, met, motion_number};
ghost use Rattle.cell_sim.specs.Commands.{path_of, set_out, started, station_before, told, turned_off, unlit};
ghost use Rattle.cell_sim.specs.Script.{fault_in};

use crate::fault::Fault;
use crate::motion::{Moving, Path};
use crate::script::FaultScript;
use crate::world::{World, is_belt};
use cell_measures::Move;
use cell_ports::PortFault;
use cell_types::{
    Arm, Axis, Belt, Colour, Command, Machine, Pose, Station, axes_of, axis_number, axis_of_arm,
    faced, is_pose_of, machine_of_axis, machine_of_station, motion_named, station_of_arm,
};

impl World {
    /// Carries out a command. It fails only where it is to move an axis and this motion's fault is that its command
    /// fails.
    #[tactic(auto, unfolding(crate::specs::Commands::after_command, crate::specs::Commands::fails))]
    pub fn command(&mut self, command: Command, faults: &FaultScript) -> Result<(), PortFault>
        ensures world { self.new ≡ after_command faults.now self.old command }
        ensures fails { is_err result ≡ fails faults.now self.old command }
    {
        match command {
            Command::Lamp(belt, colour) => self.set_light(belt, colour),
            Command::On(axis, to) => self.start(axis, to, faults)?,
            Command::Off(axis) => self.end(axis),
            Command::MagnetOn(arm) => self.grip(arm),
            Command::MagnetOff(arm) => self.lay_down(arm),
            Command::AllOff(machine) => self.stop(machine),
        }
        self.look(Some(command));
        Ok(())
    }

    fn set_light(&mut self, belt: Belt, colour: Colour)
        ensures { self.new ≡ lit belt colour self.old }
    {
        match belt {
            Belt::Feed => self.set_feed_light(colour),
            Belt::Deposit => self.deposit_light = colour,
        }
    }

    // In a watched world the light that was turned green is trusted.
    #[tactic(auto, unfolding(crate::specs::Commands::feed_lit))]
    fn set_feed_light(&mut self, colour: Colour)
        ensures { self.new ≡ feed_lit colour self.old }
    {
        let is_turned = self.feed_light != colour;
        if is_turned && self.watch.is_on {
            self.is_trusting = colour == Colour::Green;
        }
        self.feed_light = colour;
    }

    // A motion begins in place of the one before. A command that fails counts as a motion, and nothing else comes of
    // it, no collision either. One to a pose that the axis doesn't have begins no motion.
    #[tactic(auto, unfolding(crate::specs::Commands::started))]
    fn start(&mut self, axis: Axis, to: Pose, faults: &FaultScript) -> Result<(), PortFault>
        ensures world { self.new ≡ started faults.now axis to self.old }
        ensures fails { is_err result ≡ is_refused (fault_in axis (motion_number self.old axis) faults.now) }
    {
        let number = self.tell(axis);
        let fault = faults.fault_of(axis, number);
        if is_refused(fault) {
            return Err(PortFault);
        }
        self.meet(axis);
        self.look_at_start(axis, to);
        let path = self.path(axis, to);
        self.set_out(axis, to, fault, path);
        Ok(())
    }

    // A command to move an axis is counted; the number of its motion.
    #[tactic(auto, unfolding(crate::specs::Commands::told))]
    fn tell(&mut self, axis: Axis) -> u32
        ensures number { result ≡ motion_number self.old axis }
        ensures world { self.new ≡ told axis self.old }
    {
        let place = axis_number(axis);
        let number = self.axes[place].commands.saturating_add(1);
        self.axes[place].commands = number;
        number
    }

    // A collision is counted where an arm is out at the axis's machine.
    #[tactic(auto, unfolding(crate::specs::Commands::met))]
    fn meet(&mut self, axis: Axis)
        ensures { self.new ≡ met axis self.old }
    {
        if self.has_arm_at(machine_of_axis(axis)) {
            self.count_collision();
        }
    }

    // An axis sets out on a path, if there is one.
    #[tactic(auto, unfolding(crate::specs::Commands::set_out))]
    fn set_out(&mut self, axis: Axis, to: Pose, fault: Option<Fault>, path: Option<Path>)
        ensures { self.new ≡ set_out axis to fault path self.old }
    {
        if let Some(path) = path {
            let duration = self.durations.of(Move { axis, to });
            self.set_motion(axis, Some(Moving::begin(path, fault, duration)));
        }
    }

    // Where a command to move an axis leads.
    fn path(&self, axis: Axis, to: Pose) -> Option<Path>
        ensures { result ≡ path_of self.now axis to }
    {
        if let Some(motion) = motion_named(axis, to) {
            return Some(Path::Stations {
                from: motion.from,
                to: motion.dest,
                plate: self.plate(motion.from),
            });
        }
        if is_belt(axis) || !is_pose_of(axis, to) {
            return None;
        }
        let from = self.axis(axis).pose;
        Some(Path::Poses { from, to })
    }

    // Whether an arm is out at a machine.
    fn has_arm_at(&self, machine: Machine) -> bool
        ensures { result ≡ has_arm_at self.now machine }
    {
        self.is_out_at(Arm::Arm1, machine) || self.is_out_at(Arm::Arm2, machine)
    }

    fn is_out_at(&self, arm: Arm, machine: Machine) -> bool
        ensures { result ≡ is_station_of machine (station_before self.now arm) }
    {
        match self.station_before(arm) {
            Some(station) => machine_of_station(station) == machine,
            None => false,
        }
    }

    // The station that an arm faces, where the arm is out.
    fn station_before(&self, arm: Arm) -> Option<Station>
        ensures { result ≡ station_before self.now arm }
    {
        if self.axis(axis_of_arm(arm)).pose != Pose::Out {
            return None;
        }
        match faced(arm, self.axis(Axis::RobotTurn).pose) {
            Some(facing) => Some(facing.station),
            None => None,
        }
    }

    // The motion of a belt ends. That of an axis with switches goes on.
    fn end(&mut self, axis: Axis)
        ensures { self.new ≡ turned_off axis self.old }
    {
        if is_belt(axis) {
            self.set_motion(axis, None);
        }
    }

    // The plate before an arm is on the arm, unless that holds one already.
    #[tactic(auto, unfolding(crate::specs::Commands::gripped))]
    fn grip(&mut self, arm: Arm)
        ensures { self.new ≡ gripped arm self.old }
    {
        if let Some(station) = self.station_before(arm) {
            self.move_plate(station, station_of_arm(arm));
        }
    }

    // The plate on an arm is at the empty station before it. Over a full station or none a collision is counted,
    // whether the arm holds a plate or not, and nothing moves; in a watched world the plate is gone.
    #[tactic(auto, unfolding(crate::specs::Commands::laid_down))]
    fn lay_down(&mut self, arm: Arm)
        ensures { self.new ≡ laid_down arm self.old }
    {
        let below = self.station_before(arm);
        match below {
            Some(station) if self.plate(station).is_none() => {
                self.move_plate(station_of_arm(arm), station);
            }
            _ => {
                self.count_collision();
                self.look_at_release(arm, below);
            }
        }
    }

    // All motions of a machine stop where they are, and its light is red. Its magnets hold what they held.
    #[tactic(auto, unfolding(crate::specs::Commands::all_stopped))]
    fn stop(&mut self, machine: Machine)
        ensures { self.new ≡ all_stopped machine self.old }
    {
        self.turn_red(machine);
        for axis in axes_of(machine) {
            self.stop_motion(*axis);
        }
    }

    // The light of a machine is red, if it has one.
    fn turn_red(&mut self, machine: Machine)
        ensures { self.new ≡ unlit machine self.old }
    {
        match machine {
            Machine::Feed => self.set_light(Belt::Feed, Colour::Red),
            Machine::Deposit => self.set_light(Belt::Deposit, Colour::Red),
            _ => {}
        }
    }

    fn stop_motion(&mut self, axis: Axis)
        ensures { self.new ≡ axis_stopped axis self.old }
    {
        if let Some(motion) = self.axis(axis).motion {
            let stopped = Moving {
                stopped: true,
                ..motion
            };
            self.set_motion(axis, Some(stopped));
        }
    }
}

fn is_refused(fault: Option<Fault>) -> bool
    ensures { result ≡ is_refused fault }
{
    matches!(fault, Some(Fault::RefuseCommand))
}
