//! Two ports that wait for each other.
use crate::sim::steps::faults_of;
use crate::workers::cell::{AMPLE, plan_of, run_over, script_of};
use crate::workers::reports::check_end;
use cell_diagnosis::Reading;
use cell_sim::{FaultScript, SimOperator, SimPort, World};
use cell_types::{Command, Machine};
use cell_workers::{End, Port, PortFault, Six};
use std::process::Abort;
use std::sync::atomic::{AtomicBool, Ordering};
use std::sync::{Mutex, Wait};
use std::thread;
use std::thread::Threads;
use std::time::{Clock, Duration};

/// How often a port looks whether the other was asked.
const LOOKS: u32 = 10_000;

// Which of the two presses' ports was asked for a reading, and whether one gave up waiting for the other.
#[derive(Drop)]
struct Meeting {
    press1: AtomicBool,
    press2: AtomicBool,
    gave_up: AtomicBool,
}

// A port of a simulated cell. That of a press gives its first answer once the other press's port was asked.
#[derive(Drop)]
struct MeetingPort<'a, R: Wait + Clock> {
    port: SimPort<'a, R>,
    rt: &'a R,
    machine: Machine,
    meeting: &'a Meeting,
    was_asked: bool,
}

impl<R: Wait + Clock> MeetingPort<'_, R> {
    // Says that this press's port was asked, and waits until the other's was.
    fn meet(&self) {
        let (own, other) = match self.machine {
            Machine::Press1 => (&self.meeting.press1, &self.meeting.press2),
            Machine::Press2 => (&self.meeting.press2, &self.meeting.press1),
            _ => return,
        };
        own.store(true, Ordering::SeqCst);
        for _ in 0..LOOKS {
            if other.load(Ordering::SeqCst) {
                return;
            }
            thread::sleep(self.rt, Duration::from_millis(1));
        }
        self.meeting.gave_up.store(true, Ordering::SeqCst);
    }
}

impl<R: Wait + Clock> Port for MeetingPort<'_, R> {
    fn read(&mut self) -> Option<Reading> {
        if !self.was_asked {
            self.was_asked = true;
            self.meet();
        }
        self.port.read()
    }

    fn command(&mut self, command: Command) -> Result<(), PortFault> {
        self.port.command(command)
    }
}

fn meeting_port<'a, R: Wait + Clock>(
    rt: &'a R,
    world: &'a Mutex<World>,
    faults: &'a FaultScript,
    machine: Machine,
    meeting: &'a Meeting,
) -> MeetingPort<'a, R> {
    MeetingPort {
        port: SimPort::new(rt, world, machine, faults),
        rt,
        machine,
        meeting,
        was_asked: false,
    }
}

// Five plates, with ports that meet: they finish, and no machines collide.
fn run_meeting<R: AllocGlobal + Abort + Threads + Wait + Clock + Sync>(rt: &R, meeting: &Meeting) {
    let faults = faults_of(rt, "");
    let plan = plan_of(rt, 5, AMPLE, AMPLE);
    let world = Mutex::new(World::new(plan.plates));
    let mut ports = Six {
        feed: meeting_port(rt, &world, &faults, Machine::Feed, meeting),
        table: meeting_port(rt, &world, &faults, Machine::Table, meeting),
        robot: meeting_port(rt, &world, &faults, Machine::Robot, meeting),
        press1: meeting_port(rt, &world, &faults, Machine::Press1, meeting),
        press2: meeting_port(rt, &world, &faults, Machine::Press2, meeting),
        deposit: meeting_port(rt, &world, &faults, Machine::Deposit, meeting),
    };
    let mut hands = SimOperator::new(rt, &world);
    let report = run_over(rt, &mut ports, &mut hands, script_of(rt, ""), &plan);
    check_end(rt, &report, End::Finished, [5, 5, 0, 5]);
    assert!(rt; world.lock(rt).collisions() == 0);
}

// The workers of the two presses are both inside a read of their ports at one time: neither waits for the other's turn,
// and the lock is free while they read.
#[test]
fn two_presses_meet(rt: HostRuntime) {
    let meeting = Meeting {
        press1: AtomicBool::new(false),
        press2: AtomicBool::new(false),
        gave_up: AtomicBool::new(false),
    };
    run_meeting(&rt, &meeting);
    assert!(rt; !meeting.gave_up.load(Ordering::SeqCst));
    assert!(rt; meeting.press1.load(Ordering::SeqCst) && meeting.press2.load(Ordering::SeqCst));
}
