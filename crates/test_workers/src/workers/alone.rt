//! A machine's worker, alone on the thread of its test.
use crate::same::check_same;
use crate::sim::steps::faults_of;
use crate::workers::cell::AMPLE;
use crate::workers::rooms::{ALL, NONE, Scene, Who, Work, play_in_room};
use crate::workers::telling::check_sent;
use cell_diagnosis::Reading;
use cell_ledger::{Run, Shares};
use cell_sim::{SimPort, World};
use cell_types::{Belt, Colour, Command, Entry, Machine};
use cell_workers::{End, Ended, Plan, Port, PortFault, Room, Worked, run_worker};
use std::process::Abort;
use std::sync::{Mutex, Wait};
use test_ports::{Failing, TellingPort};
use test_samples::{call_begins, call_ends};

const ALL_BUT_FEED: [bool; 7] = [false, true, true, true, true, true, true];

const ALL_BUT_TABLE: [bool; 7] = [true, false, true, true, true, true, true];

const FEED_ALONE: [bool; 7] = [true, false, false, false, false, false, false];

const TABLE_ALONE: [bool; 7] = [false, true, false, false, false, false, false];

const FEED_OFF: Command = Command::AllOff(Machine::Feed);

/// When a port sets an end of its own.
#[derive(Clone, Copy, PartialEq, Eq)]
pub(crate) enum Moment {
    Read,
    Command,
}

/// How a machine's worker is tried.
#[derive(Clone, Copy)]
pub(crate) struct Serving<'a> {
    pub machine: Machine,
    /// At which commands its port fails.
    pub failing: Failing,
    /// When the port sets an end. Where it does, its readings are missing. Others are those of a simulated machine.
    pub ending: Option<Moment>,
    /// All that the port was sent, and how many answers it gave, where they are looked at.
    pub sent: Option<&'a [Command]>,
    pub answers: Option<usize>,
}

const FEEDING: Serving<'static> = Serving {
    machine: Machine::Feed,
    failing: Failing::Never,
    ending: None,
    sent: None,
    answers: None,
};

// A feed belt's worker whose port takes each command, in a room as it is made, which books nothing.
const FEEDS_NOTHING: Work<'static> = Work {
    name: "feeds nothing",
    who: Who::Machine(FEEDING),
    may_be_refused: false,
    before: (None, NONE, NONE),
    ended: Ended::Told,
    booked: &[],
    after: (None, NONE, NONE),
    length: 0,
};

/// All others are lost, so the feed belt's worker works until it has nothing to do, and sets the end then. What it
/// books is what comes first in the journal of one plate.
pub(crate) const FEEDS_ONE_PLATE: Work<'static> = Work {
    name: "feeds one plate",
    before: (None, NONE, ALL_BUT_FEED),
    booked: &[
        "lamp,feed,green,",
        "admitted,1,,",
        "started,feed_belt,to_end,",
        "conveyed,feed_belt,1,feed_end",
        "claimed,feed,z1,",
        "started,feed_belt,to_table,",
        "conveyed,feed_belt,1,table",
        "yielded,feed,z1,",
    ],
    after: (Some(End::Stalled), ALL, ALL_BUT_FEED),
    length: 8,
    ..FEEDS_NOTHING
};

// The end is set before the worker begins: it books nothing, and switches its machine off.
const IS_TOLD: Work<'static> = Work {
    name: "is told",
    who: Who::Machine(Serving {
        sent: Some(&[FEED_OFF]),
        ..FEEDING
    }),
    before: (Some(End::Memory), NONE, NONE),
    after: (Some(End::Memory), NONE, NONE),
    ..FEEDS_NOTHING
};

// A worker whose port fails at every command is lost. It ends the run only where all others are idle.
const IS_LOST: Work<'static> = Work {
    name: "is lost",
    who: Who::Machine(Serving {
        failing: Failing::Always,
        sent: Some(&[]),
        ..FEEDING
    }),
    ended: Ended::PortLost,
    booked: &["lamp,feed,green,", "declared,feed,command_fault,"],
    after: (None, FEED_ALONE, FEED_ALONE),
    length: 2,
    ..FEEDS_NOTHING
};

const IS_LOST_LAST: Work<'static> = Work {
    name: "is lost last",
    before: (None, ALL_BUT_FEED, ALL_BUT_FEED),
    after: (Some(End::Stalled), ALL, ALL),
    ..IS_LOST
};

// The table has nothing to do on an empty book, and its worker is the last that isn't idle.
const IS_IDLE_LAST: Work<'static> = Work {
    name: "is idle last",
    who: Who::Machine(Serving {
        machine: Machine::Table,
        sent: Some(&[Command::AllOff(Machine::Table)]),
        ..FEEDING
    }),
    before: (None, ALL_BUT_TABLE, NONE),
    after: (Some(End::Stalled), ALL, NONE),
    ..FEEDS_NOTHING
};

// A booking leaves those idle alone whose ports are lost. The worker's only turn is over then.
const WAKES_THE_IDLE: Work<'static> = Work {
    name: "wakes the idle",
    who: Who::Machine(Serving {
        sent: Some(&[Command::Lamp(Belt::Feed, Colour::Green), FEED_OFF]),
        answers: Some(1),
        ..FEEDING
    }),
    before: (None, ALL, TABLE_ALONE),
    ended: Ended::Turns,
    booked: &["lamp,feed,green,"],
    after: (Some(End::TurnLimit), TABLE_ALONE, TABLE_ALONE),
    length: 1,
    ..FEEDS_NOTHING
};

// The journal has room for one entry: the plate that the green light asked for can't be booked.
const FILLS_THE_JOURNAL: Work<'static> = Work {
    name: "fills the journal",
    ended: Ended::Full,
    booked: &["lamp,feed,green,"],
    after: (Some(End::Full), NONE, NONE),
    length: 1,
    ..FEEDS_NOTHING
};

// An end that is set while the port is read comes before the turn. One that is set while the only turn's command is
// sent comes before the limit of turns. The lock is free both times, else the port would wait forever.
const ENDS_AT_A_READING: Work<'static> = Work {
    name: "ends at a reading",
    who: Who::Machine(Serving {
        ending: Some(Moment::Read),
        ..FEEDING
    }),
    after: (Some(End::Full), NONE, NONE),
    ..FEEDS_NOTHING
};

const ENDS_AT_A_COMMAND: Work<'static> = Work {
    name: "ends at a command",
    who: Who::Machine(Serving {
        ending: Some(Moment::Command),
        ..FEEDING
    }),
    ended: Ended::Turns,
    booked: &["lamp,feed,green,"],
    after: (Some(End::Full), NONE, NONE),
    length: 1,
    ..FEEDS_NOTHING
};

const SCENES: [Scene; 9] = [
    (AMPLE, AMPLE, &[FEEDS_ONE_PLATE]),
    (AMPLE, AMPLE, &[IS_TOLD]),
    (AMPLE, AMPLE, &[IS_LOST]),
    (AMPLE, AMPLE, &[IS_LOST_LAST]),
    (AMPLE, AMPLE, &[IS_IDLE_LAST]),
    (100, 1, &[WAKES_THE_IDLE]),
    (1, 100, &[FILLS_THE_JOURNAL]),
    (100, 1, &[ENDS_AT_A_READING]),
    (100, 1, &[ENDS_AT_A_COMMAND]),
];

// A port that takes the room's lock itself to set an end, when it is read or when it is sent a command.
#[derive(Drop)]
struct EndingPort<'a, R: Run, W: Wait> {
    rt: &'a W,
    room: &'a Room<R>,
    moment: Moment,
}

impl<R: Run, W: Wait> Port for EndingPort<'_, R, W> {
    fn read(&mut self) -> Option<Reading> {
        if self.moment == Moment::Read {
            self.room.hall.lock(self.rt).end = Some(End::Full);
        }
        None
    }

    fn command(&mut self, _command: Command) -> Result<(), PortFault> {
        if self.moment == Moment::Command {
            self.room.hall.lock(self.rt).end = Some(End::Full);
        }
        Ok(())
    }
}

// Checks that a port was asked what the worker's list says, and was sent and gave what is wanted.
fn check_port<P>(
    rt: &impl Abort,
    name: &str,
    wanted: &Serving,
    list: &[Entry],
    port: &TellingPort<P>,
) {
    check_sent(rt, wanted.machine, list, port);
    if wanted.sent.is_some() {
        check_same(rt, &name, &port.sent(), &wanted.sent);
    }
    if wanted.answers.is_some() {
        check_same(rt, &name, &port.answer_count(), &wanted.answers);
    }
}

// A machine's worker works over a port, which is given back with what it was asked. The call is marked, so that it can
// be refused memory.
fn serve_over<P: Port + Drop, R: Run, W: AllocGlobal + Abort + Wait>(
    rt: &W,
    room: &Room<R>,
    shares: Shares<R>,
    serving: &Serving,
    port: P,
    plan: &Plan,
) -> (Worked<R>, TellingPort<P>) {
    let (alloc, machine) = (rt.alloc(), serving.machine);
    let Ok(mut port) = TellingPort::new(alloc, port, serving.failing, 1000) else {
        panic!(rt; "there is memory");
    };
    call_begins(alloc);
    let worked = run_worker(rt, alloc, machine, &mut port, room, shares, plan);
    call_ends(alloc, worked.ended == Ended::Memory);
    (worked, port)
}

/// A machine's worker works, and its port is asked what is wanted.
pub(crate) fn serve<R: Run, W: AllocGlobal + Abort + Wait>(
    rt: &W,
    room: &Room<R>,
    shares: Shares<R>,
    name: &str,
    serving: &Serving,
    plan: &Plan,
) -> Worked<R> {
    if let Some(moment) = serving.ending {
        let port = EndingPort { rt, room, moment };
        let (worked, port) = serve_over(rt, room, shares, serving, port, plan);
        check_port(rt, name, serving, worked.entries.as_slice(), &port);
        return worked;
    }
    let world = Mutex::new(World::new(1));
    let faults = faults_of(rt, "");
    let port = SimPort::new(rt, &world, serving.machine, &faults);
    let (worked, port) = serve_over(rt, room, shares, serving, port, plan);
    check_port(rt, name, serving, worked.entries.as_slice(), &port);
    worked
}

#[test]
fn a_worker_works_until_an_end(rt: HostRuntime) {
    for &scene in &SCENES {
        play_in_room(&rt, scene);
    }
}
