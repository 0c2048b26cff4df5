//! The operator's worker, alone on the thread of its test.
use crate::same::check_same;
use crate::workers::alone::Serving;
use crate::workers::cell::{AMPLE, script_of};
use crate::workers::rooms::{ALL, ALL_BUT_OPERATOR, NONE, Scene, Who, Work, play_in_room};
use cell_ledger::{Run, Shares};
use cell_types::{Entry, Machine, Station};
use cell_workers::{Act, End, Ended, OperatorPort, Plan, PortFault, Room, Worked, run_operator};
use std::process::Abort;
use std::sync::Wait;
use test_ports::Failing;
use test_samples::{call_begins, call_ends};

const ALL_BUT_PRESS2: [bool; 7] = [true, true, true, true, false, true, true];

/// What the hands book by themselves at each act.
#[derive(Clone, Copy)]
pub(crate) enum Meddling {
    Stop(Machine),
    Repair(Machine),
}

/// How the operator's worker is tried.
#[derive(Clone, Copy)]
pub(crate) struct Operating<'a> {
    pub script: &'a str,
    /// Whether each act by hand fails, and what is booked at each.
    pub fails: bool,
    pub meddling: Option<Meddling>,
    /// The last act by hand, where there was any, and how many there were.
    pub last: Option<Act>,
    pub acts: u32,
}

/// A stop wants no act by hand. The operator is the last that isn't idle once it is booked.
pub(crate) const STOPS: Work<'static> = Work {
    name: "stops a press and the robot",
    who: Who::Operator(Operating {
        script: "always,,stop,press1\nalways,,stop,robot\n",
        fails: true,
        meddling: None,
        last: None,
        acts: 0,
    }),
    may_be_refused: false,
    before: (None, NONE, ALL_BUT_OPERATOR),
    ended: Ended::Told,
    booked: &["stop_asked,press1,,", "stop_asked,robot,,"],
    after: (Some(End::Stalled), ALL, ALL_BUT_OPERATOR),
    length: 2,
};

// The end is set before the operator begins.
const IS_TOLD: Work<'static> = Work {
    name: "is told",
    who: Who::Operator(Operating {
        script: "always,,stop,press1\n",
        fails: false,
        meddling: None,
        last: None,
        acts: 0,
    }),
    before: (Some(End::TurnLimit), NONE, NONE),
    booked: &[],
    after: (Some(End::TurnLimit), NONE, NONE),
    length: 0,
    ..STOPS
};

// The operator asks the second press to stop.
const ASKS_STOP: Work<'static> = Work {
    name: "asks the second press to stop",
    who: Who::Operator(Operating {
        script: "always,,stop,press2\n",
        fails: false,
        meddling: None,
        last: None,
        acts: 0,
    }),
    booked: &["stop_asked,press2,,"],
    length: 1,
    ..STOPS
};

// The second press's worker declares that stop.
const DECLARES_STOP: Work<'static> = Work {
    name: "declares the stop",
    who: Who::Machine(Serving {
        machine: Machine::Press2,
        failing: Failing::Never,
        ending: None,
        sent: None,
        answers: None,
    }),
    before: (None, NONE, ALL_BUT_PRESS2),
    booked: &["declared,press2,operator_stop,"],
    after: (Some(End::Stalled), ALL, ALL_BUT_PRESS2),
    ..STOPS
};

const REPAIRING: Operating<'static> = Operating {
    script: "failed,press2,repair,press2\n",
    fails: false,
    meddling: None,
    last: Some(Act::Home(Machine::Press2)),
    acts: 1,
};

// The press is put at home once it has failed, and is repaired then.
const REPAIRS: Work<'static> = Work {
    name: "repairs the press",
    who: Who::Operator(REPAIRING),
    before: (None, ALL_BUT_OPERATOR, ALL_BUT_OPERATOR),
    booked: &["repaired,press2,,"],
    length: 3,
    ..STOPS
};

// Where that fails nothing is booked, and the operator is lost as the last of all.
const CANNOT_REPAIR: Work<'static> = Work {
    name: "can't repair the press",
    who: Who::Operator(Operating {
        fails: true,
        ..REPAIRING
    }),
    ended: Ended::PortLost,
    booked: &[],
    after: (Some(End::Stalled), ALL, ALL),
    length: 2,
    ..REPAIRS
};

// The repair is allowed when the operator chooses it and refused when he books it: another entry filled the journal, or
// the press was repaired before. He ends then, and his act by hand isn't booked.
const FINDS_NO_ROOM: Work<'static> = Work {
    name: "finds no room for the repair",
    who: Who::Operator(Operating {
        meddling: Some(Meddling::Stop(Machine::Feed)),
        ..REPAIRING
    }),
    ended: Ended::Full,
    booked: &[],
    after: (Some(End::Full), ALL_BUT_OPERATOR, ALL_BUT_OPERATOR),
    ..REPAIRS
};

const FINDS_IT_REPAIRED: Work<'static> = Work {
    name: "finds the press repaired",
    who: Who::Operator(Operating {
        meddling: Some(Meddling::Repair(Machine::Press2)),
        ..REPAIRING
    }),
    ended: Ended::PortLost,
    booked: &[],
    after: (Some(End::Stalled), ALL, ALL),
    ..REPAIRS
};

const SCENES: [Scene; 6] = [
    (AMPLE, AMPLE, &[STOPS]),
    (AMPLE, AMPLE, &[IS_TOLD]),
    (AMPLE, AMPLE, &[ASKS_STOP, DECLARES_STOP, REPAIRS]),
    (AMPLE, AMPLE, &[ASKS_STOP, DECLARES_STOP, CANNOT_REPAIR]),
    (3, 100, &[ASKS_STOP, DECLARES_STOP, FINDS_NO_ROOM]),
    (AMPLE, AMPLE, &[ASKS_STOP, DECLARES_STOP, FINDS_IT_REPAIRED]),
];

/// Hands that keep the last act and count all. At each they book an entry of their own or fail, where they are to.
#[derive(Drop)]
pub(crate) struct Hands<'a, R: Run, W: Abort + Wait> {
    rt: &'a W,
    room: &'a Room<R>,
    shares: Shares<R>,
    fails: bool,
    meddling: Option<Meddling>,
    last: Option<Act>,
    acts: u32,
}

impl<'a, R: Run, W: Abort + Wait> Hands<'a, R, W> {
    pub(crate) fn new(rt: &'a W, room: &'a Room<R>, shares: Shares<R>) -> Hands<'a, R, W> {
        Hands {
            rt,
            room,
            shares,
            fails: false,
            meddling: None,
            last: None,
            acts: 0,
        }
    }

    fn act(&mut self, act: Act) -> Result<(), PortFault> {
        self.last = Some(act);
        self.acts = self.acts.saturating_add(1);
        if let Some(meddling) = self.meddling {
            let entry = match meddling {
                Meddling::Stop(machine) => Entry::StopAsked { machine },
                Meddling::Repair(machine) => Entry::Repaired { machine },
            };
            let answer = self.room.hall.lock(self.rt).book(&mut self.shares, entry);
            check_same(self.rt, &entry, &answer, &Ok(()));
        }
        if self.fails { Err(PortFault) } else { Ok(()) }
    }
}

impl<R: Run, W: Abort + Wait> OperatorPort for Hands<'_, R, W> {
    fn remove(&mut self, station: Station) -> Result<(), PortFault> {
        self.act(Act::Remove(station))
    }

    fn home(&mut self, machine: Machine) -> Result<(), PortFault> {
        self.act(Act::Home(machine))
    }
}

/// The operator's worker works, and his hands do what is wanted. The call is marked, so that it can be refused memory.
pub(crate) fn operate<R: Run, W: AllocGlobal + Abort + Wait>(
    shares: Shares<R>,
    hands: &mut Hands<'_, R, W>,
    name: &str,
    operating: &Operating,
    plan: &Plan,
) -> Worked<R> {
    let (rt, room) = (hands.rt, hands.room);
    hands.fails = operating.fails;
    hands.meddling = operating.meddling;
    let script = script_of(rt, operating.script);
    let alloc = rt.alloc();
    call_begins(alloc);
    let worked = run_operator(rt, alloc, hands, script, room, shares, plan);
    call_ends(alloc, worked.ended == Ended::Memory);
    let (found, wanted) = ((hands.last, hands.acts), (operating.last, operating.acts));
    check_same(rt, &name, &found, &wanted);
    worked
}

#[test]
fn an_act_by_hand_comes_before_its_entry(rt: HostRuntime) {
    for &scene in &SCENES {
        play_in_room(&rt, scene);
    }
}
