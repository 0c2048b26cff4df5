//! The watches beside the plain program, on all sequences of a few readings. Bits that belong to nothing are set in
//! them.
use crate::diagnosis::plain::{LEAVE, LIMIT, Noted, PlainMotion, plain_rest, plain_verdict, shown};
use cell_diagnosis::{AxisWatch, Expect, Limits, Motion, Reading, RestWatch};
use cell_types::{Axis, Machine, Pose};
use std::process::Abort;

/// A missing reading and eight others.
type Letters = [Option<Reading>; 9];

/// All sequences of six of nine letters: 9 to the power of 6.
const SEQUENCES: usize = 531_441;

/// All sequences of five of 24 letters at rest: 24 to the power of 5.
const REST_SEQUENCES: usize = 7_962_624;

/// All sets of three switches or sensors.
const SETS: [u8; 8] = [0xF8, 0xF9, 0xFA, 0xFB, 0xFC, 0xFD, 0xFE, 0xFF];

/// Sets of the robot's switches: none, the ends of the turns, poses that are passed and poses beyond, and pairs.
const TURNS: [u8; 8] = [0xC0, 0xC1, 0xC2, 0xC4, 0xC8, 0xD0, 0xC9, 0xE2];

/// A motion, the sets of switches that stand for its poses (from, to, passing), and the sets that are read.
type Followed = (Axis, Pose, Pose, [u8; 3], [u8; 8]);

const PRESSES: [Followed; 2] = [
    (Axis::PressOne, Pose::Middle, Pose::Top, [1, 2, 0], SETS),
    (Axis::PressTwo, Pose::Top, Pose::Bottom, [2, 4, 1], SETS),
];

const ROBOT: [Followed; 2] = [
    (
        Axis::RobotTurn,
        Pose::Table1,
        Pose::P2Load,
        [1, 8, 6],
        TURNS,
    ),
    (
        Axis::RobotTurn,
        Pose::P2Load,
        Pose::P1Load,
        [8, 2, 4],
        TURNS,
    ),
];

const BELTS: [Followed; 2] = [
    (Axis::FeedBelt, Pose::Rest, Pose::ToEnd, [1, 2, 0], SETS),
    (Axis::FeedBelt, Pose::Rest, Pose::ToTable, [1, 2, 0], SETS),
];

/// A missing reading, and readings that show these sets of an axis: of the belt by its sensors.
fn letters_of(axis: Axis, sets: [u8; 8]) -> Letters {
    let mut letters = [None; 9];
    for place in 0..8 {
        let set = sets[place];
        let (first, presence) = match axis {
            Axis::FeedBelt => (0xFF, set),
            _ => (set, 0xFF),
        };
        letters[place + 1] = Some(Reading {
            switches: [first, 0xFF, 0xFF],
            presence,
        });
    }
    letters
}

/// One sequence, by its number.
fn follow(rt: &impl Abort, motion: &Motion, plain: &PlainMotion, letters: &Letters, number: usize) {
    let mut watch = AxisWatch::start(motion.axis, motion.from, motion.to, motion.limits);
    let mut sets = [None; 6];
    let mut rest = number;
    for place in 0..6 {
        let letter = letters[rest % 9];
        rest /= 9;
        sets[place] = letter.map(|reading| shown(motion.axis, motion.to, reading));
        let wanted = plain_verdict(plain, &sets[..=place]);
        let verdict = watch.note(letter);
        assert!(rt;
            verdict == wanted,
            "reading {place} of sequence {number} of {motion:?}"
        );
    }
}

/// All sequences of each motion.
fn follow_all(rt: &impl Abort, motions: &[Followed]) {
    let limits = Limits::new(LEAVE, LIMIT).expect(rt, "limits in range");
    for (axis, from, to, [plain_from, plain_to, passing], sets) in motions {
        let motion = Motion {
            axis: *axis,
            from: *from,
            to: *to,
            limits,
        };
        let plain = PlainMotion {
            from: *plain_from,
            to: *plain_to,
            passing: *passing,
        };
        let letters = letters_of(*axis, *sets);
        for number in 0..SEQUENCES {
            follow(rt, &motion, &plain, &letters, number);
        }
    }
}

#[test]
fn a_press_is_followed_as_the_plain_program_says(rt: HostRuntime) {
    follow_all(&rt, &PRESSES);
}

#[test]
fn a_turn_is_followed_as_the_plain_program_says(rt: HostRuntime) {
    follow_all(&rt, &ROBOT);
}

#[test]
fn a_belt_is_followed_as_the_plain_program_says(rt: HostRuntime) {
    follow_all(&rt, &BELTS);
}

/// A reading of the table: its lift, its turn, its plate.
fn table(lift: u8, turn: u8, plate: u8) -> Option<Reading> {
    Some(Reading {
        switches: [lift | 0xFC, turn | 0xFC, 0xFF],
        presence: plate | 0xFE,
    })
}

/// The table is expected to rest so: its lift, its turn, and the bits of its plate that have to be there and that may.
fn expect_of(lift: Option<Pose>, turn: Option<Pose>, must: u8, may: u8) -> Expect {
    Expect {
        poses: [lift, turn, Some(Pose::Out)],
        must: must | 0xFE,
        may: may & 0xFD,
    }
}

/// One sequence of the table at rest, by its number.
fn follow_rest(
    rt: &impl Abort,
    expects: &[Expect; 3],
    readings: &[Option<Reading>; 8],
    number: usize,
) {
    let mut watch = RestWatch::start(Machine::Table);
    let mut list: [Noted; 5] = [(expects[0], None); 5];
    let mut rest = number;
    for place in 0..5 {
        let expect = expects[rest % 3];
        let reading = readings[rest / 3 % 8];
        rest /= 24;
        list[place] = (expect, reading);
        let wanted = plain_rest(&list[..=place]);
        let verdict = watch.note(&expect, reading);
        assert!(rt; verdict == wanted, "reading {place} of sequence {number}");
    }
}

#[test]
fn a_table_at_rest_is_followed_as_the_plain_program_says(rt: HostRuntime) {
    let expects = [
        expect_of(Some(Pose::Low), Some(Pose::Belt), 0, 0),
        expect_of(None, Some(Pose::Robot), 1, 0),
        expect_of(Some(Pose::High), Some(Pose::Robot), 1, 1),
    ];
    let readings = [
        None,
        table(1, 1, 0),
        table(2, 1, 0),
        table(3, 1, 1),
        table(1, 2, 1),
        table(3, 3, 0),
        table(0, 3, 1),
        table(2, 2, 1),
    ];
    for number in 0..REST_SEQUENCES {
        follow_rest(&rt, &expects, &readings, number);
    }
}
