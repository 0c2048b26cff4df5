//! What a seed determines of a schedule, beside its steps.
use crate::turns::random::Random;
use crate::turns::stage::Devices;
use cell_diagnosis::Limits;
use cell_turns::Plan;
use plate_book::Book;
use std::process::Abort;
use test_ports::Failing;

/// How a schedule goes on. Rates are so many times in 1,024.
#[derive(Clone, Copy)]
pub(crate) struct Habits {
    /// How many steps there are.
    pub(crate) steps: usize,
    /// How often any machine takes the turn, and not the next in order.
    pub(crate) disorder: u32,
    /// How often readings that aren't what the ports show begin: one to sixteen of them.
    pub(crate) noise: u32,
    /// How often a step is an entry by hand, and not a turn.
    pub(crate) hands: u32,
    /// How often an entry by hand mends a failed machine.
    pub(crate) mending: u32,
}

/// What a schedule stands on.
#[derive(Clone, Copy)]
pub(crate) struct Setting {
    /// The seed that determines it.
    pub(crate) seed: u64,
    pub(crate) plan: Plan,
    /// How many entries the book takes, and how many plates.
    pub(crate) entries: u32,
    pub(crate) plates: u32,
    pub(crate) devices: Devices,
    /// The faults of the simulated cell's motions. None is that of a refused command: those are the ports' own.
    pub(crate) faults: &'static str,
    pub(crate) habits: Habits,
}

/// More answers, commands and acts than a schedule has steps.
const ROOM: usize = 2_000;

const ENTRIES: [u32; 8] = [1, 3, 9, 40, 150, 1_000, 10_000, 10_000];

const PLATES: [u32; 6] = [1, 2, 3, 5, 8, 100_000];

/// The readings that a motion may take: the fewest, more, and those of the settings.
const LIMITS: [(u16, u16); 4] = [(2, 3), (5, 60), (3, 20), (3, 20)];

/// At which of its calls a device fails: one in two never does.
const FAILING: [Failing; 14] = [
    Failing::Always,
    Failing::At(1),
    Failing::At(7),
    Failing::At(23),
    Failing::Each(2),
    Failing::Each(5),
    Failing::Each(17),
    Failing::Never,
    Failing::Never,
    Failing::Never,
    Failing::Never,
    Failing::Never,
    Failing::Never,
    Failing::Never,
];

const FAULTS: [&str; 5] = [
    "",
    "press_one,1,no_motion,\narm_two,1,keeps_old,\n",
    "table_turn,2,both,\nrobot_turn,3,lose_plate,\n",
    "feed_belt,1,slow,30\nrobot_turn,2,silent,3\n",
    "arm_one,4,lose_plate,\ndeposit_belt,1,keeps_old,\n",
];

/// What habits are drawn from, each as likely as often as it is here.
struct Choices {
    steps: [usize; 6],
    disorder: [u32; 4],
    noise: [u32; 12],
    hands: [u32; 4],
    mending: [u32; 4],
}

/// For a schedule that gets somewhere: nearly all readings are what the ports show, and what fails is mended.
const CALM: Choices = Choices {
    steps: [900, 1_300, 1_900, 900, 1_300, 1_900],
    disorder: [0, 0, 100, 512],
    noise: [0, 0, 1, 2, 0, 0, 1, 2, 0, 0, 1, 2],
    hands: [0, 30, 60, 120],
    mending: [1_000, 1_024, 1_000, 1_024],
};

const WILD: Choices = Choices {
    steps: [60, 250, 600, 900, 1_300, 1_900],
    disorder: [0, 100, 512, 1_024],
    noise: [0, 2, 6, 15, 60, 1_024, 0, 2, 6, 15, 60, 1_024],
    hands: [0, 4, 30, 120],
    mending: [0, 700, 1_000, 1_024],
};

impl Habits {
    fn draw(random: &mut Random, choices: &Choices) -> Habits {
        Habits {
            steps: choices.steps[random.below(6)],
            disorder: choices.disorder[random.below(4)],
            noise: choices.noise[random.below(12)],
            hands: choices.hands[random.below(4)],
            mending: choices.mending[random.below(4)],
        }
    }
}

// In half of the cells one port may fail, and in one of eight each of them.
fn draw_ports(random: &mut Random) -> [Failing; 6] {
    let mut failing = [Failing::Never; 6];
    match random.below(8) {
        0 => {
            for machine in 0..6 {
                failing[machine] = FAILING[random.below(14)];
            }
        }
        1..=4 => {
            let drawn = FAILING[random.below(14)];
            failing[random.below(6)] = drawn;
        }
        _ => {}
    }
    failing
}

fn draw_limits(rt: &impl Abort, random: &mut Random) -> Limits {
    let (leave, limit) = LIMITS[random.below(4)];
    Limits::new(leave, limit).expect(rt, "the limits are in range")
}

fn draw_plan(rt: &impl Abort, random: &mut Random, journal_limit: u32) -> Plan {
    let plates = PLATES[random.below(6)];
    let mut limits = [draw_limits(rt, random); 9];
    let other = draw_limits(rt, random);
    limits[random.below(9)] = other;
    assert!(rt; 1 <= plates && plates <= 100_000);
    assert!(rt; 1 <= journal_limit && journal_limit <= 1_000_000);
    Plan {
        plates,
        journal_limit,
        turns: 1_000,
        limits,
    }
}

impl Setting {
    /// The setting of a seed, whose next numbers these are. Half of the schedules are to get somewhere: of these the
    /// journal is ample, no port fails, and most of their cells have no faults.
    pub(crate) fn draw(rt: &impl Abort, seed: u64, random: &mut Random) -> Setting {
        let is_calm = random.chance(512);
        let entries = if is_calm {
            10_000
        } else {
            ENTRIES[random.below(8)]
        };
        let plan = draw_plan(rt, random, entries);
        let few = plan.plates.min(1_000);
        let plates = [few, few, 1_000, 1_000, 1_000, 2, 1, 1][random.below(8)];
        let faults = FAULTS[random.below(5)];
        let devices = Devices {
            failing: if is_calm {
                [Failing::Never; 6]
            } else {
                draw_ports(random)
            },
            removing: FAILING[random.below(14)],
            homing: FAILING[random.below(14)],
            room: ROOM,
        };
        let is_sound = is_calm && random.chance(700);
        Setting {
            seed,
            plan,
            entries,
            plates,
            devices,
            faults: if is_sound { "" } else { faults },
            habits: Habits::draw(random, if is_calm { &CALM } else { &WILD }),
        }
    }

    /// An empty book with the setting's limits.
    pub(crate) fn book<W: AllocGlobal + Abort>(&self, rt: &W) -> Book {
        let book = Book::new(rt.alloc(), self.entries, self.plates);
        book.ok().expect(rt, "a book")
    }
}
