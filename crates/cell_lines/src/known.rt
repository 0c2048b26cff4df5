//! What is known of the cell by its lines.
ghost use Rattle.std.specs.Prelude.{◌≡◌, ◌<◌, length, nat_lt};
ghost use Rattle.cell_turns.specs.Six.{at};
ghost use Rattle.cell_lines.specs.Known.{first, next_wish, nothing, others, picture, no_readings, wish_for, wish_taken};
ghost use Rattle.cell_lines.specs.Known.{with_act, with_reading, with_wish, without_readings};

use arrayvec::ArrayVec;
use cell_diagnosis::Reading;
use cell_plant::Wish;
use cell_turns::Six;
use cell_types::Machine;
use operator_desk::Task;

/// What someone did at the cell.
#[derive(Clone, Copy, Debug, PartialEq, Eq)]
pub(crate) struct Deed(Task);

/// What stands in an unused place.
impl Default for Deed {
    fn default() -> Deed {
        Deed(Task::Stop(Machine::Feed))
    }
}

/// What is known of the cell: the readings of this round; what someone did there and what he wants, the oldest first,
/// as far as it isn't taken up yet; and how many wishes came for which there was no room.
#[derive(Drop)]
pub(crate) struct Known {
    readings: Six<Option<Reading>>,
    acts: ArrayVec<Deed, 64>,
    wishes: ArrayVec<Wish, 64>,
    crowd: u32,
}

// No readings.
fn no_readings() -> Six<Option<Reading>>
    ensures { result ≡ no_readings }
{
    Six {
        feed: None,
        table: None,
        robot: None,
        press1: None,
        press2: None,
        deposit: None,
    }
}

// What someone wants, if it can be read.
fn wish_for(task: Option<Task>) -> Wish
    ensures { result ≡ wish_for task }
{
    match task {
        Some(task) => Wish::For(task),
        None => Wish::Unreadable,
    }
}

impl Known {
    /// Nothing is known.
    pub(crate) fn new() -> Known
        ensures { picture result ≡ nothing }
    {
        Known {
            readings: no_readings(),
            acts: ArrayVec::new(),
            wishes: ArrayVec::new(),
            crowd: 0,
        }
    }

    /// Forgets the readings of the round before.
    pub(crate) fn forget_readings(&mut self)
        ensures { picture self.new ≡ without_readings (picture self.old) }
    {
        self.readings = no_readings();
    }

    /// Keeps what a machine shows.
    pub(crate) fn show(&mut self, machine: Machine, reading: Option<Reading>)
        ensures { picture self.new ≡ with_reading machine reading (picture self.old) }
    {
        *self.readings.pick(machine) = reading;
    }

    /// What a machine shows in this round.
    pub(crate) fn reading(&mut self, machine: Machine) -> Option<Reading>
        ensures value { result ≡ at (picture self.old).readings machine }
        ensures same { picture self.new ≡ picture self.old }
    {
        *self.readings.pick(machine)
    }

    /// Keeps what someone did, and says whether there was room for it.
    pub(crate) fn keep_act(&mut self, task: Task) -> bool
        ensures room { result ≡ nat_lt (length (picture self.old).acts) 64 }
        ensures kept { picture self.new ≡ with_act task (picture self.old) }
    {
        self.acts.try_push(Deed(task)).is_ok()
    }

    /// Keeps what someone wants, if it can be read. Where there is no room for it, it is counted.
    pub(crate) fn keep_wish(&mut self, task: Option<Task>)
        ensures { picture self.new ≡ with_wish (wish_for task) (picture self.old) }
    {
        let wish = wish_for(task);
        if self.wishes.is_full() {
            self.crowd = self.crowd.saturating_add(1);
            return;
        }
        self.wishes.push(wish);
    }

    /// The next of what someone did, which is taken up.
    pub(crate) fn next_act(&mut self) -> Option<Task>
        ensures act { result ≡ first (picture self.old).acts }
        ensures left { picture self.new ≡ record (picture self.old) { acts = others (picture self.old).acts } }
    {
        if self.acts.is_empty() {
            return None;
        }
        let Deed(task) = self.acts.remove(0);
        Some(task)
    }

    /// The next of what someone wants, which is taken up: after the wishes that were kept those for which there was no
    /// room.
    pub(crate) fn next_wish(&mut self) -> Option<Wish>
        ensures wish { result ≡ next_wish (picture self.old).wishes (picture self.old).crowd }
        ensures left { picture self.new ≡ wish_taken (picture self.old).wishes (picture self.old) }
    {
        if !self.wishes.is_empty() {
            return Some(self.wishes.remove(0));
        }
        if self.crowd == 0 {
            return None;
        }
        self.crowd -= 1;
        Some(Wish::TooMuch)
    }
}
