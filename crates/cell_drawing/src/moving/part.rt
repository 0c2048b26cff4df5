//! The parts of a drawing that change.
use crate::moving::play::{Moment, is_mishap};
use cell_picture::{Facts, axis_at, holder_at, is_asked, is_failed, lamp_at, plate_at};
use cell_sentences::EntrySentence;
use cell_types::{
    Axis, Belt, Colour, Entry, Machine, Pose, Press, Station, Totals, Zone, axis_number,
    belt_number, machine_number, machine_of_axis, station_number, zone_number,
};
use std::fmt;

/// A count that is shown.
#[derive(Clone, Copy)]
pub enum Count {
    Admitted,
    Forged,
    Delivered,
    Quarantined,
}

/// A part of a drawing that changes. It is shown by its name, which is that of its class and of its keyframes.
#[derive(Clone, Copy)]
pub enum Part {
    /// What an axis moves.
    Moved(Axis),
    /// The dot that tells the height of a press or of the table.
    Height(Axis),
    /// The glow of a press that forges.
    Glow(Press),
    /// What stands upright while the robot turns.
    Upright,
    /// The plate at a station, if it is forged, or if it isn't.
    Plate(Station, bool),
    /// The mark of a zone that is held.
    Held(Zone),
    /// The mark of a machine that is booked failed.
    Failed(Machine),
    /// The mark of a machine of which a stop is asked.
    Asked(Machine),
    /// The light of a belt, if it has this colour.
    Lamp(Belt, Colour),
    /// The arrow of a belt's motion.
    Going(Axis, Pose),
    /// The number of the plate at a station, if it is forged, or if it isn't.
    Number(Station, bool),
    /// How many plates there are of a kind.
    Counted(Count),
    /// The sentence of the last entry that is told.
    Sentence,
}

/// One of the texts that follow each other in a part.
#[derive(Clone, Copy)]
pub enum Label {
    Number(u32),
    /// A forged plate's number.
    Forged(u32),
    Told(Entry),
    Opening,
}

impl fmt::Display for Label {
    fn fmt<W: fmt::Write>(&self, f: &mut fmt::Formatter<W>) -> fmt::Result {
        match *self {
            Label::Number(number) => write!(f, "{number}"),
            Label::Forged(number) => write!(f, "{number}*"),
            Label::Told(entry) => write!(f, "{}", EntrySentence(entry)),
            Label::Opening => write!(f, "the opening"),
        }
    }
}

impl fmt::Display for Part {
    fn fmt<W: fmt::Write>(&self, f: &mut fmt::Formatter<W>) -> fmt::Result {
        match *self {
            Part::Moved(axis) => write!(f, "a{}", axis_number(axis)),
            Part::Height(axis) => write!(f, "h{}", axis_number(axis)),
            Part::Glow(press) => write!(f, "g{}", axis_number(press.axis)),
            Part::Upright => write!(f, "u"),
            Part::Plate(station, true) => write!(f, "q{}", station_number(station)),
            Part::Plate(station, false) => write!(f, "p{}", station_number(station)),
            Part::Held(zone) => write!(f, "z{}", zone_number(zone)),
            Part::Failed(machine) => write!(f, "f{}", machine_number(machine)),
            Part::Asked(machine) => write!(f, "s{}", machine_number(machine)),
            Part::Lamp(belt, Colour::Red) => write!(f, "r{}", belt_number(belt)),
            Part::Lamp(belt, Colour::Green) => write!(f, "l{}", belt_number(belt)),
            Part::Going(axis, Pose::ToTable) => write!(f, "k{}", axis_number(axis)),
            Part::Going(axis, _) => write!(f, "b{}", axis_number(axis)),
            Part::Number(station, true) => write!(f, "m{}", station_number(station)),
            Part::Number(station, false) => write!(f, "n{}", station_number(station)),
            Part::Counted(count) => write!(f, "c{}", count as usize),
            Part::Sentence => write!(f, "e"),
        }
    }
}

// How many plates of a kind the totals have.
fn count_in(totals: &Totals, count: Count) -> u32 {
    match count {
        Count::Admitted => totals.admitted,
        Count::Forged => totals.forged,
        Count::Delivered => totals.delivered,
        Count::Quarantined => totals.quarantined,
    }
}

// The number of the plate at a station, if one is there that is forged, or one that isn't.
fn number_at(facts: &Facts, station: Station, forged: bool) -> Option<u32> {
    match plate_at(facts, station) {
        Some(shown) if shown.forged == forged => Some(shown.plate.number()),
        _ => None,
    }
}

// Whether an entry is told as a sentence.
fn is_told(entry: &Entry) -> bool {
    match entry {
        Entry::Admitted { .. } | Entry::Forged { .. } | Entry::Delivered { .. } => true,
        _ => is_mishap(entry),
    }
}

impl Part {
    /// Whether it moves evenly, and not from one moment to the next.
    pub fn is_even(self) -> bool {
        matches!(
            self,
            Part::Moved(_) | Part::Height(_) | Part::Glow(_) | Part::Upright
        )
    }

    /// Whether it is shown of such facts. Glows are shown by their motions alone.
    pub fn is_seen(self, facts: &Facts) -> bool {
        match self {
            Part::Plate(station, forged) => number_at(facts, station, forged).is_some(),
            Part::Held(zone) => holder_at(facts, zone).is_some(),
            Part::Failed(machine) => is_failed(facts, machine),
            Part::Asked(machine) => is_asked(facts, machine),
            Part::Lamp(belt, colour) => lamp_at(facts, belt) == colour,
            Part::Going(axis, to) => {
                axis_at(facts, axis).going == Some(to) && !is_failed(facts, machine_of_axis(axis))
            }
            Part::Glow(_) => false,
            _ => true,
        }
    }

    /// The text that stands in it at the opening, if one does.
    pub fn first_label(self) -> Option<Label> {
        match self {
            Part::Counted(_) => Some(Label::Number(0)),
            Part::Sentence => Some(Label::Opening),
            _ => None,
        }
    }

    /// The text that stands in it from a moment on, if another one stood there before.
    pub fn label(self, moment: &Moment) -> Option<Label> {
        match self {
            Part::Number(station, forged) => {
                let now = number_at(&moment.after, station, forged)?;
                if number_at(&moment.before, station, forged).is_some() {
                    None
                } else if forged {
                    Some(Label::Forged(now))
                } else {
                    Some(Label::Number(now))
                }
            }
            Part::Counted(count) => {
                let now = count_in(&moment.after.totals, count);
                if now == count_in(&moment.before.totals, count) {
                    None
                } else {
                    Some(Label::Number(now))
                }
            }
            Part::Sentence if is_told(&moment.entry) => Some(Label::Told(moment.entry)),
            _ => None,
        }
    }
}
