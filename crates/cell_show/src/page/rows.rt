//! A state of the cell as one row of the page's data: an array of numbers and words in the syntax of JSON.
//!
//! A row has, in this order: the plates by station, which of them are forged, the axes' poses, where the axes are
//! going, the zones' holders, the failed and the asked machines, the lights, the expected plate, the plates in
//! quarantine, the six totals, and of the last entry its actor, its record and its sentence. A word of a list is
//! written as a letter, `a` for the first, and `-` stands for none.
ghost use Rattle.std.specs.Prelude.{◌≡◌, ◌<◌, ◌==◌, ◌∷◌, [], if◌then◌else◌};
ghost use Rattle.std.specs.Char.{encode_utf8};
ghost use Rattle.cell_types.specs.Entries.{actor_of};
ghost use Rattle.cell_show.specs.Rows.{actor_place, expected_number, flag, letter};

use cell_picture::{Facts, ShownPlate};
use cell_sentences::EntrySentence;
use cell_types::{Actor, AxisState, Colour, Entry, Machine, Pose, Totals, actor_of, spell};
use std::fmt;

// The letter of the word at a place of its list.
fn letter(place: u8) -> char
    ensures { place < 26 → encode_utf8 result ≡ letter place }
{
    char::from(b'a' + place.min(25))
}

// A 1 where something holds, and a 0 where not.
fn flag(holds: bool) -> &'static str
    ensures { result.now ≡ flag holds }
{
    if holds { "1" } else { "0" }
}

/// What stands before the cell at a place.
pub(crate) fn comma(place: usize) -> &'static str
    ensures { result.now ≡ (if place == 0 then [] else 44 ∷ []) }
{
    if place == 0 { "" } else { "," }
}

// The number of a plate, 0 where there is none.
#[derive(Clone, Copy)]
struct PlateNumber(Option<ShownPlate>);

impl fmt::Display for PlateNumber {
    ghost use Rattle.std.specs.Prelude.{Some};
    ghost use Rattle.cell_show.specs.Rows.{plate_number};

    ghost output = { λ shown. Some (plate_number shown.0) };

    fn fmt<W: fmt::Write>(&self, f: &mut fmt::Formatter<W>) -> fmt::Result {
        match self.0 {
            Some(shown) => write!(f, "{}", shown.plate.number()),
            None => write!(f, "0"),
        }
    }
}

// Whether a plate is forged, 0 where there is none.
#[derive(Clone, Copy)]
struct PlateMark(Option<ShownPlate>);

impl fmt::Display for PlateMark {
    ghost use Rattle.std.specs.Prelude.{Some};
    ghost use Rattle.cell_show.specs.Rows.{plate_mark};

    ghost output = { λ shown. Some (plate_mark shown.0) };

    fn fmt<W: fmt::Write>(&self, f: &mut fmt::Formatter<W>) -> fmt::Result {
        match self.0 {
            Some(shown) => write!(f, "{}", flag(shown.forged)),
            None => write!(f, "0"),
        }
    }
}

// The letter of a pose to which an axis is going.
#[derive(Clone, Copy)]
struct Aim(Option<Pose>);

impl fmt::Display for Aim {
    ghost use Rattle.std.specs.Prelude.{Some};
    ghost use Rattle.cell_show.specs.Rows.{aim_letter};

    ghost output = { λ aim. Some (aim_letter aim.0) };

    fn fmt<W: fmt::Write>(&self, f: &mut fmt::Formatter<W>) -> fmt::Result {
        match self.0 {
            Some(to) => write!(f, "{}", letter(to as u8)),
            None => write!(f, "-"),
        }
    }
}

// The letter of the machine that holds a zone.
#[derive(Clone, Copy)]
struct Holder(Option<Machine>);

impl fmt::Display for Holder {
    ghost use Rattle.std.specs.Prelude.{Some};
    ghost use Rattle.cell_show.specs.Rows.{holder_letter};

    ghost output = { λ holder. Some (holder_letter holder.0) };

    fn fmt<W: fmt::Write>(&self, f: &mut fmt::Formatter<W>) -> fmt::Result {
        match self.0 {
            Some(machine) => write!(f, "{}", letter(machine as u8)),
            None => write!(f, "-"),
        }
    }
}

// The first letter of a light's colour.
#[derive(Clone, Copy)]
struct Lamp(Colour);

impl fmt::Display for Lamp {
    ghost use Rattle.std.specs.Prelude.{Some};
    ghost use Rattle.cell_show.specs.Rows.{lamp_letter};

    ghost output = { λ lamp. Some (lamp_letter lamp.0) };

    fn fmt<W: fmt::Write>(&self, f: &mut fmt::Formatter<W>) -> fmt::Result {
        match self.0 {
            Colour::Red => write!(f, "r"),
            Colour::Green => write!(f, "g"),
        }
    }
}

// The plates' numbers by station.
#[derive(Clone, Copy)]
struct Plates<'a>(&'a [Option<ShownPlate>]);

impl<'a> fmt::Display for Plates<'a> {
    ghost use Rattle.std.specs.Prelude.{Some, map};
    ghost use Rattle.cell_show.specs.Rows.{plate_number, with_commas};

    ghost output = { λ shown. Some (with_commas (map plate_number shown.0.now)) };

    fn fmt<W: fmt::Write>(&self, f: &mut fmt::Formatter<W>) -> fmt::Result {
        for (place, shown) in self.0.iter().enumerate() {
            write!(f, "{}{}", comma(place), PlateNumber(*shown))?;
        }
        Ok(())
    }
}

// Whether the plate at each station is forged.
#[derive(Clone, Copy)]
struct Forged<'a>(&'a [Option<ShownPlate>]);

impl<'a> fmt::Display for Forged<'a> {
    ghost use Rattle.std.specs.Prelude.{Some};
    ghost use Rattle.std.specs.List.{flat_map};
    ghost use Rattle.cell_show.specs.Rows.{plate_mark};

    ghost output = { λ shown. Some (flat_map plate_mark shown.0.now) };

    fn fmt<W: fmt::Write>(&self, f: &mut fmt::Formatter<W>) -> fmt::Result {
        for shown in self.0 {
            write!(f, "{}", PlateMark(*shown))?;
        }
        Ok(())
    }
}

// The letters of the poses that the axes have or have left.
#[derive(Clone, Copy)]
struct At<'a>(&'a [AxisState]);

impl<'a> fmt::Display for At<'a> {
    ghost use Rattle.std.specs.Prelude.{Some};
    ghost use Rattle.std.specs.List.{flat_map};
    ghost use Rattle.cell_show.specs.Rows.{pose_letter};

    ghost output = { λ axes. Some (flat_map pose_letter axes.0.now) };

    fn fmt<W: fmt::Write>(&self, f: &mut fmt::Formatter<W>) -> fmt::Result {
        for axis in self.0 {
            write!(f, "{}", letter(axis.at as u8))?;
        }
        Ok(())
    }
}

// The letters of the poses to which the axes are going.
#[derive(Clone, Copy)]
struct Going<'a>(&'a [AxisState]);

impl<'a> fmt::Display for Going<'a> {
    ghost use Rattle.std.specs.Prelude.{Some};
    ghost use Rattle.std.specs.List.{flat_map};
    ghost use Rattle.cell_show.specs.Rows.{going_letter};

    ghost output = { λ axes. Some (flat_map going_letter axes.0.now) };

    fn fmt<W: fmt::Write>(&self, f: &mut fmt::Formatter<W>) -> fmt::Result {
        for axis in self.0 {
            write!(f, "{}", Aim(axis.going))?;
        }
        Ok(())
    }
}

// The letters of the machines that hold the zones.
#[derive(Clone, Copy)]
struct Holders<'a>(&'a [Option<Machine>]);

impl<'a> fmt::Display for Holders<'a> {
    ghost use Rattle.std.specs.Prelude.{Some};
    ghost use Rattle.std.specs.List.{flat_map};
    ghost use Rattle.cell_show.specs.Rows.{holder_letter};

    ghost output = { λ holders. Some (flat_map holder_letter holders.0.now) };

    fn fmt<W: fmt::Write>(&self, f: &mut fmt::Formatter<W>) -> fmt::Result {
        for holder in self.0 {
            write!(f, "{}", Holder(*holder))?;
        }
        Ok(())
    }
}

// For each machine a 1 where something holds of it, and a 0 where not.
#[derive(Clone, Copy)]
struct Flags<'a>(&'a [bool]);

impl<'a> fmt::Display for Flags<'a> {
    ghost use Rattle.std.specs.Prelude.{Some};
    ghost use Rattle.std.specs.List.{flat_map};
    ghost use Rattle.cell_show.specs.Rows.{flag};

    ghost output = { λ flags. Some (flat_map flag flags.0.now) };

    fn fmt<W: fmt::Write>(&self, f: &mut fmt::Formatter<W>) -> fmt::Result {
        for holds in self.0 {
            write!(f, "{}", flag(*holds))?;
        }
        Ok(())
    }
}

// The first letters of the lights' colours.
#[derive(Clone, Copy)]
struct Lamps<'a>(&'a [Colour]);

impl<'a> fmt::Display for Lamps<'a> {
    ghost use Rattle.std.specs.Prelude.{Some};
    ghost use Rattle.std.specs.List.{flat_map};
    ghost use Rattle.cell_show.specs.Rows.{lamp_letter};

    ghost output = { λ lamps. Some (flat_map lamp_letter lamps.0.now) };

    fn fmt<W: fmt::Write>(&self, f: &mut fmt::Formatter<W>) -> fmt::Result {
        for colour in self.0 {
            write!(f, "{}", Lamp(*colour))?;
        }
        Ok(())
    }
}

// The six totals.
#[derive(Clone, Copy)]
struct Counts(Totals);

impl fmt::Display for Counts {
    ghost use Rattle.std.specs.Prelude.{Some};
    ghost use Rattle.cell_show.specs.Rows.{total_cells, with_commas};

    ghost output = { λ counts. Some (with_commas (total_cells counts.0)) };

    fn fmt<W: fmt::Write>(&self, f: &mut fmt::Formatter<W>) -> fmt::Result {
        let Totals {
            entries,
            admitted,
            forged,
            quarantined,
            delivered,
            reinstated,
        } = self.0;
        write!(f, "{entries},{admitted},{forged},")?;
        write!(f, "{quarantined},{delivered},{reinstated}")
    }
}

// The record of an entry.
#[derive(Clone, Copy)]
struct Record(Entry);

impl fmt::Display for Record {
    ghost use Rattle.std.specs.Prelude.{Some};
    ghost use Rattle.cell_types.specs.Spelling.{record_of};
    ghost use Rattle.cell_show.specs.Rows.{with_commas};

    ghost output = { λ entry. Some (with_commas (record_of entry.0)) };

    fn fmt<W: fmt::Write>(&self, f: &mut fmt::Formatter<W>) -> fmt::Result {
        let fields = spell(self.0);
        for (place, field) in fields.iter().enumerate() {
            write!(f, "{}{}", comma(place), *field)?;
        }
        Ok(())
    }
}

// The place of an entry's actor: the machines' places, and 6 for the operator.
fn actor_place(entry: Entry) -> u8
    ensures { result ≡ actor_place (actor_of entry) }
{
    match actor_of(entry) {
        Actor::Machine(machine) => machine as u8,
        Actor::Operator => 6,
    }
}

// The number of the plate that is expected, 0 where none is.
fn expected_number(facts: &Facts) -> u32
    ensures { result ≡ expected_number facts.now.expected }
{
    match facts.expected {
        Some(plate) => plate.number(),
        None => 0,
    }
}

// The plates, which of them are forged, the axes' poses, and where the axes are going.
#[derive(Clone, Copy)]
struct Places<'a>(&'a Facts);

impl<'a> fmt::Display for Places<'a> {
    ghost use Rattle.std.specs.Prelude.{Some};
    ghost use Rattle.cell_show.specs.Rows.{place_cells, with_commas};

    ghost output = { λ facts. Some (with_commas (place_cells facts.0.now)) };

    fn fmt<W: fmt::Write>(&self, f: &mut fmt::Formatter<W>) -> fmt::Result {
        let facts = self.0;
        write!(
            f,
            "[{}],\"{}\",",
            Plates(&facts.plates),
            Forged(&facts.plates)
        )?;
        write!(f, "\"{}\",\"{}\"", At(&facts.axes), Going(&facts.axes))
    }
}

// The zones' holders, the failed and the asked machines, and the lights.
#[derive(Clone, Copy)]
struct Machines<'a>(&'a Facts);

impl<'a> fmt::Display for Machines<'a> {
    ghost use Rattle.std.specs.Prelude.{Some};
    ghost use Rattle.cell_show.specs.Rows.{machine_cells, with_commas};

    ghost output = { λ facts. Some (with_commas (machine_cells facts.0.now)) };

    fn fmt<W: fmt::Write>(&self, f: &mut fmt::Formatter<W>) -> fmt::Result {
        let facts = self.0;
        write!(
            f,
            "\"{}\",\"{}\",",
            Holders(&facts.holders),
            Flags(&facts.failed)
        )?;
        write!(f, "\"{}\",\"{}\"", Flags(&facts.asked), Lamps(&facts.lamps))
    }
}

// The expected plate, the plates in quarantine, and the totals.
#[derive(Clone, Copy)]
struct Numbers<'a>(&'a Facts);

impl<'a> fmt::Display for Numbers<'a> {
    ghost use Rattle.std.specs.Prelude.{Some};
    ghost use Rattle.cell_show.specs.Rows.{count_cells, with_commas};

    ghost output = { λ facts. Some (with_commas (count_cells facts.0.now)) };

    fn fmt<W: fmt::Write>(&self, f: &mut fmt::Formatter<W>) -> fmt::Result {
        let facts = self.0;
        let expected = expected_number(facts);
        let quarantine = facts.quarantine;
        write!(f, "{expected},{quarantine},[{}]", Counts(facts.totals))
    }
}

/// Of an entry its actor, its record and its sentence.
#[derive(Clone, Copy)]
pub(crate) struct Last(pub(crate) Option<Entry>);

impl fmt::Display for Last {
    ghost use Rattle.std.specs.Prelude.{Some};
    ghost use Rattle.cell_show.specs.Rows.{entry_cells, with_commas};

    ghost output = { λ last. Some (with_commas (entry_cells last.0)) };

    fn fmt<W: fmt::Write>(&self, f: &mut fmt::Formatter<W>) -> fmt::Result {
        match &self.0 {
            Some(entry) => {
                write!(f, "{},", actor_place(*entry))?;
                write!(f, "\"{}\",", Record(*entry))?;
                write!(f, "\"{}\"", EntrySentence(*entry))
            }
            None => write!(f, "-1,\"\",\"\""),
        }
    }
}

/// What the first entries of a journal leave, and the last of them.
#[derive(Clone, Copy)]
pub(crate) struct Row {
    pub facts: Facts,
    pub last: Option<Entry>,
}

#[tactic(auto, unfolding(crate::specs::Rows::row_text))]
impl fmt::Display for Row {
    ghost use Rattle.std.specs.Prelude.{Some};
    ghost use Rattle.cell_show.specs.Rows.{row_text};

    ghost output = { λ row. Some (row_text row.facts row.last) };

    fn fmt<W: fmt::Write>(&self, f: &mut fmt::Formatter<W>) -> fmt::Result {
        let facts = &self.facts;
        write!(f, "[{},{},", Places(facts), Machines(facts))?;
        write!(f, "{},{}]", Numbers(facts), Last(self.last))
    }
}
