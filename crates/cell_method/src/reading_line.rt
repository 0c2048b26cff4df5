//! The line that tells what a machine shows.
ghost use Rattle.std.specs.Prelude.{◌≡◌, ◌≢◌, ◌≤◌, length, map, IfErr, OnOk};
ghost use Rattle.std.specs.Io.KnownBytes.{Appends};
ghost use Rattle.cell_method.specs.Shown.{reading_line, shown, sign_after, switches_text};
ghost use Rattle.cell_types.specs.Sensors.{presence_words, switch_words};

use crate::error::DriveError;
use cell_diagnosis::{Reading, bit};
use cell_types::sensors::{presence_words, switch_words};
use cell_types::texts::machine_word;
use cell_types::{Axis, Machine};
use line_writer::write_line;
use std::fmt;
use std::io::Write;

// The sign before a word that comes after another one.
fn sign_after(is_after: bool) -> &'static str
    ensures { result.now ≡ sign_after is_after }
{
    if is_after { "+" } else { "" }
}

// The words whose bits a byte has, with a plus between them.
#[derive(Clone, Copy)]
struct Marks<'a> {
    words: &'a [&'a str],
    byte: u8,
    ghost few: { length words.now ≤ 6 },
}

impl<'a> fmt::Display for Marks<'a> {
    ghost use Rattle.std.specs.Prelude.{Some, map};

    ghost output = { λ marks. Some (shown marks.byte (map (λ w. w.now) marks.words.now)) };

    fn fmt<W: fmt::Write>(&self, f: &mut fmt::Formatter<W>) -> fmt::Result {
        let mut is_after = false;
        for place in 0..self.words.len() {
            let word = self.words[place];
            if bit(self.byte, place as u32) {
                write!(f, "{}{word}", sign_after(is_after))?;
                is_after = true;
            }
        }
        Ok(())
    }
}

// The poses that an axis shows.
fn poses_shown(axis: Axis, byte: u8) -> Marks<'static>
    ensures byte { result.byte ≡ byte }
    ensures words { map (λ w. w.now) result.words.now ≡ switch_words axis }
{
    Marks {
        words: switch_words(axis),
        byte,
    }
}

// The stations that show a plate.
fn plates_shown(machine: Machine, byte: u8) -> Marks<'static>
    ensures byte { result.byte ≡ byte }
    ensures words { map (λ w. w.now) result.words.now ≡ presence_words machine }
{
    Marks {
        words: presence_words(machine),
        byte,
    }
}

// The switches of all axes of a machine.
#[derive(Clone, Copy)]
struct Switches {
    machine: Machine,
    reading: Reading,
}

impl fmt::Display for Switches {
    ghost use Rattle.std.specs.Prelude.{Some};

    ghost output = { λ s. Some (switches_text s.machine s.reading) };

    fn fmt<W: fmt::Write>(&self, f: &mut fmt::Formatter<W>) -> fmt::Result {
        let [first, second, third] = self.reading.switches;
        match self.machine {
            Machine::Feed | Machine::Deposit => write!(f, ""),
            Machine::Table => write!(
                f,
                "{}/{}",
                poses_shown(Axis::TableLift, first),
                poses_shown(Axis::TableTurn, second)
            ),
            Machine::Robot => write!(
                f,
                "{}/{}/{}",
                poses_shown(Axis::RobotTurn, first),
                poses_shown(Axis::ArmOne, second),
                poses_shown(Axis::ArmTwo, third)
            ),
            Machine::Press1 | Machine::Press2 => write!(
                f,
                "{}",
                poses_shown(Axis::PressOne, first)
            ),
        }
    }
}

/// What a machine shows, which is written as one line: `reading,MACHINE,SWITCHES,PRESENCE`, or `missing,MACHINE,,`
/// where the reading is missing. SWITCHES has a part for each axis of the machine, with `/` between them, which is the
/// poses that the axis shows, and PRESENCE the stations that show a plate, with `+` between them.
#[derive(Clone, Copy, Debug, PartialEq, Eq)]
pub struct ReadingLine {
    pub machine: Machine,
    pub reading: Option<Reading>,
}

impl fmt::Display for ReadingLine {
    ghost use Rattle.std.specs.Prelude.{Some};

    ghost output = { λ line. Some (reading_line line.machine line.reading) };

    fn fmt<W: fmt::Write>(&self, f: &mut fmt::Formatter<W>) -> fmt::Result {
        let machine = self.machine;
        let word = machine_word(machine);
        match self.reading {
            Some(reading) => {
                let switches = Switches { machine, reading };
                let presence = plates_shown(machine, reading.presence);
                write!(f, "reading,{word},{switches},{presence}\n")
            }
            None => write!(f, "missing,{word},,\n"),
        }
    }
}

/// Writes what a machine shows.
pub(crate) fn show<W: Write>(
    writer: &mut W,
    machine: Machine,
    reading: Option<Reading>,
) -> Result<(), DriveError>
    ensures told { OnOk result (Appends (W.contents writer.old) (W.contents writer.new)
        (reading_line machine reading)) }
    ensures memory { IfErr result (λ e. e ≢ DriveError.OutOfMemory) }
{
    write_line(writer, ReadingLine { machine, reading })?;
    Ok(())
}
