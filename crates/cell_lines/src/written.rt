//! What is written to the cell.
ghost use Rattle.std.specs.Prelude.{◌≡◌};
ghost use Rattle.cell_types.specs.Texts.{arm_word, colour_word};
ghost use Rattle.cell_lines.specs.Written.{denial_name, denial_word, line_of, quit_line};

use cell_plant::{Denial, Reply};
use cell_types::texts::{axis_word, belt_word, machine_word, pose_word, station_word};
use cell_types::{Arm, Colour, Command, Machine, Station};
use std::fmt;

/// What is written to the cell.
#[derive(Clone, Copy, Debug, PartialEq, Eq)]
pub(crate) enum Written {
    /// A command to a machine.
    Send(Command),
    /// The plate at a station is to be taken out by hand.
    Remove(Station),
    /// The axes of a machine are to be put at home by hand.
    Home(Machine),
    /// The run is ended from here.
    Stay,
    /// The run whose journal has so many entries goes on.
    Sync(u32),
    /// The round is over.
    Done,
    /// What someone at the cell wanted is answered.
    Answer(Reply),
    /// All machines are to stop, and where it is so said the run is over.
    Stop(bool),
}

// The lines that stop all machines.
const STOP: &str =
    "all_off,feed,,\nall_off,table,,\nall_off,robot,,\nall_off,press1,,\nall_off,press2,,\nall_off,deposit,,\n";

// A command as its line.
#[derive(Clone, Copy)]
struct CommandLine(Command);

fn colour_word(colour: Colour) -> &'static str
    ensures { result.now ≡ colour_word colour }
{
    match colour {
        Colour::Red => "red",
        Colour::Green => "green",
    }
}

fn arm_word(arm: Arm) -> &'static str
    ensures { result.now ≡ arm_word arm }
{
    match arm {
        Arm::Arm1 => "arm1",
        Arm::Arm2 => "arm2",
    }
}

impl fmt::Display for CommandLine {
    ghost use Rattle.std.specs.Prelude.{Some};
    ghost use Rattle.cell_rows.specs.Lines.{line};
    ghost use Rattle.cell_lines.specs.Written.{command_row};

    ghost output = { λ command. Some (line (command_row command.0)) };

    fn fmt<W: fmt::Write>(&self, f: &mut fmt::Formatter<W>) -> fmt::Result {
        match self.0 {
            Command::Lamp(belt, colour) => {
                write!(f, "lamp,{},{},\n", belt_word(belt), colour_word(colour))
            }
            Command::On(axis, pose) => {
                write!(f, "on,{},{},\n", axis_word(axis), pose_word(pose))
            }
            Command::Off(axis) => write!(f, "off,{},,\n", axis_word(axis)),
            Command::MagnetOn(arm) => write!(f, "magnet_on,{},,\n", arm_word(arm)),
            Command::MagnetOff(arm) => write!(f, "magnet_off,{},,\n", arm_word(arm)),
            Command::AllOff(machine) => write!(f, "all_off,{},,\n", machine_word(machine)),
        }
    }
}

// The name of why a wish isn't granted.
fn denial_name(denial: Denial) -> &'static str
    ensures { result.now ≡ denial_name denial }
{
    match denial {
        Denial::Book(why) => why.name(),
        Denial::Failed => "Failed",
        Denial::Unreadable => "Unreadable",
        Denial::TooMany => "TooMany",
    }
}

// The word of what a denial names, or nothing.
fn denial_word(denial: Denial) -> &'static str
    ensures { result.now ≡ denial_word denial }
{
    match denial {
        Denial::Book(why) => match why.word() {
            Some(word) => word,
            None => "",
        },
        Denial::Failed | Denial::Unreadable | Denial::TooMany => "",
    }
}

// The line that ends the run, where it is to end.
fn quit_line(quits: bool) -> &'static str
    ensures { result.now ≡ quit_line quits }
{
    if quits { "quit,,,\n" } else { "" }
}

// What a wish is answered by, as its line.
#[derive(Clone, Copy)]
struct ReplyLine(Reply);

impl fmt::Display for ReplyLine {
    ghost use Rattle.std.specs.Prelude.{Some};
    ghost use Rattle.cell_rows.specs.Lines.{line};
    ghost use Rattle.cell_lines.specs.Written.{reply_row};

    ghost output = { λ reply. Some (line (reply_row reply.0)) };

    fn fmt<W: fmt::Write>(&self, f: &mut fmt::Formatter<W>) -> fmt::Result {
        match self.0 {
            Reply::Booked(number) => write!(f, "booked,{number},,\n"),
            Reply::Denied(why) => {
                write!(f, "refused,{},{},\n", denial_name(why), denial_word(why))
            }
        }
    }
}

/// The line with its line feed. Before that by which a run goes on there is a line feed besides, which ends a line that
/// the controller before may have left half written.
impl fmt::Display for Written {
    ghost use Rattle.std.specs.Prelude.{Some};

    ghost output = { λ line. Some (line_of line) };

    fn fmt<W: fmt::Write>(&self, f: &mut fmt::Formatter<W>) -> fmt::Result {
        match *self {
            Written::Send(command) => write!(f, "{}", CommandLine(command)),
            Written::Remove(station) => write!(f, "remove,{},,\n", station_word(station)),
            Written::Home(machine) => write!(f, "home,{},,\n", machine_word(machine)),
            Written::Stay => write!(f, "stay,,,\n"),
            Written::Sync(length) => write!(f, "\nsync,{length},,\n"),
            Written::Done => write!(f, "done,,,\n"),
            Written::Answer(reply) => write!(f, "{}", ReplyLine(reply)),
            Written::Stop(quits) => write!(f, "{STOP}{}", quit_line(quits)),
        }
    }
}
