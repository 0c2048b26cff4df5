//! What a line of a method by commands asks for.
ghost use Rattle.std.specs.Prelude.{◌≡◌, ◌∷◌, [], codes};
ghost use Rattle.std.specs.Str.{bytes_eq};
ghost use Rattle.cell_types.specs.Records.{read_row};
ghost use Rattle.cell_types.specs.Texts.{arm_named};
ghost use Rattle.cell_method.specs.Asked.{has_word};
ghost use Rattle.cell_method.specs.Lines.{current};
ghost use Rattle.cell_drive.specs.Wishes.{asked_by, is_single, lamp_of, length_of, on_of, single_of, to_act, to_send};
ghost use Rattle.cell_drive.specs.Wishes.{to_sync, wish_of, wished_by};

use cell_method::LineReader;
use cell_ports::Act;
use cell_rows::{Four, TellsFault};
use cell_types::number::read_number;
use cell_types::texts::{read_axis, read_machine, read_station};
use cell_types::{Arm, Command, Entry, read_fields};

/// The greatest number of entries that a line by which a run goes on may have: those of a journal and six more.
const MOST_ENTRIES: u32 = 1_000_006;

/// What a line of a method by commands asks for.
#[derive(Clone, Copy, Debug, PartialEq, Eq)]
pub(crate) enum Wish {
    /// To send this command.
    Send(Command),
    /// To do this by hand.
    Act(Act),
    /// That the run is ended by the method, and by no plate.
    Stay,
    /// That the readings are told once more, after this number.
    Sync(u32),
    /// Nothing, and no answer either: it answers a wish of a desk.
    Pass,
    /// The round is over.
    Done,
    /// The run is over.
    Quit,
    /// Nothing: the line is no record of a command.
    Nothing,
}

// Whether bytes are a word's.
fn is_word(bytes: &[u8], word: &[u8]) -> bool
    ensures { result ≡ bytes_eq bytes.now word.now }
{
    bytes == word
}

// To send a command, if there is one.
fn to_send(command: Option<Command>) -> Wish
    ensures { result ≡ to_send command }
{
    match command {
        Some(command) => Wish::Send(command),
        None => Wish::Nothing,
    }
}

// To do an act, if there is one.
fn to_act(act: Option<Act>) -> Wish
    ensures { result ≡ to_act act }
{
    match act {
        Some(act) => Wish::Act(act),
        None => Wish::Nothing,
    }
}

// To tell the readings once more, if there is a number.
fn to_sync(number: Option<u32>) -> Wish
    ensures { result ≡ to_sync number }
{
    match number {
        Some(number) => Wish::Sync(number),
        None => Wish::Nothing,
    }
}

// The command to move an axis: the fields after its word are those of a record that an axis was started.
fn read_on(four: Four<'_>) -> Option<Command>
    ensures { result ≡ on_of (read_row (codes "started" ∷ four.entry.second.now ∷ four.entry.third.now
        ∷ four.entry.fourth.now ∷ [])) }
{
    match read_fields(&[b"started".as_slice(), four.second, four.third, four.fourth]) {
        Some(Entry::Started { axis, to }) => Some(Command::On(axis, to)),
        _ => None,
    }
}

// The command that turns a light: its record is that of the light's entry.
fn read_lamp(four: Four<'_>) -> Option<Command>
    ensures { result ≡ lamp_of (read_row (four.entry.first.now ∷ four.entry.second.now ∷ four.entry.third.now
        ∷ four.entry.fourth.now ∷ [])) }
{
    match read_fields(&[four.first, four.second, four.third, four.fourth]) {
        Some(Entry::Lamp { belt, colour }) => Some(Command::Lamp(belt, colour)),
        _ => None,
    }
}

// The arm of a word.
fn read_arm(word: &[u8]) -> Option<Arm>
    ensures { result ≡ arm_named word.now }
{
    match word {
        b"arm1" => Some(Arm::Arm1),
        b"arm2" => Some(Arm::Arm2),
        _ => None,
    }
}

/// The length of a journal, from 0 on, that these bytes write.
pub(crate) fn read_length(bytes: &[u8]) -> Option<u32>
    ensures { result ≡ length_of bytes.now }
{
    if is_word(bytes, b"0") {
        Some(0)
    } else {
        read_number(MOST_ENTRIES, bytes)
    }
}

// What a word and the one thing that it names ask for.
fn read_single(word: &[u8], named: &[u8]) -> Wish
    ensures { result ≡ single_of word.now named.now }
{
    if is_word(word, b"off") {
        to_send(read_axis(named).map(Command::Off))
    } else if is_word(word, b"magnet_on") {
        to_send(read_arm(named).map(Command::MagnetOn))
    } else if is_word(word, b"magnet_off") {
        to_send(read_arm(named).map(Command::MagnetOff))
    } else if is_word(word, b"all_off") {
        to_send(read_machine(named).map(Command::AllOff))
    } else if is_word(word, b"remove") {
        to_act(read_station(named).map(Act::Remove))
    } else if is_word(word, b"home") {
        to_act(read_machine(named).map(Act::Home))
    } else if is_word(word, b"sync") {
        to_sync(read_length(named))
    } else {
        Wish::Nothing
    }
}

// Whether the last two of four fields are blank.
fn is_single(four: Four<'_>) -> bool
    ensures { result ≡ is_single four.entry.third.now four.entry.fourth.now }
{
    four.third.is_empty() && four.fourth.is_empty()
}

// What four fields ask for by their word.
fn asked_by(four: Four<'_>) -> Wish
    ensures { result ≡ asked_by four.entry.first.now four.entry.second.now four.entry.third.now
        four.entry.fourth.now }
{
    if is_word(four.first, b"on") {
        to_send(read_on(four))
    } else if is_word(four.first, b"lamp") {
        to_send(read_lamp(four))
    } else if is_word(four.first, b"booked") || is_word(four.first, b"refused") {
        Wish::Pass
    } else if is_single(four) {
        read_single(four.first, four.second)
    } else {
        Wish::Nothing
    }
}

// Whether the fields are a word and three that are blank.
fn has_word(four: Four<'_>, word: &[u8]) -> bool
    ensures { result ≡ has_word word.now four.entry.first.now four.entry.second.now four.entry.third.now
        four.entry.fourth.now }
{
    is_word(four.first, word)
        && four.second.is_empty()
        && four.third.is_empty()
        && four.fourth.is_empty()
}

// What four fields ask for.
fn wished_by(four: Four<'_>) -> Wish
    ensures { result ≡ wished_by four.entry.first.now four.entry.second.now four.entry.third.now
        four.entry.fourth.now }
{
    if has_word(four, b"done") {
        Wish::Done
    } else if has_word(four, b"quit") {
        Wish::Quit
    } else if has_word(four, b"stay") {
        Wish::Stay
    } else {
        asked_by(four)
    }
}

/// What the line that was read last asks for.
pub(crate) fn wish_of<I: TellsFault>(lines: &LineReader<I>) -> Wish
    ensures { result ≡ wish_of (current lines.now) }
{
    match lines.four() {
        Some(four) => wished_by(four),
        None => Wish::Nothing,
    }
}
