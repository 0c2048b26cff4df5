//! The fifth step of a turn: what the machine's watch keeps of it.
ghost use Rattle.std.specs.Prelude.{◌≡◌, ◌&&◌, ◌||◌, not, [], None, Option, List, is_none, if◌then◌else◌};
ghost use Rattle.cell_diagnosis.specs.RestFacts.{Noted as NotedValue};
ghost use Rattle.cell_diagnosis.specs.RestWatches.{machine_of, RestFits};
ghost use Rattle.cell_turns.specs.Following.{Following, FitsAxis};
ghost use Rattle.cell_turns.specs.Minds.{remembered};
ghost use Rattle.cell_turns.specs.Turns.{begins_anew, ends_motion};

use crate::Watch;
use crate::turns::expect::is_visited;
use crate::watch::Memory;
use cell_diagnosis::{AxisWatch, RestWatch};
use cell_types::{Entry, Machine};
use plate_book::Book;

/// What is kept of a turn after which the book is this.
#[inline(always)]
pub fn remembered(book: &Book, machine: Machine, command_failed: bool, sign: bool) -> Memory
    ensures { result ≡ remembered book.now.entries machine command_failed sign }
{
    Memory {
        command_failed,
        sign,
        failed: book.failed(machine),
        visited: is_visited(book, machine),
        length: book.journal().len(),
    }
}

#[inline(always)]
fn ends_motion(entry: &Option<Entry>) -> bool
    ensures { result ≡ ends_motion entry.now }
{
    matches!(
        entry,
        Some(Entry::Arrived { .. } | Entry::Conveyed { .. } | Entry::Forged { .. })
    )
}

/// Whether the machine was booked failed at its last turn, is so no more, and has nothing to declare.
#[inline(always)]
fn is_mended(book: &Book, machine: Machine, kept: &Memory) -> bool
    ensures { result ≡ begins_anew book.now.entries machine kept.now }
{
    let failed = book.failed(machine);
    let asked = book.asked(machine);
    kept.failed && (!failed && (!kept.command_failed && !asked))
}

/// Whether the watches of a watch's machine begin anew.
#[inline(always)]
pub fn begins_anew(machine: Machine, book: &Book, watch: &Watch) -> bool
    requires { watch.now.machine ≡ machine }
    ensures { result ≡ begins_anew book.now.entries watch.now.machine watch.now.memory }
{
    is_mended(book, machine, &watch.memory)
}

/// The watch of a motion ends where the motion has ended, or where the watches begin anew.
#[inline(always)]
fn end_axis(axis: &mut Option<AxisWatch>, anew: bool, booked: &Option<Entry>)
    ensures { (f : Option Following) → FitsAxis axis.old f
        → FitsAxis axis.new (if anew || ends_motion booked.now then None else f) }
{
    if anew || ends_motion(booked) {
        *axis = None;
    }
}

#[inline(always)]
fn end_rest(machine: Machine, rest: &mut RestWatch, anew: bool)
    requires { machine_of rest.old ≡ machine }
    ensures fits { (L : List NotedValue) → RestFits rest.old L → RestFits rest.new (if anew then [] else L) }
    ensures machine { machine_of rest.new ≡ machine }
{
    if anew {
        *rest = RestWatch::start(machine);
    }
}

/// What the watch, which was `before` until this turn's reading was noted, keeps of a turn that left the book like this
/// and booked this entry, if any.
#[inline(always)]
pub fn memory_after(
    machine: Machine,
    before: &Watch,
    book: &Book,
    sign: bool,
    anew: bool,
    booked: &Option<Entry>,
) -> Memory
    requires { before.now.machine ≡ machine }
    ensures { result ≡ remembered book.now.entries before.now.machine
        (is_none booked.now && before.now.memory.command_failed) (not anew && (not before.now.memory.sign && sign)) }
{
    let kept = &before.memory;
    let command_failed = booked.is_none() && kept.command_failed;
    let sign = !anew && (!kept.sign && sign);
    remembered(book, machine, command_failed, sign)
}

/// Keeps this of a turn that booked this entry, if any: the watches that end with it end.
#[inline(always)]
pub fn keep(machine: Machine, watch: &mut Watch, anew: bool, booked: &Option<Entry>, memory: Memory)
    requires { watch.old.machine ≡ machine }
    ensures axis { (f : Option Following) → FitsAxis watch.old.axis f
        → FitsAxis watch.new.axis (if anew || ends_motion booked.now then None else f) }
    ensures rest { (L : List NotedValue) → RestFits watch.old.rest L
        → RestFits watch.new.rest (if anew then [] else L) }
    ensures memory { watch.new.memory ≡ memory }
    ensures machine { watch.new.machine ≡ watch.old.machine }
{
    end_axis(&mut watch.axis, anew, booked);
    end_rest(machine, &mut watch.rest, anew);
    watch.memory = memory;
}
