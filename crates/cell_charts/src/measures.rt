//! The chart of journals' measures: for each journal a bar of each machine, with the parts of its time.
use crate::frame::{Look, begin_sheet, end_sheet, write_text, xy};
use crate::name::Name;
use crate::parts::{PARTS, Part, part_fill, part_time, part_word, write_patterns};
use crate::scale::{LEFT, Scale, Tenths, WIDTH, digits, write_marks};
use cell_measures::Measures;
use cell_types::texts::machine_word;
use cell_types::{MACHINES, Machine};
use std::io;
use std::io::Write;

/// How many journals are drawn at most.
const MOST_JOURNALS: usize = 100;

/// Where the first journal's bars begin, how far bars are apart, and how high one is.
const TOP: u64 = 96;

const PITCH: u64 = 15;

const BAR: u64 = 12;

/// How high a journal is with its name and the space below.
const GROUP: u64 = 138;

/// A journal's measures, and what it is called.
#[derive(Clone, Copy, Debug)]
pub struct Bar<'a> {
    pub name: &'a str,
    pub measures: &'a Measures,
}

// A machine's bar: of which journal, where its upper edge is, and the axis of time.
#[derive(Clone, Copy)]
struct Lane<'a> {
    bar: Bar<'a>,
    machine: Machine,
    y: u64,
    scale: Scale,
}

// The latest time of some journals.
fn latest(bars: &[Bar<'_>]) -> u64 {
    let mut latest = 0;
    for bar in bars {
        latest = bar.measures.time.max(latest);
    }
    latest
}

// The first journals, 100 at most.
fn first_bars<'b, 'a>(bars: &'b [Bar<'a>]) -> &'b [Bar<'a>] {
    &bars[..bars.len().min(MOST_JOURNALS)]
}

// Writes the number of a part on white ground in its middle, where it has room.
fn write_number<W: Write>(
    out: &mut W,
    time: u64,
    middle: u64,
    wide: u64,
    y: u64,
) -> io::Result<()> {
    let room = digits(time).saturating_mul(55).saturating_add(30);
    if wide < room.saturating_add(20) {
        return Ok(());
    }
    let left = Tenths(middle.saturating_sub(room / 2));
    let (width, middle) = (Tenths(room), Tenths(middle));
    let (top, base) = (y.saturating_add(2), y.saturating_add(9));
    writeln!(
        out,
        "<rect x=\"{left}\" y=\"{top}\" width=\"{width}\" height=\"8\" fill=\"#ffffff\"/>\
         <text x=\"{middle}\" y=\"{base}\" font-size=\"9\" text-anchor=\"middle\">{time}</text>"
    )
}

// Draws a part of a bar, which begins at a time.
fn write_part<W: Write>(
    out: &mut W,
    lane: &Lane<'_>,
    part: Part,
    since: u64,
    time: u64,
) -> io::Result<()> {
    let from = lane.scale.x(since);
    let until = lane.scale.x(since.saturating_add(time));
    let wide = until.0.saturating_sub(from.0);
    let (width, y) = (Tenths(wide), lane.y);
    let fill = part_fill(part);
    let (name, machine) = (Name(lane.bar.name), machine_word(lane.machine));
    let (word, whole) = (part_word(part), lane.bar.measures.time);
    writeln!(
        out,
        "<g><title>{name}, {machine} {word}: {time} of {whole}</title>\
         <rect x=\"{from}\" y=\"{y}\" width=\"{width}\" height=\"{BAR}\" fill=\"{fill}\" stroke=\"#555555\" \
         stroke-width=\"0.6\"/>"
    )?;
    write_number(out, time, from.0.saturating_add(wide / 2), wide, y)?;
    writeln!(out, "</g>")
}

// Draws a machine's bar, part by part.
fn write_lane<W: Write>(out: &mut W, lane: &Lane<'_>) -> io::Result<()> {
    let spent = lane.bar.measures.of_machine(lane.machine);
    let base = lane.y.saturating_add(10);
    let right = LEFT.saturating_sub(6);
    write_text(
        out,
        xy(right, base),
        Look::Right,
        machine_word(lane.machine),
    )?;
    let mut since: u64 = 0;
    for part in PARTS {
        let time = part_time(&spent, part);
        if time > 0 {
            write_part(out, lane, part, since, time)?;
        }
        since = since.saturating_add(time);
    }
    Ok(())
}

// Writes a journal's name, and how many entries it has, how much time and how many plates are delivered, over the
// marks of the axis.
fn write_name<W: Write>(out: &mut W, bar: &Bar<'_>, y: u64) -> io::Result<()> {
    let (name, measures) = (Name(bar.name), bar.measures);
    let base = y.saturating_add(12);
    let right = LEFT.saturating_add(WIDTH);
    writeln!(
        out,
        "<rect y=\"{y}\" width=\"{right}\" height=\"28\" fill=\"#ffffff\"/>"
    )?;
    write_text(out, xy(10, base), Look::Bold, name)?;
    let (time, entries, delivered) = (measures.time, measures.entries, measures.delivered);
    write_text(
        out,
        xy(10, base.saturating_add(13)),
        Look::Plain,
        format_args!("entries {entries}, time {time}, delivered {delivered}"),
    )
}

// Draws a journal's bars.
fn write_bars<W: Write>(out: &mut W, bar: Bar<'_>, scale: Scale, y: u64) -> io::Result<()> {
    write_name(out, &bar, y)?;
    let mut top = y.saturating_add(32);
    for machine in MACHINES {
        let lane = Lane {
            bar,
            machine,
            y: top,
            scale,
        };
        write_lane(out, &lane)?;
        top = top.saturating_add(PITCH);
    }
    Ok(())
}

// Where a journal's bars begin, by its place among the journals.
fn top_of(place: usize) -> u64 {
    TOP.saturating_add(GROUP.saturating_mul(place as u64))
}

// Draws all bars of some journals.
fn write_all<W: Write>(out: &mut W, bars: &[Bar<'_>], scale: Scale) -> io::Result<()> {
    writeln!(out, "<g>")?;
    for (place, bar) in bars.iter().enumerate() {
        write_bars(out, *bar, scale, top_of(place))?;
    }
    writeln!(out, "</g>")
}

// Draws what the parts look like, with their words.
fn write_legend<W: Write>(out: &mut W) -> io::Result<()> {
    let mut x: u64 = 10;
    for part in PARTS {
        let (fill, word) = (part_fill(part), part_word(part));
        writeln!(
            out,
            "<rect x=\"{x}\" y=\"52\" width=\"24\" height=\"{BAR}\" fill=\"{fill}\" stroke=\"#555555\" \
                stroke-width=\"0.6\"/>"
        )?;
        write_text(out, xy(x.saturating_add(30), 62), Look::Plain, word)?;
        x = x.saturating_add(100);
    }
    Ok(())
}

// Writes how many journals aren't drawn, if there are such.
fn write_left<W: Write>(out: &mut W, left: usize, y: u64) -> io::Result<()> {
    if left == 0 {
        return Ok(());
    }
    write_text(
        out,
        xy(10, y),
        Look::Plain,
        format_args!("Not drawn: the last {left} of the journals"),
    )
}

// Begins the chart, and writes what it shows.
fn write_head<W: Write>(out: &mut W, height: u64) -> io::Result<()> {
    let width = LEFT.saturating_add(WIDTH).saturating_add(20);
    begin_sheet(out, width, height, "Where the time of journals goes")?;
    write_patterns(out)?;
    write_text(out, xy(10, 24), Look::Heading, "Where the time goes")?;
    write_text(
        out,
        xy(10, 42),
        Look::Plain,
        "of each machine in each journal, whose entries are as early as they can be",
    )?;
    write_legend(out)
}

/// Writes measures of journals as one SVG file: for each journal, with its name, a bar for each machine, in which the
/// parts of its time follow one another as `measure` tells them: moving, holding, waiting, failed, idle. All journals
/// have the same axis of time. Parts differ by colour and by stripes, dots or a net; each has a title, and its number
/// where it has room.
///
/// Of a name at most 60 characters are told, and of more than 100 journals the first 100 are drawn; a line says of how
/// many that isn't so. An error is that of the writer; a first part of the file was written then. It takes no memory.
pub fn write_measures_chart<W: Write>(writer: &mut W, bars: &[Bar<'_>]) -> io::Result<()> {
    let drawn = first_bars(bars);
    let scale = Scale { end: latest(drawn) };
    let bottom = top_of(drawn.len());
    write_head(writer, bottom.saturating_add(24))?;
    write_marks(writer, scale, TOP.saturating_sub(6), bottom)?;
    write_all(writer, drawn, scale)?;
    write_left(
        writer,
        bars.len().saturating_sub(drawn.len()),
        bottom.saturating_add(14),
    )?;
    end_sheet(writer)
}
