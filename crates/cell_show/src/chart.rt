//! A journal on an axis of time, as one SVG file: who moves when, who holds which zone, which plate stands where, and
//! which machine is failed.
ghost use Rattle.std.specs.Prelude.{◌≡◌, ◌≢◌, ◌<◌, ◌≤◌, ◌↔◌, Err, IfErr, length};

mod bar;
mod error;
mod follow;
mod lanes;
mod scale;

use crate::chart::follow::{Drawing, end, follow};
use crate::chart::lanes::{Lane, Lanes, bottom};
use crate::chart::scale::Scale;
use crate::page::Window;
use cell_audit::AuditError;
use cell_journal::Journal;
use cell_measures::{Durations, times_of};
use cell_picture::AnswerLine;
use cell_types::texts::{axis_word, machine_word, station_word, zone_word};
use cell_types::{AXES, MACHINES, STATIONS, ZONES, owner, visitor};
pub use error::ChartError;
use std::alloc::Global;
use std::fmt::Display;
use std::io::Write;
use std::{fmt, io};

/// The most entries of a journal of which a chart is drawn.
pub const MAX_CHART_ENTRIES: u32 = 20_000;

// The latest of some times; 0 of none.
fn latest(times: &[u64]) -> u64 {
    let mut latest = 0;
    for time in times {
        latest = *time.max(&latest);
    }
    latest
}

// The earliest of some times, of which none is later than this one.
fn earliest(times: &[u64], latest: u64) -> u64 {
    let mut earliest = latest;
    for time in times {
        earliest = *time.min(&earliest);
    }
    earliest
}

// The entries that are drawn: when they end, and when those before them do.
#[derive(Clone, Copy)]
struct Part<'a> {
    before: &'a [u64],
    ends: &'a [u64],
}

impl<'a> Part<'a> {
    // The entries from one to another, of which these are the times.
    fn new(times: &'a [u64], from: u32, until: u32) -> Part<'a> {
        let until = times.len().min(until as usize);
        let (before, ends) = times[..until].split_at(until.min(from as usize));
        Part { before, ends }
    }

    // Its axis of time: from the opening on, if it begins there, or else from the first time at which an entry ends.
    fn scale(&self) -> Scale {
        let end = latest(self.ends);
        if self.before.is_empty() {
            Scale::new(0, end)
        } else {
            Scale::new(earliest(self.ends, end), end)
        }
    }
}

// Which entries are drawn: how many and how much time they take, or from which one on and from when to when they end.
#[derive(Clone, Copy)]
struct Heading<'a>(Part<'a>, Scale);

impl<'a> Display for Heading<'a> {
    fn fmt<W: fmt::Write>(&self, f: &mut fmt::Formatter<W>) -> fmt::Result {
        let Heading(part, scale) = self;
        let (from, count) = (part.before.len(), part.ends.len());
        let end = scale.end();
        if from > 0 {
            let (first, until) = (from.saturating_add(1), from.saturating_add(count));
            let begin = scale.begin();
            return write!(f, "entries {first} to {until}, times {begin} to {end}");
        }
        let word = if count == 1 { "entry" } else { "entries" };
        write!(f, "{count} {word}, least time {end}")
    }
}

// Writes what stands before a lane.
fn draw_label<W: Write, D: Display + Drop>(out: &mut W, lane: Lane, label: D) -> io::Result<()> {
    let y = lane.top().saturating_add(15);
    writeln!(out, "<text x=\"10\" y=\"{y}\">{label}</text>")
}

// Writes what stands before the lanes of axes.
fn draw_axis_labels<W: Write>(out: &mut W) -> io::Result<()> {
    for axis in AXES {
        draw_label(out, Lane::Axis(axis), axis_word(axis))?;
    }
    Ok(())
}

// Writes what stands before the lanes of zones: each with the machines between which it lies.
fn draw_zone_labels<W: Write>(out: &mut W) -> io::Result<()> {
    for zone in ZONES {
        let machines = (machine_word(owner(zone)), machine_word(visitor(zone)));
        let word = zone_word(zone);
        draw_label(
            out,
            Lane::Zone(zone),
            format_args!("{word} {}, {}", machines.0, machines.1),
        )?;
    }
    Ok(())
}

// Writes what stands before the lanes of stations.
fn draw_station_labels<W: Write>(out: &mut W) -> io::Result<()> {
    for station in STATIONS {
        draw_label(out, Lane::Station(station), station_word(station))?;
    }
    Ok(())
}

// Draws a mark of the axis of time.
fn draw_mark<W: Write>(out: &mut W, scale: Scale, time: u64) -> io::Result<()> {
    let x = scale.x(time);
    let end = bottom();
    writeln!(
        out,
        "<line x1=\"{x}\" y1=\"66\" x2=\"{x}\" y2=\"{end}\" stroke=\"#dddddd\"/>\n\
         <text x=\"{x}\" y=\"60\" text-anchor=\"middle\">{time}</text>"
    )
}

// Draws the marks of the axis of time.
fn draw_marks<W: Write>(out: &mut W, scale: Scale) -> io::Result<()> {
    let step = scale.step();
    let mut time = scale.first_mark();
    for _ in 0..1000 {
        draw_mark(out, scale, time)?;
        time = step.saturating_add(time);
        if time > scale.end() {
            break;
        }
    }
    Ok(())
}

// Writes which entries are drawn, how much time they take or from when to when they end, and why there are no more.
fn draw_heading<W: Write>(
    out: &mut W,
    part: &Part<'_>,
    scale: Scale,
    answer: Option<AuditError>,
) -> io::Result<()> {
    let (right, height) = (scale.right(), bottom().saturating_add(20));
    writeln!(
        out,
        "<svg xmlns=\"http://www.w3.org/2000/svg\" viewBox=\"0 0 {right} {height}\" width=\"{right}\" \
            height=\"{height}\" \
         font-family=\"Helvetica, Arial, sans-serif\" font-size=\"11\" fill=\"#111111\">\n\
         <rect width=\"{right}\" height=\"{height}\" fill=\"#ffffff\"/>"
    )?;
    writeln!(
        out,
        "<text x=\"10\" y=\"20\" font-size=\"14\" font-weight=\"bold\">{}</text>",
        Heading(*part, scale)
    )?;
    match answer {
        Some(why) => {
            let line = AnswerLine(why);
            writeln!(
                out,
                "<text x=\"10\" y=\"38\" font-weight=\"bold\">{line}</text>"
            )
        }
        None => Ok(()),
    }
}

// Writes the times at which entries end, as data for the page.
fn write_ends<W: Write>(out: &mut W, ends: &[u64]) -> io::Result<()> {
    write!(out, "<metadata>")?;
    for end in ends {
        write!(out, "{end} ")?;
    }
    writeln!(out, "</metadata>")
}

// Draws what goes on at the end in the lanes of axes and of failures.
fn end_machines<W: Write>(out: &mut W, drawing: &mut Drawing) -> io::Result<()> {
    let time = drawing.scale.end();
    for axis in AXES {
        end(out, drawing, Lane::Axis(axis), time)?;
    }
    for machine in MACHINES {
        end(out, drawing, Lane::Failure(machine), time)?;
    }
    Ok(())
}

// Draws what goes on at the end in the lanes of zones and of stations.
fn end_places<W: Write>(out: &mut W, drawing: &mut Drawing) -> io::Result<()> {
    let time = drawing.scale.end();
    for zone in ZONES {
        end(out, drawing, Lane::Zone(zone), time)?;
    }
    for station in STATIONS {
        end(out, drawing, Lane::Station(station), time)?;
    }
    Ok(())
}

// Draws what each entry from one to another ends, at the times at which the entries end.
fn draw_entries<W: Write>(
    out: &mut W,
    drawing: &mut Drawing,
    journal: &Journal,
    from: usize,
    ends: &[u64],
) -> io::Result<()> {
    for (place, time) in ends.iter().enumerate() {
        let place = u32::try_from(from.saturating_add(place)).unwrap_or(u32::MAX);
        if let Some(entry) = journal.get(place) {
            follow(out, drawing, &entry, *time)?;
        }
    }
    Ok(())
}

fn draw<W: Write>(
    out: &mut W,
    journal: &Journal,
    part: &Part<'_>,
    answer: Option<AuditError>,
) -> io::Result<()> {
    let scale = part.scale();
    draw_heading(out, part, scale, answer)?;
    write_ends(out, part.ends)?;
    draw_marks(out, scale)?;
    draw_axis_labels(out)?;
    draw_zone_labels(out)?;
    draw_station_labels(out)?;
    let mut drawing = Drawing {
        scale,
        lanes: Lanes::EMPTY,
    };
    // What begins before the part and ends in it is drawn too.
    draw_entries(&mut io::sink(), &mut drawing, journal, 0, part.before)?;
    draw_entries(out, &mut drawing, journal, part.before.len(), part.ends)?;
    end_machines(out, &mut drawing)?;
    end_places(out, &mut drawing)?;
    writeln!(out, "</svg>")
}

/// Draws the first `entries` entries of a journal, which has at most 20,000, on an axis of time, as one SVG file: each
/// entry is where it ends at the earliest, by `times_of`. A lane for each axis shows its motions with their words, one
/// for each zone who holds it, and one for each station which plate is there; a machine is marked from where it is
/// booked failed to its repair. Above stand how many entries are drawn and their time, and the audit's answer where the
/// journal's text isn't legal.
///
/// `WriteFault` is meant for a writer that failed, and no clause says so; a first part of the file was written then.
pub fn draw_chart<W: Write>(
    alloc: Global,
    writer: &mut W,
    journal: &Journal,
    entries: u32,
    durations: &Durations,
    answer: Option<AuditError>,
) -> Result<(), ChartError>
    ensures long { (result ≡ Err ChartError.TooManyEntries) ↔ (20000 < length journal.now.entries) }
    ensures nothing { IfErr result (λ e. e ≢ ChartError.WriteFault → writer.new ≡ writer.old) }
{
    if journal.len() > MAX_CHART_ENTRIES {
        return Err(ChartError::TooManyEntries);
    }
    draw_part(alloc, writer, journal, (0, entries), durations, answer)
}

// Draws the entries of a journal from one to another, at their times in the whole run.
fn draw_part<W: Write>(
    alloc: Global,
    writer: &mut W,
    journal: &Journal,
    entries: (u32, u32),
    durations: &Durations,
    answer: Option<AuditError>,
) -> Result<(), ChartError>
    ensures long { result ≢ Err ChartError.TooManyEntries }
    ensures nothing { IfErr result (λ e. e ≢ ChartError.WriteFault → writer.new ≡ writer.old) }
{
    let times = times_of(alloc, journal, durations)?;
    let (from, until) = entries;
    let part = Part::new(times.as_slice(), from, until);
    match draw(writer, journal, &part, answer) {
        Ok(()) => Ok(()),
        Err(_) => Err(ChartError::WriteFault),
    }
}

/// Draws the entries of a journal that a page's window shows, at their times in the whole run, as `draw_chart` does. No
/// journal is too long for it.
pub(crate) fn draw_window<W: Write>(
    alloc: Global,
    writer: &mut W,
    journal: &Journal,
    window: Window,
    durations: &Durations,
    answer: Option<AuditError>,
) -> Result<(), ChartError>
    requires { window.from ≤ length journal.now.entries }
{
    let until = window.end(journal.len());
    draw_part(
        alloc,
        writer,
        journal,
        (window.from, until),
        durations,
        answer,
    )
}
