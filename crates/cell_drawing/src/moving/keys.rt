//! The keyframes of the parts of a drawing that change.
use crate::moving::look::{Look, look_of, turn_between};
use crate::moving::part::Part;
use crate::moving::play::{Moment, Player, Reel, is_arrival};
use crate::spots::height_spot;
use cell_picture::axis_at;
use cell_types::{Axis, Entry, Pose, home};
use std::io::Write;
use std::{fmt, io};

/// How far the rows of texts that follow each other are apart.
pub const ROW: u32 = 30;

// How many beats a machine takes to go home where it is repaired, and how many a glow takes to go out.
const HOMING: u32 = 12;

const FADING: u32 = 8;

// A part of the time that a drawing takes, and so many thousandths of a hundredth of all of it more.
#[derive(Clone, Copy)]
struct Percent {
    time: u32,
    total: u32,
    more: u64,
}

impl fmt::Display for Percent {
    fn fmt<W: fmt::Write>(&self, f: &mut fmt::Formatter<W>) -> fmt::Result {
        let part = u64::from(self.time)
            .saturating_mul(100_000)
            .checked_div(u64::from(self.total))
            .unwrap_or(0);
        let thousandths = part.saturating_add(self.more).min(100_000);
        let whole = thousandths / 1000;
        let rest = thousandths % 1000;
        write!(f, "{whole}.{rest:03}%")
    }
}

// What was written of a part so far.
#[derive(Clone, Copy)]
struct Track {
    part: Part,
    total: u32,
    // How it looks in the last keyframe that was written.
    last: Option<Look>,
    // When its axis has set out.
    since: u32,
    // By how many degrees the robot has turned.
    turned: i64,
    // How many texts it has had.
    texts: u32,
}

// A motion that has ended, from when to when.
#[derive(Clone, Copy)]
struct Motion {
    from: Pose,
    to: Pose,
    since: u32,
    until: u32,
}

// The motion of an axis that ends at a moment, if one does. After a repair the machine goes home.
fn motion_of(axis: Axis, since: u32, moment: &Moment) -> Option<Motion> {
    let before = axis_at(&moment.before, axis);
    let after = axis_at(&moment.after, axis);
    if is_arrival(&moment.entry) && after.going.is_none() {
        return Some(Motion {
            from: before.at,
            to: before.going?,
            since,
            until: moment.time,
        });
    }
    if before.at == after.at {
        return None;
    }
    Some(Motion {
        from: before.at,
        to: after.at,
        since: moment.time,
        until: moment.time.saturating_add(HOMING),
    })
}

// Writes a keyframe of a part.
fn write_key<W: Write>(
    out: &mut W,
    track: &mut Track,
    time: u32,
    more: u64,
    look: Look,
) -> io::Result<()> {
    let part = track.part;
    if track.last.is_none() {
        write!(out, ".{part}{{animation-name:{part}}}@keyframes {part}{{")?;
    }
    track.last = Some(look);
    let total = track.total;
    let percent = Percent { time, total, more };
    write!(out, "{percent}{{{look}}}")
}

// How a part looks where its axis is at a pose.
fn look_at(part: Part, axis: Axis, pose: Pose, turned: i64) -> Look {
    match part {
        Part::Height(axis) => Look::Moved(height_spot(axis, home(axis)), height_spot(axis, pose)),
        Part::Glow(_) => Look::Shown(matches!(pose, Pose::Top)),
        Part::Upright => Look::Turned(0i64.saturating_sub(turned)),
        Part::Moved(Axis::RobotTurn) => Look::Turned(turned),
        _ => look_of(axis, pose),
    }
}

// Writes the keyframes of a motion: where it sets out and where it ends, and that a glow goes out and a belt carries
// the next plate from its start.
fn write_motion<W: Write>(
    out: &mut W,
    track: &mut Track,
    axis: Axis,
    motion: Motion,
) -> io::Result<()> {
    let first = look_at(track.part, axis, motion.from, track.turned);
    let turn = turn_between(motion.from, motion.to);
    track.turned = track.turned.saturating_add(turn);
    let last = look_at(track.part, axis, motion.to, track.turned);
    write_key(out, track, motion.since, 0, first)?;
    write_key(out, track, motion.until, 0, last)?;
    match track.part {
        Part::Glow(_) => write_key(out, track, motion.until.saturating_add(FADING), 0, first),
        Part::Moved(Axis::FeedBelt | Axis::DepositBelt) => {
            write_key(out, track, motion.until, 1, first)
        }
        _ => Ok(()),
    }
}

// Writes what an entry says of the motions of a part's axis.
fn follow_axis<W: Write>(
    out: &mut W,
    track: &mut Track,
    axis: Axis,
    moment: &Moment,
) -> io::Result<()> {
    match moment.entry {
        Entry::Started { axis: started, .. } if started == axis => track.since = moment.time,
        _ => {}
    }
    let Some(motion) = motion_of(axis, track.since, moment) else {
        return Ok(());
    };
    match track.part {
        Part::Glow(_) if motion.to != Pose::Top => Ok(()),
        _ => write_motion(out, track, axis, motion),
    }
}

// How a part that changes from one moment to the next looks from a moment on, if it changes there.
fn step_of(track: &mut Track, moment: &Moment) -> Option<Look> {
    let part = track.part;
    if part.label(moment).is_some() {
        let texts = track.texts;
        track.texts = texts.saturating_add(1);
        return Some(Look::Raised(texts.saturating_mul(ROW)));
    }
    let is_seen = part.is_seen(&moment.after);
    if is_seen == part.is_seen(&moment.before) {
        None
    } else {
        Some(Look::Shown(is_seen))
    }
}

// Writes what an entry changes in a part.
fn follow<W: Write>(out: &mut W, track: &mut Track, moment: &Moment) -> io::Result<()> {
    match track.part {
        Part::Moved(axis) | Part::Height(axis) => follow_axis(out, track, axis, moment),
        Part::Glow(press) => follow_axis(out, track, press.axis, moment),
        Part::Upright => follow_axis(out, track, Axis::RobotTurn, moment),
        _ => match step_of(track, moment) {
            Some(look) => write_key(out, track, moment.time, 0, look),
            None => Ok(()),
        },
    }
}

/// Writes the keyframes of a part, and that they are its own; nothing, if it doesn't change. What moves evenly ends as
/// it looks last, since it would else go back to how it was drawn.
pub fn write_keys<W: Write>(out: &mut W, reel: Reel<'_>, part: Part) -> io::Result<()> {
    let mut track = Track {
        part,
        total: reel.total,
        last: None,
        since: 0,
        turned: 0,
        texts: if part.first_label().is_some() { 1 } else { 0 },
    };
    let mut player = Player::at_opening();
    for place in 0..reel.entries {
        if let Some(entry) = reel.journal.get(place) {
            let moment = player.play(entry);
            follow(out, &mut track, &moment)?;
        }
    }
    let Some(last) = track.last else {
        return Ok(());
    };
    if part.is_even() {
        write_key(out, &mut track, reel.total, 0, last)?;
    }
    writeln!(out, "}}")
}
