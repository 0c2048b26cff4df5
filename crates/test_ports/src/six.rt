//! Ports of all six machines.
use crate::{Failing, TellingPort};
use cell_turns::Six;
use std::alloc::{AllocError, Global};

/// Telling ports over those of six machines. Each has room for so many answers and as many commands, and fails so, in
/// the machines' order.
pub fn telling_ports<P: Drop>(
    alloc: Global,
    ports: Six<P>,
    failing: [Failing; 6],
    room: usize,
) -> Result<Six<TellingPort<P>>, AllocError> {
    let Six {
        feed,
        table,
        robot,
        press1,
        press2,
        deposit,
    } = ports;
    Ok(Six {
        feed: TellingPort::new(alloc, feed, failing[0], room)?,
        table: TellingPort::new(alloc, table, failing[1], room)?,
        robot: TellingPort::new(alloc, robot, failing[2], room)?,
        press1: TellingPort::new(alloc, press1, failing[3], room)?,
        press2: TellingPort::new(alloc, press2, failing[4], room)?,
        deposit: TellingPort::new(alloc, deposit, failing[5], room)?,
    })
}
