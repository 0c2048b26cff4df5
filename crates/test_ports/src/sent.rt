//! What ports were sent and hands did, beside the entries that were booked.
use crate::{Failing, TellingHands, TellingPort};
use cell_ports::Act;
use cell_turns::hands::act_of;
use cell_types::{Cause, Command, Entry, command_of};

// The commands that a port was sent, from one of them on, and how many it was asked before that.
#[derive(Drop)]
struct Following<'a> {
    sent: &'a [Command],
    failing: Failing,
    asked: u32,
    failures: u32,
}

impl Following<'_> {
    // Whether the port failed at the next command. Where it didn't, this has to be the next that it was sent.
    fn fails(&mut self, command: Command) -> Result<bool, &'static str> {
        self.asked = self.asked.saturating_add(1);
        if self.failing.fails(self.asked) {
            self.failures = self.failures.saturating_add(1);
            return Ok(true);
        }
        let [next, rest @ ..] = self.sent else {
            return Err("a command is missing");
        };
        if *next != command {
            return Err("another command was sent");
        }
        self.sent = rest;
        Ok(false)
    }

    // Follows the commands of entries. After one that failed the next entry, and no other, declares a fault of the
    // machine's commands.
    fn follow(&mut self, list: &[Entry]) -> Result<(), &'static str> {
        let mut failed = false;
        for entry in list {
            if is_command_fault(entry) != failed {
                return Err("a fault of commands is declared where none was, or none where one was");
            }
            failed = match command_of(*entry) {
                Some(command) => self.fails(command)?,
                None => false,
            };
        }
        Ok(())
    }
}

fn is_command_fault(entry: &Entry) -> bool {
    matches!(
        entry,
        Entry::Declared {
            cause: Cause::CommandFault,
            ..
        }
    )
}

/// Whether a machine's port was asked to send the commands of these entries in their order, and then the last command,
/// if there is one, and no other: it was sent those at which it didn't fail. The error says what else was asked.
pub fn was_sent<P>(
    list: &[Entry],
    last: Option<Command>,
    port: &TellingPort<P>,
) -> Result<(), &'static str> {
    let mut following = Following {
        sent: port.sent().ok_or("the port tells no more")?,
        failing: port.failing(),
        asked: 0,
        failures: 0,
    };
    following.follow(list)?;
    if let Some(command) = last {
        following.fails(command)?;
    }
    if !following.sent.is_empty() {
        return Err("more was sent");
    }
    if following.failures != port.failures() {
        return Err("another number of commands failed");
    }
    Ok(())
}

/// Whether the operator's hands did the acts of these entries in their order, and no other.
pub fn did<O>(list: &[Entry], hands: &TellingHands<O>) -> Result<(), &'static str> {
    let mut rest = hands.acts().ok_or("the hands tell no more")?;
    for wanted in list.iter().filter_map(act_of) {
        rest = after(rest, wanted).ok_or("an act is missing, or another was done")?;
    }
    if rest.is_empty() {
        Ok(())
    } else {
        Err("more was done")
    }
}

// What follows an act, where it is the first.
fn after(acts: &[Act], wanted: Act) -> Option<&[Act]> {
    match acts {
        [first, rest @ ..] if *first == wanted => Some(rest),
        _ => None,
    }
}
