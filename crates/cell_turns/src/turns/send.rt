//! The last step of a turn: the command of the entry is sent.
ghost use Rattle.std.specs.Prelude.{◌≡◌, true, false, is_some, if◌then◌else◌};
ghost use Rattle.cell_types.specs.Entries.{command_of};
ghost use Rattle.cell_ports.specs.Logs.{after_sending};
ghost use Rattle.cell_turns.specs.Minds.{Mind, FitsMind, machine_of_watch, has_failed_command, with_failure};

use crate::Watch;
use cell_ports::Port;
use cell_types::{Entry, command_of};

/// Sends the command of an entry that was just booked, and notes in the watch that the port failed, if it did. It
/// answers whether the port failed.
pub fn send<P: Port>(port: &mut P, watch: &mut Watch, entry: &Entry) -> bool
    requires { has_failed_command watch.old ≡ false }
    ensures still { P.tells port.new ≡ true → P.tells port.old ≡ true }
    ensures told { P.tells port.new ≡ true
        → P.log port.new ≡ after_sending (P.log port.old) (command_of entry.now) result }
    ensures commanded { result ≡ true → is_some (command_of entry.now) ≡ true }
    ensures failed { has_failed_command watch.new ≡ result }
    ensures machine { machine_of_watch watch.new ≡ machine_of_watch watch.old }
    ensures fits { (s : Mind) → FitsMind watch.old s → FitsMind watch.new (if result then with_failure s else s) }
{
    let Some(command) = command_of(*entry) else {
        return false;
    };
    let failed = port.command(command).is_err();
    if failed {
        watch.command_failed();
    }
    failed
}
