//! Which machines are idle, and how a run ends.
ghost use Rattle.std.specs.Prelude.{◌≡◌, ◌⊎◌, is_none};
ghost use Rattle.cell_rules.specs.Views.{plate_of};
ghost use Rattle.cell_turns.specs.Minds.{Mind, FitsMind};
ghost use Rattle.cell_workers.specs.Ends.{IsDone, is_idle, is_lit, is_vacant};

use cell_ports::Plan;
use cell_turns::Watch;
use cell_turns::turns::expect::motion_of_machine;
use cell_types::{Belt, Colour, Machine, Station};
use plate_book::Book;

/// How a run ended. The ends are this project's profile.
#[derive(Clone, Copy, PartialEq, Eq, Debug)]
pub enum End {
    /// All were idle, all plates admitted and all stations empty.
    Finished,
    /// All were idle, and plates weren't admitted or are left in the cell.
    Stalled,
    /// A machine took as many turns as it may.
    TurnLimit,
    /// Memory or a thread was refused.
    Memory,
    /// The journal was full, or no further plate has a number.
    Full,
}

// Whether the machine's light is booked green.
fn is_lit(book: &Book, machine: Machine) -> bool
    ensures { result ≡ is_lit book.now.entries machine }
{
    match machine {
        Machine::Feed => book.lamp(Belt::Feed) == Colour::Green,
        Machine::Deposit => book.lamp(Belt::Deposit) == Colour::Green,
        Machine::Table | Machine::Robot | Machine::Press1 | Machine::Press2 => false,
    }
}

/// Whether a machine whose turn booked nothing has nothing to do: it is booked failed, or none of its axes moves, its
/// light isn't booked green, its last reading was present and agreed, and no sign is open.
pub fn is_idle(machine: Machine, book: &Book, watch: &Watch, plan: &Plan) -> bool
    ensures { (s : Mind) → FitsMind watch.now s → result ≡ is_idle book.now.entries machine plan.now s }
{
    let failed = book.failed(machine);
    let still = motion_of_machine(book, plan, machine).is_none();
    let lit = is_lit(book, machine);
    let quiet = watch.quiet();
    failed || (still && (!lit && quiet))
}

fn is_free(book: &Book, station: Station) -> bool
    ensures { result ≡ is_none (plate_of book.now.entries station) }
{
    book.plate_at(station).is_none()
}

// Whether no station has a plate.
#[tactic(auto, unfolding(crate::specs::Ends::is_vacant))]
fn is_vacant(book: &Book) -> bool
    ensures { result ≡ is_vacant book.now.entries }
{
    is_free(book, Station::FeedIn)
        && (is_free(book, Station::FeedEnd)
            && (is_free(book, Station::Table)
                && (is_free(book, Station::Arm1)
                    && (is_free(book, Station::Arm2)
                        && (is_free(book, Station::Press1)
                            && (is_free(book, Station::Press2)
                                && (is_free(book, Station::DepIn)
                                    && is_free(book, Station::DepEnd))))))))
}

/// The end of a run whose machines and operator are all idle: `Finished` where all plates were admitted and no station
/// has one, else `Stalled`.
pub fn end_at_rest(book: &Book, plan: &Plan) -> End
    ensures finished { result ≡ End.Finished → IsDone plan.now.plates book.now.entries }
    ensures stalled { IsDone plan.now.plates book.now.entries → result ≡ End.Finished }
    ensures either { (result ≡ End.Finished) ⊎ (result ≡ End.Stalled) }
{
    if is_vacant(book) && book.totals().admitted == plan.plates {
        End::Finished
    } else {
        End::Stalled
    }
}
