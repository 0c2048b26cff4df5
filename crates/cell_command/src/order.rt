//! The words of the command line.
ghost use Rattle.std.specs.Prelude.{◌≡◌, IfOk, IfSome, [], ◌∷◌, codes, map};
ghost use Rattle.clap.specs.Kinds.{FailsBy, HasKind};
ghost use Rattle.clap.specs.Words.{fault_of, found_of, rows_of};
ghost use Rattle.cell_command.specs.Shape.{cellctl};
ghost use Rattle.cell_command.specs.Orders.{Fits, HasAnyValues, HasFlag, HasPath, HasPaths, HasValue, HasValues};
ghost use Rattle.cell_command.specs.Orders.{IsControlled, IsDriven, IsExplained, IsExplored, IsListed, IsMeasured};
ghost use Rattle.cell_command.specs.Orders.{IsOrdered, IsRun, IsShown, IsSwept};
ghost use Rattle.cell_command.specs.Refusals.{refusals, wants_own_help};

use crate::command::command;
use clap::error::ErrorKind;
use clap::{ArgMatches, Error};
use std::alloc::{AllocError, Global};

/// Where a run's files are.
#[derive(Clone, Copy, Debug, PartialEq, Eq)]
pub struct Paths<'a> {
    pub settings: &'a str,
    pub faults: &'a str,
    pub operator: &'a str,
}

/// How the simulated cell is to be run: whether its journal is printed alone, whether its end is explained, the file
/// with the durations of its motions, if there is one, and where its files are.
#[derive(Clone, Copy, Debug, PartialEq, Eq)]
pub struct Running<'a> {
    pub journal: bool,
    pub explain: bool,
    pub times: Option<&'a str>,
    pub paths: Paths<'a>,
}

/// How a run of the simulated cell in rounds is to go on from a journal: the journal's file, that of a journal to be
/// followed and whether measures are wanted, neither of which goes with it, and how the cell is to be run.
#[derive(Clone, Copy, Debug, PartialEq, Eq)]
pub struct Continuing<'a> {
    pub from: &'a str,
    pub follow: Option<&'a str>,
    pub measures: bool,
    pub running: Running<'a>,
}

/// How a method is to drive the simulated cell: whether by commands to the bare machines, the file of the journal from
/// which the run goes on, if it does, what is printed besides, and where its files are.
#[derive(Clone, Copy, Debug, PartialEq, Eq)]
pub struct Driving<'a> {
    pub raw: bool,
    pub from: Option<&'a str>,
    pub running: Running<'a>,
}

/// How a cell at the other end of two pipes is to be controlled: the file to which the journal is written ahead, if
/// there is one, whether the run goes on from it and whether each record is handed to the device, whether a stalled run
/// waits, whether its end is explained, and where its files are.
#[derive(Clone, Copy, Debug, PartialEq, Eq)]
pub struct Controlling<'a> {
    pub journal: Option<&'a str>,
    pub resume: bool,
    pub sync: bool,
    pub wait: bool,
    pub explain: bool,
    pub settings: &'a str,
    pub operator: &'a str,
}

/// How a journal is to be shown: which flags are given, after how many entries a page begins and how many it shows, as
/// they are written, the file with the durations of motions, if there is one, that of another journal, which is shown
/// beside it, if there is one, that of the journal, if it is to play, the file that has the journal, if it isn't on
/// standard input, and the number of entries as it is written.
#[derive(Clone, Copy, Debug, PartialEq, Eq)]
pub struct Showing<'a> {
    pub svg: bool,
    pub html: bool,
    pub unicode: bool,
    pub from: Option<&'a str>,
    pub count: Option<&'a str>,
    pub times: Option<&'a str>,
    pub beside: Option<&'a str>,
    pub animate: Option<&'a str>,
    pub file: Option<&'a str>,
    pub entry: Option<&'a str>,
}

/// The files that are to be explained; with none the journal on standard input is.
#[derive(Clone, Copy, Debug, PartialEq, Eq)]
pub struct Explaining<'a> {
    pub journal: Option<&'a str>,
    pub settings: Option<&'a str>,
    pub faults: Option<&'a str>,
    pub operator: Option<&'a str>,
}

/// The journals that are to be measured, the file with the durations of motions, and the forms that are asked for: CSV,
/// a picture. Without one the measures are told in a table.
#[derive(Debug, Drop, PartialEq, Eq)]
pub struct Measuring<'a> {
    pub times: Option<&'a str>,
    pub csv: bool,
    pub svg: bool,
    pub journals: Vec<&'a str>,
}

/// The journal whose entries are to be told, the file with the durations of motions, and the forms that are asked for:
/// CSV, a trace, a value change dump. Without one it is CSV.
#[derive(Clone, Copy, Debug, PartialEq, Eq)]
pub struct Listing<'a> {
    pub times: Option<&'a str>,
    pub csv: bool,
    pub trace: bool,
    pub vcd: bool,
    pub journal: &'a str,
}

/// What a sweep goes through: the kinds of faults and how many motions, whether each run has two faults, how many runs
/// have faults that are drawn, by which number and how many each, which part of the runs is made, and on how many
/// threads, all numbers as they are written; whether the operator serves failed machines, whether its runs are told in
/// CSV or in a picture, and where its files are.
#[derive(Clone, Copy, Debug, PartialEq, Eq)]
pub struct Sweeping<'a> {
    pub kinds: Option<&'a str>,
    pub motions: Option<&'a str>,
    pub pairs: bool,
    pub random: Option<&'a str>,
    pub seed: Option<&'a str>,
    pub faults: Option<&'a str>,
    pub part: Option<&'a str>,
    pub threads: Option<&'a str>,
    pub service: bool,
    pub csv: bool,
    pub svg: bool,
    pub settings: &'a str,
    pub operator: &'a str,
}

/// What is asked of every order of events: the machines that may fail, whether the operator repairs, how many states
/// may be seen, whether a journal is printed besides, how many threads look at states, and how many plates are laid in,
/// all numbers as they are written.
#[derive(Debug, Drop, PartialEq, Eq)]
pub struct Exploring<'a> {
    pub failing: Vec<&'a str>,
    pub repairs: bool,
    pub limit: Option<&'a str>,
    pub journal: bool,
    pub threads: Option<&'a str>,
    pub plates: &'a str,
}

/// What the program is to do.
#[derive(Debug, Drop, PartialEq, Eq)]
pub enum Order<'a> {
    /// Audit the journal's text in the file of this path, or with none that on standard input.
    Audit(Option<&'a str>),
    /// Write the text of profile 1 in the file of this path, or with none that on standard input, in profile 2.
    Migrate(Option<&'a str>),
    /// Draw the cell as a journal's text leaves it.
    Show(Showing<'a>),
    /// Say why a text is refused.
    Explain(Explaining<'a>),
    /// Tell how long the entries of journals need at least.
    Measure(Measuring<'a>),
    /// Tell the entries of a journal with their times and plates.
    Events(Listing<'a>),
    /// Check the settings in the file of this path.
    Check(&'a str),
    /// Run the simulated cell on one thread.
    Sim(Running<'a>),
    /// Run the simulated cell on one thread, in rounds, and tell the run's measures.
    SimMeasured(Running<'a>),
    /// Follow the journal in the file of this path on one thread, with the simulated cell.
    Follow(&'a str, Running<'a>),
    /// Run the simulated cell on one thread, in rounds, from where a journal left it.
    SimFrom(Continuing<'a>),
    /// Run the simulated cell on one thread once for each fault.
    Sweep(Sweeping<'a>),
    /// Look at every order of events.
    Explore(Exploring<'a>),
    /// Let a method drive the simulated cell over the standard streams.
    Drive(Driving<'a>),
    /// Control a cell over the standard streams.
    Control(Controlling<'a>),
    /// Run the simulated cell by workers on threads.
    Run(Running<'a>),
    /// Run the simulated cell by workers on threads, and tell the run's measures.
    RunMeasured(Running<'a>),
}

// The value at an id, if it has one.
fn value<'a>(matches: &ArgMatches<'a>, id: &str) -> Option<&'a str>
    ensures value { HasValue (rows_of (found_of matches.now)) id.now result }
    ensures path { IfSome result (λ p. HasPath (rows_of (found_of matches.now)) id.now p.now) }
{
    matches.get_str(id)
}

// Whether a flag is given.
fn flag(matches: &ArgMatches<'_>, id: &str) -> bool
    ensures { HasFlag (rows_of (found_of matches.now)) id.now result }
{
    matches.get_flag(id)
}

// How the simulated cell is to be run.
fn run_words<'a>(matches: &ArgMatches<'a>) -> Option<Running<'a>>
    ensures { IfSome result (IsRun (rows_of (found_of matches.now))) }
{
    Some(Running {
        journal: flag(matches, "journal"),
        explain: flag(matches, "explain"),
        times: value(matches, "times"),
        paths: three_paths(matches)?,
    })
}

// How the simulated cell is to be run on one thread: from the journal that is named on, after the one that is named, or
// in rounds, with measures or without.
fn sim_words<'a>(matches: &ArgMatches<'a>) -> Option<Order<'a>>
    ensures { IfSome result (Fits (codes "sim") (rows_of (found_of matches.now))) }
{
    let running = run_words(matches)?;
    let measures = flag(matches, "measures");
    match (value(matches, "from"), value(matches, "follow")) {
        (Some(from), follow) => Some(Order::SimFrom(Continuing {
            from,
            follow,
            measures,
            running,
        })),
        (None, Some(path)) => Some(Order::Follow(path, running)),
        (None, None) if measures => Some(Order::SimMeasured(running)),
        (None, None) => Some(Order::Sim(running)),
    }
}

// How the simulated cell is to be run on threads: with measures or without.
fn threads_words<'a>(matches: &ArgMatches<'a>) -> Option<Order<'a>>
    ensures { IfSome result (Fits (codes "run") (rows_of (found_of matches.now))) }
{
    let running = run_words(matches)?;
    if flag(matches, "measures") {
        Some(Order::RunMeasured(running))
    } else {
        Some(Order::Run(running))
    }
}

// How a method is to drive the cell.
fn drive_words<'a>(matches: &ArgMatches<'a>) -> Option<Driving<'a>>
    ensures { IfSome result (IsDriven (rows_of (found_of matches.now))) }
{
    Some(Driving {
        raw: flag(matches, "raw"),
        from: value(matches, "from"),
        running: run_words(matches)?,
    })
}

// How a cell is to be controlled.
fn control_words<'a>(matches: &ArgMatches<'a>) -> Option<Controlling<'a>>
    ensures { IfSome result (IsControlled (rows_of (found_of matches.now))) }
{
    Some(Controlling {
        journal: value(matches, "journal"),
        resume: flag(matches, "resume"),
        sync: flag(matches, "sync"),
        wait: flag(matches, "wait"),
        explain: flag(matches, "explain"),
        settings: value(matches, "settings")?,
        operator: value(matches, "operator")?,
    })
}

// How a journal is to be shown.
fn show_words<'a>(matches: &ArgMatches<'a>) -> Showing<'a>
    ensures { IsShown (rows_of (found_of matches.now)) result }
{
    let from = value(matches, "from");
    let count = value(matches, "count");
    Showing {
        svg: flag(matches, "svg"),
        html: flag(matches, "html"),
        unicode: flag(matches, "unicode"),
        from,
        count,
        times: value(matches, "times"),
        beside: value(matches, "beside"),
        animate: value(matches, "animate"),
        file: value(matches, "file"),
        entry: value(matches, "entry"),
    }
}

// What is to be explained.
fn explain_words<'a>(matches: &ArgMatches<'a>) -> Explaining<'a>
    ensures { IsExplained (rows_of (found_of matches.now)) result }
{
    Explaining {
        journal: value(matches, "file"),
        settings: value(matches, "settings"),
        faults: value(matches, "faults"),
        operator: value(matches, "operator"),
    }
}

// The values at an id; `None` where memory was refused, or it has none.
fn values<'a>(alloc: Global, matches: &ArgMatches<'a>, id: &str) -> Option<Vec<&'a str>>
    ensures { IfSome result (λ values. HasValues (rows_of (found_of matches.now)) id.now values.items) }
{
    match Vec::from_slice(alloc, matches.get_strs(id)?) {
        Ok(values) => Some(values),
        Err(_) => None,
    }
}

// What is to be measured; `None` where memory was refused.
fn measure_words<'a>(alloc: Global, matches: &ArgMatches<'a>) -> Option<Measuring<'a>>
    ensures { IfSome result (IsMeasured (rows_of (found_of matches.now))) }
{
    let svg = flag(matches, "svg");
    Some(Measuring {
        times: value(matches, "times"),
        csv: flag(matches, "csv"),
        svg,
        journals: values(alloc, matches, "journals")?,
    })
}

// The journal whose entries are to be told, and in which form.
fn events_words<'a>(matches: &ArgMatches<'a>) -> Option<Listing<'a>>
    ensures { IfSome result (IsListed (rows_of (found_of matches.now))) }
{
    Some(Listing {
        times: value(matches, "times"),
        csv: flag(matches, "csv"),
        trace: flag(matches, "trace"),
        vcd: flag(matches, "vcd"),
        journal: value(matches, "journal")?,
    })
}

// The paths of a run.
fn three_paths<'a>(matches: &ArgMatches<'a>) -> Option<Paths<'a>>
    ensures { IfSome result (HasPaths (rows_of (found_of matches.now))) }
{
    Some(Paths {
        settings: value(matches, "settings")?,
        faults: value(matches, "faults")?,
        operator: value(matches, "operator")?,
    })
}

// What a sweep goes through.
fn sweep_words<'a>(matches: &ArgMatches<'a>) -> Option<Sweeping<'a>>
    ensures { IfSome result (IsSwept (rows_of (found_of matches.now))) }
{
    let faults = value(matches, "faults");
    Some(Sweeping {
        kinds: value(matches, "kinds"),
        motions: value(matches, "motions"),
        pairs: flag(matches, "pairs"),
        random: value(matches, "random"),
        seed: value(matches, "seed"),
        faults,
        part: value(matches, "part"),
        threads: value(matches, "threads"),
        service: flag(matches, "service"),
        csv: flag(matches, "csv"),
        svg: flag(matches, "svg"),
        settings: value(matches, "settings")?,
        operator: value(matches, "operator")?,
    })
}

// The values that are matched at an id, if there are any; `None` where memory was refused.
fn any_values<'a>(alloc: Global, matches: &ArgMatches<'a>, id: &str) -> Option<Vec<&'a str>>
    ensures { IfSome result (λ values. HasAnyValues (rows_of (found_of matches.now)) id.now values.items) }
{
    match matches.get_strs(id) {
        Some(_) => values(alloc, matches, id),
        None => Some(Vec::new(alloc)),
    }
}

// What is asked of every order of events; `None` where memory was refused.
fn explore_words<'a>(alloc: Global, matches: &ArgMatches<'a>) -> Option<Exploring<'a>>
    ensures { IfSome result (IsExplored (rows_of (found_of matches.now))) }
{
    let failing = any_values(alloc, matches, "fail")?;
    let plates = value(matches, "plates")?;
    let journal = flag(matches, "journal");
    let threads = value(matches, "threads");
    Some(Exploring {
        failing,
        repairs: flag(matches, "repair"),
        limit: value(matches, "limit"),
        journal,
        threads,
        plates,
    })
}

// The order of a command's name and its matches.
fn order_of<'a>(alloc: Global, name: &str, matches: &ArgMatches<'a>) -> Option<Order<'a>>
    ensures { IfSome result (Fits name.now (rows_of (found_of matches.now))) }
{
    match name {
        "audit" => Some(Order::Audit(value(matches, "file"))),
        "migrate" => Some(Order::Migrate(value(matches, "file"))),
        "show" => Some(Order::Show(show_words(matches))),
        "explain" => Some(Order::Explain(explain_words(matches))),
        "measure" => Some(Order::Measure(measure_words(alloc, matches)?)),
        "events" => Some(Order::Events(events_words(matches)?)),
        "check" => Some(Order::Check(value(matches, "settings")?)),
        "sim" => sim_words(matches),
        "sweep" => Some(Order::Sweep(sweep_words(matches)?)),
        "explore" => Some(Order::Explore(explore_words(alloc, matches)?)),
        "drive" => Some(Order::Drive(drive_words(matches)?)),
        "control" => Some(Order::Control(control_words(matches)?)),
        "run" => threads_words(matches),
        _ => None,
    }
}

// The order of the command that clap matches in the words, or clap's error.
fn read_command<'a>(alloc: Global, words: &'a [&'a str]) -> Result<Order<'a>, Error>
    ensures order { IfOk result (IsOrdered (map (λ w. w.now) words.now)) }
    ensures fault { FailsBy (fault_of cellctl (map (λ w. w.now) words.now)) result }
{
    let matches = command(alloc)?.try_get_matches_from(words)?;
    match matches.subcommand() {
        Some((name, inner)) => match order_of(alloc, name, inner) {
            Some(order) => Ok(order),
            // clap gives no matches with another command, or without its path.
            None => Err(Error::from(AllocError)),
        },
        None => Err(Error::from(AllocError)),
    }
}

// Whether the words ask for the help of `help`.
fn wants_own_help(words: &[&str]) -> bool
    ensures { result ≡ wants_own_help (map (λ w. w.now) words.now) }
{
    match words {
        [_, command, wanted] => { *command == "help" && (*wanted == "--help" || *wanted == "-h") }
        _ => false,
    }
}

// The help of `help`, as clap gives it, or want of memory.
fn own_help(alloc: Global) -> Error
    ensures { HasKind (ErrorKind.DisplayHelp ∷ []) result }
{
    let Err(help) = read_command(alloc, &["cellctl", "help", "help"]) else {
        return Error::from(AllocError);
    };
    if help.kind() == ErrorKind::DisplayHelp {
        help
    } else {
        // clap gives nothing else for these words.
        Error::from(AllocError)
    }
}

/// Reads the words of the command line, of which the first is the program's name.
///
/// The error is clap's: words that are no command, a request for help, or want of memory.
pub fn read_words<'a>(alloc: Global, words: &'a [&'a str]) -> Result<Order<'a>, Error>
    // An order is that of the command which clap matches in the words.
    ensures order { IfOk result (IsOrdered (map (λ w. w.now) words.now)) }
    // It comes only where clap finds no fault in the words, and an error is the first fault's, or memory's. `help` that
    // is asked for its own help gives that, or memory's.
    ensures fault { FailsBy (refusals (map (λ w. w.now) words.now)) result }
{
    if wants_own_help(words) {
        Err(own_help(alloc))
    } else {
        read_command(alloc, words)
    }
}
