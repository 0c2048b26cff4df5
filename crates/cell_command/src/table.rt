//! The program's commands and their arguments, in the order of its help.
use crate::help::{
    AHEAD_HELP, ANIMATE_HELP, AUDIT, BESIDE_HELP, CHECK, CONTROL, CONTROL_USAGE, COUNT_HELP,
    CSV_HELP, CommandTexts, DRAWN_HELP, DRIVE, ENTRY_HELP, EVENTS, EVENTS_USAGE, EXPLAIN,
    EXPLAIN_USAGE, EXPLORE, FAULTS_HELP, FILE_HELP, FOLLOW_HELP, FROM_HELP, HTML_HELP,
    JOURNAL_HELP, KINDS_HELP, LEAST_HELP, LIMIT_HELP, LISTED_HELP, MEASURE, MEASURES_HELP, MIGRATE,
    MOTIONS_HELP, OPERATOR_HELP, PAIRS_HELP, PART_HELP, PLATES_HELP, RANDOM_HELP, RAW_HELP,
    REPAIR_HELP, RESUME_HELP, ROWS_HELP, RUN, RUNS_HELP, SEED_HELP, SERVICE_HELP, SETTINGS_HELP,
    SHOW, SHOW_USAGE, SIM, STATES_HELP, SVG_HELP, SWEEP, SYNC_HELP, THREADS_HELP, TIMES_HELP,
    TRACE_HELP, UNICODE_HELP, VCD_HELP, WAIT_HELP, WAY_HELP, WHY_HELP,
};

/// An argument of a command: its id, the name of its value, if it takes one, and its help.
pub(crate) enum Argument {
    /// A path, which has to be given.
    Path(&'static str, &'static str, &'static str),
    /// A flag.
    Flag(&'static str, &'static str),
    /// An option with a file or another value.
    File(&'static str, &'static str, &'static str),
    /// A word, which may be given.
    Word(&'static str, &'static str, &'static str),
    /// The option with the name of a journal's file, which has a short form.
    Journal,
    /// The names of journals' files, of which one at least has to be given.
    Journals,
    /// The option with the machines that may fail.
    Failing,
}

/// A command: its name, what is printed of it, its usage, where clap's own isn't printed, and its arguments in order.
pub(crate) struct CommandWords {
    pub(crate) name: &'static str,
    pub(crate) texts: CommandTexts,
    pub(crate) usage: Option<&'static str>,
    pub(crate) arguments: &'static [Argument],
}

// The name of a journal's file, which may be given.
const FILE: Argument = Argument::Word("file", "FILE", FILE_HELP);

// The file with the durations of motions.
const TIMES: Argument = Argument::File("times", "FILE", TIMES_HELP);

// Whether a picture is printed.
const PICTURE: Argument = Argument::Flag("svg", SVG_HELP);

// How many threads do the work.
const THREADS: Argument = Argument::File("threads", "N", THREADS_HELP);

// Whether the journal is printed alone, and whether the end is explained.
const JOURNAL_ALONE: Argument = Argument::Flag("journal", JOURNAL_HELP);

const WHY: Argument = Argument::Flag("explain", WHY_HELP);

// The file of the journal from which a run goes on.
const FROM: Argument = Argument::File("from", "JOURNAL", FROM_HELP);

// The paths of a run's files.
const SETTINGS: Argument = Argument::Path("settings", "SETTINGS", SETTINGS_HELP);

const FAULTS: Argument = Argument::Path("faults", "FAULTS", FAULTS_HELP);

const OPERATOR: Argument = Argument::Path("operator", "OPERATOR", OPERATOR_HELP);

/// The program's commands, in the order of its help.
pub(crate) const COMMANDS: [CommandWords; 13] = [
    CommandWords {
        name: "audit",
        texts: AUDIT,
        usage: None,
        arguments: &[FILE],
    },
    CommandWords {
        name: "migrate",
        texts: MIGRATE,
        usage: None,
        arguments: &[FILE],
    },
    CommandWords {
        name: "show",
        texts: SHOW,
        usage: Some(SHOW_USAGE),
        arguments: &[
            PICTURE,
            Argument::Flag("html", HTML_HELP),
            Argument::Flag("unicode", UNICODE_HELP),
            Argument::File("from", "N", STATES_HELP),
            Argument::File("count", "M", COUNT_HELP),
            TIMES,
            Argument::File("beside", "OTHER", BESIDE_HELP),
            Argument::File("animate", "JOURNAL", ANIMATE_HELP),
            Argument::Journal,
            Argument::Word("entry", "ENTRY", ENTRY_HELP),
        ],
    },
    CommandWords {
        name: "explain",
        texts: EXPLAIN,
        usage: Some(EXPLAIN_USAGE),
        arguments: &[
            Argument::File("settings", "FILE", SETTINGS_HELP),
            Argument::File("faults", "FILE", FAULTS_HELP),
            Argument::File("operator", "FILE", OPERATOR_HELP),
            FILE,
        ],
    },
    CommandWords {
        name: "measure",
        texts: MEASURE,
        usage: None,
        arguments: &[
            TIMES,
            Argument::Flag("csv", CSV_HELP),
            PICTURE,
            Argument::Journals,
        ],
    },
    CommandWords {
        name: "events",
        texts: EVENTS,
        usage: Some(EVENTS_USAGE),
        arguments: &[
            TIMES,
            Argument::Flag("csv", ROWS_HELP),
            Argument::Flag("trace", TRACE_HELP),
            Argument::Flag("vcd", VCD_HELP),
            Argument::Path("journal", "JOURNAL", LISTED_HELP),
        ],
    },
    CommandWords {
        name: "check",
        texts: CHECK,
        usage: None,
        arguments: &[SETTINGS],
    },
    CommandWords {
        name: "sim",
        texts: SIM,
        usage: None,
        arguments: &[
            JOURNAL_ALONE,
            WHY,
            TIMES,
            Argument::File("follow", "JOURNAL", FOLLOW_HELP),
            FROM,
            Argument::Flag("measures", MEASURES_HELP),
            SETTINGS,
            FAULTS,
            OPERATOR,
        ],
    },
    CommandWords {
        name: "sweep",
        texts: SWEEP,
        usage: None,
        arguments: &[
            Argument::File("kinds", "LIST", KINDS_HELP),
            Argument::File("motions", "N", MOTIONS_HELP),
            Argument::Flag("pairs", PAIRS_HELP),
            Argument::File("random", "N", RANDOM_HELP),
            Argument::File("seed", "S", SEED_HELP),
            Argument::File("faults", "K", DRAWN_HELP),
            Argument::File("part", "K/N", PART_HELP),
            THREADS,
            Argument::Flag("service", SERVICE_HELP),
            Argument::Flag("csv", RUNS_HELP),
            PICTURE,
            SETTINGS,
            OPERATOR,
        ],
    },
    CommandWords {
        name: "explore",
        texts: EXPLORE,
        usage: None,
        arguments: &[
            Argument::Failing,
            Argument::Flag("repair", REPAIR_HELP),
            Argument::File("limit", "STATES", LIMIT_HELP),
            Argument::Flag("journal", WAY_HELP),
            THREADS,
            Argument::Path("plates", "PLATES", PLATES_HELP),
        ],
    },
    CommandWords {
        name: "drive",
        texts: DRIVE,
        usage: None,
        arguments: &[
            Argument::Flag("raw", RAW_HELP),
            JOURNAL_ALONE,
            WHY,
            TIMES,
            FROM,
            SETTINGS,
            FAULTS,
            OPERATOR,
        ],
    },
    CommandWords {
        name: "control",
        texts: CONTROL,
        usage: Some(CONTROL_USAGE),
        arguments: &[
            Argument::File("journal", "FILE", AHEAD_HELP),
            Argument::Flag("resume", RESUME_HELP),
            Argument::Flag("sync", SYNC_HELP),
            Argument::Flag("wait", WAIT_HELP),
            WHY,
            SETTINGS,
            OPERATOR,
        ],
    },
    CommandWords {
        name: "run",
        texts: RUN,
        usage: None,
        arguments: &[
            JOURNAL_ALONE,
            WHY,
            TIMES,
            Argument::Flag("measures", LEAST_HELP),
            SETTINGS,
            FAULTS,
            OPERATOR,
        ],
    },
];
