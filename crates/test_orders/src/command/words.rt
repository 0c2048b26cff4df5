//! The words of the command line, with ample memory.
use cell_command::read_words;
use std::alloc::{AllocError, Global};
use std::process::Abort;
use std::test::Fail;

// A case: the words of the command line, parted by blanks, and after the bar the order as which they are read, or
// clap's kind of error.

const ORDERS: [&str; 7] = [
    "cellctl audit|Audit(None)",
    "cellctl audit whole.journal|Audit(Some(\"whole.journal\"))",
    "cellctl audit -- --help|Audit(Some(\"--help\"))",
    "cellctl audit -|Audit(Some(\"-\"))",
    "cellctl migrate|Migrate(None)",
    "cellctl migrate whole.journal|Migrate(Some(\"whole.journal\"))",
    "cellctl check settings.toml|Check(\"settings.toml\")",
];

const REFUSED: [&str; 54] = [
    "cellctl brew|InvalidSubcommand",
    "cellctl run|MissingRequiredArgument",
    "cellctl sim|MissingRequiredArgument",
    "cellctl sim one.toml two.faults|MissingRequiredArgument",
    "cellctl sim --journey a b c|UnknownArgument",
    "cellctl sim --follow a b c|MissingRequiredArgument",
    "cellctl sim a b c --follow|InvalidValue",
    "cellctl run a b c d|UnknownArgument",
    "cellctl run --follow a b c d|UnknownArgument",
    "cellctl audit --measures a|UnknownArgument",
    "cellctl drive a b|MissingRequiredArgument",
    "cellctl drive --measures a b c|UnknownArgument",
    "cellctl check|MissingRequiredArgument",
    "cellctl check one.toml two.toml|UnknownArgument",
    "cellctl audit one.journal two.journal|UnknownArgument",
    "cellctl migrate one.journal two.journal|UnknownArgument",
    "cellctl show 1 2|UnknownArgument",
    "cellctl show --file|InvalidValue",
    "cellctl show --svg --animate|InvalidValue",
    "cellctl show -f a -f b|ArgumentConflict",
    "cellctl show --html --from|InvalidValue",
    "cellctl show --from 1 --html --from 2|ArgumentConflict",
    "cellctl sim --count 1 a b c|UnknownArgument",
    "cellctl explain one.journal two.journal|UnknownArgument",
    "cellctl measure|MissingRequiredArgument",
    "cellctl measure a --times|InvalidValue",
    "cellctl measure --times a --times b c|ArgumentConflict",
    "cellctl events|MissingRequiredArgument",
    "cellctl events a b|UnknownArgument",
    "cellctl events --vcd --vcd a|ArgumentConflict",
    "cellctl measure --svg --svg a|ArgumentConflict",
    "cellctl sweep a|MissingRequiredArgument",
    "cellctl sweep a b c|UnknownArgument",
    "cellctl sweep a b --part|InvalidValue",
    "cellctl sweep --pairs=2 a b|TooManyValues",
    "cellctl sweep --seed 1 --seed 1 a b|ArgumentConflict",
    "cellctl explore|MissingRequiredArgument",
    "cellctl explore 1 2|UnknownArgument",
    "cellctl explore 1 --fail|InvalidValue",
    "cellctl explore --limit 1 --limit 2 1|ArgumentConflict",
    "cellctl explore --csv 1|UnknownArgument",
    "cellctl explore 1 --threads|InvalidValue",
    "cellctl explore --help|DisplayHelp",
    "cellctl --help|DisplayHelp",
    "cellctl audit --help|DisplayHelp",
    "cellctl help|DisplayHelp",
    "cellctl help help|DisplayHelp",
    "cellctl help --help|DisplayHelp",
    "cellctl help -h|DisplayHelp",
    "cellctl help --version|InvalidSubcommand",
    "cellctl help sim --help|InvalidSubcommand",
    "cellctl --version|DisplayVersion",
    "cellctl audit --version|UnknownArgument",
    "cellctl|DisplayHelpOnMissingArgumentOrSubcommand",
];

const RUNS: [&str; 13] = [
    "cellctl sim --times a.toml cell.toml none.faults none.operator|\
        Sim(Running { journal: false, explain: false, times: Some(\"a.toml\"), \
        paths: Paths { settings: \"cell.toml\", faults: \"none.faults\", operator: \"none.operator\" } })",
    "cellctl sim cell.toml none.faults none.operator|Sim(Running { journal: false, explain: false, times: None, \
        paths: Paths { settings: \"cell.toml\", faults: \"none.faults\", operator: \"none.operator\" } })",
    "cellctl sim cell.toml none.faults none.operator --journal|Sim(Running { journal: true, explain: false, times: \
        None, \
        paths: Paths { settings: \"cell.toml\", faults: \"none.faults\", operator: \"none.operator\" } })",
    "cellctl sim --follow run.journal --journal cell.toml none.faults none.operator|\
        Follow(\"run.journal\", Running { journal: true, explain: false, times: None, \
        paths: Paths { settings: \"cell.toml\", faults: \"none.faults\", operator: \"none.operator\" } })",
    "cellctl sim --from run.journal --explain cell.toml none.faults none.operator|\
        SimFrom(Continuing { from: \"run.journal\", follow: None, measures: false, \
        running: Running { journal: false, explain: true, times: None, \
        paths: Paths { settings: \"cell.toml\", faults: \"none.faults\", operator: \"none.operator\" } } })",
    "cellctl sim --measures --from a.journal --follow b.journal cell.toml none.faults none.operator|\
        SimFrom(Continuing { from: \"a.journal\", follow: Some(\"b.journal\"), measures: true, \
        running: Running { journal: false, explain: false, times: None, \
        paths: Paths { settings: \"cell.toml\", faults: \"none.faults\", operator: \"none.operator\" } } })",
    "cellctl sim --measures cell.toml none.faults none.operator|SimMeasured(Running { journal: false, explain: false, \
        times: None, \
        paths: Paths { settings: \"cell.toml\", faults: \"none.faults\", operator: \"none.operator\" } })",
    "cellctl sim --measures --follow run.journal cell.toml none.faults none.operator|\
        Follow(\"run.journal\", Running { journal: false, explain: false, times: None, \
        paths: Paths { settings: \"cell.toml\", faults: \"none.faults\", operator: \"none.operator\" } })",
    "cellctl drive cell.toml none.faults none.operator|\
        Drive(Driving { raw: false, from: None, running: Running { journal: false, \
        explain: false, times: None, paths: Paths { settings: \"cell.toml\", faults: \"none.faults\", \
        operator: \"none.operator\" } } })",
    "cellctl drive --raw --explain cell.toml none.faults none.operator|\
        Drive(Driving { raw: true, from: None, running: Running { journal: false, \
        explain: true, times: None, paths: Paths { settings: \"cell.toml\", faults: \"none.faults\", \
        operator: \"none.operator\" } } })",
    "cellctl drive --from run.journal cell.toml none.faults none.operator|\
        Drive(Driving { raw: false, from: Some(\"run.journal\"), running: Running { journal: false, \
        explain: false, times: None, paths: Paths { settings: \"cell.toml\", faults: \"none.faults\", \
        operator: \"none.operator\" } } })",
    "cellctl run --explain cell.toml none.faults none.operator|Run(Running { journal: false, explain: true, times: \
        None, \
        paths: Paths { settings: \"cell.toml\", faults: \"none.faults\", operator: \"none.operator\" } })",
    "cellctl run --measures cell.toml none.faults none.operator|RunMeasured(Running { journal: false, explain: false, \
        times: None, \
        paths: Paths { settings: \"cell.toml\", faults: \"none.faults\", operator: \"none.operator\" } })",
];

const SHOWN: [&str; 13] = [
    "cellctl show --svg --times a.toml|\
        Show(Showing { svg: true, html: false, unicode: false, from: None, count: None, times: \
        Some(\"a.toml\"), beside: None, animate: None, file: None, entry: None })",
    "cellctl show --html --beside b.journal --file a.journal|\
        Show(Showing { svg: false, html: true, unicode: false, from: None, count: None, times: None, beside: \
        Some(\"b.journal\"), animate: None, file: Some(\"a.journal\"), entry: None })",
    "cellctl show --svg 20|\
        Show(Showing { svg: true, html: false, unicode: false, from: None, count: None, times: None, beside: \
        None, animate: None, file: None, entry: Some(\"20\") })",
    "cellctl show --svg --animate a.journal|\
        Show(Showing { svg: true, html: false, unicode: false, from: None, count: None, times: None, beside: \
        None, animate: Some(\"a.journal\"), file: None, entry: None })",
    "cellctl show --animate=a.journal --svg 20|\
        Show(Showing { svg: true, html: false, unicode: false, from: None, count: None, times: None, beside: \
        None, animate: Some(\"a.journal\"), file: None, entry: Some(\"20\") })",
    "cellctl show|\
        Show(Showing { svg: false, html: false, unicode: false, from: None, count: None, times: None, beside: \
        None, animate: None, file: None, entry: None })",
    "cellctl show whole.journal|\
        Show(Showing { svg: false, html: false, unicode: false, from: None, count: None, times: None, beside: \
        None, animate: None, file: None, entry: Some(\"whole.journal\") })",
    "cellctl show --file whole.journal|\
        Show(Showing { svg: false, html: false, unicode: false, from: None, count: None, times: None, beside: \
        None, animate: None, file: Some(\"whole.journal\"), entry: None })",
    "cellctl show --html --file=20|\
        Show(Showing { svg: false, html: true, unicode: false, from: None, count: None, times: None, beside: \
        None, animate: None, file: Some(\"20\"), entry: None })",
    "cellctl show -f 20 30|\
        Show(Showing { svg: false, html: false, unicode: false, from: None, count: None, times: None, beside: \
        None, animate: None, file: Some(\"20\"), entry: Some(\"30\") })",
    "cellctl show --unicode 30 -f20|\
        Show(Showing { svg: false, html: false, unicode: true, from: None, count: None, times: None, beside: \
        None, animate: None, file: Some(\"20\"), entry: Some(\"30\") })",
    "cellctl show --html --from 5000 --count 100|\
        Show(Showing { svg: false, html: true, unicode: false, from: Some(\"5000\"), count: Some(\"100\"), \
        times: None, beside: None, animate: None, file: None, entry: None })",
    "cellctl show --count=x 3 --from=-1|\
        Show(Showing { svg: false, html: false, unicode: false, from: Some(\"-1\"), count: Some(\"x\"), times: \
        None, beside: None, animate: None, file: None, entry: Some(\"3\") })",
];

const EXPLAINED: [&str; 5] = [
    "cellctl explain|Explain(Explaining { journal: None, settings: None, faults: None, operator: None })",
    "cellctl explain whole.journal|\
        Explain(Explaining { journal: Some(\"whole.journal\"), settings: None, faults: None, operator: None })",
    "cellctl explain --settings cell.toml|\
        Explain(Explaining { journal: None, settings: Some(\"cell.toml\"), faults: None, operator: None })",
    "cellctl explain --faults press_fails.faults|\
        Explain(Explaining { journal: None, settings: None, faults: Some(\"press_fails.faults\"), operator: None })",
    "cellctl explain --operator a b|\
        Explain(Explaining { journal: Some(\"b\"), settings: None, faults: None, operator: Some(\"a\") })",
];

const MEASURED: [&str; 5] = [
    "cellctl measure a|Measure(Measuring { times: None, csv: false, svg: false, journals: [\"a\"] })",
    "cellctl measure --csv a b a|\
        Measure(Measuring { times: None, csv: true, svg: false, journals: [\"a\", \"b\", \"a\"] })",
    "cellctl measure a --times c.toml b|\
        Measure(Measuring { times: Some(\"c.toml\"), csv: false, svg: false, journals: [\"a\", \"b\"] })",
    "cellctl measure --times=c.toml -- --csv|\
        Measure(Measuring { times: Some(\"c.toml\"), csv: false, svg: false, journals: [\"--csv\"] })",
    "cellctl measure a --svg|Measure(Measuring { times: None, csv: false, svg: true, journals: [\"a\"] })",
];

const SWEPT: [&str; 6] = [
    "cellctl sweep a b|Sweep(Sweeping { kinds: None, motions: None, pairs: false, random: None, seed: None, \
        faults: None, part: None, threads: None, service: false, csv: false, svg: false, settings: \"a\", \
        operator: \"b\" })",
    "cellctl sweep --kinds both,slow:3 --motions 4 --service --csv a b|Sweep(Sweeping { kinds: \
        Some(\"both,slow:3\"), motions: Some(\"4\"), pairs: false, random: None, seed: None, faults: None, \
        part: None, threads: None, service: true, csv: true, svg: false, settings: \"a\", operator: \"b\" })",
    "cellctl sweep --pairs --part 3/8 --threads 4 a b|Sweep(Sweeping { kinds: None, motions: None, pairs: true, \
        random: None, seed: None, faults: None, part: Some(\"3/8\"), threads: Some(\"4\"), service: false, \
        csv: false, svg: false, settings: \"a\", operator: \"b\" })",
    "cellctl sweep a --random 500 --seed=7 b --faults 3|Sweep(Sweeping { kinds: None, motions: None, pairs: false, \
        random: Some(\"500\"), seed: Some(\"7\"), faults: Some(\"3\"), part: None, threads: None, \
        service: false, csv: false, svg: false, settings: \"a\", operator: \"b\" })",
    "cellctl sweep --svg a b|Sweep(Sweeping { kinds: None, motions: None, pairs: false, random: None, seed: None, \
        faults: None, part: None, threads: None, service: false, csv: false, svg: true, settings: \"a\", \
        operator: \"b\" })",
    "cellctl sweep --svg --csv --pairs --random=-1 --part one --threads= a b|Sweep(Sweeping { kinds: None, \
        motions: None, pairs: true, random: Some(\"-1\"), seed: None, faults: None, part: Some(\"one\"), \
        threads: Some(\"\"), service: false, csv: true, svg: true, settings: \"a\", operator: \"b\" })",
];

const LISTED: [&str; 4] = [
    "cellctl events a|Events(Listing { times: None, csv: false, trace: false, vcd: false, journal: \"a\" })",
    "cellctl events --csv a --times b.toml|\
        Events(Listing { times: Some(\"b.toml\"), csv: true, trace: false, vcd: false, journal: \"a\" })",
    "cellctl events --vcd --trace a|\
        Events(Listing { times: None, csv: false, trace: true, vcd: true, journal: \"a\" })",
    "cellctl events --times=b.toml --vcd -- --csv|\
        Events(Listing { times: Some(\"b.toml\"), csv: false, trace: false, vcd: true, journal: \"--csv\" })",
];

const EXPLORED: [&str; 5] = [
    "cellctl explore 1|\
        Explore(Exploring { failing: [], repairs: false, limit: None, journal: false, threads: None, \
        plates: \"1\" })",
    "cellctl explore --fail press2 --repair --limit 100 --journal 2 --fail=robot|\
        Explore(Exploring { failing: [\"press2\", \"robot\"], repairs: true, limit: Some(\"100\"), journal: true, \
        threads: None, plates: \"2\" })",
    "cellctl explore --fail brew --fail brew --limit=none 16|\
        Explore(Exploring { failing: [\"brew\", \"brew\"], repairs: false, limit: Some(\"none\"), journal: false, \
        threads: None, plates: \"16\" })",
    "cellctl explore -- -1|\
        Explore(Exploring { failing: [], repairs: false, limit: None, journal: false, threads: None, \
        plates: \"-1\" })",
    "cellctl explore --threads 4 --limit 9 3|\
        Explore(Exploring { failing: [], repairs: false, limit: Some(\"9\"), journal: false, threads: Some(\"4\"), \
        plates: \"3\" })",
];

// What words are read as.
fn reading(alloc: Global, words: &[&str]) -> Result<String, AllocError> {
    match read_words(alloc, words) {
        Ok(order) => format!(in alloc; "{order:?}"),
        Err(error) => format!(in alloc; "{:?}", error.kind()),
    }
}

// The words of a case are read as it says.
fn check<R: AllocGlobal + Abort>(rt: &R, case: &str) -> Result<(), Fail> {
    let mut parts = case.split('|');
    let line = parts.next().unwrap_or("");
    let mut words = Vec::new(rt.alloc());
    for word in line.split(' ') {
        words.push(word)?;
    }
    let found = reading(rt.alloc(), words.as_slice())?;
    assert!(rt; parts.next() == Some(found.as_str()), "{case}: {found}");
    Ok(())
}

#[test]
fn reads_the_words_of_the_command_line(rt: HostRuntime) -> Result<(), Fail> {
    for &cases in &[
        ORDERS.as_slice(),
        &REFUSED,
        &RUNS,
        &SHOWN,
        &EXPLAINED,
        &MEASURED,
        &LISTED,
        &SWEPT,
        &EXPLORED,
    ] {
        for case in cases {
            check(&rt, case)?;
        }
    }
    Ok(())
}

// The commands that the help lists.
const COMMANDS: [&str; 13] = [
    "audit", "migrate", "show", "explain", "measure", "events", "check", "sim", "sweep", "explore",
    "drive", "control", "run",
];

// The first word of a line.
fn first_word(line: &str) -> Option<&str> {
    line.split(' ').find(|word| !word.is_empty())
}

// What clap's error for words says.
fn said(alloc: Global, words: &[&str]) -> Result<String, AllocError> {
    match read_words(alloc, words) {
        Ok(order) => format!(in alloc; "{order:?}"),
        Err(error) => error.to_string(alloc),
    }
}

#[test]
fn tells_the_help_of_help_however_it_is_asked(rt: HostRuntime) -> Result<(), Fail> {
    let due = said(rt.alloc(), &["cellctl", "help", "help"])?;
    assert!(&rt;
        due.as_str().contains("Usage: cellctl help [COMMAND]"),
        "{due}"
    );
    for &wanted in &["--help", "-h"] {
        let found = said(rt.alloc(), &["cellctl", "help", wanted])?;
        assert!(&rt; found == due, "{wanted}: {found}");
    }
    Ok(())
}

#[test]
fn lists_the_commands_in_the_help(rt: HostRuntime) -> Result<(), Fail> {
    let Err(help) = read_words(rt.alloc(), &["cellctl", "--help"]) else {
        panic!(&rt; "there is an order for help");
    };
    let text = help.to_string(rt.alloc())?;
    for &command in &COMMANDS {
        let is_listed = text
            .as_str()
            .lines()
            .any(|line| first_word(line) == Some(command));
        assert!(&rt; is_listed, "{command}");
    }
    Ok(())
}
