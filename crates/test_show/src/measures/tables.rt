//! Tables, and lines of CSV.
use crate::measures::samples::journal_of;
use cell_measures::{Durations, Measured, Measures, csv_of, lines_of, measure, table_of};
use std::process::Abort;
use test_samples::ONE_PLATE;

fn one_plate<R: AllocGlobal + Abort>(rt: &R) -> Measures {
    let journal = journal_of(rt, &ONE_PLATE);
    measure(rt.alloc(), &journal, &Durations::ONE).expect(rt, "memory")
}

fn named<'a>(name: &'a str, measures: Measures) -> Measured<'a> {
    Measured { name, measures }
}

const ALONE: &str = "\
journal entries                  62
journal time                     18
plates delivered                  1
plates per 1000                   -
";

#[test]
fn one_alone(rt: HostRuntime) {
    let measures = one_plate(&rt);
    let table = table_of(rt.alloc(), &[named("a", measures)]).expect(&rt, "memory");
    assert!(&rt; table.as_str().starts_with(ALONE));
    assert!(&rt; table.as_str().lines().count() == 54);
}

// Five stand side by side in 79 columns, and the sixth below.
#[test]
fn six_journals(rt: HostRuntime) {
    let measures = one_plate(&rt);
    let journals = [
        named("a", measures),
        named("b", measures),
        named("c", measures),
        named("d", measures),
        named("e", Measures::NONE),
        named("f", measures),
    ];
    let table = table_of(rt.alloc(), &journals).expect(&rt, "memory");
    assert!(&rt; table.as_str().starts_with("1: a\n2: b\n3: c\n4: d\n5: e\n"));
    assert!(&rt; table.as_str().lines().all(|line| line.len() <= 79));
    assert!(&rt; table.as_str().lines().any(|line| line.len() == 79));
    assert!(&rt; table.as_str().contains("\n\n6: f\n"));
    assert!(&rt; table.as_str().lines().count() == 5 + 1 + 54 + 1 + 1 + 1 + 54);
}

const FIRST_LINES: &str = "\
time journal entries 62
time journal time 18
time plates delivered 1
time plates per_1000 -
time plate least 18
";

// One of a journal, and the dashes of one without entries.
#[test]
fn lines_of_words(rt: HostRuntime) {
    let lines = lines_of(rt.alloc(), &one_plate(&rt)).expect(&rt, "memory");
    assert!(&rt; lines.as_str().starts_with(FIRST_LINES));
    assert!(&rt; lines.as_str().contains("\ntime feed moving 2\n"));
    assert!(&rt; lines.as_str().lines().count() == 54);
    let none = lines_of(rt.alloc(), &Measures::NONE).expect(&rt, "memory");
    assert!(&rt; none.as_str().ends_with("\ntime to_repair most -\n"));
}

#[test]
fn lines_of_csv(rt: HostRuntime) {
    let measures = one_plate(&rt);
    let journals = [named("a \"b\", c", measures), named("e", Measures::NONE)];
    let csv = csv_of(rt.alloc(), &journals).expect(&rt, "memory");
    let header =
        "journal,journal_entries,journal_time,plates_delivered,plates_per_1000,plate_least,";
    assert!(&rt; csv.as_str().starts_with(header));
    assert!(&rt;
        csv.as_str().contains(
            "\n\"a \"\"b\"\", c\",62,18,1,,18,18,18,2,0,0,0,16,2,0,1,0,15,11,0,4,0,3,"
        )
    );
    assert!(&rt; csv.as_str().contains("\ne,0,0,0,,,,,0,"));
    assert!(&rt; csv.as_str().lines().count() == 3);
}
