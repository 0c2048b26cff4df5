//! What is shown for journals' texts, and what readers and writers that fail leave of it.
use crate::picture::OPENING;
use cell_measures::Durations;
use cell_rows::Watched;
use cell_show::page::Window;
use cell_show::{Beside, Form, ShowError, show_beside, show_journal};
use cell_types::{Axis, Pose};
use std::alloc::Global;
use std::process::Abort;
use test_samples::{FailingReader, FailingWriter};

const LEGAL: &str = "profile,1,,\nlamp,feed,green,\nadmitted,1,,\n";

// The feed belt carries a plate to the table.
const CARRIED: &str =
    "profile,1,,\nlamp,feed,green,\nadmitted,1,,\nstarted,feed_belt,to_end,\nconveyed,feed_belt,1,feed_end\n\
    claimed,feed,z1,\nstarted,feed_belt,to_table,\nconveyed,feed_belt,1,table\n";

const REFUSED: &str = "profile,1,,\nlamp,feed,green,\nlamp,feed,green,\n";

const UNREADABLE: &str = "profile,1,,\nlamp,feed,green,\nadmitted,one,,\n";

// The feed light is green.
const LIT: &str = "\
After 1 entry. The last:
feed belt: its light turns green

  entries           1                +---------------------+
  admitted          0                | press 1             | in quarantine:
  forged            0                |                     |   0 plates
  delivered         0                | middle              | expected:
  quarantined       0                | plate -             |   none
  reinstated        0                +---------------------+
+---------------+ +----------------+ +---------------------+ +---------------+
| feed belt     |>| table          |>| robot               |>| deposit belt  |
|               | |                | |                     | |               |
| light green   | | lift low       | | turned to           | | light red     |
| rest          | | turn belt      | | table1              | | rest          |
| start -       | |                | | arm 1 in -          | | start -       |
| end   -       | | plate -        | | arm 2 in -          | | end   -       |
+---------------+ +----------------+ +---------------------+ +---------------+
  zone  between         held by      +---------------------+
  z1    table, feed     -            | press 2             |
  z2    table, robot    -            |                     |
  z3    press1, robot   -            | middle              | 7*  forged
  z4    press2, robot   -            | plate -             | a>b goes to b
  z5    deposit, robot  -            +---------------------+
";

// Plate 1 is admitted.
const ADMITTED: &str = "\
After 2 entries. The last:
feed belt: plate 1 is admitted

  entries           2                +---------------------+
  admitted          1                | press 1             | in quarantine:
  forged            0                |                     |   0 plates
  delivered         0                | middle              | expected:
  quarantined       0                | plate -             |   none
  reinstated        0                +---------------------+
+---------------+ +----------------+ +---------------------+ +---------------+
| feed belt     |>| table          |>| robot               |>| deposit belt  |
|               | |                | |                     | |               |
| light red     | | lift low       | | turned to           | | light red     |
| rest          | | turn belt      | | table1              | | rest          |
| start 1       | |                | | arm 1 in -          | | start -       |
| end   -       | | plate -        | | arm 2 in -          | | end   -       |
+---------------+ +----------------+ +---------------------+ +---------------+
  zone  between         held by      +---------------------+
  z1    table, feed     -            | press 2             |
  z2    table, robot    -            |                     |
  z3    press1, robot   -            | middle              | 7*  forged
  z4    press2, robot   -            | plate -             | a>b goes to b
  z5    deposit, robot  -            +---------------------+
";

// A case: a journal's text, the form, the entry after which it is shown, the answer, and with which words that which is
// shown begins and ends. In the form of text it is these words alone.
type Case = (
    &'static str,
    Form,
    Option<u32>,
    Result<u8, ShowError>,
    &'static str,
    &'static str,
);

// A legal journal is shown after each entry, and in each form.
const LEGAL_CASES: [Case; 13] = [
    (LEGAL, Form::Text, None, Ok(0), ADMITTED, ""),
    (LEGAL, Form::Text, Some(2), Ok(0), ADMITTED, ""),
    (LEGAL, Form::Text, Some(1), Ok(0), LIT, ""),
    (LEGAL, Form::Text, Some(0), Ok(0), OPENING, ""),
    (LEGAL, Form::Picture, None, Ok(0), "<svg xmlns=", "</svg>\n"),
    (
        LEGAL,
        Form::Page(Window::FIRST),
        None,
        Ok(0),
        "<!DOCTYPE html>\n",
        "</html>\n",
    ),
    (
        LEGAL,
        Form::Page(Window { from: 2, count: 0 }),
        None,
        Ok(0),
        "<!DOCTYPE html>\n",
        "</html>\n",
    ),
    (
        LEGAL,
        Form::Page(Window { from: 3, count: 0 }),
        None,
        Err(ShowError::NoSuchEntry(2)),
        "",
        "",
    ),
    (
        LEGAL,
        Form::Page(Window::FIRST),
        Some(3),
        Err(ShowError::NoSuchEntry(2)),
        "",
        "",
    ),
    (LEGAL, Form::Unicode, None, Ok(0), "After 2 entries", "┘\n"),
    (
        LEGAL,
        Form::Chart(Durations::ONE),
        None,
        Ok(0),
        "<svg xmlns=",
        "</svg>\n",
    ),
    (
        LEGAL,
        Form::TimedPage(Durations::ONE, Window::FIRST),
        None,
        Ok(0),
        "<!DOCTYPE html>\n",
        "</html>\n",
    ),
    (
        LEGAL,
        Form::Text,
        Some(3),
        Err(ShowError::NoSuchEntry(2)),
        "",
        "",
    ),
];

// The last good entry is shown with the answer below, and nothing past it.
const OTHER_CASES: [Case; 5] = [
    (
        REFUSED,
        Form::Text,
        None,
        Ok(1),
        LIT,
        "refused 2 LampAlready feed\n",
    ),
    (UNREADABLE, Form::Text, None, Ok(1), LIT, "unreadable 2\n"),
    ("", Form::Text, None, Ok(1), OPENING, "unreadable 0\n"),
    (
        REFUSED,
        Form::Text,
        Some(3),
        Err(ShowError::NoSuchEntry(1)),
        "",
        "",
    ),
    (
        "",
        Form::Text,
        Some(3),
        Err(ShowError::NoSuchEntry(0)),
        "",
        "",
    ),
];

// A journal is shown as a case says.
fn is_shown(rt: &impl Abort, alloc: Global, case: Case) {
    let (text, form, entry, answer, first, last) = case;
    let mut written = Vec::new(alloc);
    let answered = show_journal(alloc, text.as_bytes(), form, entry, &mut written);
    assert!(rt; answered == answer, "{form:?} {entry:?} of {text}");
    let shown = String::from_utf8_lossy(alloc, written.as_slice()).expect(rt, "memory");
    let shown = shown.as_str();
    assert!(rt;
        shown.starts_with(first) && shown.ends_with(last),
        "{form:?} {entry:?} of {text}"
    );
    let length = first.len().saturating_add(last.len());
    assert!(rt;
        form != Form::Text || shown.len() == length,
        "{form:?} {entry:?} of {text}"
    );
}

#[test]
fn shows_journals_in_each_form(rt: HostRuntime) {
    for &case in &LEGAL_CASES {
        is_shown(&rt, rt.alloc(), case);
    }
    for &case in &OTHER_CASES {
        is_shown(&rt, rt.alloc(), case);
    }
}

// What is written where that journal is shown, after an entry or after all.
fn shown_as(rt: &impl Abort, alloc: Global, form: Form, entry: Option<u32>) -> String {
    let mut written = Vec::new(alloc);
    let answered = show_journal(alloc, CARRIED.as_bytes(), form, entry, &mut written);
    assert!(rt; answered == Ok(0), "{form:?}");
    String::from_utf8(written).ok().expect(rt, "text")
}

// A page with durations is the page without, and a chart in it.
fn has_chart(rt: &impl Abort, timed: &str, page: &str, chart: &str) {
    let (before, rest) = timed.split_once(chart).unwrap_or(("", ""));
    let (before, _) = before
        .split_once("<section class=\"chart\"")
        .unwrap_or(("", ""));
    let (_, after) = rest.split_once("</section>\n").unwrap_or(("", ""));
    assert!(rt; page.starts_with(before) && !before.is_empty());
    assert!(rt; page.ends_with(after) && !after.is_empty());
    assert!(rt; page.len() == before.len().saturating_add(after.len()));
}

// A page with durations is the page without, and in it the chart of all entries with these, whatever entry is asked
// for.
#[test]
fn a_page_has_a_chart_of_all_entries(rt: HostRuntime) {
    let mut durations = Durations::ONE;
    durations.set(Axis::FeedBelt, Pose::ToTable, 4);
    let page = shown_as(&rt, rt.alloc(), Form::Page(Window::FIRST), None);
    let chart = shown_as(&rt, rt.alloc(), Form::Chart(durations), None);
    assert!(rt; !page.as_str().contains(chart.as_str()));
    for &entry in &[None, Some(1)] {
        let form = Form::TimedPage(durations, Window::FIRST);
        let timed = shown_as(&rt, rt.alloc(), form, entry);
        has_chart(&rt, timed.as_str(), page.as_str(), chart.as_str());
    }
}

// A window of that journal, parts of its page with a chart, and a part that this hasn't.
const CHARTS: [(Window, [&str; 4], &str); 2] = [
    (
        Window { from: 3, count: 2 },
        [
            ">entries 4 to 5, times 1 to 1</text>",
            "<metadata>1 1 </metadata>\n",
            "<title>to_end: 0 to 1</title>",
            "the states after 3 to 5 entries of the journal, which has 7.",
        ],
        "<title>to_table: ",
    ),
    (
        Window { from: 5, count: 9 },
        [
            ">entries 6 to 7, times 1 to 5</text>",
            "<metadata>1 5 </metadata>\n",
            "<title>to_table: 1 to 5</title>",
            "the states after 5 to 7 entries of the journal, which has 7.",
        ],
        "<title>to_end: ",
    ),
];

// What is told of each error.
#[test]
fn tells_why_nothing_is_shown(rt: HostRuntime) {
    for &(error, line) in &[
        (
            ShowError::NoSuchEntry(1),
            "NoSuchEntry: the journal has 1 entry",
        ),
        (
            ShowError::NoSuchEntry(20),
            "NoSuchEntry: the journal has 20 entries",
        ),
        (
            ShowError::TooManyEntries,
            "TooManyEntries: such a picture shows at most 20000 entries; of a longer journal \
                --html --from N --count M shows a part",
        ),
        (ShowError::WriteFault, "WriteFault"),
    ] {
        let told = format!(in rt.alloc(); "{error}").expect(&rt, "memory");
        assert!(rt; told.as_str() == line, "{line}");
    }
}

// The chart of a page has the entries that the page shows, at their times in the whole run.
#[test]
fn a_page_has_a_chart_of_its_entries(rt: HostRuntime) {
    let mut durations = Durations::ONE;
    durations.set(Axis::FeedBelt, Pose::ToTable, 4);
    for (window, parts, missing) in &CHARTS {
        let form = Form::TimedPage(durations, *window);
        let page = shown_as(&rt, rt.alloc(), form, None);
        for part in parts {
            assert!(rt; page.as_str().contains(*part), "{part}");
        }
        assert!(rt; !page.as_str().contains(*missing), "{missing}");
    }
}

// The page of a text, and the status.
fn page_of(rt: &impl Abort, alloc: Global, text: &str, wanted: u8) -> String {
    let mut written = Vec::new(alloc);
    let answered = show_journal(
        alloc,
        text.as_bytes(),
        Form::Page(Window::FIRST),
        None,
        &mut written,
    );
    assert!(rt; answered == Ok(wanted), "{text}");
    String::from_utf8(written).ok().expect(rt, "text")
}

// The page of a text that isn't legal has its refused entry, or says that the record can't be read.
#[test]
fn a_page_has_the_record_that_is_not_booked(rt: HostRuntime) {
    let refused = page_of(&rt, rt.alloc(), REFUSED, 1);
    assert!(rt;
        refused.as_str().contains(
            "\n\"refused\":[2,\"LampAlready feed: the feed light has that colour \
                already\",\"lamp-0\",0,\"lamp,feed,green,\",\"feed belt: its light turns green\"],\n"
        )
    );
    let unreadable = page_of(&rt, rt.alloc(), UNREADABLE, 1);
    assert!(rt;
        unreadable.as_str().contains(
            "\n\"refused\":[2,\"the record can't be read\",\"\",-1,\"\",\"\"],\n"
        )
    );
    let legal = page_of(&rt, rt.alloc(), LEGAL, 0);
    assert!(rt; legal.as_str().contains("\n\"refused\":null,\n"));
}

// A page as it stands within the quotes of an attribute.
fn quoted(rt: &impl Abort, alloc: Global, page: &str) -> String {
    let page = page.replace(alloc, "&", "&amp;").expect(rt, "memory");
    page.as_str()
        .replace(alloc, "\"", "&quot;")
        .expect(rt, "memory")
}

// A journal that stands beside the one on standard input.
fn beside<'a, O>(reader: O) -> Beside<'a, O> {
    Beside {
        reader,
        name: "other.journal",
        first_name: "standard input",
    }
}

// Two journals stand side by side, each with its page, and the status is the first one's.
#[test]
fn shows_two_journals_side_by_side(rt: HostRuntime) {
    let legal = page_of(&rt, rt.alloc(), LEGAL, 0);
    let refused = page_of(&rt, rt.alloc(), REFUSED, 1);
    let mut written = Vec::new(rt.alloc());
    let other = REFUSED.as_bytes();
    let answered = show_beside(
        rt.alloc(),
        LEGAL.as_bytes(),
        beside(other),
        Form::Page(Window::FIRST),
        None,
        &mut written,
    );
    assert!(rt; answered == Ok(0));
    let both = String::from_utf8(written).ok().expect(&rt, "text");
    let first = quoted(&rt, rt.alloc(), legal.as_str());
    let second = quoted(&rt, rt.alloc(), refused.as_str());
    let (_, rest) = both.as_str().split_once(first.as_str()).unwrap_or(("", ""));
    let (_, rest) = rest.split_once(second.as_str()).unwrap_or(("", ""));
    assert!(rt; rest == "\"></iframe>\n</main>\n</body>\n</html>\n");
}

// Two journals side by side, both from the second entry on.
fn beside_later(
    alloc: Global,
    first: &str,
    other: &str,
    written: &mut Vec<u8>,
) -> Result<u8, ShowError> {
    let form = Form::Page(Window { from: 2, count: 9 });
    show_beside(
        alloc,
        first.as_bytes(),
        beside(other.as_bytes()),
        form,
        None,
        written,
    )
}

// Both journals are shown in one window, and the frame of one that ends before it says so.
#[test]
fn tells_that_the_other_journal_ends_before(rt: HostRuntime) {
    let mut written = Vec::new(rt.alloc());
    let answered = beside_later(rt.alloc(), LEGAL, REFUSED, &mut written);
    assert!(rt; answered == Ok(0));
    let both = String::from_utf8(written).ok().expect(&rt, "text");
    let line = "<p>NoSuchEntry: the journal has 1 entry</p>\n</html>\n\"></iframe>\n</main>\n";
    assert!(rt; both.as_str().contains(line));
    assert!(rt;
        both.as_str()
            .contains("after 2 to 2 entries of the journal, which has 2.")
    );
    let mut nothing = Vec::new(rt.alloc());
    let answered = beside_later(rt.alloc(), REFUSED, LEGAL, &mut nothing);
    assert!(rt; answered == Err(ShowError::NoSuchEntry(1)) && nothing.is_empty());
}

#[test]
fn shows_nothing_where_the_reader_fails(rt: HostRuntime) {
    for &left in &[0, 1, 20, LEGAL.len()] {
        let reader = Watched::new(FailingReader::new(LEGAL.as_bytes(), left));
        let mut written = Vec::new(rt.alloc());
        let answer = show_journal(rt.alloc(), reader, Form::Text, None, &mut written);
        assert!(rt; answer == Ok(3) && written.is_empty(), "after {left} bytes");
        let other = Watched::new(FailingReader::new(LEGAL.as_bytes(), left));
        let page = Form::Page(Window::FIRST);
        let answer = show_beside(
            rt.alloc(),
            REFUSED.as_bytes(),
            beside(other),
            page,
            None,
            &mut written,
        );
        assert!(rt;
            answer == Ok(3) && written.is_empty(),
            "beside, after {left} bytes"
        );
    }
}

// The writer fails after so many bytes, and these are written.
fn is_cut(rt: &impl Abort, alloc: Global, form: Form, left: usize) {
    let mut writer = FailingWriter::new(Vec::new(alloc), left);
    let answer = show_journal(alloc, LEGAL.as_bytes(), form, None, &mut writer);
    assert!(rt;
        answer == Err(ShowError::WriteFault) && writer.inner().len() == left,
        "after {left} bytes"
    );
}

#[test]
fn tells_that_the_writer_failed(rt: HostRuntime) {
    for &form in &[
        Form::Text,
        Form::Unicode,
        Form::Picture,
        Form::Page(Window::FIRST),
        Form::Chart(Durations::ONE),
        Form::TimedPage(Durations::ONE, Window::FIRST),
        Form::Moving,
    ] {
        for &left in &[0, 1, 500] {
            is_cut(&rt, rt.alloc(), form, left);
        }
    }
}
