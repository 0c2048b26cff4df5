//! The page of a journal of a few entries, parts of it and of a long one, and a writer that fails.
use crate::states::{drawn, drawn_after, largest, longest};
use cell_audit::AuditError;
use cell_show::Form;
use cell_show::page::{MAX_PAGE_ENTRIES, PageError, Window, write_beside, write_page};
use cell_types::{Axis, Belt, Entry, Machine, Station, Zone};
use plate_book::{Book, Refusal};
use std::alloc::Global;
use std::io::Write;
use std::process::Abort;
use test_samples::{ONE_PLATE, begun, book_all, entry_of};

// The rows of the first entries of the journal of one plate, each in two pieces: it is laid in, and the feed belt
// carries it to its end.
const ROWS: [[&str; 2]; 5] = [
    [
        r#"[[0,0,0,0,0,0,0,0,0],"000000000","adfhnnppa","---------","-----","000000","000000","rr",0,0,"#,
        r#"[0,0,0,0,0,0],-1,"",""]"#,
    ],
    [
        r#"[[0,0,0,0,0,0,0,0,0],"000000000","adfhnnppa","---------","-----","000000","000000","gr",0,0,"#,
        r#"[1,0,0,0,0,0],0,"lamp,feed,green,","feed belt: its light turns green"]"#,
    ],
    [
        r#"[[1,0,0,0,0,0,0,0,0],"000000000","adfhnnppa","---------","-----","000000","000000","rr",0,0,"#,
        r#"[2,1,0,0,0,0],0,"admitted,1,,","feed belt: plate 1 is admitted"]"#,
    ],
    [
        r#"[[1,0,0,0,0,0,0,0,0],"000000000","adfhnnppa","b--------","-----","000000","000000","rr",0,0,"#,
        r#"[3,1,0,0,0,0],0,"started,feed_belt,to_end,","feed belt: starts to go to its end"]"#,
    ],
    [
        r#"[[0,1,0,0,0,0,0,0,0],"000000000","adfhnnppa","---------","-----","000000","000000","rr",0,0,"#,
        r#"[4,1,0,0,0,0],0,"conveyed,feed_belt,1,feed_end","feed belt: brings plate 1 to the feed belt's end"]"#,
    ],
];

// The rows of a page, between their beginning and their end.
fn rows_of(page: &str) -> &str {
    let (_, rest) = page.split_once("\"rows\":[\n").unwrap_or(("", ""));
    let (rows, _) = rest.split_once("\n]}\n</script>\n").unwrap_or(("", ""));
    rows
}

// The rows of a page are those of that journal from one place on and before another, each on a line.
fn has_rows(rt: &impl Abort, page: &str, from: usize, until: usize) {
    let mut left = rows_of(page);
    for place in from..until {
        assert!(rt; place < ROWS.len());
        let row = &ROWS[place];
        let comma = if place == from { "" } else { ",\n" };
        for &piece in &[comma, row[0], row[1]] {
            let rest = left.strip_prefix(piece);
            assert!(rt; rest.is_some(), "{piece}");
            left = rest.unwrap_or("");
        }
    }
    assert!(rt; left.is_empty(), "{left}");
}

// Writes the page of the first four entries of the journal of one plate.
fn write_first<W: Write>(
    rt: &impl Abort,
    alloc: Global,
    writer: &mut W,
    answer: Option<AuditError>,
    chart: Option<&[u8]>,
) -> Result<(), PageError> {
    let book = begun(alloc, 100, 10, 4).expect(rt, "a book");
    write_page(writer, &book, Window::FIRST, answer, None, chart)
}

// That page.
fn first_page(
    rt: &impl Abort,
    alloc: Global,
    answer: Option<AuditError>,
    chart: Option<&[u8]>,
) -> String {
    let mut page = Vec::new(alloc);
    assert!(rt; write_first(rt, alloc, &mut page, answer, chart).is_ok());
    String::from_utf8(page).ok().expect(rt, "the page is UTF-8")
}

// That page has the rows between their beginning and their end, and these words of the answer.
fn is_page(
    rt: &impl Abort,
    alloc: Global,
    answer: Option<AuditError>,
    chart: Option<&[u8]>,
    words: &str,
) {
    let page = first_page(rt, alloc, answer, chart);
    let text = page.as_str();
    assert!(rt;
        text.starts_with("<!DOCTYPE html>\n<html lang=\"en\">\n"),
        "{words}"
    );
    has_rows(rt, text, 0, ROWS.len());
    assert!(rt;
        text.contains(words) && text.ends_with("</script>\n</body>\n</html>\n"),
        "{words}"
    );
}

#[test]
fn writes_a_row_for_each_state_and_the_answer(rt: HostRuntime) {
    is_page(&rt, rt.alloc(), None, None, "");
    let answer = AuditError::Refused(5, Refusal::LampRed(Belt::Feed));
    is_page(
        &rt,
        rt.alloc(),
        Some(answer),
        None,
        "refused 5 LampRed feed",
    );
}

// Which states of that journal are asked for, from which on and before which they are shown, and what is told of them.
const WINDOWS: [(Window, usize, usize, &str); 9] = [
    (Window::FIRST, 0, 5, ""),
    (Window { from: 0, count: 4 }, 0, 5, ""),
    (
        Window {
            from: 0,
            count: u32::MAX,
        },
        0,
        5,
        "",
    ),
    (Window { from: 0, count: 3 }, 0, 4, "0 to 3"),
    (Window { from: 1, count: 2 }, 1, 4, "1 to 3"),
    (Window { from: 2, count: 5 }, 2, 5, "2 to 4"),
    (
        Window {
            from: 2,
            count: u32::MAX,
        },
        2,
        5,
        "2 to 4",
    ),
    (Window { from: 4, count: 0 }, 4, 5, "4 to 4"),
    (Window { from: 0, count: 0 }, 0, 1, "0 to 0"),
];

// The page of that journal has the rows of a window's states, and says which they are, where they aren't all.
fn has_window(rt: &impl Abort, alloc: Global, case: (Window, usize, usize, &str)) {
    let (window, from, until, told) = case;
    let book = begun(alloc, 100, 10, 4).expect(rt, "a book");
    let page = page_of(rt, &book, alloc, window);
    let text = page.as_str();
    has_rows(rt, text, from, until);
    let numbers = format!(in alloc; "\n\"first\":{from},\"entries\":4,\n\"refused\":").expect(
        rt, "memory",
    );
    assert!(rt; text.contains(numbers.as_str()), "{told}");
    let start = "<p class=\"shown\">This page shows the states after ";
    let (_, rest) = text.split_once(start).unwrap_or(("", ""));
    let end =
        " entries of the journal, which has 4. The options --from and --count choose others.</p>\n";
    let (line, _) = rest.split_once(end).unwrap_or(("", ""));
    assert!(rt; line == told, "{told}");
    let last = until.saturating_sub(1);
    let scripts = format!(in alloc;
        "This page needs scripts to show the states after {last} entries. "
    );
    assert!(rt;
        text.contains(scripts.expect(rt, "memory").as_str()),
        "{told}"
    );
}

#[test]
fn shows_the_states_that_are_asked_for(rt: HostRuntime) {
    for &case in &WINDOWS {
        has_window(&rt, rt.alloc(), case);
    }
}

// What is shown where no scripts run has the picture of the last state.
#[test]
fn has_the_picture_of_the_last_state(rt: HostRuntime) {
    let page = first_page(&rt, rt.alloc(), None, None);
    let start = "<noscript><figure class=\"still\">\n";
    let (_, rest) = page.as_str().split_once(start).unwrap_or(("", ""));
    let picture = drawn_after(&rt, rt.alloc(), &ONE_PLATE[..4], None, Form::Picture);
    let after = rest.strip_prefix(picture.as_str()).unwrap_or("");
    assert!(rt; after.starts_with("</figure></noscript>\n<div id=\"last\""));
}

// The page has the places by which pictures are drawn.
#[test]
fn has_the_places_of_the_pictures(rt: HostRuntime) {
    let page = first_page(&rt, rt.alloc(), None, None);
    let first = "\n\"geometry\":{\"centre\":[400,250],\"stations\":[[52,250],[168,250],[250,250],";
    assert!(rt; page.as_str().contains(first));
    let last = "\"press2\":[[[465,400],30],[[465,368],36],[[465,432],24]]},\n";
    assert!(rt; page.as_str().contains(last));
}

// The picture with the longest words and the largest numbers has fewer bytes than the page has room for.
#[test]
fn has_room_for_the_longest_picture(rt: HostRuntime) {
    let facts = largest();
    let picture = drawn(&rt, rt.alloc(), &longest(&facts), Form::Picture);
    assert!(rt; picture.len() < 14_000, "{}", picture.len());
}

// Answers at the fifth record, whether the entry that is refused is given, and the line of the page's data.
const STEPS: [(Option<AuditError>, bool, &str); 9] = [
    (None, false, "null"),
    (
        Some(AuditError::Refused(5, Refusal::LampRed(Belt::Feed))),
        true,
        r##"[5,"LampRed feed: the feed light is red","lamp-0",0,"admitted,2,,","feed belt: plate 2 is admitted"]"##,
    ),
    (
        Some(AuditError::Refused(5, Refusal::MachineFailed(Machine::Press2))),
        false,
        r##"[5,"MachineFailed press2: press 2 is booked failed","machine-4",-1,"",""]"##,
    ),
    (
        Some(AuditError::Refused(5, Refusal::WrongPose(Axis::RobotTurn))),
        false,
        "[5,\"WrongPose robot_turn: the robot's turn isn't where it has to be, moves, or has no such motion\",\
         \"axis-3\",-1,\"\",\"\"]",
    ),
    (
        Some(AuditError::Refused(5, Refusal::NotHolder(Zone::Z4))),
        false,
        r##"[5,"NotHolder z4: the machine doesn't hold zone z4","zone-3",-1,"",""]"##,
    ),
    (
        Some(AuditError::Refused(5, Refusal::StationFull(Station::DepIn))),
        false,
        r##"[5,"StationFull dep_in: a plate is at the deposit belt's start","plate-7",-1,"",""]"##,
    ),
    (
        Some(AuditError::Refused(5, Refusal::WrongPlate)),
        false,
        r##"[5,"WrongPlate: the plate isn't the one that the entry has to name","",-1,"",""]"##,
    ),
    (
        Some(AuditError::Unreadable(5)),
        false,
        r##"[5,"the record can't be read","",-1,"",""]"##,
    ),
    (Some(AuditError::ReadFault), false, "null"),
];

// The page of a book with this answer and this entry that is refused has the line of that step.
fn has_step(
    rt: &impl Abort,
    alloc: Global,
    book: &Book,
    answer: Option<AuditError>,
    refused: Option<Entry>,
    line: &str,
) {
    is_step(rt, alloc, book, Window::FIRST, (answer, refused), line);
}

// The page of a window of it has that line.
fn is_step(
    rt: &impl Abort,
    alloc: Global,
    book: &Book,
    window: Window,
    end: (Option<AuditError>, Option<Entry>),
    line: &str,
) {
    let (answer, refused) = end;
    let mut page = Vec::new(alloc);
    let entries = book.journal().len();
    assert!(rt; window.from <= entries);
    assert!(rt; write_page(&mut page, book, window, answer, refused, None).is_ok());
    let page = String::from_utf8(page).ok().expect(rt, "the page is UTF-8");
    let (_, rest) = page.as_str().split_once("\"refused\":").unwrap_or(("", ""));
    let (step, _) = rest.split_once(",\n\"waits\":[\n").unwrap_or(("", ""));
    assert!(rt; step == line, "{line}");
}

// The page has a last step for the record that isn't booked.
#[test]
fn has_a_step_for_the_record_that_is_not_booked(rt: HostRuntime) {
    let book = begun(rt.alloc(), 100, 10, 4).expect(&rt, "a book");
    let second = entry_of("admitted,2,,");
    for &(answer, is_given, line) in &STEPS {
        let refused = if is_given { second } else { None };
        has_step(&rt, rt.alloc(), &book, answer, refused, line);
    }
}

// That step stands behind the last good entry, where the page shows it.
#[test]
fn has_that_step_at_the_end_alone(rt: HostRuntime) {
    let book = begun(rt.alloc(), 100, 10, 4).expect(&rt, "a book");
    let line = r##"[5,"the record can't be read","",-1,"",""]"##;
    for &(window, _, until, _) in &WINDOWS {
        let due = if until == 5 { line } else { "null" };
        let end = (Some(AuditError::Unreadable(5)), None);
        is_step(&rt, rt.alloc(), &book, window, end, due);
    }
}

// Two pages stand in one, with their quotes and ampersands as entities.
#[test]
fn writes_two_pages_in_one(rt: HostRuntime) {
    let mut written = Vec::new(rt.alloc());
    let first = b"<p class=\"a\">one &amp; two</p>".as_slice();
    let second = b"\"&\"".as_slice();
    let name = "a<b & \"c\".journal";
    assert!(rt; write_beside(&mut written, name, first, "standard input", second).is_ok());
    let page = String::from_utf8(written)
        .ok()
        .expect(&rt, "the page is UTF-8");
    let (head, rest) = page
        .as_str()
        .split_once("srcdoc=\"<p class=&quot;a&quot;>one &amp;amp; two</p>\"></iframe>\n")
        .unwrap_or(("", ""));
    assert!(rt; head.starts_with("<!DOCTYPE html>\n<html lang=\"en\">\n"));
    let start =
        "<h2>The journal: a&lt;b &amp; &quot;c&quot;.journal</h2>\n<iframe title=\"The journal\" ";
    assert!(rt; head.ends_with(start));
    let end = "<h2>The other one, of --beside: standard input</h2>\n\
        <iframe title=\"The other journal\" srcdoc=\"&quot;&amp;&quot;\"></iframe>\n</main>\n</body>\n</html>\n";
    assert!(rt; rest == end);
}

// The section of a chart.
const SECTION: &str = "<section class=\"chart\">\n<h2>The entries on an axis of time</h2>\n\
    <div tabindex=\"0\" style=\"overflow-x: auto\" onkeydown=\"event.stopPropagation()\">\n\
    <svg>a chart</svg>\n</div>\n</section>\n";

// The page with a chart is that without it, and the chart's section.
#[test]
fn writes_a_chart(rt: HostRuntime) {
    let chart = Some(b"<svg>a chart</svg>\n".as_slice());
    is_page(&rt, rt.alloc(), None, chart, "");
    let with = first_page(&rt, rt.alloc(), None, chart);
    let without = first_page(&rt, rt.alloc(), None, None);
    assert!(rt; !without.as_str().contains("<section class=\"chart\""));
    let (before, after) = with.as_str().split_once(SECTION).unwrap_or(("", ""));
    assert!(rt; without.as_str().strip_prefix(before) == Some(after));
    assert!(rt; before.ends_with("</dialog>\n") && after.starts_with("</main>\n"));
}

// A book of so many entries, of which each switches the feed light.
fn switching(rt: &impl Abort, alloc: Global, count: u32) -> Book {
    let mut book = Book::new(alloc, 100_000, 1).ok().expect(rt, "a book");
    for place in 0..count {
        let record = if place % 2 == 0 {
            "lamp,feed,green,"
        } else {
            "lamp,feed,red,"
        };
        assert!(rt; book_all(&mut book, &[record]).is_ok());
    }
    book
}

// The page of some states of a book.
fn page_of(rt: &impl Abort, book: &Book, alloc: Global, window: Window) -> String {
    let mut page = Vec::new(alloc);
    let entries = book.journal().len();
    assert!(rt; window.from <= entries);
    assert!(rt; write_page(&mut page, book, window, None, None, None).is_ok());
    String::from_utf8(page).ok().expect(rt, "the page is UTF-8")
}

// Of a longer journal as much is shown as a page shows, and that is told.
#[test]
fn shows_a_part_of_a_long_journal(rt: HostRuntime) {
    let book = switching(&rt, rt.alloc(), MAX_PAGE_ENTRIES + 1);
    let page = page_of(&rt, &book, rt.alloc(), Window::FIRST);
    assert!(rt; page.len() < 5_000_000);
    let told =
        "after 0 to 20000 entries of the journal, which has 20001. The options --from and --count ";
    assert!(rt; page.as_str().contains(told));
    let last = r#"[20000,0,0,0,0,0],0,"lamp,feed,red,","feed belt: its light turns red"]"#;
    assert!(rt; rows_of(page.as_str()).ends_with(last));
    let later = page_of(
        &rt,
        &book,
        rt.alloc(),
        Window {
            from: 19_998,
            count: 20_000,
        },
    );
    assert!(rt;
        later.as_str().contains("after 19998 to 20001 entries of the journal, which has 20001.")
    );
    assert!(rt; rows_of(later.as_str()).lines().count() == 4);
}

#[test]
fn shows_all_of_a_journal_that_is_no_longer(rt: HostRuntime) {
    let book = switching(&rt, rt.alloc(), MAX_PAGE_ENTRIES);
    let page = page_of(&rt, &book, rt.alloc(), Window::FIRST);
    assert!(rt; !page.as_str().contains("<p class=\"shown\">"));
    assert!(rt; rows_of(page.as_str()).lines().count() == 20_001);
}

// A page isn't written whole into so many bytes.
#[test]
fn tells_that_the_writer_failed(rt: HostRuntime) {
    for &room in &[0, 1000, 30_000] {
        let mut bytes = vec![in rt.alloc(); 0u8; room].expect(&rt, "memory");
        let mut rest = bytes.as_mut_slice();
        let answer = write_first(&rt, rt.alloc(), &mut rest, None, None);
        assert!(rt; answer == Err(PageError::WriteFault), "in {room} bytes");
    }
}
