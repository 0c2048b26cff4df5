//! The pictures as text, and writers that fail while one is drawn.
use crate::states::{FAILED_PRESS, TWO_PLATES, drawn, drawn_after, draws, largest, longest};
use cell_audit::AuditError;
use cell_journal::Snapshot;
use cell_picture::{Scene, facts_of};
use cell_show::Form;
use plate_book::Refusal;
use std::alloc::Global;
use std::process::Abort;
use test_samples::FailingWriter;

// The opening.
pub(crate) const OPENING: &str = "\
After 0 entries: the opening


  entries           0                +---------------------+
  admitted          0                | press 1             | in quarantine:
  forged            0                |                     |   0 plates
  delivered         0                | middle              | expected:
  quarantined       0                | plate -             |   none
  reinstated        0                +---------------------+
+---------------+ +----------------+ +---------------------+ +---------------+
| feed belt     |>| table          |>| robot               |>| deposit belt  |
|               | |                | |                     | |               |
| light red     | | lift low       | | turned to           | | light red     |
| rest          | | turn belt      | | table1              | | rest          |
| start -       | |                | | arm 1 in -          | | start -       |
| end   -       | | plate -        | | arm 2 in -          | | end   -       |
+---------------+ +----------------+ +---------------------+ +---------------+
  zone  between         held by      +---------------------+
  z1    table, feed     -            | press 2             |
  z2    table, robot    -            |                     |
  z3    press1, robot   -            | middle              | 7*  forged
  z4    press2, robot   -            | plate -             | a>b goes to b
  z5    deposit, robot  -            +---------------------+
";

// Plate 1 is forged in the first press, and plate 2 lies on the table.
const WITH_TWO_PLATES: &str = "\
After 50 entries. The last:
feed belt: brings plate 2 to the table

  entries          50                +---------------------+
  admitted          2                | press 1             | in quarantine:
  forged            1                |                     |   0 plates
  delivered         0                | top                 | expected:
  quarantined       0                | plate 1*            |   none
  reinstated        0                +---------------------+
+---------------+ +----------------+ +---------------------+ +---------------+
| feed belt     |>| table          |>| robot               |>| deposit belt  |
|               | |                | |                     | |               |
| light red     | | lift low       | | turned to           | | light red     |
| rest          | | turn belt      | | p1_load             | | rest          |
| start -       | |                | | arm 1 in -          | | start -       |
| end   -       | | plate 2        | | arm 2 in -          | | end   -       |
+---------------+ +----------------+ +---------------------+ +---------------+
  zone  between         held by      +---------------------+
  z1    table, feed     feed         | press 2             |
  z2    table, robot    -            |                     |
  z3    press1, robot   press1       | middle              | 7*  forged
  z4    press2, robot   -            | plate -             | a>b goes to b
  z5    deposit, robot  -            +---------------------+
";

// The first press has failed, a stop of the robot is asked, plate 1 is expected, and the 15th entry is refused.
const WITH_A_FAILED_PRESS: &str = "\
After 14 entries. The last:
press 1: is declared failed, since its readings are missing

  entries          14                +---------------------+
  admitted          1                | press 1             | in quarantine:
  forged            0                | FAILED              |   1 plate
  delivered         0                | middle              | expected:
  quarantined       1                | plate -             |   plate 1
  reinstated        0                +---------------------+
+---------------+ +----------------+ +---------------------+ +---------------+
| feed belt     |>| table          |>| robot               |>| deposit belt  |
|               | |                | | stop asked          | |               |
| light red     | | lift low       | | turned to           | | light red     |
| rest          | | turn belt      | | table1              | | rest          |
| start -       | |                | | arm 1 in -          | | start -       |
| end   -       | | plate -        | | arm 2 in -          | | end   -       |
+---------------+ +----------------+ +---------------------+ +---------------+
  zone  between         held by      +---------------------+
  z1    table, feed     -            | press 2             |
  z2    table, robot    -            |                     |
  z3    press1, robot   -            | middle              | 7*  forged
  z4    press2, robot   -            | plate -             | a>b goes to b
  z5    deposit, robot  -            +---------------------+
refused 15 PlateExpected
";

// The longest words and the largest numbers.
const WITH_THE_LONGEST_WORDS: &str = "\
After 1000006 entries. The last:
deposit belt: is declared failed, since a switch stays shown though the axis
moves
  entries     1000006                ┌─────────────────────┐
  admitted    1000006                │ press 1             │ in quarantine:
  forged      1000006                │ FAILED              │   1000006 plates
  delivered   1000006                │ bottom→middle       │ expected:
  quarantined 1000006                │ plate 100000*       │   plate 100000
  reinstated  1000006                └─────────────────────┘
┌───────────────┐ ┌────────────────┐ ┌─────────────────────┐ ┌───────────────┐
│ feed belt     │→│ table          │→│ robot               │→│ deposit belt  │
│ FAILED        │ │ stop asked     │ │ stop asked          │ │ FAILED        │
│ light green   │ │ lift low→high  │ │ turned to           │ │ light green   │
│ rest→to_table │ │ turn robot→belt│ │ p1_unload→p2_unload │ │ rest→to_end   │
│ start 100000* │ │                │ │ arm 1 in→out 100000*│ │ start 100000* │
│ end   100000* │ │ plate 100000*  │ │ arm 2 out→in 100000*│ │ end   100000* │
└───────────────┘ └────────────────┘ └─────────────────────┘ └───────────────┘
  zone  between         held by      ┌─────────────────────┐
  z1    table, feed     deposit      │ press 2             │
  z2    table, robot    deposit      │ stop asked          │
  z3    press1, robot   deposit      │ middle→top          │ 7*  forged
  z4    press2, robot   deposit      │ plate 100000*       │ a→b goes to b
  z5    deposit, robot  deposit      └─────────────────────┘
refused 1000006 MachineFailed deposit
";

#[test]
fn draws_the_opening_and_what_records_lead_to(rt: HostRuntime) {
    let facts = facts_of(&Snapshot::opening());
    let scene = Scene {
        facts: &facts,
        entries: 0,
        last: None,
        answer: None,
    };
    let opening = drawn(&rt, rt.alloc(), &scene, Form::Text);
    assert!(rt; opening.as_str() == OPENING);
    let refused = AuditError::Refused(15, Refusal::PlateExpected);
    for &(records, answer, wanted) in &[
        (TWO_PLATES.as_slice(), None, WITH_TWO_PLATES),
        (FAILED_PRESS.as_slice(), Some(refused), WITH_A_FAILED_PRESS),
    ] {
        let text = drawn_after(&rt, rt.alloc(), records, answer, Form::Text);
        assert!(rt; text.as_str() == wanted);
    }
}

// It fits a window of 24 lines of 78 letters.
#[test]
fn draws_the_longest_words(rt: HostRuntime) {
    let facts = largest();
    let text = drawn(&rt, rt.alloc(), &longest(&facts), Form::Unicode);
    assert!(rt; text.as_str() == WITH_THE_LONGEST_WORDS);
    let mut lines = 0u32;
    for line in text.as_str().lines() {
        assert!(rt; line.chars().count() <= 78, "{line}");
        lines = lines.saturating_add(1);
    }
    assert!(rt; lines == 24, "{lines} lines");
}

// A writer that fails after so many bytes has taken a first part of a scene's file.
fn is_cut(rt: &impl Abort, alloc: Global, scene: &Scene, form: Form) {
    let file = drawn(rt, alloc, scene, form);
    let whole = file.as_bytes();
    let length = whole.len();
    for &left in &[0, 1, 500, 1000, length.saturating_sub(1), length] {
        let mut writer = FailingWriter::new(Vec::new(alloc), left);
        let is_whole = draws(&mut writer, scene, form);
        assert!(rt; is_whole == (left == length), "after {left} bytes");
        let part = &whole[..left.min(length)];
        assert!(rt; writer.inner().as_slice() == part, "after {left} bytes");
    }
}

#[test]
fn a_writer_that_fails_is_told(rt: HostRuntime) {
    let opening = facts_of(&Snapshot::opening());
    is_cut(&rt, rt.alloc(), &longest(&opening), Form::Text);
    let facts = largest();
    is_cut(&rt, rt.alloc(), &longest(&facts), Form::Picture);
}
