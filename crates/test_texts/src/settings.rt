//! What settings say, and what is printed for them.
use cell_diagnosis::Limits;
use cell_output::WriteFault;
use cell_settings::{KeyPath, SettingsError, check_lines, read_settings};
use std::alloc::Global;
use std::process::Abort;
use std::test::Fail;
use test_samples::{FailingWriter, Unwilling};

// A case: a text that is refused, and the line that is printed for it.
type Case = (&'static [u8], &'static [u8]);

// What a check finds.
const FAULTS: [Case; 25] = [
    (b"plates = 0", b"settings OutOfRange plates\n"),
    (b"", b"settings Missing plates\n"),
    (b"plates = 1\ncolour = 2", b"settings UnknownKey colour\n"),
    (
        b"plates = 1\n[watch.press_one]\nleave = 20\n",
        b"settings OutOfRange watch.press_one.limit\n",
    ),
    (b"plates = \"x\"", b"settings NotNumber plates\n"),
    (b"plates = ", b"settings NotToml\n"),
    (b"\xff", b"settings NotToml\n"),
    (b"plates = 1\nplates = 2", b"settings NotToml\n"),
    (b"plates = 100001", b"settings OutOfRange plates\n"),
    (b"plates = -1", b"settings OutOfRange plates\n"),
    (b"plates = 1.0", b"settings NotNumber plates\n"),
    (b"plates = {}", b"settings NotNumber plates\n"),
    (
        b"plates = 1\njournal_limit = 0",
        b"settings OutOfRange journal_limit\n",
    ),
    (
        b"plates = 1\njournal_limit = 1000001",
        b"settings OutOfRange journal_limit\n",
    ),
    (b"plates = 1\nturns = 0", b"settings OutOfRange turns\n"),
    (
        b"plates = 1\nturns = 10000001",
        b"settings OutOfRange turns\n",
    ),
    (b"plates = 1\nturns = true", b"settings NotNumber turns\n"),
    (b"plates = 1\nwatch = 3", b"settings UnknownKey watch\n"),
    (
        b"plates = 1\n[watch]\npress_one = 3\n",
        b"settings UnknownKey watch.press_one\n",
    ),
    (
        b"plates = 1\n[watch.press3]\nleave = 3\n",
        b"settings UnknownKey watch.press3\n",
    ),
    (
        b"plates = 1\n[watch.arm_one]\nleave = 1\n",
        b"settings OutOfRange watch.arm_one.leave\n",
    ),
    (
        b"plates = 1\n[watch.arm_one]\nleave = 1000\n",
        b"settings OutOfRange watch.arm_one.leave\n",
    ),
    (
        b"plates = 1\n[watch.arm_one]\nlimit = 1001\n",
        b"settings OutOfRange watch.arm_one.limit\n",
    ),
    (
        b"plates = 1\n[watch.arm_one]\nlimit = 3\n",
        b"settings OutOfRange watch.arm_one.limit\n",
    ),
    (
        b"plates = 1\n[watch.arm_one]\nlimit = []\n",
        b"settings NotNumber watch.arm_one.limit\n",
    ),
];

// The first of several faults.
const FIRST_FAULTS: [Case; 9] = [
    // An unknown key comes before all faults of numbers, and tables are walked in the order of their keys' bytes.
    (
        b"plates = 0\nzone = 1\ncolour = 2",
        b"settings UnknownKey colour\n",
    ),
    (
        b"xylo = 1\n[watch.arm_one]\nlate = 1\nearly = 2\n[watch.arm_none]\n",
        b"settings UnknownKey watch.arm_none\n",
    ),
    (
        b"xylo = 1\n[watch.arm_one]\nlate = 1\nearly = 2\n",
        b"settings UnknownKey watch.arm_one.early\n",
    ),
    (
        b"xylo = 1\nplates = 1\nturns = 0",
        b"settings UnknownKey xylo\n",
    ),
    // The numbers come in the order of the settings, and axes in the order of the cell.
    (
        b"turns = 0\njournal_limit = 0\n",
        b"settings Missing plates\n",
    ),
    (
        b"turns = \"x\"\njournal_limit = 0\nplates = 1\n",
        b"settings OutOfRange journal_limit\n",
    ),
    (
        b"turns = 0\nplates = 1\n[watch.arm_one]\nleave = 0\n",
        b"settings OutOfRange turns\n",
    ),
    (
        b"plates = 1\n[watch.arm_one]\nleave = 0\n[watch.table_lift]\nlimit = 0\n",
        b"settings OutOfRange watch.table_lift.limit\n",
    ),
    (
        b"plates = 1\n[watch.deposit_belt]\nlimit = \"x\"\nleave = 0\n",
        b"settings OutOfRange watch.deposit_belt.leave\n",
    ),
];

// A control character is printed as its escape, and so is one that parts lines or turns the direction of text.
const ESCAPED: [Case; 9] = [
    (
        b"\"x\\nsettings ok\" = 1",
        b"settings UnknownKey x\\u000Asettings ok\n",
    ),
    (
        b"\"\\u0000\\u0007\\b\\t\\r\\u000F\\u0010\\u001F\" = 1",
        b"settings UnknownKey \\u0000\\u0007\\u0008\\u0009\\u000D\\u000F\\u0010\\u001F\n",
    ),
    (b"\"\\u007F\" = 1", b"settings UnknownKey \\u007F\n"),
    (b"'a\tb' = 1", b"settings UnknownKey a\\u0009b\n"),
    (
        b"[watch.\"arm\\none\"]\nleave = 3",
        b"settings UnknownKey watch.arm\\u000Aone\n",
    ),
    (
        b"[watch.arm_one]\n\"\\n\" = 3",
        b"settings UnknownKey watch.arm_one.\\u000A\n",
    ),
    (
        b"\"\\u0080\\u009B31m\\u009F\" = 1",
        b"settings UnknownKey \\u0080\\u009B31m\\u009F\n",
    ),
    (
        b"[watch.\"\xE2\x80\xAEpress\"]\nleave = 3",
        b"settings UnknownKey watch.\\u202Epress\n",
    ),
    (
        b"\"\\u061C\\u200E\\u200F\\u2028\\u2029\\u202A\\u202E\\u2066\\u2069\" = 1",
        b"settings UnknownKey \\u061C\\u200E\\u200F\\u2028\\u2029\\u202A\\u202E\\u2066\\u2069\n",
    ),
];

// All other characters are printed as they stand.
const AS_THEY_STAND: [Case; 6] = [
    (
        b"\"caf\xC3\xA9 \xE2\x82\xAC\" = 1",
        b"settings UnknownKey caf\xC3\xA9 \xE2\x82\xAC\n",
    ),
    (b"'a\\nb\\u000A' = 1", b"settings UnknownKey a\\nb\\u000A\n"),
    (
        b"\" ~.\\\"\\u00A0\" = 1",
        b"settings UnknownKey  ~.\"\xC2\xA0\n",
    ),
    (
        b"\"\\u061B\\u061D\\u200D\\u2010\" = 1",
        b"settings UnknownKey \xD8\x9B\xD8\x9D\xE2\x80\x8D\xE2\x80\x90\n",
    ),
    (
        b"\"\\u2027\\u202F\\u2065\\u206A\" = 1",
        b"settings UnknownKey \xE2\x80\xA7\xE2\x80\xAF\xE2\x81\xA5\xE2\x81\xAA\n",
    ),
    (b"\"\" = 1", b"settings UnknownKey \n"),
];

// The limits of an axis that isn't named.
const USUAL: (u16, u16) = (3, 20);

// A text in which all numbers and some limits are named.
const ALL_NUMBERS: &[u8] = b"plates = 100_000\njournal_limit = 1_000_000\nturns = 10_000_000\n\
[watch.feed_belt]\nleave = 2\nlimit = 3\n[watch.deposit_belt]\nleave = 999\nlimit = 1000\n\
[watch.press_one]\nlimit = 40\n[watch.press_two]\nleave = 19\n";

// Texts, the plates, the limit of the journal and the turns that they say, and each axis's limits.
const PLANS: [(&[u8], [u32; 3], [(u16, u16); 9]); 2] = [
    (b"plates = 5\n", [5, 100_000, 100_000], [USUAL; 9]),
    (
        ALL_NUMBERS,
        [100_000, 1_000_000, 10_000_000],
        [
            (2, 3),
            USUAL,
            USUAL,
            USUAL,
            USUAL,
            USUAL,
            (3, 40),
            (19, 20),
            (999, 1000),
        ],
    ),
];

// This is printed for a text, with this status.
fn prints(rt: &impl Abort, alloc: Global, text: &[u8], wanted: &[u8], status: u8) {
    let mut written = Vec::new(alloc);
    let answer = check_lines(alloc, text, &mut written);
    let shown = String::from_utf8_lossy(alloc, text).expect(rt, "memory");
    assert!(rt;
        answer == Ok(status) && written.as_slice() == wanted,
        "{shown}"
    );
}

// These lines are printed for texts that are wrong.
fn are_wrong(rt: &impl Abort, alloc: Global, cases: &[Case]) {
    for (text, wanted) in cases {
        prints(rt, alloc, text, wanted, 1);
    }
}

#[test]
fn prints_what_a_check_finds(rt: HostRuntime) {
    are_wrong(&rt, rt.alloc(), &FAULTS);
    are_wrong(&rt, rt.alloc(), &FIRST_FAULTS);
    are_wrong(&rt, rt.alloc(), &ESCAPED);
    are_wrong(&rt, rt.alloc(), &AS_THEY_STAND);
    prints(&rt, rt.alloc(), b"plates = 5", b"settings ok\n", 0);
}

// What settings' text says: the plates, the limit of the journal, the turns, and the limits of the axes.
fn says(rt: &impl Abort, alloc: Global, text: &[u8], numbers: [u32; 3], limits: [(u16, u16); 9]) {
    let plan = read_settings(alloc, text).ok().expect(rt, "settings");
    assert!(rt; [plan.plates, plan.journal_limit, plan.turns] == numbers);
    for (given, (leave, limit)) in plan.limits.iter().zip(limits) {
        assert!(rt;
            Some(*given) == Limits::new(leave, limit),
            "{leave} and {limit}"
        );
    }
}

#[test]
fn reads_numbers_and_defaults(rt: HostRuntime) {
    for &(text, numbers, limits) in &PLANS {
        says(&rt, rt.alloc(), text, numbers, limits);
    }
}

#[test]
fn says_what_is_wrong(rt: HostRuntime) -> Result<(), Fail> {
    let alloc = rt.alloc();
    let watch = KeyPath::new(alloc, "watch")?;
    let path = KeyPath::join(alloc, watch.as_str(), "arm_two")?;
    assert!(rt; path.as_str() == "watch.arm_two");
    let text = format!(in alloc; "{}", SettingsError::UnknownKey(path))?;
    assert!(rt; text.as_str() == "unknown key watch.arm_two");
    Ok(())
}

// The lines of texts, of which a writer takes a first part before it fails.
const WRITTEN: [Case; 2] = [
    (b"plates = 5", b"settings ok\n"),
    (b"\"a\\nb\" = 1", b"settings UnknownKey a\\u000Ab\n"),
];

// A writer that takes so many bytes gives this answer, and took the first part of what is due.
fn writer_of(
    rt: &impl Abort,
    alloc: Global,
    text: &[u8],
    left: usize,
    due: &[u8],
    wanted: Result<u8, WriteFault>,
) {
    let mut writer = FailingWriter::new(Vec::new(alloc), left);
    let answer = check_lines(alloc, text, &mut writer);
    assert!(rt; answer == wanted, "after {left} bytes");
    let part = &due[..left.min(due.len())];
    assert!(rt; writer.inner().as_slice() == part);
}

#[test]
fn tells_that_the_writer_failed_after_a_first_part(rt: HostRuntime) {
    for &(text, due) in &WRITTEN {
        for left in 0..due.len() {
            writer_of(&rt, rt.alloc(), text, left, due, Err(WriteFault));
        }
    }
    let text = b"plates = 5".as_slice();
    writer_of(&rt, rt.alloc(), text, 12, b"settings ok\n", Ok(0));
    let answer = check_lines(rt.alloc(), text, &mut Unwilling);
    assert!(rt; answer == Err(WriteFault), "nothing was taken");
}
