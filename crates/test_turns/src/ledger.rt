//! Worked examples: shares that count beside a book.
ghost use Rattle.std.specs.Prelude.{◌≡◌, ◌≤◌, ◌<◌, true};
ghost use Rattle.cell_ledger.specs.New.{AreBlank};

use cell_ledger::{Blanks, Kept, Run, Shares};
use cell_types::{Belt, Totals};
use plate_book::{Book, Refusal};
use std::marker::Brand;
use std::process::Abort;
use test_samples::{ONE_PLATE, begun, entry_of};

// What was counted: so many entries, so many of them admissions, and nothing else.
fn counts_are(rt: &impl Abort, counts: Totals, entries: u32, admitted: u32) {
    let wanted = Totals {
        entries,
        admitted,
        forged: 0,
        quarantined: 0,
        delivered: 0,
        reinstated: 0,
    };
    assert!(rt; counts == wanted);
}

fn is_small(counts: Totals) -> bool
    ensures { result ≡ true → (counts.entries ≤ 1000) × (counts.admitted ≤ 1000) × (counts.forged ≤ 1000)
        × (counts.quarantined ≤ 1000) × (counts.delivered ≤ 1000) × (counts.reinstated ≤ 1000) }
{
    counts.entries <= 1000
        && counts.admitted <= 1000
        && counts.forged <= 1000
        && counts.quarantined <= 1000
        && counts.delivered <= 1000
        && counts.reinstated <= 1000
}

// Books these records, each of which is allowed, with these shares.
fn keep_all<R: Run>(rt: &impl Abort, kept: &mut Kept<R>, shares: &mut Shares<R>, records: &[&str])
    ensures { shares.new.parts ≡ shares.old.parts }
{
    for record in records {
        let answer = kept.apply(shares, entry_of(record).expect(rt, record));
        assert!(rt; answer.is_ok(), "{record}");
    }
}

// Three entries with the second share, and one that is refused.
fn count_second<R: Run>(rt: &impl Abort, kept: &mut Kept<R>, second: &mut Shares<R>)
    ensures { second.new.parts ≡ second.old.parts }
{
    counts_are(rt, second.counts(), 0, 0);
    keep_all(rt, kept, second, &ONE_PLATE[4..7]);
    counts_are(rt, second.counts(), 3, 0);
    let refused = kept.apply(second, entry_of("admitted,2,,").expect(rt, "a record"));
    assert!(rt; refused == Err(Refusal::LampRed(Belt::Feed)));
    counts_are(rt, second.counts(), 3, 0);
}

// Four entries before the run, three with the second share, and one with the joined ones.
fn count_in_two<R: Run>(rt: &impl Abort, mut kept: Kept<R>, shares: Shares<R>)
    requires two { R.parts ≡ 2 }
    requires all { shares.parts ≡ R.parts }
{
    counts_are(rt, shares.counts(), 4, 1);
    let (first, mut second) = shares.split();
    counts_are(rt, first.counts(), 4, 1);
    count_second(rt, &mut kept, &mut second);
    if !is_small(first.counts()) || !is_small(second.counts()) {
        panic!(rt; "few entries were booked");
    }
    let mut all = first.join(second);
    counts_are(rt, all.counts(), 7, 1);
    kept.is_lawful();
    kept.audit(&mut all);
    keep_all(rt, &mut kept, &mut all, &ONE_PLATE[7..8]);
    counts_are(rt, all.counts(), 8, 1);
    assert!(rt; kept.book().totals() == all.counts());
    assert!(rt; kept.into_book().journal().len() == 8);
}

fn two_shares<R: Run>(rt: &impl Abort, book: Book, blanks: Blanks)
    requires parts { R.parts ≡ 2 }
    requires limits { book.limits ≡ R.limits }
    requires ledgers { AreBlank R.Run blanks }
{
    let (kept, shares) = Kept::<R>::new(book, blanks);
    count_in_two(rt, kept, shares);
}

#[test]
fn shares_count_what_was_booked_with_them(rt: HostRuntime) {
    let book = begun(rt.alloc(), 100, 10, 4).expect(&rt, "a book");
    two_shares::<Brand>(&rt, book, Blanks::new(2));
}
