//! What is to hold of a run's report.
use crate::same::check_same;
use cell_audit::{audit, write_journal};
use cell_types::{Actor, Machine, Totals};
use cell_views::count_of;
use cell_workers::{End, Plan, Report};
use std::process::Abort;
use test_samples::is_list_of;

/// The workers, in the order of a report.
const ACTORS: [Actor; 7] = [
    Actor::Machine(Machine::Feed),
    Actor::Machine(Machine::Table),
    Actor::Machine(Machine::Robot),
    Actor::Machine(Machine::Press1),
    Actor::Machine(Machine::Press2),
    Actor::Machine(Machine::Deposit),
    Actor::Operator,
];

/// Adds up the counts of two workers.
pub(crate) fn sum_of(some: Totals, others: Totals) -> Totals {
    Totals {
        entries: some.entries.saturating_add(others.entries),
        admitted: some.admitted.saturating_add(others.admitted),
        forged: some.forged.saturating_add(others.forged),
        quarantined: some.quarantined.saturating_add(others.quarantined),
        delivered: some.delivered.saturating_add(others.delivered),
        reinstated: some.reinstated.saturating_add(others.reinstated),
    }
}

// Checks that each worker's list is its actor's entries of the journal, its counts are those of its list, and the
// counts of all add up to the totals.
fn check_lists(rt: &impl Abort, report: &Report) {
    let mut all = count_of(&[]);
    for ((list, counts), actor) in report.workers.iter().zip(ACTORS.iter()) {
        let is_his = is_list_of(&report.journal, *actor, list.as_slice());
        check_same(
            rt,
            actor,
            &(is_his, count_of(list.as_slice())),
            &(true, *counts),
        );
        all = sum_of(all, *counts);
    }
    check_same(rt, &"the totals", &all, &report.totals);
}

/// Checks what holds of every report: its lists, and that its journal's text is that of a legal journal with these
/// totals, which is no longer than the plan lets it be.
pub(crate) fn check_report<R: AllocGlobal + Abort>(rt: &R, report: &Report, plan: &Plan) {
    let alloc = rt.alloc();
    let mut text = Vec::new(alloc);
    assert!(rt; write_journal(alloc, &report.journal, &mut text).is_ok());
    let audited = audit(alloc, text.as_slice());
    check_same(rt, &"the audit", &audited, &Ok((2, report.totals)));
    assert!(rt; report.journal.len() <= plan.journal_limit.saturating_add(6));
    check_lists(rt, report);
}

/// Checks how a run ended, and what it counted: admitted, forged, quarantined, delivered.
pub(crate) fn check_end(rt: &impl Abort, report: &Report, end: End, wanted: [u32; 4]) {
    check_same(rt, &"the end", &report.end, &end);
    let Totals {
        admitted,
        forged,
        quarantined,
        delivered,
        ..
    } = report.totals;
    let found = [admitted, forged, quarantined, delivered];
    check_same(rt, &"the totals", &found, &wanted);
}
