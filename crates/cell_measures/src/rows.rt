//! The rows in which measures are told.
use crate::measures::{Measures, Spent, Spread};
use cell_types::texts::{machine_word, zone_word};
use cell_types::{MACHINES, Machine, ZONES, Zone, owner, visitor};
use std::alloc::{AllocError, Global};

/// A number that is told, whole or in thousandths.
#[derive(Clone, Copy, Debug, PartialEq, Eq)]
pub enum Number {
    Whole(u64),
    Thousandths(u64),
}

impl Number {
    /// The number in decimal digits, thousandths with a point and three digits behind it.
    pub fn text(self, alloc: Global) -> Result<String, AllocError> {
        match self {
            Number::Whole(number) => format!(in alloc; "{number}"),
            Number::Thousandths(number) => {
                let whole = number / 1000;
                let rest = number % 1000;
                format!(in alloc; "{whole}.{rest:03}")
            }
        }
    }
}

/// A number with what it is of, and which it is: `press1` and `idle`.
#[derive(Clone, Copy, Debug)]
pub struct Row {
    pub of: &'static str,
    pub name: &'static str,
    /// `None` where there is no such number.
    pub number: Option<Number>,
}

// The row of a number that there is.
fn whole(of: &'static str, name: &'static str, number: u64) -> Row {
    Row {
        of,
        name,
        number: Some(Number::Whole(number)),
    }
}

// Adds the three rows of a spread.
fn push_spread(
    rows: &mut Vec<Row>,
    of: &'static str,
    spread: Option<Spread>,
) -> Result<(), AllocError> {
    let (least, median, most) = match spread {
        Some(spread) => (
            Some(Number::Whole(spread.least)),
            Some(Number::Whole(spread.median)),
            Some(Number::Whole(spread.most)),
        ),
        None => (None, None, None),
    };
    for (name, number) in [("least", least), ("median", median), ("most", most)] {
        rows.push(Row { of, name, number })?;
    }
    Ok(())
}

// Adds the five rows of a machine.
fn push_machine(rows: &mut Vec<Row>, machine: Machine, spent: Spent) -> Result<(), AllocError> {
    let of = machine_word(machine);
    rows.push(whole(of, "moving", spent.moving))?;
    rows.push(whole(of, "holding", spent.holding))?;
    rows.push(whole(of, "waiting", spent.waiting))?;
    rows.push(whole(of, "failed", spent.failed))?;
    rows.push(whole(of, "idle", spent.idle))?;
    Ok(())
}

// Adds the two rows of a zone.
fn push_zone(rows: &mut Vec<Row>, zone: Zone, measures: &Measures) -> Result<(), AllocError> {
    let held = measures.of_zone(zone);
    let of = zone_word(zone);
    rows.push(whole(of, machine_word(owner(zone)), held.by_owner))?;
    rows.push(whole(of, machine_word(visitor(zone)), held.by_visitor))?;
    Ok(())
}

/// The rows of a journal's measures. They are of the same numbers, in the same order, for each journal.
pub fn rows_of(alloc: Global, measures: &Measures) -> Result<Vec<Row>, AllocError> {
    let mut rows = Vec::new(alloc);
    rows.push(whole("journal", "entries", u64::from(measures.entries)))?;
    rows.push(whole("journal", "time", measures.time))?;
    rows.push(whole("plates", "delivered", measures.delivered))?;
    let rate = match measures.rate {
        Some(rate) => Some(Number::Thousandths(rate)),
        None => None,
    };
    rows.push(Row {
        of: "plates",
        name: "per_1000",
        number: rate,
    })?;
    push_spread(&mut rows, "plate", measures.plate)?;
    for machine in MACHINES {
        push_machine(&mut rows, machine, measures.of_machine(machine))?;
    }
    push_all_zones(&mut rows, measures)?;
    rows.push(whole("machines", "declared", measures.declared))?;
    push_spread(&mut rows, "to_delivery", measures.to_delivery)?;
    push_spread(&mut rows, "to_repair", measures.to_repair)?;
    Ok(rows)
}

// Adds the rows of all zones.
fn push_all_zones(rows: &mut Vec<Row>, measures: &Measures) -> Result<(), AllocError> {
    for zone in ZONES {
        push_zone(rows, zone, measures)?;
    }
    Ok(())
}
