//! One run of the cell, which has six ledgers.
use std::marker::{Brand, PhantomData};
use std::sync::ledger::Ledger;

/// One run, which has six ledgers of equally many parts and a book with certain limits. It is a type alone: values that
/// name the same run belong together. A caller picks what it stands for where it passes `Brand`.
pub trait Run {
    ghost use Rattle.std.specs.Prelude.{ℕ};
    ghost use Rattle.cell_rules.specs.declared.limits.BookLimits.{BookLimits};

    /// How many parts each ledger has.
    ghost parts: { ℕ };

    /// The limits of the book.
    ghost limits: { BookLimits };

    ghost entries_name: { ℕ };

    ghost admitted_name: { ℕ };

    ghost forged_name: { ℕ };

    ghost quarantined_name: { ℕ };

    ghost delivered_name: { ℕ };

    ghost reinstated_name: { ℕ };
}

impl Run for Brand {
    ghost parts = { 1 };

    ghost limits = { record { entries = 1; plates = 1 } };

    ghost entries_name = { 0 };

    ghost admitted_name = { 0 };

    ghost forged_name = { 0 };

    ghost quarantined_name = { 0 };

    ghost delivered_name = { 0 };

    ghost reinstated_name = { 0 };
}

/// The run's ledger of all entries.
pub struct EntriesOf<R>(PhantomData<R>);

impl<R: Run> Ledger for EntriesOf<R> {
    ghost name = { R.entries_name };

    ghost parts = { R.parts };
}

/// The run's ledger of admitted plates.
pub struct AdmittedOf<R>(PhantomData<R>);

impl<R: Run> Ledger for AdmittedOf<R> {
    ghost name = { R.admitted_name };

    ghost parts = { R.parts };
}

/// The run's ledger of forged plates.
pub struct ForgedOf<R>(PhantomData<R>);

impl<R: Run> Ledger for ForgedOf<R> {
    ghost name = { R.forged_name };

    ghost parts = { R.parts };
}

/// The run's ledger of plates put into quarantine.
pub struct QuarantinedOf<R>(PhantomData<R>);

impl<R: Run> Ledger for QuarantinedOf<R> {
    ghost name = { R.quarantined_name };

    ghost parts = { R.parts };
}

/// The run's ledger of delivered plates.
pub struct DeliveredOf<R>(PhantomData<R>);

impl<R: Run> Ledger for DeliveredOf<R> {
    ghost name = { R.delivered_name };

    ghost parts = { R.parts };
}

/// The run's ledger of plates laid back.
pub struct ReinstatedOf<R>(PhantomData<R>);

impl<R: Run> Ledger for ReinstatedOf<R> {
    ghost name = { R.reinstated_name };

    ghost parts = { R.parts };
}
