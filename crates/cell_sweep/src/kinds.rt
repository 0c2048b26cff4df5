//! The kinds of faults that a sweep goes through.
ghost use Rattle.std.specs.Prelude.{◌≡◌, ◌∷◌, ◌++◌, [], map, IfErr, IfOk, OnOk};
ghost use Rattle.cell_sim.specs.Spelled.{word_of};
ghost use Rattle.cell_sweep.specs.Kinds.{IsNoList, NamesKinds, kind_named, kind_of, number_of, parts_of, with_readings};

use cell_sim::Fault;
use cell_types::number::read_number;
use std::alloc::{AllocError, Global};

/// How many readings a fault has whose kind takes a number, where none is given.
const READINGS: u32 = 30;

/// The greatest number of readings.
const MOST_READINGS: u32 = 1000;

/// Every kind of fault, each that takes a number of readings with 30 of them.
pub const KINDS: [Fault; 7] = [
    Fault::NoMotion,
    Fault::KeepsOld,
    Fault::Both,
    Fault::Slow(READINGS),
    Fault::LosePlate,
    Fault::Silent(READINGS),
    Fault::RefuseCommand,
];

/// Why a list of kinds can't be read.
#[derive(Clone, Copy, Debug, PartialEq, Eq)]
pub enum KindsError {
    /// The part of this number, counted from 1, is no kind.
    Unknown(u32),
    /// Memory was refused.
    OutOfMemory,
}

impl From<AllocError> for KindsError {
    ghost use Rattle.std.specs.Prelude.{◌≡◌};
    ghost use Rattle.cell_sweep.specs.declared.kinds.KindsError.TheVariants as wrong;

    ghost from_gives = { λ error given. given ≡ wrong.OutOfMemory };

    fn from(_error: AllocError) -> KindsError {
        KindsError::OutOfMemory
    }
}

/// The word of a kind, as the script of faults has it.
pub(crate) fn word_of(kind: Fault) -> &'static str
    ensures { result.now ≡ word_of kind }
{
    match kind {
        Fault::NoMotion => "no_motion",
        Fault::KeepsOld => "keeps_old",
        Fault::Both => "both",
        Fault::Slow(_) => "slow",
        Fault::LosePlate => "lose_plate",
        Fault::Silent(_) => "silent",
        Fault::RefuseCommand => "refuse_command",
    }
}

// The kind of a word, with its usual number of readings.
fn kind_named(word: &[u8]) -> Option<Fault>
    ensures { result ≡ kind_named word.now }
{
    if word == b"no_motion".as_slice() {
        Some(Fault::NoMotion)
    } else if word == b"keeps_old".as_slice() {
        Some(Fault::KeepsOld)
    } else if word == b"both".as_slice() {
        Some(Fault::Both)
    } else if word == b"slow".as_slice() {
        Some(Fault::Slow(READINGS))
    } else if word == b"lose_plate".as_slice() {
        Some(Fault::LosePlate)
    } else if word == b"silent".as_slice() {
        Some(Fault::Silent(READINGS))
    } else if word == b"refuse_command".as_slice() {
        Some(Fault::RefuseCommand)
    } else {
        None
    }
}

// A kind with so many readings, where it takes a number.
fn with_readings(kind: Option<Fault>, readings: Option<u32>) -> Option<Fault>
    ensures { result ≡ with_readings kind readings }
{
    match (kind, readings) {
        (Some(Fault::Slow(_)), Some(readings)) => Some(Fault::Slow(readings)),
        (Some(Fault::Silent(_)), Some(readings)) => Some(Fault::Silent(readings)),
        _ => None,
    }
}

// The kind of a part of a list: its word, or its word, a colon and its number of readings.
fn read_kind(part: &str) -> Option<Fault>
    ensures { result ≡ kind_of part.now }
{
    match part.split_once(':') {
        Some((word, number)) => with_readings(
            kind_named(word.as_bytes()),
            read_number(MOST_READINGS, number.as_bytes()),
        ),
        None => kind_named(part.as_bytes()),
    }
}

// The parts of a list, between its commas.
fn parts_of(alloc: Global, list: &str) -> Result<Vec<&str>, AllocError>
    ensures { IfOk result (λ parts. map (λ p. p.now) parts.items ≡ parts_of list.now) }
{
    list.split(',').collect(alloc)
}

// The number of a part, counted from 1.
fn number_of(index: usize) -> u32
    ensures { result ≡ number_of index }
{
    u32::try_from(index).unwrap_or(u32::MAX).saturating_add(1)
}

// Adds a kind to a list.
fn push_kind(kinds: &mut Vec<Fault>, kind: Fault) -> Result<(), AllocError>
    ensures { OnOk result (kinds.new.items ≡ kinds.old.items ++ kind ∷ []) }
{
    kinds.push(kind)?;
    Ok(())
}

/// Reads a list of kinds, which are parted by commas, as `no_motion,slow:5`: each by its word, with 30 readings where
/// it takes a number of them, or by its word, a colon and a number from 1 to 1,000.
pub fn read_kinds(alloc: Global, list: &str) -> Result<Vec<Fault>, KindsError>
    // The kinds are those that the list names, part by part.
    ensures kinds { IfOk result (λ kinds. NamesKinds list.now kinds.items) }
    // A part that is no kind is told by its number, and the parts before it name kinds.
    ensures unknown { IfErr result (IsNoList list.now) }
{
    let parts = parts_of(alloc, list)?;
    let mut kinds = Vec::new(alloc);
    for (index, part) in parts.iter().enumerate() {
        match read_kind(part) {
            Some(kind) => push_kind(&mut kinds, kind)?,
            None => return Err(KindsError::Unknown(number_of(index))),
        }
    }
    Ok(kinds)
}
