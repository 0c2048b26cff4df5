//! Six new ledgers.
ghost use Rattle.cell_ledger.specs.New.{HaveParts};

use std::sync::ledger::Blank;

/// Six new ledgers, which no run has yet.
#[derive(Drop)]
pub struct Blanks {
    pub entries: Blank,
    pub admitted: Blank,
    pub forged: Blank,
    pub quarantined: Blank,
    pub delivered: Blank,
    pub reinstated: Blank,
}

impl Blanks {
    /// Six ledgers of this many parts each.
    pub fn new(parts: u64) -> Blanks
        ensures { HaveParts parts result }
    {
        Blanks {
            entries: Blank::new(parts),
            admitted: Blank::new(parts),
            forged: Blank::new(parts),
            quarantined: Blank::new(parts),
            delivered: Blank::new(parts),
            reinstated: Blank::new(parts),
        }
    }
}
