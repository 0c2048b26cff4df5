//! The fields of a record.
use crate::places::Spot;

// More than a field of a record that can be read has.
const KEPT: usize = 24;

// The first bytes of a field.
#[derive(Clone, Copy)]
struct FieldText {
    bytes: [u8; KEPT],
    len: usize,
}

impl FieldText {
    fn push(&mut self, byte: u8) {
        if let Some(slot) = self.bytes.get_mut(self.len) {
            *slot = byte;
            self.len = self.len.saturating_add(1);
        }
    }

    fn as_slice(&self) -> &[u8] {
        let len = self.len.min(KEPT);
        &self.bytes[..len]
    }
}

/// The fields of a record: how many there are, and of the first four the first bytes.
#[derive(Clone, Copy)]
pub(crate) struct Fields {
    texts: [FieldText; 4],
    count: u32,
    is_open: bool,
}

impl Fields {
    /// The fields of a record, whose bytes these are.
    pub(crate) fn of(record: &[u8]) -> Fields {
        let empty = FieldText {
            bytes: [0; KEPT],
            len: 0,
        };
        let mut fields = Fields {
            texts: [empty; 4],
            count: 1,
            is_open: false,
        };
        let mut spot = Spot::Between;
        for byte in record {
            let next = spot.after(*byte);
            match (spot, next) {
                (_, Spot::FieldStart) => fields.count = fields.count.saturating_add(1),
                (_, Spot::Plain) | (Spot::Quoted | Spot::Closed, Spot::Quoted) => fields.push(
                    *byte,
                ),
                _ => {}
            }
            spot = next;
        }
        fields.is_open = spot == Spot::Quoted;
        fields
    }

    // Adds a byte to the last field.
    fn push(&mut self, byte: u8) {
        let last = self.count.saturating_sub(1) as usize;
        if let Some(text) = self.texts.get_mut(last) {
            text.push(byte);
        }
    }

    /// How many fields there are.
    pub(crate) fn count(&self) -> u32 {
        self.count
    }

    /// Whether a quote isn't closed.
    pub(crate) fn is_open(&self) -> bool {
        self.is_open
    }

    /// The field at a place, counted from 0: of a longer one than can be read only a first part. Nothing where there is
    /// none.
    pub(crate) fn at(&self, place: usize) -> &[u8] {
        match self.texts.get(place) {
            Some(text) => text.as_slice(),
            None => b"",
        }
    }
}
