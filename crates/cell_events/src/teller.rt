//! Texts that tell events one by one.
ghost use Rattle.std.specs.Prelude.{◌≡◌, IsErrOf, true};
ghost use Rattle.cell_output.specs.Watched.{IsSameWriter, has_refused};

use crate::event::Event;
use crate::write::EventsError;
use cell_output::WatchedWriter;
use std::alloc::{AllocError, Global};
use std::io::Write;

/// A text that tells events, one after the other.
pub(crate) trait Teller {
    /// Adds what comes before the first event.
    fn begin(&self, text: &mut Vec<u8>) -> Result<(), AllocError>;

    /// Adds what tells the next event.
    fn tell(&mut self, event: &Event, text: &mut Vec<u8>) -> Result<(), AllocError>;

    /// Adds what comes behind the last event.
    fn end(&mut self, text: &mut Vec<u8>) -> Result<(), AllocError>;
}

/// Writes the text that tells events.
pub(crate) fn write_told<T: Teller, W: Write>(
    alloc: Global,
    teller: &mut T,
    events: &[Event],
    output: &mut WatchedWriter<'_, W>,
) -> Result<(), EventsError>
    ensures writer { IsSameWriter output.old output.new }
    ensures fault { IsErrOf result EventsError.WriteFault → has_refused output.new ≡ true }
{
    let mut text = Vec::new(alloc);
    teller.begin(&mut text)?;
    output.write_bytes(text.as_slice())?;
    for event in events {
        text.clear();
        teller.tell(event, &mut text)?;
        output.write_bytes(text.as_slice())?;
    }
    text.clear();
    teller.end(&mut text)?;
    output.write_bytes(text.as_slice())?;
    Ok(())
}
