//! The text of an archive is written.

ghost use Rattle.octet_devices.specs.Transfers.{WritesAll};
ghost use Rattle.archive_text.specs.Text.{text_of};

use crate::entry_list::EntryList;
use archive_text::put_entry;
use octet_devices::{BufferedOutput, Output, WriteFault};

impl EntryList {
    /// Writes the text of the archive. If the writer fails, the first octets of the text were
    /// written, as many as the fault says.
    pub fn write<W: Output>(&self, writer: &mut W) -> Result<(), WriteFault>
        ensures { WritesAll (W.state writer.old) (W.state writer.new) (text_of self.now) result }
    {
        let mut held = BufferedOutput::new();
        for index in 0..self.len() {
            put_entry(&mut held, writer, self.at(index).octets)?;
        }
        held.finish(writer)
    }
}
