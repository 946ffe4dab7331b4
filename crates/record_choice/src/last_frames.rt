//! The last frames of a stream.

ghost use Rattle.std.specs.Prelude.{◌≡◌, ◌≤◌, ◌<◌, ◌^◌, ◌++◌, ◌∷◌, [], length, OnOk};
ghost use Rattle.std.specs.List.{AllByRecursion};
ghost use Rattle.std.specs.VecDeque.{deque_len};
ghost use Rattle.archive_text.specs.declared.limits.TheConstants.{ENTRY_MAX};

use archive_text::put_entry;
use octet_devices::{BufferedOutput, Output, WriteFault};
use std::alloc::{AllocError, Global};
use std::collections::VecDeque;

/// The last of the frames that were put into it, so many at most.
#[derive(Debug, Drop)]
pub struct LastFrames {
    most: u32,
    frames: VecDeque<Vec<u8>>,
    ghost range: { most < 2 ^ 32 },
    ghost few: { deque_len frames ≤ most },
    ghost short: { ∥ AllByRecursion (λ v. length v.items ≤ ENTRY_MAX) frames.items ∥₁ },
}

impl LastFrames {
    ghost use Rattle.octet_devices.specs.Transfers.{WritesAll};
    ghost use Rattle.record_choice.specs.Choices.{frames_text, last_of};
    ghost use Rattle.record_choice.specs.Kept.{frames_in, most_of};

    /// Room for so many frames, and none yet.
    pub fn new(alloc: Global, most: u32) -> LastFrames
        ensures none { frames_in result ≡ [] }
        ensures most { most_of result ≡ most }
    {
        LastFrames {
            most,
            frames: VecDeque::new(alloc),
        }
    }

    /// Puts a frame behind the others. Of more frames than there may be, the first is dropped. It fails only when
    /// out of memory.
    pub fn push(&mut self, alloc: Global, frame: &[u8]) -> Result<(), AllocError>
        requires { length frame.now ≤ ENTRY_MAX }
        ensures last { OnOk result (frames_in self.new
            ≡ last_of (most_of self.old) (frames_in self.old ++ frame.now ∷ [])) }
        ensures most { most_of self.new ≡ most_of self.old }
    {
        let mut copy = Vec::new(alloc);
        copy.extend_from_slice(frame)?;
        self.frames.push_back(copy)?;
        if self.frames.len() > self.most as usize {
            drop(self.frames.pop_front());
        }
        Ok(())
    }

    /// Writes the text of the frames. It fails if the writer does.
    pub fn write<W: Output>(&self, writer: &mut W) -> Result<(), WriteFault>
        ensures { WritesAll (W.state writer.old) (W.state writer.new)
            (frames_text (frames_in self.now)) result }
    {
        let mut held = BufferedOutput::new();
        for index in 0..self.frames.len() {
            put_entry(&mut held, writer, &self.frames[index])?;
        }
        held.finish(writer)
    }
}
