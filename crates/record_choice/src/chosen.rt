//! Frames are chosen from a stream.

ghost use Rattle.std.specs.Prelude.{◌≡◌, ◌≤◌, ◌++◌, ◌∷◌, [], length, OnErr, OnOk, MatchResult, IsTrue, ℕ, List};
ghost use Rattle.archive_text.specs.declared.limits.TheConstants.{ENTRY_MAX};
ghost use Rattle.syslog_frame.specs.Frames.{framed};
ghost use Rattle.syslog_frame.specs.declared.framing.Framing.TheVariants.{Counted};
ghost use Rattle.driver.specs.Effects.{done_of};
ghost use Rattle.record_choice.specs.Kept.{kept_in, limit_of};

use crate::frame_test::FrameTest;
use crate::last_frames::LastFrames;
use archive_text::{ArchiveFault, ENTRY_MAX, counted_octets};
use driver::{Effects, Flow, Session};
use itoa::Buffer;
use octet_devices::{Output, WriteFault};
use std::alloc::{AllocError, Global};
use std::mem::swap;

// the most octets of a part of a frame that may become whole: a length, a space and less than the longest entry
const PART_MAX: usize = ENTRY_MAX + 11;

/// A session that is given a stream of counted frames, and writes those that pass a test: as they come, or the last
/// ones at the end. It holds the part of a frame that has come, and the last ones.
///
/// A stream that ends inside a frame is refused. A frame of more than `ENTRY_MAX` octets, which is in no archive, is
/// not kept: memory is said to lack for it.
#[derive(Drop)]
pub struct ChosenFrames<T> {
    alloc: Global,
    test: T,
    // what has come of the next frame
    part: Vec<u8>,
    // none: each frame is written as it comes
    last: Option<LastFrames>,
}

// Appends the text of a frame. Its room is reserved first, so that a failed allocation changes nothing.
fn add_frame(frame: &[u8], out: &mut Vec<u8>) -> Result<(), AllocError>
    requires { length frame.now ≤ ENTRY_MAX }
    ensures ok { OnOk result (out.new.items ≡ out.old.items ++ framed Counted frame.now) }
    ensures err { OnErr result (out.new.items ≡ out.old.items) }
{
    let mut buffer = Buffer::new();
    let count = buffer.format(frame.len()).as_bytes();
    out.reserve(count.len() + 1 + frame.len())?;
    let _ = out.extend_from_slice(count);
    let _ = out.extend_from_slice(b" ");
    let _ = out.extend_from_slice(frame);
    Ok(())
}

// Room for the last frames, if only those are wanted.
fn last_frames(alloc: Global, last: Option<u32>) -> Option<LastFrames>
    ensures none { kept_in result ≡ [] }
    ensures limit { limit_of result ≡ last }
{
    match last {
        None => None,
        Some(most) => Some(LastFrames::new(alloc, most)),
    }
}

impl<T: FrameTest> ChosenFrames<T> {
    ghost use Rattle.driver.specs.Sessions.{HasBegun};
    ghost use Rattle.record_choice.specs.Choosing.{Chooses, ChoosesAll, ChoosesSome};

    /// A session before the first octet of a stream. It writes all frames that pass the test, or the last of them,
    /// so many at most.
    pub fn new(alloc: Global, test: T, last: Option<u32>) -> ChosenFrames<T>
        ensures begun { HasBegun (⟦<ChosenFrames<T> as Session>⟧.stands result result)
            (⟦<ChosenFrames<T> as Session>⟧.means result) }
        ensures test { result.test ≡ test }
        ensures limit { limit_of result.last ≡ last }
    {
        ChosenFrames {
            alloc,
            test,
            part: Vec::new(alloc),
            last: last_frames(alloc, last),
        }
    }

    // Writes or keeps a frame, if it passes the test.
    fn choose(&mut self, frame: &[u8], effects: &mut Effects) -> Result<(), AllocError>
        requires { length frame.now ≤ ENTRY_MAX }
        ensures test { self.new.test ≡ self.old.test }
        ensures part { self.new.part ≡ self.old.part }
        ensures ok { OnOk result (Chooses (T.passes self.old.test) self.old.last self.new.last
            (done_of effects.old) (done_of effects.new) (frame.now ∷ [])) }
        ensures err { OnErr result (done_of effects.new ≡ done_of effects.old) }
    {
        if !self.test.is_passed(frame) {
            return Ok(());
        }
        match &mut self.last {
            None => add_frame(frame, &mut effects.output),
            Some(last) => last.push(self.alloc, frame),
        }
    }

    // Chooses from the frames that a text has whole, and keeps the part of one behind them.
    fn choose_all(&mut self, text: &[u8], effects: &mut Effects) -> Result<(), AllocError>
        requires { self.old.part.items ≡ [] }
        ensures test { self.new.test ≡ self.old.test }
        ensures outcome { MatchResult result
            (λ _. ChoosesAll (T.passes self.old.test) self.old.last self.new.last
            (done_of effects.old) (done_of effects.new) text.now self.new.part.items)
            (λ _. ChoosesSome (T.passes self.old.test) self.old.last (done_of effects.old)
            (done_of effects.new) text.now) }
    {
        let mut rest = text;
        'frames: loop {
            match counted_octets(ENTRY_MAX as u64, rest) {
                Ok((frame, behind)) => {
                    self.choose(frame, effects)?;
                    rest = behind;
                }
                Err(ArchiveFault::BadFrame { at: _ }) if rest.len() <= PART_MAX => {
                    self.part.extend_from_slice(rest)?;
                    return Ok(());
                }
                Err(_) => return Err(AllocError),
            }
        }
    }
}

impl<T: FrameTest> Session for ChosenFrames<T> {
    ghost use Rattle.record_choice.specs.Choices.{choice_meaning, frames_text};
    ghost use Rattle.record_choice.specs.Choosing.{StandsAt};

    ghost means = { λ s. choice_meaning (T.passes s.test) (limit_of s.last) };

    ghost rest = { λ s. frames_text (kept_in s.last) };

    ghost stands = { λ first now given. (now.test ≡ first.test)
        × StandsAt (T.passes first.test) (limit_of first.last) now.last now.part.items given };

    fn take(&mut self, piece: &[u8], effects: &mut Effects) -> Result<Flow, AllocError> {
        let mut text = Vec::new(self.alloc);
        swap(&mut text, &mut self.part);
        text.extend_from_slice(piece)?;
        self.choose_all(text.as_slice(), effects)?;
        Ok(Flow::Continue)
    }

    fn end(&mut self, effects: &mut Effects) -> Result<(), AllocError> {
        if !self.part.is_empty() {
            effects.refused = true;
        }
        Ok(())
    }

    fn write_rest<W: Output>(&self, output: &mut W) -> Result<(), WriteFault> {
        match &self.last {
            None => Ok(()),
            Some(last) => last.write(output),
        }
    }
}
