//! The line of a segment that goes.
ghost use Rattle.std.specs.Prelude.{◌≡◌, ◌++◌, ◌∷◌, [], IfOk, List, decimal};
ghost use Rattle.disk.specs.States.{Files};
ghost use Rattle.archive_text.specs.Entries.{Entry};
ghost use Rattle.archive_digest.specs.Digests.{line_of};
ghost use Rattle.store_expiry.specs.Causes.{TellsCause};
ghost use Rattle.store_expiry.specs.Lines.{Tells};
ghost use Rattle.store_expiry.specs.Surveys.{IsSurveyOf};
ghost use Rattle.store_expiry.specs.declared.expired.Expired.{Expired};

use crate::fault::ExpireFault;
use crate::survey::Found;
use itoa::Buffer;
use octet_devices::{Output, write_all};
use std::alloc::{AllocError, Global};

// PERIOD COUNT OCTETS SHA256, and a line feed.
fn line(alloc: Global, found: &Found) -> Result<Vec<u8>, AllocError>
    ensures { IfOk result (λ v. v.items ≡ found.now.period ++ 32 ∷ decimal found.now.survey.tally.records
        ++ 32 ∷ decimal found.now.survey.octets ++ (32 ∷ found.now.survey.hex ++ 10 ∷ [])) }
{
    let survey = &found.survey;
    let mut line = found.period.as_octets().to_vec(alloc)?;
    line.push(b' ')?;
    line.extend_from_slice(Buffer::new().format(survey.tally.records).as_bytes())?;
    line.push(b' ')?;
    line.extend_from_slice(Buffer::new().format(survey.octets).as_bytes())?;
    line.push(b' ')?;
    line.extend_from_slice(&survey.hex)?;
    line.push(b'\n')?;
    Ok(line)
}

/// Writes the line of a segment.
pub fn tell<W: Output>(alloc: Global, found: &Found, output: &mut W) -> Result<(), ExpireFault>
    ensures tells { (x : Expired) (es : List Entry) → IsSurveyOf x es found.now.survey
        → Tells (W.state output.old).taken (W.state output.new).taken (line_of found.now.period es) result }
    ensures cause { (x : Expired) (files : Files) → TellsCause x files (W.state output.old).failures
        (W.state output.new).failures result }
{
    let text = line(alloc, found)?;
    match write_all(output, &text) {
        Ok(()) => Ok(()),
        Err(_) => Err(ExpireFault::Output),
    }
}
