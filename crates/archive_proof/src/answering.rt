//! What a text of proofs shows of some records.

ghost use Rattle.std.specs.Prelude.{◌≡◌, IfOk};
ghost use Rattle.std.specs.Option.{option_map};
ghost use Rattle.archive_proof.specs.Answering.{AnswersNext, AreAnswered};
ghost use Rattle.archive_proof.specs.Asking.{asked_entries, asked_entry};

use crate::asked::AskedRecord;
use crate::proof::Answer;
use crate::reading::read_proof;
use crate::shown::confirm;
use archive_tree::TreeHead;
use std::alloc::{AllocError, Global};

// What the proof that comes next shows of a record, and what is left behind it.
fn answer_next<'a>(
    alloc: Global,
    head: &TreeHead,
    sought: &AskedRecord,
    left: Option<&'a [u8]>,
) -> Result<(Answer, Option<&'a [u8]>), AllocError>
    ensures { IfOk result (λ x. AnswersNext head.now (asked_entry sought.now)
        (option_map (λ s. s.now) left.entry) x.0 (option_map (λ s. s.now) x.1)) }
{
    let Some(text) = left else {
        return Ok((Answer::NotShown, None));
    };
    match read_proof(alloc, text)? {
        Some((proof, rest)) => Ok((confirm(head, &sought.entry(), &proof), Some(rest))),
        None => Ok((Answer::NotShown, None)),
    }
}

/// What a text of proofs, as docs/PROOF_FORMAT.md has it, shows of some records to someone with this
/// head: of each record what the proof at its place shows ([`confirm`]), and what follows the last
/// proof. None if a proof is missing or cannot be read: nothing is shown then of its record and of
/// the later ones. It fails only when out of memory.
pub fn confirm_all<'a>(
    alloc: Global,
    head: &TreeHead,
    asked: &[AskedRecord],
    text: &'a [u8],
) -> Result<(Vec<Answer>, Option<&'a [u8]>), AllocError>
    ensures { IfOk result (λ x. AreAnswered head.now (asked_entries asked.now) text.now x.0.items
        (option_map (λ s. s.now) x.1)) }
{
    let mut answers = Vec::new(alloc);
    let mut left = Some(text);
    for sought in asked {
        let (answer, behind) = answer_next(alloc, head, sought, left)?;
        answers.push(answer)?;
        left = behind;
    }
    Ok((answers, left))
}
