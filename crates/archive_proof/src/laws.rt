//! What is made is confirmed. The function does nothing, and its contract is the law.

ghost use Rattle.std.specs.Prelude.{◌≡◌, [], ℕ, List, Option};
ghost use Rattle.archive_text.specs.Entries.{Entry};
ghost use Rattle.archive_tree.specs.declared.head.TreeHead.{TreeHead};
ghost use Rattle.archive_proof.specs.Answering.{AreAnswered, AreRight};
ghost use Rattle.archive_proof.specs.Proving.{IsTextOfProofs};
ghost use Rattle.archive_proof.specs.declared.proof.Answer.{Answer};

/// Of a text that [`crate::Prover`] makes, [`crate::confirm_all`] answers of each record whether it is in the
/// archive, and leaves nothing.
pub fn proofs_that_are_made_are_confirmed()
    ensures { (head : TreeHead) (xs rs : List Entry) (text : List ℕ) (answers : List Answer)
        (left : Option (List ℕ)) → IsTextOfProofs head xs rs text
        → AreAnswered head rs text answers left → (left ≡ Some []) × AreRight xs rs answers }
{}
