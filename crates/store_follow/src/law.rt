//! Laws of followers, as contracts of functions that do nothing.
ghost use Rattle.std.specs.Prelude.{◌≡◌, ◌++◌, List, ℕ};
ghost use Rattle.store_follow.specs.Batches.{AreBetween, BatchTexts};
ghost use Rattle.store_follow.specs.Laws.{AreLooks, IsBehind, Look, WroteEach, last_of, texts_of};

/// The batches that a look writes from behind the first batches of a journal on are those that come
/// behind these, in their order, and none else: each is one of the journal's batches, so it was committed.
pub fn each_batch_is_committed()
    ensures { (file : List ℕ) (at end : ℕ) (before behind bodies : List (List ℕ))
        → IsBehind file at before behind → AreBetween file at end bodies
        → (left : List (List ℕ)) × (behind ≡ bodies ++ left)
        × IsBehind file end (before ++ bodies) left }
{}

/// However often a journal that grows is looked at, each look going on where the one before came to,
/// what they write together are the entries of each batch once, in their order, and nothing else: from
/// where the first look began up to where the last one came to. If that left none, it is all that was
/// committed by then.
pub fn each_batch_once()
    ensures { (first : Look) (looks : List Look) (before behind : List (List ℕ))
        → AreLooks first looks → IsBehind first.file first.at before behind
        → WroteEach (last_of first looks).file (last_of first looks).end before (texts_of first looks) }
{}

/// Batches have one text.
pub fn one_text()
    ensures { (bodies : List (List ℕ)) (one other : List ℕ)
        → BatchTexts bodies one → BatchTexts bodies other → one ≡ other }
{}
