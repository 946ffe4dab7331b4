//! What holds of findings. The function does nothing, and its contract is the law.

ghost use Rattle.ledger_engine.specs.Laws.{SealsStand};

/// Where nothing is found against a line that was published, and each file is whole, the text of each segment that was
/// sealed before that line is the one that the store has under its name, or a line behind the published one tells that
/// the segment expired; or two different texts have one SHA-256: two texts of the segment, or two that were hashed for
/// a line of the ledger, now and when it was published.
pub fn seals_stand()
    ensures { SealsStand }
{}
