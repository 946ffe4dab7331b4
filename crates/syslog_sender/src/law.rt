//! Laws of lists of calls, each the contract of a function that does nothing.

ghost use Rattle.std.specs.Prelude.{◌≡◌, ℕ, List, Option};
ghost use Rattle.std.specs.Io.KnownBytes.{Appends};
ghost use Rattle.syslog_sender.specs.Calls.{Call, IsInForce, Outputs, Steps, masks_of};
ghost use Rattle.syslog_sender.specs.Senders.{SenderParts};

/// Calls that are made one after the other write exactly what the list of these calls writes.
pub fn calls_write_outputs()
    ensures { (s t : SenderParts) (taken then : Option (List ℕ)) (calls : List Call)
        → Steps s taken calls t then
        → (text : List ℕ) × Outputs s calls text × Appends taken then text }
{}

/// A list of calls of one sender writes at most one text.
pub fn calls_have_one_output()
    ensures { (s : SenderParts) (calls : List Call) (x y : List ℕ)
        → Outputs s calls x → Outputs s calls y → x ≡ y }
{}

/// After a list of calls, the mask in force is the last one set that is not empty, or else the one
/// before them.
pub fn last_mask_is_in_force()
    ensures { (s t : SenderParts) (taken then : Option (List ℕ)) (calls : List Call)
        → Steps s taken calls t then → IsInForce s.mask (masks_of calls) t.mask }
{}
