//! Frames without what senders append to a record.

ghost use Rattle.std.specs.Prelude.{◌≡◌, ◌≤◌, ◌++◌, ◌∷◌, List, ℕ, [], false, length};
ghost use Rattle.syslog_frame.specs.Trimmed.{ends_in, trimmed};

/// The octets of a frame without the line end or the NUL that a sender may have appended to the
/// record: one CR LF, else LF, else CR, else NUL is dropped from the end.
pub fn trimmed(frame: &[u8]) -> &[u8]
    ensures value { result.now ≡ trimmed frame.now }
    ensures within { length result.now ≤ length frame.now }
{
    match frame {
        [octets @ .., b'\r', b'\n'] | [octets @ .., b'\n' | b'\r' | 0] => octets,
        _ => frame,
    }
}

/// What is dropped from a frame: CR LF; LF behind any other octet; CR; NUL; from any other frame
/// nothing.
pub fn one_end_is_trimmed()
    ensures cr_lf { (t : List ℕ) → trimmed (t ++ 13 ∷ 10 ∷ []) ≡ t }
    ensures lf { (t : List ℕ) → ends_in t (13 ∷ []) ≡ false → trimmed (t ++ 10 ∷ []) ≡ t }
    ensures cr { (t : List ℕ) → trimmed (t ++ 13 ∷ []) ≡ t }
    ensures nul { (t : List ℕ) → trimmed (t ++ 0 ∷ []) ≡ t }
    ensures none { (f : List ℕ) → ends_in f (10 ∷ []) ≡ false → ends_in f (13 ∷ []) ≡ false
        → ends_in f (0 ∷ []) ≡ false → trimmed f ≡ f }
{}
