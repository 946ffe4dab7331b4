//! Laws of frames on a stream, over the definitions alone. Each function does nothing: its contract
//! is the law.

ghost use Rattle.std.specs.Prelude.{◌≡◌, ◌++◌, [], ℕ, List};
ghost use Rattle.std.specs.List.{AllByRecursion, flat_map};
ghost use Rattle.syslog_frame.specs.Frames.{CanCarry, Frames, IsBadAt, framed};
ghost use Rattle.syslog_frame.specs.declared.framing.Framing.{Framing};

/// One stream has one list of frames and one rest.
pub fn frames_are_unique()
    ensures { (kind : Framing) (stream : List ℕ) (f g : List (List ℕ)) (r q : List ℕ)
        → Frames kind stream f r → Frames kind stream g q → (f ≡ g) × (r ≡ q) }
{}

/// Each stream has frames and a rest.
pub fn streams_have_frames()
    ensures { (kind : Framing) (stream : List ℕ)
        → (frames : List (List ℕ)) × (rest : List ℕ) × Frames kind stream frames rest }
{}

/// The frames of a stream are the first ones of each longer stream.
pub fn frames_begin()
    ensures { (kind : Framing) (stream more : List ℕ) (f g : List (List ℕ)) (r q : List ℕ)
        → Frames kind stream f r → Frames kind (stream ++ more) g q
        → (h : List (List ℕ)) × (g ≡ f ++ h) }
{}

/// A concatenation of frames has exactly those frames.
pub fn frames_of_a_concatenation()
    ensures { (kind : Framing) (f : List (List ℕ)) → AllByRecursion (CanCarry kind) f
        → Frames kind (flat_map (framed kind) f) f [] }
{}

/// Behind whole frames, a further stream has its own frames and its own rest.
pub fn frames_go_on()
    ensures { (kind : Framing) (stream more : List ℕ) (f g : List (List ℕ)) (q : List ℕ)
        → Frames kind stream f [] → Frames kind more g q → Frames kind (stream ++ more) (f ++ g) q }
{}

/// Nothing follows a bad count: however the stream continues, it has no further frame, and the bad
/// offset is the same.
pub fn bad_counts_end_streams()
    ensures { (kind : Framing) (stream more : List ℕ) (f : List (List ℕ)) (r : List ℕ) (at : ℕ)
        → IsBadAt kind stream f r at → IsBadAt kind (stream ++ more) f (r ++ more) at }
{}
