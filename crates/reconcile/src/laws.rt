//! Sites that are reconciled in pairs. Each function does nothing, and its contract is the law.

ghost use Rattle.std.specs.Prelude.{ℕ, List};
ghost use Rattle.archive_text.specs.Entries.{Entry};
ghost use Rattle.reconcile.specs.Gossip.{Converge, HasAtLast, MeetAll, Sites};

/// After pairs of sites were reconciled one after another, a site has what some site had from which
/// the pairs lead to it, and nothing else.
pub fn records_follow_the_pairs()
    ensures { (ps : List (ℕ × ℕ)) (s t : Sites) → MeetAll ps s t
        → (j : ℕ) (x : Entry) → HasAtLast ps s t j x }
{}

/// Where the pairs lead from each site to each, all hold one archive: that of all that any held.
pub fn connected_sites_converge()
    ensures { (ps : List (ℕ × ℕ)) (n : ℕ) → Converge ps n }
{}
