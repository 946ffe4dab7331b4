//! The least of the next entries.

ghost use Rattle.std.specs.Prelude.{◌≡◌, ◌<◌, ◌+◌, MatchOption, length, map, take};
ghost use Rattle.archive_join.specs.Heads.{AreClosed, IsFound, IsFoundIn, key_of};

use crate::head::Head;
use archive_text::compare;
use std::cmp::Ordering;

/// The least of the next entries.
#[derive(Clone, Copy, Debug, PartialEq, Eq)]
pub struct Least {
    /// The number of the first head that has it.
    pub at: usize,
    /// Whether other heads have it too.
    pub shared: bool,
}

// The least of the next entries with that of one head more, whose octets are looked at.
fn with_compared(heads: &[Head], at: usize, least: Option<Least>) -> Option<Least>
    requires at { at < length heads.now }
    requires found { IsFoundIn heads.now (take at heads.now) least }
    ensures { IsFoundIn heads.now (take (at + 1) heads.now) result }
{
    if heads[at].closed {
        return least;
    }
    let Some(before) = least else {
        return Some(Least { at, shared: false });
    };
    match compare(
        &heads[at].entries.entry(),
        &heads[before.at].entries.entry(),
    ) {
        Ordering::Less => Some(Least { at, shared: false }),
        Ordering::Equal => Some(Least {
            at: before.at,
            shared: true,
        }),
        Ordering::Greater => Some(before),
    }
}

// The least of the next entries with that of one head more. Most differ by their keys.
#[inline(always)]
fn with_head(heads: &[Head], keys: &[i64], at: usize, least: Option<Least>) -> Option<Least>
    requires at { at < length heads.now }
    requires keys { keys.now ≡ map key_of heads.now }
    requires found { IsFoundIn heads.now (take at heads.now) least }
    ensures { IsFoundIn heads.now (take (at + 1) heads.now) result }
{
    if let Some(before) = least {
        if keys[at] > keys[before.at] {
            return least;
        }
    }
    with_compared(heads, at, least)
}

/// The least of the next entries, which have these keys; None if all heads are closed.
pub fn least_head(heads: &[Head], keys: &[i64]) -> Option<Least>
    requires { keys.now ≡ map key_of heads.now }
    ensures { MatchOption result (AreClosed heads.now) (IsFound heads.now heads.now) }
{
    let mut least = None;
    'heads: for at in 0..heads.len() {
        least = with_head(heads, keys, at, least);
    }
    least
}
