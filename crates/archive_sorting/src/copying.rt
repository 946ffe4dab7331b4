//! Entries are copied, so that octets of no entry are let go of.

ghost use Rattle.std.specs.Prelude.{◌≡◌, ◌≤◌, length, vec_len, IfOk};
ghost use Rattle.archive_sorting.specs.Spans.{blocks_of, entries_at};
ghost use Rattle.archive_sorting.specs.Within.{AreFit, LieWithin};

use crate::arena::{Arena, Span};
use std::alloc::{AllocError, Global};

/// The entries of spans in an arena of their own, and their spans there. It fails only when out of
/// memory.
pub fn copied(
    alloc: Global,
    arena: &Arena,
    spans: &[Span],
) -> Result<(Arena, Vec<Span>), AllocError>
    requires { AreFit (entries_at (blocks_of arena.now) spans.now) }
    ensures within { IfOk result (λ r. LieWithin r.0 r.1) }
    ensures same { IfOk result (λ r. entries_at (blocks_of r.0) r.1.items
        ≡ entries_at (blocks_of arena.now) spans.now) }
    ensures count { IfOk result (λ r. vec_len r.1 ≤ length spans.now) }
{
    let mut copy = Arena::new(alloc);
    let mut places = Vec::with_capacity(alloc, spans.len())?;
    for span in spans {
        let place = copy.push(alloc, span.rank, arena.octets(*span))?;
        places.push(place)?;
    }
    Ok((copy, places))
}
