//! The parts of a request, a message at a time.

ghost use Rattle.std.specs.Prelude.{◌≤◌, ◌<◌, length};

use archive_text::compare;
use reconcile::Part;
use site_messages::{MESSAGE_MAX, PAYLOAD_MAX, PLACE_MAX, RANGES_MAX, range_size};
use std::alloc::{AllocError, Global};

/// A part that is asked for, and where it was named.
#[derive(Clone, Copy, Debug)]
pub struct Asked<'a> {
    pub index: usize,
    pub part: &'a Part,
}

/// What is asked of parts.
#[derive(Clone, Copy, Debug)]
pub enum Wanted {
    /// Finer parts, at most so many of each.
    Cuts { most: u64 },
    /// The records.
    Records,
}

impl Wanted {
    // How many octets an honest peer answers for a part, at most.
    fn answer_size(self, part: &Part) -> u64 {
        match self {
            Wanted::Records => part.sum.octets,
            Wanted::Cuts { most } => {
                let bounds = most.saturating_mul(PLACE_MAX as u64).min(part.sum.octets);
                let lines = most.saturating_mul(256);
                range_size(&part.range)
                    .saturating_add(bounds.saturating_mul(2))
                    .saturating_add(lines)
            }
        }
    }

    // How many octets the answer to a message may have.
    fn answer_max(self) -> u64 {
        match self {
            Wanted::Records => PAYLOAD_MAX,
            Wanted::Cuts { .. } => MESSAGE_MAX,
        }
    }

    // Whether a message may ask for these parts.
    fn fits(self, request: u64, answer: u64, ranges: usize) -> bool {
        request <= PAYLOAD_MAX && answer <= self.answer_max() && ranges as u64 <= RANGES_MAX
    }

    /// Behind which of some parts a message ends that begins with the one at an index: it asks for as
    /// many as the limits allow, but for one at least.
    pub fn batch_end(self, asked: &[Asked<'_>], from: usize) -> usize
        requires { from < length asked.now }
        ensures some { from < result }
        ensures within { result ≤ length asked.now }
    {
        let mut request: u64 = 0;
        let mut answer: u64 = 0;
        'parts: for at in from..asked.len() {
            let part = asked[at].part;
            request = request.saturating_add(range_size(&part.range));
            answer = answer.saturating_add(self.answer_size(part));
            if at > from && !self.fits(request, answer, at - from + 1) {
                return at;
            }
        }
        asked.len()
    }
}

/// Parts in the order of their ranges.
pub fn in_order<'a>(alloc: Global, parts: &'a [Part]) -> Result<Vec<Asked<'a>>, AllocError> {
    let mut asked = Vec::new(alloc);
    for (index, part) in parts.iter().enumerate() {
        asked.push(Asked { index, part })?;
    }
    asked.sort_by(|a, b| compare(&a.part.range.low.view(), &b.part.range.low.view()))?;
    Ok(asked)
}
