//! Counted frames, by pieces: where the last whole one ends.

/// The most octets of a frame: one of 262,144 octets with its line is shorter.
pub const LEN_MAX: u64 = 300_000;

// What the next octet belongs to.
#[derive(Clone, Copy, Debug, PartialEq, Eq)]
enum Part {
    // a count, which is 0 before its first digit
    Count(u64),
    // so many octets that are left of a frame
    Frame(u64),
    // zeros, which a power cut leaves in place of what was written
    Blank,
    // no counted frame any more
    Other,
}

/// Goes through the octets of a file of counted frames (RFC 6587, section 3.4.1).
#[derive(Debug, Drop)]
pub struct Entries {
    part: Part,
    at: u64,
    whole: u64,
}

// What follows a count before this octet.
fn after_count(count: u64, octet: u8) -> Part {
    match octet {
        0 if count == 0 => Part::Blank,
        b'0' if count == 0 => Part::Other,
        b'0'..=b'9' if count <= LEN_MAX => {
            let digit = u64::from(octet.wrapping_sub(b'0'));
            Part::Count(count.saturating_mul(10).saturating_add(digit))
        }
        b' ' if count > 0 && count <= LEN_MAX => Part::Frame(count),
        _ => Part::Other,
    }
}

impl Entries {
    /// The beginning of a file.
    pub fn new() -> Entries {
        Entries {
            part: Part::Count(0),
            at: 0,
            whole: 0,
        }
    }

    /// Where the last whole frame ends.
    pub fn whole_len(&self) -> u64 {
        self.whole
    }

    /// Whether what stands behind the last whole frame may be the front of one, or was not written.
    pub fn may_be_cut_short(&self) -> bool {
        self.part != Part::Other
    }

    // Takes octets of a frame of which so many are left. Returns how many these are.
    fn take_frame(&mut self, left: u64, piece: &[u8]) -> usize {
        let taken = piece.len().min(usize::try_from(left).unwrap_or(usize::MAX));
        self.at = self.at.saturating_add(taken as u64);
        self.part = Part::Frame(left.saturating_sub(taken as u64));
        if self.part == Part::Frame(0) {
            self.part = Part::Count(0);
            self.whole = self.at;
        }
        taken
    }

    // Takes some octets from the front of a piece that is not empty. Returns how many.
    fn take(&mut self, piece: &[u8]) -> usize {
        match (self.part, piece.first()) {
            (Part::Frame(left), _) => self.take_frame(left, piece),
            (Part::Count(count), Some(octet)) => {
                self.at = self.at.saturating_add(1);
                self.part = after_count(count, *octet);
                1
            }
            (Part::Blank, Some(octet)) => {
                if *octet != 0 {
                    self.part = Part::Other;
                }
                1
            }
            (Part::Other, _) | (_, None) => piece.len(),
        }
    }

    /// Takes the next octets of the file. Returns whether more of it counts.
    pub fn add(&mut self, piece: &[u8]) -> bool {
        let mut done = 0usize;
        for _part in 0..=piece.len() {
            let rest = piece.get(done..).unwrap_or(&[]);
            if rest.is_empty() {
                break;
            }
            done = done.saturating_add(self.take(rest));
        }
        self.part != Part::Other
    }
}
