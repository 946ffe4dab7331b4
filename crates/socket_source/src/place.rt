//! Where in its stream a connection is, and how many frames begin in what it gives.
ghost use Rattle.std.specs.Prelude.{◌≡◌, ◌≤◌, length};
ghost use Rattle.socket_source.specs.Places.{IsBegun, behind_count, behind_line, behind_record, is_between, place_behind};

use syslog_frame::Framing;

/// Where in its stream a connection is.
#[derive(Clone, Copy, Debug, PartialEq, Eq)]
pub(crate) enum Place {
    /// Before the first octet of a frame.
    Between,
    /// In a line.
    Line,
    /// Behind digits of a count, of this value.
    Count(u64),
    /// In a counted record, of which so many octets are still to come.
    Record(u64),
    /// Behind an octet with which no count can go on: no frame begins any more.
    Lost,
}

/// The octets of a front, how many frames begin in them, and where they end.
#[derive(Clone, Copy)]
pub(crate) struct Begun {
    pub(crate) len: usize,
    pub(crate) frames: u64,
    pub(crate) place: Place,
}

// Behind one more octet of a line.
fn behind_line(octet: u8) -> Place
    ensures { result ≡ behind_line octet }
{
    if octet == b'\n' {
        Place::Between
    } else {
        Place::Line
    }
}

// Behind one more octet of a count.
fn behind_count(count: u64, octet: u8) -> Place
    ensures { result ≡ behind_count count octet }
{
    match octet {
        b'0'..=b'9' => {
            let digit = u64::from(octet - b'0');
            Place::Count(count.saturating_mul(10).saturating_add(digit))
        }
        b' ' if count > 0 => Place::Record(count),
        _ => Place::Lost,
    }
}

// Behind one more octet of a record.
fn behind_record(left: u64) -> Place
    ensures { result ≡ behind_record left }
{
    if left > 1 {
        Place::Record(left - 1)
    } else {
        Place::Between
    }
}

impl Place {
    /// Whether the next octet is the first of a frame.
    fn is_between(self) -> bool
        ensures { result ≡ is_between self }
    {
        matches!(self, Place::Between)
    }

    // Behind one more octet.
    fn behind(self, framing: Framing, octet: u8) -> Place
        ensures { result ≡ place_behind framing self octet }
    {
        match self {
            Place::Between => match framing {
                Framing::Lf => behind_line(octet),
                Framing::Counted => behind_count(0, octet),
            },
            Place::Line => behind_line(octet),
            Place::Count(count) => behind_count(count, octet),
            Place::Record(left) => behind_record(left),
            Place::Lost => Place::Lost,
        }
    }

    /// The longest front of the first `len` octets in which no more than `room` frames begin.
    pub(crate) fn begin(self, framing: Framing, octets: &[u8], len: usize, room: u64) -> Begun
        requires { len ≤ length octets.now }
        ensures { IsBegun framing self octets.now len room result }
    {
        let mut place = self;
        let mut frames = 0;
        for at in 0..len {
            if place.is_between() {
                if frames == room {
                    return Begun {
                        len: at,
                        frames,
                        place,
                    };
                }
                frames += 1;
            }
            place = place.behind(framing, octets[at]);
        }
        Begun { len, frames, place }
    }
}
