//! How much of what a connection has one turn gives.
ghost use Rattle.std.specs.Prelude.{◌≡◌, ◌<◌, ◌≤◌, length};
ghost use Rattle.socket_source.specs.Turns.{IsFront, is_mark};

use syslog_frame::Framing;

// Whether the octet at a place may be the last of a line, or of the count before a frame.
fn is_mark(framing: Framing, octets: &[u8], at: usize) -> bool
    requires { at < length octets.now }
    ensures { result ≡ is_mark framing octets.now at }
{
    match framing {
        Framing::Lf => octets[at] == b'\n',
        Framing::Counted => octets[at] == b' ' && (at == 0 || octets[at - 1].is_ascii_digit()),
    }
}

/// How many of the first `len` octets one turn gives: all, or those up to the end of as many lines,
/// or counts before frames, as it may have at most.
pub(crate) fn front_len(framing: Framing, octets: &[u8], len: usize, most: usize) -> usize
    requires within { len ≤ length octets.now }
    requires some { 0 < most }
    ensures { IsFront framing octets.now most len result }
{
    let mut count = 0;
    for at in 0..len {
        if is_mark(framing, octets, at) {
            count += 1;
            if count == most {
                return at + 1;
            }
        }
    }
    len
}
