//! Texts are handed over into the caller's room.

ghost use Rattle.std.specs.Prelude.{◌≡◌, MatchResult};
ghost use Rattle.c_library.specs.Answers.{HandsOver, Refused};

use crate::fault::SyslogboxFault;
use crate::numbers::NO_ROOM;

/// Puts a text at the front of the room and returns its length; or, if the room is too small, -1
/// and how many octets it must have.
fn hand_over(text: &[u8], out: &mut [u8], fault: &mut SyslogboxFault) -> i64
    ensures { HandsOver text.now (record { room = out.old; fault = fault.old })
        (record { room = out.new; fault = fault.new }) result }
{
    if out.len() < text.len() {
        *fault = SyslogboxFault::new(NO_ROOM, text.len() as u64);
        return -1;
    }
    out[..text.len()].copy_from_slice(text);
    text.len() as i64
}

/// Hands a text over; or returns -1 and why there is none.
pub fn answer(
    text: Result<Vec<u8>, SyslogboxFault>,
    out: &mut [u8],
    fault: &mut SyslogboxFault,
) -> i64
    ensures { MatchResult text
        (λ v. HandsOver v.items (record { room = out.old; fault = fault.old })
        (record { room = out.new; fault = fault.new }) result)
        (λ cause. Refused (λ told. told ≡ cause) (record { room = out.old; fault = fault.old })
        (record { room = out.new; fault = fault.new }) result) }
{
    match text {
        Ok(text) => hand_over(text.as_slice(), out, fault),
        Err(cause) => {
            *fault = cause;
            -1
        }
    }
}
