//! MSG-LEN, the count before a record (RFC 6587, 3.4.1): a digit 1 to 9, further digits, at
//! most ten in all, and a space.

ghost use Rattle.std.specs.Prelude.{◌≡◌, ◌≤◌, ◌+◌, ◌-◌, ◌*◌, ℕ, List, MatchOption};
ghost use Rattle.syslog_frame.specs.Count.{CountsOn, IsCount, IsNextDigit, IsStep};
ghost use Rattle.syslog_frame.specs.MsgLen.{IsMsgLen};

use crate::limits::COUNT_MAX;

/// What octets are as the digits of a count.
#[derive(Clone, Copy, Debug, PartialEq, Eq)]
pub enum CountStep {
    /// The count, and the number of octets that its remaining digits and its space take.
    Read { count: u64, used: usize },
    /// All octets are digits of the count, which is not finished.
    Unfinished { count: u64 },
    /// The count cannot continue with the octet at this offset.
    Broken { count: u64, at: usize },
}

/// What octets begin with, as a length.
#[derive(Clone, Copy, Debug, PartialEq, Eq)]
pub enum MsgLen {
    /// The count, and the number of octets that its digits and the space take.
    Whole { count: u64, used: usize },
    /// The octets are a proper prefix of a count and its space, or there are none.
    Part,
    /// No count can continue with the octet at this offset.
    Bad { at: usize },
}

/// The count with one more digit, if MSG-LEN can continue with it.
fn with_digit(count: u64, octet: u8) -> Option<u64>
    requires { count ≤ COUNT_MAX }
    ensures { MatchOption result (¬ (IsNextDigit count octet))
        (λ longer. IsNextDigit count octet × (longer ≡ 10 * count + (octet - 48))) }
{
    let goes_on = match octet {
        b'0' => 0 < count && count <= COUNT_MAX / 10,
        b'1'..=b'9' => count <= COUNT_MAX / 10,
        _ => false,
    };
    goes_on.then(|| 10 * count + u64::from(octet - b'0'))
}

/// Continues a count from the value of the digits read so far.
pub fn count_on(start: u64, octets: &[u8]) -> CountStep
    requires { start ≤ COUNT_MAX }
    ensures step { IsStep octets.now result }
    ensures counts { (p : List ℕ) → IsCount start p → CountsOn p octets.now result }
{
    let mut count = start;
    for (i, octet) in octets.iter().enumerate() {
        match with_digit(count, *octet) {
            Some(longer) => count = longer,
            None if *octet == b' ' && count > 0 => {
                return CountStep::Read { count, used: i + 1 };
            }
            None => return CountStep::Broken { count, at: i },
        }
    }
    CountStep::Unfinished { count }
}

/// The MSG-LEN and the space that the octets begin with.
pub fn msg_len(octets: &[u8]) -> MsgLen
    ensures { IsMsgLen octets.now result }
{
    match count_on(0, octets) {
        CountStep::Read { count, used } => MsgLen::Whole { count, used },
        CountStep::Unfinished { .. } => MsgLen::Part,
        CountStep::Broken { at, .. } => MsgLen::Bad { at },
    }
}
