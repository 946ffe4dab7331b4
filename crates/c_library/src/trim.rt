//! Frames without what senders append to a record.

ghost use Rattle.std.specs.Prelude.{◌≡◌, ◌≤◌, length, take};
ghost use Rattle.syslog_frame.specs.Trimmed.{trimmed};

use syslog_frame::trimmed;

/// How many octets of a frame are left without the line end or the NUL at its end: CR LF, else LF, else CR,
/// else NUL. It takes no memory.
#[unsafe(no_mangle)]
pub extern "C" fn syslogbox_proved_trimmed(frame: &[u8]) -> usize
    ensures left { take result frame.now ≡ trimmed frame.now }
    ensures within { result ≤ length frame.now }
{
    trimmed(frame).len()
}
