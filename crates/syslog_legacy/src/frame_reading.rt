//! How frames are read.

ghost use Rattle.std.specs.Prelude.{◌≡◌, ◌≤◌, length};
ghost use Rattle.syslog_legacy.specs.FrameReadings.{octets_read};

use crate::clock::LegacyClock;
use syslog_frame::trimmed;

/// How frames are read. Whether a frame is too long is decided before any of its octets are
/// dropped.
#[derive(Clone, Copy, Debug, PartialEq, Eq)]
pub struct FrameReading {
    /// Whether a line end or a NUL at the end of a frame is dropped before it is read, as by
    /// [`trimmed`].
    pub trim: bool,
    /// The clock of legacy packets. None: every frame is read as RFC 5424 says.
    pub clock: Option<LegacyClock>,
}

impl FrameReading {
    /// The octets of a frame that are to be read.
    pub fn octets<'a>(&self, frame: &'a [u8]) -> &'a [u8]
        ensures value { result.now ≡ octets_read self.now frame.now }
        ensures within { length result.now ≤ length frame.now }
    {
        if self.trim { trimmed(frame) } else { frame }
    }
}

impl From<Option<LegacyClock>> for FrameReading {
    ghost use Rattle.std.specs.Prelude.{◌≡◌};
    ghost use Rattle.syslog_legacy.specs.FrameReadings.{whole};

    ghost from_gives = { λ clock reading. reading ≡ whole clock };

    /// Frames are read whole.
    fn from(clock: Option<LegacyClock>) -> FrameReading {
        FrameReading { trim: false, clock }
    }
}
