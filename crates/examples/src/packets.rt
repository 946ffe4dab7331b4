//! A legacy packet (RFC 3164) is read.

ghost use Rattle.std.specs.Prelude.{IfOk};
ghost use Rattle.syslog_legacy.specs.Readings.{Legacy, ReadAs};

use std::alloc::Global;
use syslog::{LegacyClock, LegacyFault, Record, read_legacy};

/// The record as which a packet is read in the year and the time zone of a clock.
///
/// # Errors
/// The message starts with the BOM and is no UTF-8, or out of memory.
pub fn record_of_packet(
    alloc: Global,
    clock: &LegacyClock,
    packet: &[u8],
) -> Result<Record, LegacyFault>
    // the one that the packet is under the clock
    ensures { IfOk result (λ r. Legacy clock.now (ReadAs r) packet.now) }
{
    read_legacy(alloc, clock, packet)
}

#[cfg(test)]
mod tests {
    use super::*;
    use std::test::Fail;

    #[test]
    fn the_host_is_that_of_the_packet(rt: HostRuntime) -> Result<(), Fail> {
        let clock = LegacyClock::new(2003, 0).ok_or("a clock")?;
        let packet = b"<34>Oct 11 22:14:15 mymachine su: 'su root' failed".as_slice();
        let record = record_of_packet(rt.alloc(), &clock, packet)?;
        let host = record.hostname().ok_or("a host")?;
        assert_eq!(rt; host.bytes(), b"mymachine".as_slice());
        Ok(())
    }
}
