//! What came is collected.

use std::alloc::{AllocError, Global};
use syslog::{Collector, Event, RunEnd, Store, ToWrite, VecArchive};

/// The archive of the records of datagrams, whatever their order and however often each came. A
/// datagram that is no record is passed over.
///
/// # Errors
/// Out of memory.
pub fn archive_of_datagrams(alloc: Global, datagrams: &[&[u8]]) -> Result<Vec<u8>, AllocError> {
    let Ok(mut collector) = Collector::new(alloc, VecArchive::new(alloc), None) else {
        return Err(AllocError);
    };
    let mut log = Vec::new(alloc);
    for &octets in datagrams {
        let event = [Event::Datagram { octets }];
        if collector.run(alloc, event.as_slice(), &mut log) != RunEnd::Done {
            return Err(AllocError);
        }
    }
    let mut text = ToWrite::new(Vec::new(alloc));
    match collector.store().write(&mut text) {
        Ok(()) => Ok(text.into_inner()),
        Err(_) => Err(AllocError),
    }
}

#[cfg(test)]
mod tests {
    use super::*;
    use std::test::Fail;

    const ONE: &[u8] = b"<14>1 2024-02-29T23:30:00Z h a - - - one";

    const TWO: &[u8] = b"<14>1 2024-02-29T23:31:00Z h a - - - two";

    #[test]
    fn two_routes_give_one_archive(rt: HostRuntime) -> Result<(), Fail> {
        let alloc = rt.alloc();
        let here = archive_of_datagrams(alloc, [ONE, TWO].as_slice())?;
        let there = archive_of_datagrams(alloc, [TWO, ONE, TWO].as_slice())?;
        assert!(rt; here == there);
        assert!(rt; !here.is_empty());
        Ok(())
    }
}
