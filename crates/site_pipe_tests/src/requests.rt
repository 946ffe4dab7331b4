//! What a site asks, and what it does not believe.

use crate::support::{in_pieces, whole};
use octet_devices::ToWrite;
use reconcile::{Part, Peer, Stopped, Sum};
use site_pipe::{PipeFault, PipePeer};
use std::alloc::Global;
use std::test::Fail;

// The part of all places, of which so many octets are told.
fn all(alloc: Global, octets: u64) -> Part {
    Part {
        range: whole(alloc),
        sum: Sum {
            records: 1,
            octets,
            digest: [0; 32],
        },
    }
}

const HELLO: &[u8] = b"syslogbox answer 1\n";

#[test]
fn what_cannot_be_so_is_not_believed(rt: HostRuntime) -> Result<(), Fail> {
    let alloc = rt.alloc();
    for (answer, more, stopped, fault) in [
        (b"kept\n".as_slice(), 1, Stopped::Lied, PipeFault::Lied),
        (b"archive 67108865\n", 1, Stopped::Lied, PipeFault::Lied),
        (b"archive 5\n3 abc", 1, Stopped::Lied, PipeFault::Lied),
        (b"archive 1000\n", 0, Stopped::TooMuch, PipeFault::TooMuch),
        (b"archive 6\n3 abc", 1, Stopped::Broken, PipeFault::Ended),
        (b"archive -1\n", 1, Stopped::Lied, PipeFault::Lied),
        (b"failed\n", 1, Stopped::Broken, PipeFault::Failed),
        (b"", 1, Stopped::Broken, PipeFault::Ended),
    ] {
        let mut text = Vec::from_slice(alloc, HELLO)?;
        text.extend_from_slice(answer)?;
        let mut peer = PipePeer::new(
            alloc,
            in_pieces(text.as_slice(), 1),
            ToWrite::new(Vec::new(alloc)),
            text.len() as u64 + more,
        );
        assert!(rt; peer.greet().is_ok());
        let parts = [all(alloc, 5)];
        let got = peer.get(&parts);
        assert!(rt; got.err() == Some(stopped));
        assert!(rt; peer.fault() == Some(fault));
        // nothing is asked any more
        assert!(rt; peer.get(&parts).err() == Some(Stopped::Broken));
        assert_eq!(rt; peer.traffic().requests, 1);
    }
    Ok(())
}
