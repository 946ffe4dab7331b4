//! Networks by their texts, lists of them, and rates.

use crate::{AllowList, Network, NetworkFault, Rates};
use std::collections::hash_map::RandomState;
use std::net::IpAddr;
use std::process::Abort;
use std::test::Fail;

fn address(text: &str) -> Result<IpAddr, Fail> {
    Ok(text.parse::<IpAddr>()?)
}

// The network of a text has the first address, and lacks the second.
fn expect_between(rt: &impl Abort, text: &str, inside: &str, outside: &str) -> Result<(), Fail> {
    let network = text.parse::<Network>()?;
    assert!(rt; network.contains(address(inside)?), "{inside} in {text}");
    assert!(rt;
        !network.contains(address(outside)?),
        "{outside} not in {text}"
    );
    Ok(())
}

#[test]
fn a_network_has_the_addresses_that_begin_as_it_does(rt: HostRuntime) -> Result<(), Fail> {
    for (text, inside, outside) in [
        ("192.0.2.0/24", "192.0.2.255", "192.0.3.0"),
        ("192.0.2.128/25", "192.0.2.128", "192.0.2.127"),
        ("0.0.0.0/0", "255.255.255.255", "2001:db8::1"),
        ("192.0.2.7", "192.0.2.7", "192.0.2.6"),
        ("192.0.2.0/24", "::ffff:192.0.2.9", "::192.0.2.9"),
        ("::ffff:192.0.2.0/120", "192.0.2.9", "192.0.3.9"),
        ("2001:db8::/32", "2001:db8:ffff::1", "2001:db9::"),
        ("2001:db8::1", "2001:db8::1", "2001:db8::2"),
        ("::/0", "2001:db8::1", "192.0.2.1"),
        ("fe80::/10", "febf::1", "fec0::1"),
    ] {
        expect_between(&rt, text, inside, outside)?;
    }
    Ok(())
}

#[test]
fn a_text_that_is_no_network_is_refused(rt: HostRuntime) -> Result<(), Fail> {
    for text in [
        "",
        "localhost",
        "192.0.2",
        "192.0.2.0.0/24",
        "/24",
        "192.0.2.0 /24",
    ] {
        assert_eq!(rt;
            text.parse::<Network>().err(),
            Some(NetworkFault::Address),
            "{text}"
        );
    }
    for text in [
        "192.0.2.0/",
        "192.0.2.0/33",
        "192.0.2.0/+24",
        "192.0.2.0/24/24",
        "::/129",
        "::/256",
    ] {
        assert_eq!(rt;
            text.parse::<Network>().err(),
            Some(NetworkFault::Length),
            "{text}"
        );
    }
    Ok(())
}

#[test]
fn a_refusal_names_the_network(rt: HostRuntime) -> Result<(), Fail> {
    for (text, told) in [
        ("192.0.2.1/24", "192.0.2.0/24"),
        ("192.0.2.1/0", "0.0.0.0/0"),
        ("2001:db8::1/32", "2001:db8::/32"),
        ("::ffff:192.0.2.1/120", "192.0.2.0/24"),
        ("::ffff:192.0.2.0/90", "::ffc0:0:0/90"),
    ] {
        let fault = text.parse::<Network>().err().ok_or("no fault")?;
        let NetworkFault::HostBits(network) = fault else {
            return Err(Fail::from("another fault"));
        };
        assert_eq!(rt;
            format!(in rt.alloc(); "{network}")?.as_str(),
            told,
            "{text}"
        );
    }
    Ok(())
}

#[test]
fn a_list_allows_its_networks(rt: HostRuntime) -> Result<(), Fail> {
    let mut list = AllowList::new(rt.alloc());
    assert!(rt; list.allows(address("192.0.2.1")?));
    list.add("192.0.2.0/24".parse::<Network>()?)?;
    list.add("2001:db8::/32".parse::<Network>()?)?;
    assert!(rt; list.allows(address("192.0.2.1")?));
    assert!(rt; list.allows(address("2001:db8::1")?));
    assert!(rt; !list.allows(address("198.51.100.1")?));
    Ok(())
}

// Whether one record passes.
fn passes(rates: &mut Rates, peer: IpAddr, now_millis: u64) -> Result<bool, Fail> {
    Ok(rates.take(peer, now_millis, 1)? == 1)
}

#[test]
fn a_peer_sends_a_burst_and_then_at_its_rate(rt: HostRuntime) -> Result<(), Fail> {
    let mut rates = Rates::new(rt.alloc(), RandomState::new(&rt)?, 5)?;
    let peer = address("192.0.2.1")?;
    for _record in 0..50 {
        assert!(rt; passes(&mut rates, peer, 1_000)?);
    }
    assert!(rt; !passes(&mut rates, peer, 1_000)?);
    assert!(rt; !passes(&mut rates, peer, 0)?, "a clock that goes back");
    assert!(rt; !passes(&mut rates, peer, 1_199)?);
    assert!(rt; passes(&mut rates, address("::ffff:192.0.2.1")?, 1_200)?);
    assert!(rt; !passes(&mut rates, peer, 1_200)?);
    assert!(rt; passes(&mut rates, address("192.0.2.2")?, 1_200)?);
    Ok(())
}

#[test]
fn as_many_records_pass_as_there_is_room_for(rt: HostRuntime) -> Result<(), Fail> {
    let mut rates = Rates::new(rt.alloc(), RandomState::new(&rt)?, 3)?;
    let peer = address("192.0.2.1")?;
    assert_eq!(rt; rates.room(peer, 7), 30);
    assert_eq!(rt; rates.take(peer, 7, 28)?, 28);
    assert_eq!(rt; rates.room(peer, 7), 2);
    assert_eq!(rt; rates.take(peer, 7, 5)?, 2);
    assert_eq!(rt; rates.take(peer, 1_006, 5)?, 2, "in 999 milliseconds");
    assert_eq!(rt; rates.take(peer, 1_007, 5)?, 1);
    assert_eq!(rt; rates.room(peer, 3_600_000), 30, "no more than a burst");
    assert_eq!(rt; rates.room(address("192.0.2.2")?, 1_007), 30);
    Ok(())
}
