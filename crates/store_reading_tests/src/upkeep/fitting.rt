//! Which days have to go so that the segments fit in some room.

use std::alloc::Global;
use std::test::Fail;
use store_expiry::{Expired, SegmentSize, expired_for_room, octets_of, octets_without};
use store_reading::segment_day;
use syslog_value::Instant;

// 2024-02-28T00:00:00Z
const FIRST: i64 = 1_709_078_400_000_000;

// the microseconds of a day
const DAY: i64 = 86_400_000_000;

// what segments are called after, and how many octets they have
const SEGMENTS: [(&[u8], u64); 6] = [
    (b"2024-02-29", 30),
    (b"2024-02-28", 5),
    (b"undated", 7),
    (b"2024-03-01", 20),
    (b"2024-02-28", 6),
    (b"mixed", 9),
];

// rows: the room, whether undated ones may go, how many days go from 2024-02-28 on (None: nothing goes at all),
// whether undated ones go, and how much is left
const ROWS: [(u64, bool, Option<i64>, bool, u128); 12] = [
    (77, false, None, false, 77),
    (77, true, None, false, 77),
    (u64::MAX, true, None, false, 77),
    (76, false, Some(1), false, 66),
    (76, true, None, true, 70),
    (69, true, Some(1), true, 59),
    (66, false, Some(1), false, 66),
    (65, false, Some(2), false, 36),
    (35, false, Some(3), false, 16),
    (16, false, Some(3), false, 16),
    (0, false, Some(3), false, 16),
    (0, true, Some(3), true, 9),
];

fn sizes(alloc: Global) -> Result<Vec<SegmentSize>, Fail> {
    let mut sizes = Vec::new(alloc);
    for (period, octets) in SEGMENTS {
        let mut name = period.to_vec(alloc)?;
        name.push(b'.')?;
        name.extend_from_slice(&[b'0'; 64])?;
        name.extend_from_slice(b".archive")?;
        sizes.push(SegmentSize {
            day: segment_day(&name),
            octets,
        })?;
    }
    Ok(sizes)
}

// whether this is expired: so many days, or nothing that has a time
fn goes(found: &Expired, days: Option<i64>, undated: bool) -> bool {
    let before = match days {
        Some(days) => Instant::from_micros(FIRST.saturating_add(days.saturating_mul(DAY))),
        None => Instant::from_micros(-62_167_219_200_000_000),
    };
    before == Some(found.before) && found.undated == undated
}

#[test]
fn the_oldest_days_go(rt: HostRuntime) -> Result<(), Fail> {
    let segments = sizes(rt.alloc())?;
    assert_eq!(rt; octets_of(&segments), 77);
    for (room, undated, days, are_gone, left) in ROWS {
        let found = expired_for_room(&segments, room, undated);
        assert!(rt; goes(&found, days, are_gone), "{room} {undated}");
        assert_eq!(rt; octets_without(&segments, &found), left, "{room} {undated}");
    }
    Ok(())
}

#[test]
fn what_fits_stays(rt: HostRuntime) -> Result<(), Fail> {
    let found = expired_for_room(&[], 0, true);
    assert!(rt; goes(&found, None, false));
    Ok(())
}
