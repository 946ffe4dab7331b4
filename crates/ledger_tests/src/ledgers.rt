//! A ledger whose chains were computed by another program (Python's hashlib), line by line.

use ledger::{Event, LedgerEntry, Removal};

pub const FIRST: &[u8] = b"2026-11-29T10.a.archive";

pub const SECOND: &[u8] = b"2026-11-29T10.b.archive";

pub const JOINED: &[u8] = b"2026-11-29.c.archive";

/// The Merkle tree hash of no records.
pub const ROOT: &[u8; 64] = b"e3b0c44298fc1c149afbf4c8996fb92427ae41e4649b934ca495991b7852b855";

pub const LINES: [&str; 6] = [
    "1 2026-11-30T01:00:00.000000Z add 2026-11-29T10.a.archive 2 120 \
     db45e9736b10d016288f1951ec229f310128c40891232dcd0ee364c2f9bdd7e4",
    "2 2026-11-30T02:00:00.000000Z add 2026-11-29T10.b.archive 3 180 \
     3c104e32f177bf6cb74fb555b3feb383f629f53206e4dd3e92597b880fc79f57",
    "3 2026-11-30T03:00:00.000000Z join 2026-11-29.c.archive 5 300 \
     da9d6fd1cf1ce0a1de3767082f145e8a0b575ce1526a85081d5b14d1ad1f5650",
    "4 2026-11-30T04:00:00.000000Z gone 2026-11-29T10.a.archive 2 120 joined 3 \
     65b39bda3a18809719214caec2debf2c1d0e534d53a0880d48a92fdc3f8c454a",
    "5 2026-11-30T05:00:00.000000Z gone 2026-11-29T10.b.archive 3 180 expired \
     f23fdc599985bdff006cfe14b39034e406415577b88b231befb5ac2760cd9ae7",
    "6 2026-11-30T06:00:00.000000Z seal 2026-11-29.c.archive 5 300 e3b0c44298fc1c149afbf4c8996fb92427ae41e4649b934ca495991b7852b855 \
     9a169266d1b03cc4c4e573004a85ce7affb258695934701ad19549c6e7fc7fea",
];

pub const TIMES: [&[u8]; 6] = [
    b"2026-11-30T01:00:00.000000Z",
    b"2026-11-30T02:00:00.000000Z",
    b"2026-11-30T03:00:00.000000Z",
    b"2026-11-30T04:00:00.000000Z",
    b"2026-11-30T05:00:00.000000Z",
    b"2026-11-30T06:00:00.000000Z",
];

/// What the lines say.
pub fn entries() -> [LedgerEntry<'static>; 6] {
    [
        entry(Event::Added, FIRST, 2, 120),
        entry(Event::Added, SECOND, 3, 180),
        entry(Event::Joined, JOINED, 5, 300),
        entry(Event::Gone(Removal::Joined(3)), FIRST, 2, 120),
        entry(Event::Gone(Removal::Expired), SECOND, 3, 180),
        entry(Event::Sealed(*ROOT), JOINED, 5, 300),
    ]
}

/// What a line says.
pub fn entry(event: Event, name: &'static [u8], count: u64, octets: u64) -> LedgerEntry<'static> {
    LedgerEntry {
        event,
        name,
        count,
        octets,
    }
}
