use syslog_value::{Civil, Instant, TimeFault};

fn civil(date: (u16, u8, u8), time: (u8, u8, u8), micros: u32) -> Civil {
    Civil {
        year: date.0,
        month: date.1,
        day: date.2,
        hour: time.0,
        minute: time.1,
        second: time.2,
        micros,
    }
}

#[test]
fn a_civil_time_names_its_instant(rt: HostRuntime) {
    for (date, time, micros, offset, instant) in [
        ((0, 1, 1), (0, 0, 0), 0, 0, -62_167_219_200_000_000),
        ((1970, 1, 1), (0, 0, 0), 1, 0, 1),
        ((2003, 8, 24), (5, 14, 15), 3, -420, 1_061_727_255_000_003),
        ((2024, 3, 1), (0, 30, 0), 0, 60, 1_709_249_400_000_000),
        (
            (9999, 12, 31),
            (23, 59, 59),
            999_999,
            0,
            253_402_300_799_999_999,
        ),
    ] {
        let found = Instant::from_civil(civil(date, time, micros), offset).ok();
        assert_eq!(rt; found.map(Instant::micros), Some(instant));
        assert_eq!(rt; Instant::from_micros(instant), found);
    }
}

#[test]
fn an_instant_has_its_civil_time_in_utc(rt: HostRuntime) {
    for (instant, date, time, micros) in [
        (-62_167_219_200_000_000, (0, 1, 1), (0, 0, 0), 0),
        (-62_162_121_600_000_000, (0, 2, 29), (0, 0, 0), 0),
        (-1, (1969, 12, 31), (23, 59, 59), 999_999),
        (1_061_727_255_000_003, (2003, 8, 24), (12, 14, 15), 3),
        (1_709_249_400_000_000, (2024, 2, 29), (23, 30, 0), 0),
        (
            253_402_300_799_999_999,
            (9999, 12, 31),
            (23, 59, 59),
            999_999,
        ),
    ] {
        let found = Instant::from_micros(instant).map(Instant::civil);
        assert_eq!(rt; found, Some(civil(date, time, micros)));
    }
}

#[test]
fn an_instant_lies_in_the_years_0_to_9999(rt: HostRuntime) {
    for micros in [
        i64::MIN,
        -62_167_219_200_000_001,
        253_402_300_800_000_000,
        i64::MAX,
    ] {
        assert_eq!(rt; Instant::from_micros(micros), None);
    }
}

#[test]
fn the_first_cause_is_told(rt: HostRuntime) {
    let noon = (12, 0, 0);
    for (date, time, micros, offset, fault) in [
        ((2003, 2, 29), (24, 0, 0), 0, 1440, TimeFault::NoSuchDate),
        ((1900, 2, 29), noon, 0, 0, TimeFault::NoSuchDate),
        ((2023, 4, 31), noon, 0, 0, TimeFault::NoSuchDate),
        ((2023, 0, 1), noon, 0, 0, TimeFault::NoSuchDate),
        ((2023, 13, 1), noon, 0, 0, TimeFault::NoSuchDate),
        ((2023, 1, 0), noon, 0, 0, TimeFault::NoSuchDate),
        ((10_000, 1, 1), noon, 0, 0, TimeFault::NoSuchDate),
        ((2003, 2, 28), (24, 0, 0), 0, 1440, TimeFault::NoSuchTime),
        ((2003, 2, 28), (23, 60, 0), 0, 0, TimeFault::NoSuchTime),
        ((2003, 2, 28), (23, 59, 60), 0, 0, TimeFault::NoSuchTime),
        ((2003, 2, 28), noon, 1_000_000, 0, TimeFault::NoSuchTime),
        ((2003, 2, 28), noon, 0, 1440, TimeFault::BadOffset),
        ((2003, 2, 28), noon, 0, -1440, TimeFault::BadOffset),
        ((9999, 12, 31), (23, 59, 59), 0, -1, TimeFault::OutOfRange),
        ((0, 1, 1), (0, 0, 0), 0, 1, TimeFault::OutOfRange),
    ] {
        let found = Instant::from_civil(civil(date, time, micros), offset);
        assert_eq!(rt; found, Err(fault));
    }
    let leap = Instant::from_civil(civil((0, 2, 29), noon, 0), 0);
    assert!(rt; leap.is_ok());
    let shifted = Instant::from_civil(civil((0, 1, 1), (0, 0, 0), 0), -1439);
    assert!(rt; shifted.is_ok());
}
