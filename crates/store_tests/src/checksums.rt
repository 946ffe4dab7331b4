use crc32c::crc32c;

// The check value of the polynomial's catalogue entries, and the examples of RFC 3720, appendix B.4.
#[test]
fn checksums_are_those_of_the_standards(rt: HostRuntime) {
    let mut ascending = [0; 32];
    let mut descending = [0; 32];
    for i in 0..32u8 {
        ascending[i as usize] = i;
        descending[i as usize] = 31 - i;
    }
    assert_eq!(rt; crc32c(b""), 0);
    assert_eq!(rt; crc32c(b"123456789"), 0xE306_9283);
    assert_eq!(rt; crc32c(&[0; 32]), 0x8A91_36AA);
    assert_eq!(rt; crc32c(&[0xFF; 32]), 0x62A8_AB43);
    assert_eq!(rt; crc32c(&ascending), 0x46DD_794E);
    assert_eq!(rt; crc32c(&descending), 0x113F_DB5C);
}
