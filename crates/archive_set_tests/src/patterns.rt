//! Octets that are like a pattern, or have others in them.

use octet_patterns::{has_within, is_like};

// patterns, texts, and whether the text is like the pattern
const ROWS: [(&str, &str, bool); 19] = [
    ("", "", true),
    ("", "a", false),
    ("*", "", true),
    ("*", "abc", true),
    ("**", "", true),
    ("?", "", false),
    ("?", "ab", false),
    ("?*", "a", true),
    ("*?", "", false),
    ("a?c", "ac", false),
    ("a*c", "abbc", true),
    ("*aab", "aaab", true),
    ("*ab?", "aabab", false),
    ("ab*ba", "aba", false),
    ("a*b*c", "aXbYbZc", true),
    ("*a*a*a*b", "aaaaaaaaaaaaaaaaaaaaaa", false),
    ("web-??.*", "web-01.example.org", true),
    ("web-??.*", "web-1.example.org", false),
    ("[a-c]", "b", false),
];

#[test]
fn patterns_have_any_octets_and_any_one_octet(rt: HostRuntime) {
    for (pattern, text, like) in ROWS {
        assert_eq!(rt; is_like(pattern.as_bytes(), text.as_bytes()), like);
    }
}

#[test]
fn octets_are_within_a_text_whole(rt: HostRuntime) {
    for (octets, text, within) in [
        ("", "", true),
        ("bc", "abc", true),
        ("abc", "abc", true),
        ("bcd", "abc", false),
        ("ac", "abc", false),
        ("a", "", false),
    ] {
        assert_eq!(rt; has_within(octets.as_bytes(), text.as_bytes()), within);
    }
}
