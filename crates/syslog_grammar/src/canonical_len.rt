//! How many octets the canonical form of a record has, for a single reservation of the right size.
//! A sum that reaches the greatest usize stays there.

use syslog_value::{Element, Param, Record, Word};

/// How many octets there are besides words, structured data and message: `<`, three digits, `>1`, a
/// timestamp of 27 octets and six spaces.
const FIXED: usize = 39;

fn value_len(text: &[u8]) -> usize {
    let escapes = text
        .iter()
        .filter(|octet| matches!(**octet, b'"' | b'\\' | b']'))
        .count();
    text.len().saturating_add(escapes)
}

fn param_len(param: &Param) -> usize {
    let value = value_len(param.value().as_bytes());
    param
        .name()
        .bytes()
        .len()
        .saturating_add(value)
        .saturating_add(4)
}

fn element_len(element: &Element) -> usize {
    let mut len = element.id().bytes().len().saturating_add(2);
    for param in element.params() {
        len = len.saturating_add(param_len(param));
    }
    len
}

fn elements_len(elements: &[Element]) -> usize {
    let mut len = 0usize;
    for element in elements {
        len = len.saturating_add(element_len(element));
    }
    len.max(1)
}

fn word_len<const N: usize>(word: Option<&Word<N>>) -> usize {
    match word {
        None => 1,
        Some(word) => word.bytes().len(),
    }
}

/// How many octets the canonical form has, or up to 32 more if the timestamp is NILVALUE or PRI is
/// short.
pub fn canonical_len(record: &Record) -> usize {
    FIXED
        .saturating_add(word_len(record.hostname()))
        .saturating_add(word_len(record.app_name()))
        .saturating_add(word_len(record.proc_id()))
        .saturating_add(word_len(record.msg_id()))
        .saturating_add(elements_len(record.structured().elements()))
        .saturating_add(record.message().octets().len())
        .saturating_add(4)
}
