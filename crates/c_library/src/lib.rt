//! The library for C: records, frames and archives on octets and lengths, with results in the caller's room.
//!
//! The calls keep no state. Each says what the library's call says of the same octets, in both outcomes, and that
//! nothing else in the caller's memory has changed. `include/syslogbox.h` declares them, each without `proved_`, behind
//! a shim that takes a null pointer if the length is 0.
#![tactic(auto)]

mod answer;
mod archives;
mod canonical;
mod check;
mod digest;
mod element;
mod fault;
mod fields;
mod frame;
mod items;
mod layout;
mod legacy;
mod numbers;
mod object;
mod param;
mod part;
mod part_spans;
mod parts;
mod pass;
mod root;
mod scan;
mod select;
mod sets;
mod span;
mod trim;
mod value;
mod view;
mod walk;
