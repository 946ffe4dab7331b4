//! Sets of octet texts and their laws, on which the grammar and the frames both rest.
//!
//! A rule of a standard is a predicate over lists of octets (`specs/Language.antt`): a single text,
//! one text after another, or the texts of all values of a field. What a reader returns is defined
//! once for all readers (`specs/Reading.antt`). The laws in `proofs/` carry the contract of a field
//! over a sequence, a repetition or a choice. There is nothing to call here.
#![tactic(auto)]
