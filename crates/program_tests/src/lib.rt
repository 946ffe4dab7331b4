//! Tests of the commands through their public calls: their words, and what each does over devices in
//! memory. There is nothing to call here.
#![tactic(auto)]

#[cfg(test)]
mod runs;
#[cfg(test)]
mod sending;
#[cfg(test)]
mod words;
