//! Tests, through public calls, of disks that keep the ledger of a store. There is nothing to call here.
#![tactic(auto)]

#[cfg(test)]
mod folders;
#[cfg(test)]
mod lines;
#[cfg(test)]
mod sealing;
#[cfg(test)]
mod stops;
