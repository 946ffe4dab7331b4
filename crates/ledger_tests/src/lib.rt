//! Tests, through public calls, of ledgers. There is nothing to call here.
#![tactic(auto)]

#[cfg(test)]
mod ledgers;
#[cfg(test)]
mod lines;
#[cfg(test)]
mod reading;
#[cfg(test)]
mod standings;
