//! Tests, through public calls, of copies of stores. There is nothing to call here.
#![tactic(auto)]

#[cfg(test)]
mod copies;
#[cfg(test)]
mod faults;
#[cfg(test)]
mod full;
#[cfg(test)]
mod views;
