//! Tests, through public calls, of followers of stores. There is nothing to call here.
#![tactic(auto)]

#[cfg(test)]
mod damage;
#[cfg(test)]
mod looks;
#[cfg(test)]
mod stops;
#[cfg(test)]
mod stores;
