//! Tests, through public calls, of what is done with a store's folder: it is added to, read, verified, measured,
//! compacted, and what is expired is removed. There is nothing to call here.
#![tactic(auto)]

#[cfg(test)]
mod adding;
#[cfg(test)]
mod engine;
#[cfg(test)]
mod partial;
#[cfg(test)]
mod reading;
#[cfg(test)]
mod statistics;
#[cfg(test)]
mod upkeep;
#[cfg(test)]
mod views;
