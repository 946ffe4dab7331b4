//! Tests of sites over folders in memory, through their public calls. There is nothing to call here.
#![tactic(auto)]

#[cfg(test)]
mod exchanges;
#[cfg(test)]
mod sites;
#[cfg(test)]
mod views;
