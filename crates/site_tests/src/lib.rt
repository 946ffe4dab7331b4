//! Tests of sites that are reconciled, through their public calls. There is nothing to call here.
#![tactic(auto)]

#[cfg(test)]
mod meetings;
#[cfg(test)]
mod ranges;
#[cfg(test)]
mod sets;
