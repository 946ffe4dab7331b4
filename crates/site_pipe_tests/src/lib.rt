//! Tests of sites over a pipe, through their public calls. There is nothing to call here.
#![tactic(auto)]

#[cfg(test)]
mod answers;
#[cfg(test)]
mod exchanges;
#[cfg(test)]
mod requests;
#[cfg(test)]
mod support;
