//! Tests of archives and of the collector through their public calls. There is nothing to call
//! here.
#![tactic(auto)]

#[cfg(test)]
mod archives;
#[cfg(test)]
mod collectors;
#[cfg(test)]
mod legacy;
#[cfg(test)]
mod migrations;
#[cfg(test)]
mod refusals;
#[cfg(test)]
mod sorting;
#[cfg(test)]
mod spilled;
#[cfg(test)]
mod support;
#[cfg(test)]
mod writers;
