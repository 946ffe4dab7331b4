//! Tests of `syslog_legacy` by its public calls: packets and what they mean.
#![tactic(auto)]

#[cfg(test)]
mod commands;
#[cfg(test)]
mod faults;
#[cfg(test)]
mod forms;
#[cfg(test)]
mod wide;
