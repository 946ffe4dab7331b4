//! Tests of `syslog_grammar` by its public calls: tables of octets and what they mean.
#![tactic(auto)]

#[cfg(test)]
mod calls;
#[cfg(test)]
mod canonical;
#[cfg(test)]
mod example;
#[cfg(test)]
mod ids;
#[cfg(test)]
mod reading;
