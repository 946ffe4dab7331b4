//! What `backup` does, over any folder and any disk: [`backup_store`] copies a store, and tells how much it copied and
//! what is damaged.
#![tactic(auto)]

mod lines;
mod run;

pub use run::backup_store;
