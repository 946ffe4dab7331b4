//! Syslog records as octets (RFC 5424, section 6): what `syslog_reading` reads, and the canonical
//! form, which is written and recognized.
#![tactic(auto)]

mod canonical;
mod canonical_data;
mod canonical_form;
mod canonical_len;
mod canonical_octets;
mod canonical_view;
mod civil_text;
mod few_elements;
pub mod fields;
mod law;
mod record_fields;
mod reescaped;
mod sorted;

pub use canonical::canon;
pub use canonical_form::{is_canon, is_canon_unsorted, view_and_form};
pub use canonical_octets::write_canonical_octets;
pub use canonical_view::write_canonical_view;
pub use civil_text::canonical_timestamp;
pub use law::{
    canonical_is_bounded, canonical_is_injective, canonical_is_well_formed,
    faulty_octets_are_no_record, octets_are_one_record, octets_have_one_fault,
    std_utf8_is_that_of_the_table, well_formed_is_a_record,
};
pub use record_fields::{RecordFields, write_canonical_fields};
pub use syslog_fields::text::utf8;
pub use syslog_reading::whole::{fault_of, view};
pub use syslog_reading::{
    DecodeFault, ElementView, Elements, Fault, Field, ParamView, Params, RecordView, decode,
    same_value,
};
