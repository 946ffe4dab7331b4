//! The archive in memory as a store.

use crate::vec_archive::VecArchive;
use archive_text::{AddFault, Added, Store};
use octet_devices::{Output, WriteFault};
use std::alloc::{AllocError, Global};
use syslog_grammar::RecordView;
use syslog_value::Record;

impl Store for VecArchive {
    ghost entries = { λ a. a.list };

    ghost archive = { λ a. a.archive };

    fn add(&mut self, alloc: Global, record: &Record) -> Result<Added, AddFault> {
        VecArchive::add(self, alloc, record)
    }

    fn add_view(&mut self, alloc: Global, view: &RecordView<'_>) -> Result<Added, AddFault> {
        VecArchive::add_view(self, alloc, view)
    }

    fn holds(&self, alloc: Global, record: &Record) -> Result<bool, AllocError> {
        VecArchive::holds(self, alloc, record)
    }

    fn len(&self) -> usize {
        VecArchive::len(self)
    }

    fn write<W: Output>(&self, writer: &mut W) -> Result<(), WriteFault> {
        VecArchive::write(self, writer)
    }
}
