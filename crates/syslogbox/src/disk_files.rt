//! The files of the system.

ghost use Rattle.std.specs.Prelude.{None};

use crate::meter::{MeteredReader, SharedMeter, file_octets};
use commands::Files;
use octet_devices::FromRead;
use std::alloc::Global;
use std::fs::File;
use std::{io, rt};

/// A file that was not opened, and why.
#[derive(Drop)]
pub struct UnopenedFile {
    pub name: String,
    pub error: io::Error,
}

/// The files of the system, whose octets a meter counts. No contract knows them.
#[derive(Drop)]
pub struct DiskFiles<'a, 'm, 'r, R> {
    rt: &'a R,
    alloc: Global,
    meter: SharedMeter<'m, 'r>,
    unopened: Option<UnopenedFile>,
}

impl<'a, 'm, 'r, R: rt::Files> DiskFiles<'a, 'm, 'r, R> {
    /// The files that this runtime opens.
    pub fn new(rt: &'a R, alloc: Global, meter: SharedMeter<'m, 'r>) -> DiskFiles<'a, 'm, 'r, R> {
        DiskFiles {
            rt,
            alloc,
            meter,
            unopened: None,
        }
    }

    /// The first file that was not opened; None too where memory ran out for its name.
    pub fn unopened(&self) -> Option<&UnopenedFile> {
        self.unopened.as_ref()
    }
}

impl<'a, 'm, 'r, R: rt::Files> Files for DiskFiles<'a, 'm, 'r, R> {
    type Reader = FromRead<MeteredReader<'m, 'r, R::File>>;

    ghost stored = { λ _. None };

    fn reader(&mut self, name: &str) -> Option<FromRead<MeteredReader<'m, 'r, R::File>>> {
        match File::open(self.rt, name) {
            Ok(reader) => {
                let meter = self.meter;
                meter.expect_more(file_octets(self.rt, name));
                Some(FromRead::new(MeteredReader { reader, meter }))
            }
            Err(error) => {
                if self.unopened.is_none() {
                    let name = String::from_str(self.alloc, name).ok();
                    self.unopened = name.map(|name| UnopenedFile { name, error });
                }
                None
            }
        }
    }
}
