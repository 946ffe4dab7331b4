//! Each call of the archives that takes memory, with its outcome on a line. If an allocation fails,
//! the line says so, and whether the set is as it was; the call is then made again. If the trial
//! itself gets no memory, it ends.

use crate::room::Room;
use crate::rows::{A, AB, ABC, AC, B};
use archive_pages::PagedArchive;
use archive_text::{AddFault, Store};
use archive_vec::{ReadFault, VecArchive, merge};
use octet_devices::{ToWrite, WriteFault};
use std::alloc::{AllocError, Global};
use std::io;
use std::io::Write;
use syslog_grammar::{RecordView, view};
use syslog_value::Record;

/// A trial over one store.
#[derive(Drop)]
struct Trial<'a, P, S> {
    rt: &'a P,
    alloc: Global,
    name: &'a str,
    room: Room,
    store: S,
}

impl<'a, P: Print, S: Store> Trial<'a, P, S> {
    fn add(&mut self, record: &Record) -> io::Result<()> {
        let name = self.name;
        self.room.keep(&self.store);
        let (note, answer) = match self.store.add(self.alloc, record) {
            Err(AddFault::Memory) => {
                let note = self.room.left(&self.store);
                (note, self.store.add(self.alloc, record))
            }
            answer => ("", answer),
        };
        println!(self.rt; "{name} add: {note}{answer:?}")
    }

    fn add_view(&mut self, shown: &RecordView<'_>) -> io::Result<()> {
        let name = self.name;
        self.room.keep(&self.store);
        let (note, answer) = match self.store.add_view(self.alloc, shown) {
            Err(AddFault::Memory) => {
                let note = self.room.left(&self.store);
                (note, self.store.add_view(self.alloc, shown))
            }
            answer => ("", answer),
        };
        println!(self.rt; "{name} add_view: {note}{answer:?}")
    }

    fn holds(&mut self, record: &Record) -> io::Result<()> {
        let name = self.name;
        self.room.keep(&self.store);
        let (note, answer) = match self.store.holds(self.alloc, record) {
            Err(AllocError) => {
                let note = self.room.left(&self.store);
                (note, self.store.holds(self.alloc, record))
            }
            answer => ("", answer),
        };
        println!(self.rt; "{name} holds: {note}{answer:?}")
    }
}

impl<'a, P: Print, S: Store> Trial<'a, P, S> {
    /// Adds 600 more records, in an order that fills pages from their middles.
    fn add_many(&mut self) -> io::Result<()> {
        let name = self.name;
        let mut octets = Vec::with_capacity(self.alloc, 64)?;
        let mut refused = false;
        let mut kept = true;
        for number in 0..600_u32 {
            octets.clear();
            let number = 1000 + number * 7 % 600;
            write!(octets, "<0>1 - - - - - - {number}")?;
            let Ok(shown) = view(&octets) else {
                return println!(self.rt; "{name} add_view of many: no record");
            };
            self.room.keep(&self.store);
            if let Err(AddFault::Memory) = self.store.add_view(self.alloc, &shown) {
                refused = true;
                kept &= self.room.is_kept(&self.store);
                let _ = self.store.add_view(self.alloc, &shown);
            }
        }
        let count = self.store.len();
        let note = match (refused, kept) {
            (false, _) => "",
            (true, true) => "memory, unchanged; ",
            (true, false) => "memory, changed; ",
        };
        println!(self.rt; "{name} add_view of many: {note}{count} records")
    }

    /// The text is written into memory that grows. An allocation that fails is the writer's fault,
    /// and what was written is a prefix.
    fn write(&mut self) -> io::Result<()> {
        let name = self.name;
        self.room.keep(&self.store);
        let mut writer = ToWrite::new(Vec::new(self.alloc));
        let mut note = "";
        if let Err(WriteFault { sent }) = self.store.write(&mut writer) {
            note = self.room.prefix(&writer.into_inner(), sent);
            writer = ToWrite::new(Vec::new(self.alloc));
            let _ = self.store.write(&mut writer);
        }
        let octets = writer.into_inner().len();
        println!(self.rt; "{name} write: {note}{octets} octets")
    }
}

/// Two records, each as its octets show it and as it is owned.
#[derive(Drop)]
struct Given<'a, 'b> {
    shown: &'b RecordView<'a>,
    record: &'b Record,
}

impl<'a, P: Print, S: Store> Trial<'a, P, S> {
    /// Every call of the store, with a record that is added first and one that comes later.
    fn all(&mut self, one: &Given<'_, '_>, other: &Given<'_, '_>) -> io::Result<()> {
        self.add(one.record)?;
        self.add(one.record)?;
        self.add_view(one.shown)?;
        self.holds(one.record)?;
        self.holds(other.record)?;
        self.add_view(other.shown)?;
        self.add_view(other.shown)?;
        self.add_many()?;
        self.write()
    }
}

/// Every call of a store.
fn store<S: Store + Drop>(rt: &impl Print, alloc: Global, name: &str, store: S) -> io::Result<()> {
    let (Ok(one), Ok(other)) = (view(B), view(A)) else {
        return println!(rt; "{name}: no records");
    };
    let record = one.to_record(alloc)?;
    let later = other.to_record(alloc)?;
    let mut trial = Trial {
        rt,
        alloc,
        name,
        room: Room::new(alloc)?,
        store,
    };
    let one = Given {
        shown: &one,
        record: &record,
    };
    let other = Given {
        shown: &other,
        record: &later,
    };
    trial.all(&one, &other)
}

/// What is given by a call that reads or makes an archive.
fn tell(
    rt: &impl Print,
    room: &mut Room,
    name: &str,
    note: &str,
    archive: Option<VecArchive>,
    text: &[u8],
) -> io::Result<()> {
    match archive {
        None => println!(rt; "{name}: {note}refused"),
        Some(archive) if room.is_text(&archive, text) => {
            let count = archive.len();
            println!(rt; "{name}: {note}{count} records")
        }
        Some(_) => println!(rt; "{name}: {note}another text"),
    }
}

/// An archive that is read from its text.
fn read(rt: &impl Print, alloc: Global, room: &mut Room, text: &[u8]) -> io::Result<()> {
    let (note, answer) = match VecArchive::read(alloc, text) {
        Err(ReadFault::Memory) => ("memory; ", VecArchive::read(alloc, text)),
        answer => ("", answer),
    };
    tell(rt, room, "read", note, answer.ok(), text)
}

/// Two archives that become one.
fn merge_both(rt: &impl Print, alloc: Global, room: &mut Room) -> io::Result<()> {
    let (Ok(left), Ok(right)) = (VecArchive::read(alloc, AC), VecArchive::read(alloc, AB)) else {
        return Err(AllocError)?;
    };
    let (note, answer) = match merge(alloc, &left, &right) {
        Err(AllocError) => ("memory; ", merge(alloc, &left, &right)),
        answer => ("", answer),
    };
    tell(rt, room, "merge", note, answer.ok(), ABC)
}

/// Every call of both archives. It fails if the trial itself gets no memory or cannot print.
pub fn archive(rt: &impl Print, alloc: Global) -> io::Result<()> {
    store(rt, alloc, "sorted", VecArchive::new(alloc))?;
    store(rt, alloc, "paged", PagedArchive::new(alloc))?;
    let mut room = Room::new(alloc)?;
    read(rt, alloc, &mut room, ABC)?;
    merge_both(rt, alloc, &mut room)
}
