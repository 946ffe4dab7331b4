//! What was written to a file since it was last brought to the disk.

use crate::transfers::write_from;
use std::alloc::{AllocError, Global};
use std::io::{self, Seek, Write};

// How many octets are kept of a file that is new: as many as a journal has that is made. Any other new
// file is a draft, which is removed where its sync fails.
const NEW_KEPT_MAX: usize = 4_096;

// Octets that were written, and where.
#[derive(Drop)]
struct Piece {
    at: u64,
    octets: Vec<u8>,
}

/// What was written to a file since it was last brought to the disk.
///
/// Where a sync finds no room on the disk, the system may drop what it was to bring there, and a later
/// sync would know nothing of it. So what was written is kept until a sync has brought it to the disk,
/// and is written again where one had no room. Where not all of it is kept, the file is not used any
/// more.
#[derive(Drop)]
pub(crate) struct Unsynced {
    alloc: Global,
    pieces: Vec<Piece>,
    len: usize,
    is_new: bool,
    // something was written that is not kept
    is_partial: bool,
    // a sync had no room, and none has brought it to the disk since
    is_doubtful: bool,
    // so that it may be gone, and has not been written again
    is_dropped: bool,
}

impl Unsynced {
    /// Of a file that was just made.
    pub(crate) fn of_new(alloc: Global) -> Unsynced {
        Unsynced {
            alloc,
            pieces: Vec::new(alloc),
            len: 0,
            is_new: true,
            is_partial: false,
            is_doubtful: false,
            is_dropped: false,
        }
    }

    /// Of a file that was there: what another process wrote to it is not known.
    pub(crate) fn of_found(alloc: Global) -> Unsynced {
        Unsynced {
            is_new: false,
            is_partial: true,
            ..Unsynced::of_new(alloc)
        }
    }

    /// Something was written that is not kept.
    pub(crate) fn pass_over(&mut self) {
        self.pieces.clear();
        self.is_partial = true;
    }

    fn keep(&mut self, at: u64, octets: &[u8]) -> Result<(), AllocError> {
        let mut kept = Vec::with_capacity(self.alloc, octets.len())?;
        kept.extend_from_slice(octets)?;
        self.pieces.push(Piece { at, octets: kept })?;
        Ok(())
    }

    /// These octets were written at an offset.
    pub(crate) fn wrote(&mut self, at: u64, octets: &[u8]) {
        if self.is_partial {
            return;
        }
        self.len = self.len.saturating_add(octets.len());
        if self.is_new && self.len > NEW_KEPT_MAX {
            self.pass_over();
            return;
        }
        if self.keep(at, octets).is_err() {
            self.pass_over();
        }
    }

    /// The file was cut: what was written before is kept only if there is none.
    pub(crate) fn was_cut(&mut self) {
        if !self.pieces.is_empty() {
            self.pass_over();
        }
    }

    /// All of it is on the disk.
    pub(crate) fn settle(&mut self) {
        self.pieces.clear();
        self.len = 0;
        self.is_new = false;
        self.is_partial = false;
        self.is_doubtful = false;
        self.is_dropped = false;
    }

    /// A sync had no room.
    pub(crate) fn doubt(&mut self) {
        self.is_doubtful = true;
        self.is_dropped = true;
    }

    /// Whether a sync had no room, and what was written has not been brought to the disk since.
    pub(crate) fn is_doubtful(&self) -> bool {
        self.is_doubtful
    }

    /// Where a sync had no room, writes what was written before again.
    ///
    /// # Errors
    /// That of the system, or that not all of it is kept.
    pub(crate) fn restore<F: Write + Seek>(&mut self, file: &mut F) -> io::Result<()> {
        if !self.is_dropped {
            return Ok(());
        }
        if self.is_partial {
            return Err(io::Error::other(
                "a sync had no room, and what it was to bring to the disk is lost",
            ));
        }
        for piece in &self.pieces {
            write_from(file, piece.at, &piece.octets)?;
        }
        self.is_dropped = false;
        Ok(())
    }
}
