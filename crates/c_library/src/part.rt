//! Parts of a record, each with where it lies.

ghost use Rattle.c_library.specs.PartSpans.{part_span, placed};
ghost use Rattle.std.specs.Prelude.{◌≡◌, ◌+◌, length};

use crate::span::SyslogboxSpan;

/// A part of a record, and its octets.
#[repr(C)]
#[derive(Clone, Copy)]
pub struct SyslogboxPartSpan {
    /// Which part: a number of `enum syslogbox_part`.
    pub part: u32,
    /// Where it lies in the record.
    pub span: SyslogboxSpan,
}

impl SyslogboxPartSpan {
    /// The part of this number whose octets begin there.
    pub fn new(part: u32, offset: usize, len: usize) -> SyslogboxPartSpan
        ensures { result ≡ part_span part offset len }
    {
        SyslogboxPartSpan {
            part,
            span: SyslogboxSpan { offset, len },
        }
    }
}

/// Puts spans into the room, the first at this index, as far as the room goes.
pub fn place(spans: &[SyslogboxPartSpan], room: &mut [SyslogboxPartSpan], at: usize)
    ensures { room.new ≡ placed at spans.now room.old }
{
    if at >= room.len() {
        return;
    }
    let fitting = spans.len().min(room.len() - at);
    room[at..at + fitting].copy_from_slice(&spans[..fitting]);
}
