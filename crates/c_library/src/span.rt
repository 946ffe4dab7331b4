//! Where octets lie in others.

/// Octets of a record.
#[repr(C)]
#[derive(Clone, Copy)]
pub struct SyslogboxSpan {
    /// The offset of the first of them, from 0.
    pub offset: usize,
    /// How many they are.
    pub len: usize,
}
