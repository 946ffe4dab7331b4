//! Records and texts that several trials share.

/// A record without a time.
pub const A: &[u8] = b"<13>1 - h a - - - x";

/// A record with a time.
pub const B: &[u8] = b"<14>1 2024-02-29T23:30:00.000000Z h a - - - y";

/// A record with a time before that of B.
pub const C: &[u8] = b"<12>1 2024-02-29T23:00:00.000000Z h a - - - z";

/// The archive of A and B.
pub const AB: &[u8] = b"19 <13>1 - h a - - - x45 <14>1 2024-02-29T23:30:00.000000Z h a - - - y";

/// The archive of A and C.
pub const AC: &[u8] = b"19 <13>1 - h a - - - x45 <12>1 2024-02-29T23:00:00.000000Z h a - - - z";

/// The archive of the three.
pub const ABC: &[u8] = b"19 <13>1 - h a - - - x\
    45 <12>1 2024-02-29T23:00:00.000000Z h a - - - z\
    45 <14>1 2024-02-29T23:30:00.000000Z h a - - - y";

/// A counted stream of B and A.
pub const BA_STREAM: &[u8] = b"38 <14>1 2024-02-29T23:30:00Z h a - - - y19 <13>1 - h a - - - x";

/// A counted stream of C and B.
pub const CB_STREAM: &[u8] =
    b"38 <12>1 2024-02-29T23:00:00Z h a - - - z45 <14>1 2024-02-29T23:30:00.000000Z h a - - - y";
