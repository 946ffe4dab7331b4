//! How much crossed.

/// Records, and octets of all messages.
#[derive(Clone, Copy, Debug, PartialEq, Eq)]
pub struct Amount {
    /// How many records.
    pub records: u64,
    /// How many octets, those of lines, ranges and parts too.
    pub octets: u64,
}

/// How much crossed.
#[derive(Clone, Copy, Debug, PartialEq, Eq)]
pub struct Traffic {
    /// How many requests were sent, or answered.
    pub requests: u64,
    /// What was sent.
    pub sent: Amount,
    /// What was got.
    pub got: Amount,
}

impl Amount {
    /// Nothing.
    pub(crate) fn new() -> Amount {
        Amount {
            records: 0,
            octets: 0,
        }
    }

    /// Counts records.
    pub(crate) fn add_records(&mut self, records: usize) {
        self.records = self.records.saturating_add(records as u64);
    }

    /// Counts octets.
    pub(crate) fn add_octets(&mut self, octets: usize) {
        self.octets = self.octets.saturating_add(octets as u64);
    }
}

impl Traffic {
    /// Nothing yet.
    pub(crate) fn new() -> Traffic {
        Traffic {
            requests: 0,
            sent: Amount::new(),
            got: Amount::new(),
        }
    }

    /// Counts a request.
    pub(crate) fn add_request(&mut self) {
        self.requests = self.requests.saturating_add(1);
    }
}
