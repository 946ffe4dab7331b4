//! Names of files that are left out.

ghost use Rattle.std.specs.Prelude.{◌≡◌, IfOk};
ghost use Rattle.read_engine.specs.LeftOut.{Indexes, is_among};

use disk::FileName;
use std::alloc::{AllocError, Global};
use std::collections::BTreeSet;

/// Names of files that are left out. Whether a name is one of them takes logarithmic time.
#[derive(Drop)]
pub(crate) struct LeftOut {
    names: Vec<FileName>,
    index: BTreeSet<Vec<u8>>,
    ghost indexed: { Indexes index names.items },
}

// The octets of names, each once, in order.
fn index_of(alloc: Global, names: &[FileName]) -> Result<BTreeSet<Vec<u8>>, AllocError>
    ensures { IfOk result (λ index. Indexes index names.now) }
{
    let mut index = BTreeSet::new(alloc);
    'names: for name in names {
        index.insert(name.as_octets().to_vec(alloc)?)?;
    }
    Ok(index)
}

impl LeftOut {
    /// These names. It fails only when out of memory.
    pub(crate) fn new(alloc: Global, names: Vec<FileName>) -> Result<LeftOut, AllocError>
        ensures { IfOk result (λ left_out. left_out.names.items ≡ names.items) }
    {
        let index = index_of(alloc, &names)?;
        Ok(LeftOut { names, index })
    }

    /// Whether a name is one of them.
    pub(crate) fn has(&self, name: &FileName) -> bool
        ensures { result ≡ is_among self.now.names.items name.now }
    {
        self.index.contains(name.as_octets())
    }
}
