//! The ids of the first elements, while they are few.

ghost use Rattle.std.specs.Prelude.{◌∷◌, ◌++◌, [], ℕ, List, IsTrue};
ghost use Rattle.syslog_reading.specs.FewIds.{IsNew, Keeps};

/// How many ids are kept.
const FEW: usize = 8;

/// The ids that were read, if there are at most eight of them.
#[derive(Clone, Copy)]
pub struct FewIds<'a> {
    ids: [&'a [u8]; FEW],
    /// How many ids were read; nine stands for more than eight.
    count: usize,
}

impl<'a> FewIds<'a> {
    /// The ids of a single element.
    #[inline(always)]
    pub fn of_one(id: &'a [u8]) -> FewIds<'a>
        ensures { Keeps result (id.now ∷ []) }
    {
        FewIds {
            ids: [id; FEW],
            count: 1,
        }
    }

    /// Notes the id that was read next, and keeps it if there is room.
    #[inline(always)]
    pub fn push(&mut self, id: &'a [u8])
        ensures { (ids : List (List ℕ)) → Keeps self.old ids → Keeps self.new (ids ++ id.now ∷ []) }
    {
        if self.count < FEW {
            self.ids[self.count] = id;
            self.count += 1;
        } else {
            self.count = FEW + 1;
        }
    }

    /// Whether an id is none of those that were read. If more were read than are kept, the answer
    /// is false.
    #[inline(always)]
    pub fn lacks(&self, id: &[u8]) -> bool
        ensures { IsTrue result → (ids : List (List ℕ)) → Keeps self.now ids → IsNew id.now ids }
    {
        let Some((kept, _)) = self.ids.split_at_checked(self.count) else {
            return false;
        };
        for i in 0..kept.len() {
            if kept[i] == id {
                return false;
            }
        }
        true
    }
}
