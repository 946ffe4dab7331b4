//! Numbers that look random, the same ones for the same seed.

ghost use Rattle.std.specs.Prelude.{◌<◌};

/// A generator of numbers (splitmix64).
#[derive(Drop)]
pub struct Random {
    state: u64,
}

impl Random {
    /// The generator that begins with this seed.
    pub fn new(seed: u64) -> Random {
        Random { state: seed }
    }

    /// The next number, of 64 bits.
    pub fn bits(&mut self) -> u64 {
        self.state = self.state.wrapping_add(0x9e37_79b9_7f4a_7c15);
        let mut mixed = self.state;
        mixed = (mixed ^ (mixed >> 30)).wrapping_mul(0xbf58_476d_1ce4_e5b9);
        mixed = (mixed ^ (mixed >> 27)).wrapping_mul(0x94d0_49bb_1331_11eb);
        mixed ^ (mixed >> 31)
    }

    /// A number below a bound; 0 if that is 0.
    pub fn below(&mut self, bound: usize) -> usize
        ensures { 0 < bound → result < bound }
    {
        if bound == 0 {
            return 0;
        }
        (self.bits() % bound as u64) as usize
    }

    /// Whether something happens that happens once in so many times.
    pub fn once_in(&mut self, times: usize) -> bool {
        self.below(times) == 0
    }

    /// One of some texts; an empty one if there are none.
    pub fn one_of<'a>(&mut self, texts: &[&'a [u8]]) -> &'a [u8] {
        match texts.get(self.below(texts.len())) {
            Some(text) => text,
            None => b"",
        }
    }

    /// Puts items into another order.
    pub fn shuffle<T>(&mut self, items: &mut [T]) {
        for last in (1..items.len()).rev() {
            let other = self.below(last + 1);
            items.swap(last, other);
        }
    }
}
