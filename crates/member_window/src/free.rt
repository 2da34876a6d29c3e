//! Which packet identifiers are free: a row of 256 bits.
ghost use Rattle.std.specs.Prelude.{◌≡◌, ◌≢◌, ℕ, ◌-◌, ◌<◌, ◌≤◌};
ghost use Rattle.member_window.specs.Free.{bit, AreAllFree, IsLeastBit};

/// How many identifiers a word has a bit for.
const WORD_BITS: usize = 64;

/// How many words there are, for 256 identifiers.
const WORDS: usize = 4;

/// A row of bits, one for each identifier from 1 to 256: 1 where it is free.
#[derive(Drop)]
pub(crate) struct FreeIdentifiers {
    // Bit `k % 64` of word `k / 64` is that of the identifier `k + 1`.
    words: [u64; WORDS],
}

impl FreeIdentifiers {
    /// All are free.
    pub(crate) fn all() -> FreeIdentifiers
        ensures { AreAllFree result.words }
    {
        FreeIdentifiers {
            words: [u64::MAX; WORDS],
        }
    }

    /// The least one that is free, if there is one.
    pub(crate) fn least(&self) -> u16
        requires { (k : ℕ) × (k < 256) × (bit self.now.words k ≡ 1) }
        ensures { IsLeastBit self.now.words result }
    {
        for place in 0..WORDS {
            let word = self.words[place];
            if word != 0 {
                return (place * WORD_BITS + word.trailing_zeros() as usize) as u16 + 1;
            }
        }
        unreachable!()
    }

    /// This one is used from now on.
    pub(crate) fn take(&mut self, identifier: u16)
        requires { (1 ≤ identifier) × (identifier ≤ 256) }
        ensures this { bit self.new.words (identifier - 1) ≡ 0 }
        ensures others { (k : ℕ) → k < 256 → k ≢ identifier - 1 → bit self.new.words k ≡ bit self.old.words k }
    {
        let place = usize::from(identifier) - 1;
        self.words[place / WORD_BITS] &= !(1u64 << (place % WORD_BITS));
    }

    /// This one is free from now on.
    pub(crate) fn give(&mut self, identifier: u16)
        requires { (1 ≤ identifier) × (identifier ≤ 256) }
        ensures this { bit self.new.words (identifier - 1) ≡ 1 }
        ensures others { (k : ℕ) → k < 256 → k ≢ identifier - 1 → bit self.new.words k ≡ bit self.old.words k }
    {
        let place = usize::from(identifier) - 1;
        self.words[place / WORD_BITS] |= 1u64 << (place % WORD_BITS);
    }
}
