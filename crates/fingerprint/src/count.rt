// The two counts of a row, in one word.
ghost use Rattle.std.specs.Prelude.{◌≡◌, ◌+◌, ◌-◌, ◌/◌, ◌%◌, ◌^◌, ◌<◌, ◌≤◌};
ghost use Rattle.fingerprint.specs.Count.{count_word};

/// The counts of a row: the high half of their word is `rfc`, the low half `uc`.
#[derive(Clone, Copy, Debug, PartialEq, Eq)]
pub struct CountWord {
    /// The count of references: how many places of files map the row's page.
    pub rfc: u32,
    /// The count of updates: how many changes of `rfc` are under way.
    pub uc: u32,
}

// The low half of a word.
pub(crate) fn low_half(word: u64) -> u32
    ensures { result ≡ word % 2 ^ 32 }
{
    (word & 0xFFFF_FFFF) as u32
}

impl CountWord {
    /// The counts that a word holds.
    pub fn of_word(word: u64) -> CountWord
        ensures rfc { result.rfc ≡ word / 2 ^ 32 }
        ensures uc { result.uc ≡ word % 2 ^ 32 }
        ensures same { count_word result.rfc result.uc ≡ word }
    {
        CountWord {
            rfc: (word >> 32) as u32,
            uc: low_half(word),
        }
    }

    /// The word that holds the counts.
    pub fn word(self) -> u64
        ensures { result ≡ count_word self.rfc self.uc }
    {
        u64::from(self.rfc) << 32 | u64::from(self.uc)
    }

    /// The counts with one more update under way.
    pub fn raised(self) -> CountWord
        requires { self.uc < u32.MAX }
        ensures { result ≡ record self { uc = self.uc + 1 } }
    {
        CountWord {
            rfc: self.rfc,
            uc: self.uc + 1,
        }
    }

    // One update is made, and left this count of references.
    fn settled(self, rfc: u32) -> CountWord
        requires { 1 ≤ self.uc }
        ensures { result ≡ record { rfc = rfc; uc = self.uc - 1 } }
    {
        CountWord {
            rfc,
            uc: self.uc - 1,
        }
    }

    /// The counts after an update that adds a reference.
    pub fn up(self) -> CountWord
        requires under_way { 1 ≤ self.uc }
        requires fits { self.rfc < u32.MAX }
        ensures { result ≡ record { rfc = self.rfc + 1; uc = self.uc - 1 } }
    {
        self.settled(self.rfc + 1)
    }

    /// The counts after an update that takes a reference away.
    pub fn down(self) -> CountWord
        requires under_way { 1 ≤ self.uc }
        requires some { 1 ≤ self.rfc }
        ensures { result ≡ record { rfc = self.rfc - 1; uc = self.uc - 1 } }
    {
        self.settled(self.rfc - 1)
    }
}
