// A slot of the table of fingerprints.
ghost use Rattle.std.specs.Prelude.{◌≡◌, ◌++◌, ◌%◌, ◌^◌};
ghost use Rattle.byteorder.specs.Endian.{big_bytes};
ghost use Rattle.fingerprint.specs.Print.{IsPrint};

use crate::count::{CountWord, low_half};
use byteorder::{BigEndian, ByteOrder};

/// A slot of the table of fingerprints: a row, and the way to the next row of its chain.
#[derive(Clone, Copy, Debug, PartialEq, Eq)]
pub struct FactSlot {
    /// The number of the page that the row stands for.
    pub page: u64,
    /// The fingerprint of that page.
    pub print: [u8; 20],
    /// How often the page is used.
    pub count: CountWord,
    /// The number of the next slot of the chain, 0 for none.
    pub next: u64,
}

// The print whose three words these are, the last of 32 bits.
fn print_of(first: u64, second: u64, third: u32) -> [u8; 20]
    ensures print { IsPrint result }
    ensures spelled { result ≡ big_bytes 8 first ++ big_bytes 8 second ++ big_bytes 4 third }
{
    let mut print = [0; 20];
    BigEndian::write_u64(&mut print[..8], first);
    BigEndian::write_u64(&mut print[8..16], second);
    BigEndian::write_u32(&mut print[16..], third);
    print
}

impl FactSlot {
    ghost use Rattle.fingerprint.specs.Slot.{IsSlot, IsReadFrom, IsTheSlotOf, slot_words};

    /// The eight words of the slot: the page, the print in three words, the counts, the next slot, and
    /// two words that are 0.
    pub fn words(&self) -> [u64; 8]
        ensures { result ≡ slot_words self.now }
    {
        [
            self.page,
            BigEndian::read_u64(&self.print[..8]),
            BigEndian::read_u64(&self.print[8..16]),
            u64::from(BigEndian::read_u32(&self.print[16..])),
            self.count.word(),
            self.next,
            0,
            0,
        ]
    }

    /// The slot that the words hold. Of word 3 the low half is read, of words 6 and 7 nothing.
    pub fn of_words(words: &[u64; 8]) -> FactSlot
        ensures read { IsReadFrom words.now result }
        ensures fits { IsSlot result }

        // The words of a slot give that slot back.
        ensures back { IsTheSlotOf words.now result }
    {
        let [page, first, second, third, count, next, _, _] = *words;
        FactSlot {
            page,
            print: print_of(first, second, low_half(third)),
            count: CountWord::of_word(count),
            next,
        }
    }
}
