// Fingerprints of pages.
ghost use Rattle.std.specs.Prelude.{◌≡◌, ◌%◌, ◌^◌, List, ℕ, sum};
ghost use Rattle.sha1.specs.Sha1.{sha1};
ghost use Rattle.fingerprint.specs.Print.{IsPrint, sum_print};

use byteorder::{BigEndian, ByteOrder};
use sha1::Sha1;

/// A fingerprint: a function of a page's bytes alone. All values of one type give equal bytes the
/// same print.
pub trait Fingerprint: Copy {
    /// The print of a list of bytes.
    ghost print: { List ℕ → List ℕ };

    /// It has 20 bytes.
    ghost is_print: { (bytes : List ℕ) → IsPrint (print bytes) };

    /// The print of a page, or of any bytes.
    fn of(&self, page: &[u8]) -> [u8; 20]
        ensures { result ≡ print page.now };
}

/// SHA-1 (FIPS 180-4).
#[derive(Clone, Copy, Debug)]
pub struct Sha1Print;

impl Fingerprint for Sha1Print {
    ghost use Rattle.sha1.specs.Sha1.{sha1};
    ghost use Rattle.fingerprint.specs.PrintLaws.{sha1-print};

    ghost print = { sha1 };

    ghost is_print = { sha1-print };

    fn of(&self, page: &[u8]) -> [u8; 20] {
        Sha1::digest(page)
    }
}

/// The sum of the bytes modulo 2^32, as four big-endian bytes, and then 16 zeros. Many pages have one
/// print, so this is for tests of what happens then.
#[derive(Clone, Copy, Debug)]
pub struct SumPrint;

// The sum of the bytes modulo 2^32.
fn byte_sum(bytes: &[u8]) -> u32
    ensures { result ≡ sum bytes.now % 2 ^ 32 }
{
    let mut total = 0u32;
    for byte in bytes {
        total = total.wrapping_add(u32::from(*byte));
    }
    total
}

impl Fingerprint for SumPrint {
    ghost use Rattle.fingerprint.specs.Print.{sum_print};
    ghost use Rattle.fingerprint.specs.PrintLaws.{sum-print};

    ghost print = { sum_print };

    ghost is_print = { sum-print };

    fn of(&self, page: &[u8]) -> [u8; 20] {
        let mut print = [0; 20];
        BigEndian::write_u32(&mut print, byte_sum(page));
        print
    }
}
