// Numbers, bytes and names that words spell.
ghost use Rattle.std.specs.Prelude.{◌≡◌, ◌⊎◌, List, ℕ, Option, Some, None, IfOk, MatchResult};
ghost use Rattle.dn_script.specs.Text.{number_of, next_of, digits_after, hex_of, byte_of, name_of};

use hex::{FromHex, FromHexError};

// A number with one decimal digit more behind it.
fn next_value(value: u64, digit: u8) -> Option<u64>
    ensures { result ≡ next_of value digit }
{
    if !digit.is_ascii_digit() {
        return None;
    }
    value.checked_mul(10)?.checked_add(u64::from(digit - b'0'))
}

// Decimal digits as a number of 64 bits.
fn digits_value(digits: &[u8]) -> Option<u64>
    ensures { result ≡ digits_after 0 digits.now }
{
    let mut value = 0u64;
    for digit in digits {
        value = next_value(value, *digit)?;
    }
    Some(value)
}

/// The number that a word spells: decimal digits without a sign or a leading zero, at most
/// 18,446,744,073,709,551,615.
pub fn number_of(word: &[u8]) -> Option<u64>
    ensures { result ≡ number_of word.now }
{
    match word {
        [] => None,
        [b'0', _, ..] => None,
        _ => digits_value(word),
    }
}

/// The byte that two hexadecimal digits of either case spell.
pub fn byte_of(word: &[u8]) -> Option<u8>
    ensures { result ≡ byte_of word.now }
{
    let [byte] = <[u8; 1]>::from_hex(word).ok()?;
    Some(byte)
}
