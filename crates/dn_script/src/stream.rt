// Sources of bytes and sinks for bytes, with counts of their faults.
ghost use Rattle.std.specs.Prelude.{◌≡◌, ◌+◌, ◌<◌, ◌≤◌, ℕ, true, false, List, [], ◌∷◌, length, take, vec_len, Option, Some, OnOk, OnErr, IfOk, IfSome};
ghost use Rattle.pm_device.specs.State.{Rose};
ghost use Rattle.dn_script.specs.Streams.{with_front, with_back};

use pm_device::Failed;
use std::alloc::{AllocError, Global};
use thiserror::Error;

/// What bytes are read from.
pub trait Source {
    /// The bytes that are left, where the source tells them.
    ghost left: { Self → Option (List ℕ) };

    /// The faults so far.
    ghost faults: { Self → ℕ };

    /// Moves bytes that are left into the front of the piece, and answers how many. None at a piece that isn't
    /// empty is the end of the input.
    fn take(&mut self, into: &mut [u8]) -> Result<usize, Failed>
        ensures bound { IfOk result (λ n. n ≤ length into.old) }
        ensures moves { IfOk result (λ n. left self.old ≡ with_front (take n into.new)
            (left self.new)) }
        ensures end { IfOk result (λ n. n ≡ 0 → 0 < length into.old
            → IfSome (left self.new) (λ rest. rest ≡ [])) }
        ensures err { OnErr result (left self.new ≡ left self.old) }
        ensures counts { faults self.old ≤ faults self.new }
        ensures cause { OnErr result (Rose (faults self.old) (faults self.new)) };
}

/// What bytes are written to.
pub trait Sink {
    /// The bytes that were taken, where the sink tells them.
    ghost taken: { Self → Option (List ℕ) };

    /// The faults so far.
    ghost faults: { Self → ℕ };

    /// Takes bytes from the front of the piece, and answers how many. To take none of a piece that isn't empty
    /// is a fault.
    fn put(&mut self, bytes: &[u8]) -> Result<usize, Failed>
        ensures bound { IfOk result (λ n. n ≤ length bytes.now) }
        ensures appends { IfOk result (λ n. taken self.new ≡ with_back (taken self.old)
            (take n bytes.now)) }
        ensures some { IfOk result (λ n. 0 < length bytes.now → 0 < n) }
        ensures err { OnErr result (taken self.new ≡ taken self.old) }
        ensures counts { faults self.old ≤ faults self.new }
        ensures cause { OnErr result (Rose (faults self.old) (faults self.new)) };
}

/// Why a source wasn't read to its end.
#[derive(Clone, Copy, Debug, PartialEq, Eq, Error)]
pub enum ReadFault {
    /// A take failed.
    #[error("the source failed")]
    Failed,
    /// The source has more than 16,777,216 bytes.
    #[error("the source is too long")]
    TooLong,
    /// Memory ran out.
    #[error("out of memory")]
    NoMemory,
}

/// The most bytes that a source is read for.
pub const MOST_BYTES: usize = 16_777_216;

// Bytes asked for at once.
const PIECE: usize = 65_536;

// Takes a piece and appends it. Answers whether there was one.
fn read_piece<S: Source>(
    from: &mut S,
    piece: &mut [u8],
    bytes: &mut Vec<u8>,
) -> Result<bool, ReadFault>
    requires some { 0 < length piece.old }
    requires few { vec_len bytes.old ≤ 16777216 }
    ensures together { OnOk result (with_front bytes.old.items (S.left from.old) ≡ with_front
        bytes.new.items (S.left from.new)) }
    ensures few { OnOk result (vec_len bytes.new ≤ 16777216) }
    ensures more { IfOk result (λ more. more ≡ true → vec_len bytes.old < vec_len bytes.new) }
    ensures end { IfOk result (λ more. more ≡ false → IfSome (S.left from.new) (λ rest. rest ≡ [])) }
    ensures long { result ≡ Err ReadFault.TooLong
        → IfSome (with_front bytes.old.items (S.left from.old)) (λ all. 16777216 < length all) }
    ensures counts { S.faults from.old ≤ S.faults from.new }
    ensures cause { result ≡ Err ReadFault.Failed → Rose (S.faults from.old) (S.faults from.new) }
{
    let count = from.take(piece).map_err(|_| ReadFault::Failed)?;
    if count > MOST_BYTES - bytes.len() {
        return Err(ReadFault::TooLong);
    }
    bytes
        .extend_from_slice(&piece[..count])
        .map_err(|_| ReadFault::NoMemory)?;
    Ok(count > 0)
}

// So many zeros.
fn zeros(alloc: Global, count: usize) -> Result<Vec<u8>, AllocError>
    ensures { IfOk result (λ v. vec_len v ≡ count) }
{
    vec![in alloc; 0u8; count]
}

/// Reads a source to its end. Each take is for 65,536 bytes at most.
///
/// `Failed` comes where a take failed, `TooLong` at byte 16,777,217.
pub fn read_to_end<S: Source>(alloc: Global, from: &mut S) -> Result<Vec<u8>, ReadFault>
    ensures whole { IfOk result (λ bytes. IfSome (S.left from.old) (λ rest. bytes.items ≡ rest)) }
    ensures few { IfOk result (λ bytes. vec_len bytes ≤ 16777216) }
    ensures ended { OnOk result (IfSome (S.left from.old) (λ _. S.left from.new ≡ Some [])) }
    ensures long { result ≡ Err ReadFault.TooLong
        → IfSome (S.left from.old) (λ rest. 16777216 < length rest) }
    ensures counts { S.faults from.old ≤ S.faults from.new }
    ensures cause { result ≡ Err ReadFault.Failed → Rose (S.faults from.old) (S.faults from.new) }
{
    let mut buffer = zeros(alloc, PIECE).map_err(|_| ReadFault::NoMemory)?;
    let piece = buffer.as_mut_slice();
    let mut bytes = Vec::new(alloc);
    while read_piece(from, piece, &mut bytes)? {}
    Ok(bytes)
}

/// Writes all bytes. At `Failed` a front of them was taken.
pub fn write_all<K: Sink>(out: &mut K, bytes: &[u8]) -> Result<(), Failed>
    ensures ok { OnOk result (K.taken out.new ≡ with_back (K.taken out.old) bytes.now) }
    ensures err { OnErr result
        ((n : ℕ) × (n ≤ length bytes.now) × (K.taken out.new ≡ with_back (K.taken out.old)
        (take n bytes.now))) }
    ensures counts { K.faults out.old ≤ K.faults out.new }
    ensures cause { OnErr result (Rose (K.faults out.old) (K.faults out.new)) }
{
    let mut at = 0;
    while at < bytes.len() {
        at += out.put(&bytes[at..])?;
    }
    Ok(())
}
