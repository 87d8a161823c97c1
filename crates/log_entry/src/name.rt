// Names that files may have.
ghost use Rattle.std.specs.Prelude.{◌≡◌, ◌≢◌, ◌<◌, ◌≤◌, ◌↔◌, IsTrue, IsNone, IfSome, IfOk, OnOk, IsErrOf};
ghost use Rattle.log_entry.specs.Name.{IsNameByte, IsLegal};

use std::alloc::{AllocError, Global};
use std::marker::Model;
use thiserror::Error;

/// The most bytes that a name has.
pub const MOST_NAME: usize = 255;

/// Why bytes were not taken as a name.
#[derive(Clone, Copy, Debug, PartialEq, Eq, Error)]
pub enum NameFault {
    /// The bytes are no legal name.
    #[error("no legal name")]
    Illegal,
    /// There was no memory for a copy of the bytes.
    #[error("no memory")]
    NoMemory,
}

/// A legal name of a file, seen as its bytes.
///
/// A name has 1 to 255 bytes and is neither `.` nor `..`. Its bytes are any from 33 to 255 but the
/// slash and the delete byte 127, so that a name stands as one word in a text of words.
#[derive(Debug, Drop)]
pub struct Name {
    bytes: Vec<u8>,
}

impl Model for Name {
    ghost use Rattle.std.specs.Prelude.{List, ℕ};

    ghost Value = { List ℕ };

    ghost use Rattle.log_entry.specs.Name.{IsLegal};

    ghost view = { λ n. n.bytes.items };

    ghost invariant = { λ n. IsLegal n.bytes.items };
}

impl Name {
    /// A copy of the bytes as a name. Bytes that are no legal name are answered as such, also where
    /// memory is short.
    pub fn of(alloc: Global, bytes: &[u8]) -> Result<Name, NameFault>
        ensures ok { IfOk result (λ name. name ≡ bytes.now) }
        ensures legal { OnOk result (IsLegal bytes.now) }
        ensures illegal { IsErrOf result NameFault.Illegal ↔ (IsLegal bytes.now → ⊥) }
    {
        if !is_legal(bytes) {
            return Err(NameFault::Illegal);
        }
        match Vec::from_slice(alloc, bytes) {
            Ok(bytes) => Ok(Name { bytes }),
            Err(_) => Err(NameFault::NoMemory),
        }
    }

    /// The name that these bytes are, or None where they are no legal name.
    pub fn of_vec(bytes: Vec<u8>) -> Option<Name>
        ensures some { IfSome result (λ name. name ≡ bytes.items) }
        ensures none { IsNone result ↔ (IsLegal bytes.items → ⊥) }
    {
        if is_legal(&bytes) {
            Some(Name { bytes })
        } else {
            None
        }
    }

    /// The bytes of the name.
    pub fn bytes(&self) -> &[u8]
        ensures bytes { result.now ≡ self.now }
        ensures legal { IsLegal self.now }
    {
        &self.bytes
    }

    /// Whether these bytes are the name's.
    pub fn is(&self, bytes: &[u8]) -> bool
        ensures { IsTrue result ↔ (self.now ≡ bytes.now) }
    {
        self.bytes() == bytes
    }
}

impl Clone for Name {
    ghost is_clone = { λ name copy. copy ≡ name };

    fn clone(&self) -> Result<Name, AllocError>
        ensures { IfOk result (λ copy. copy ≡ self.now) }
    {
        Ok(Name {
            bytes: self.bytes.clone()?,
        })
    }
}

/// Whether these bytes are a name that a file may have.
pub fn is_legal(bytes: &[u8]) -> bool
    ensures { IsTrue result ↔ IsLegal bytes.now }
{
    !bytes.is_empty()
        && bytes.len() <= MOST_NAME
        && bytes != b".".as_slice()
        && bytes != b"..".as_slice()
        && bytes.iter().all(|byte| is_name_byte(*byte))
}

fn is_name_byte(byte: u8) -> bool
    ensures { IsTrue result ↔ IsNameByte byte }
{
    33 <= byte && byte != 127 && byte != b'/'
}
