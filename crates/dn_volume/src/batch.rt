// Copies of pages, whose prints are taken without the device.
ghost use Rattle.std.specs.Prelude.{◌≡◌, ◌==◌, ℕ, List, [], ◌∷◌, ◌++◌, length, map, Some, None, IfSome, IfNone, IfOk, IfErr};
ghost use Rattle.dn_volume.specs.Batches.{CopiedPage, IsPrinted, with_print, Serves, HasServing};
ghost use Rattle.std.specs.List.{list_any};

use fingerprint::Fingerprint;
use std::alloc::{AllocError, Global};
use std::marker::Model;

/// A copy of a page: the page's number, its 4,096 bytes, and their print once that was taken.
///
/// A contract sees these three. A print that it has is that of the copied bytes.
#[derive(Drop)]
pub struct BatchPage<F: Fingerprint> {
    number: u64,
    bytes: Vec<u8>,
    taken: Option<[u8; 20]>,
    by: F,
}

impl<F: Fingerprint> Model for BatchPage<F> {
    ghost Value = { CopiedPage };

    ghost view = { λ c. record { page = c.number; bytes = c.bytes.items; print = c.taken } };

    ghost invariant = { λ c. IsPrinted F.print c.bytes.items c.taken };
}

impl<F: Fingerprint> BatchPage<F> {
    /// A copy of a page, without its print.
    pub fn new(page: u64, bytes: Vec<u8>, by: F) -> BatchPage<F>
        requires { length bytes.items ≡ 4096 }
        ensures { result ≡ record { page = page; bytes = bytes.items; print = None } }
    {
        BatchPage {
            number: page,
            bytes,
            taken: None,
            by,
        }
    }

    /// The page's number.
    pub fn page(&self) -> u64
        ensures { result ≡ self.now.page }
    {
        self.number
    }

    /// The copied bytes.
    pub fn bytes(&self) -> &[u8]
        ensures bytes { result.now ≡ self.now.bytes }
        ensures whole { length result.now ≡ 4096 }
    {
        &self.bytes
    }

    /// The print of the copied bytes, if it was taken.
    pub fn print(&self) -> Option<[u8; 20]>
        ensures print { result ≡ self.now.print }
        ensures of_bytes { IfSome result (λ taken. taken ≡ F.print self.now.bytes) }
    {
        self.taken
    }

    /// Takes the print of the copied bytes.
    pub fn hash(&mut self)
        ensures { self.new ≡ with_print F.print self.old }
    {
        self.taken = Some(self.by.of(&self.bytes));
    }

    // The print, if the copy is of this page and has these bytes.
    fn print_if(&self, page: u64, bytes: &[u8]) -> Option<[u8; 20]>
        ensures serves { IfSome result (λ taken. Serves page bytes.now taken self.now) }
        ensures of_bytes { IfSome result (λ taken. taken ≡ F.print bytes.now) }
        ensures none { IfNone result ((taken : List ℕ)
            → Serves page bytes.now taken self.now → ⊥) }
    {
        if self.number == page && self.bytes.as_slice() == bytes {
            self.taken
        } else {
            None
        }
    }
}

// Takes the print of each copy.
fn hash_copies<F: Fingerprint>(copies: &mut [BatchPage<F>])
    ensures { copies.new ≡ map (with_print F.print) copies.old }
{
    for copy in copies.iter_mut() {
        copy.hash();
    }
}

/// Copies of pages.
///
/// A contract sees their list.
#[derive(Drop)]
pub struct Batch<F: Fingerprint> {
    copies: Vec<BatchPage<F>>,
}

impl<F: Fingerprint> Model for Batch<F> {
    ghost Value = { List CopiedPage };

    ghost view = { λ b. b.copies.items };
}

impl<F: Fingerprint> Batch<F> {
    /// A batch of no page, which takes no memory.
    pub fn new(alloc: Global) -> Batch<F>
        ensures { result ≡ [] }
    {
        Batch {
            copies: Vec::new(alloc),
        }
    }

    /// Puts a copy behind the others.
    ///
    /// # Errors
    /// `AllocError` where there is no memory for it. The batch is what it was then.
    pub fn push(&mut self, copy: BatchPage<F>) -> Result<(), AllocError>
        ensures pushed { IfOk result (λ _. self.new ≡ self.old ++ copy ∷ []) }
        ensures kept { IfErr result (λ _. self.new ≡ self.old) }
    {
        self.copies.push(copy)?;
        Ok(())
    }

    /// The copies.
    pub fn pages(&self) -> &[BatchPage<F>]
        ensures { result.now ≡ self.now }
    {
        &self.copies
    }

    /// The copies, so that threads can part them and take their prints.
    pub fn pages_mut(&mut self) -> &mut [BatchPage<F>]
        ensures { result.now ≡ self.old }
    {
        &mut self.copies
    }

    /// Takes the print of each copy. It takes no memory.
    pub fn hash(&mut self)
        ensures { self.new ≡ map (with_print F.print) self.old }
    {
        hash_copies(&mut self.copies);
    }

    /// Whether it has a copy of this page.
    pub fn has(&self, page: u64) -> bool
        ensures { result ≡ list_any (λ copy. copy.page == page) self.now }
    {
        self.copies.iter().any(|copy| copy.page() == page)
    }

    // The print of the first copy that is of this page and has these bytes and a print.
    pub(crate) fn print_of(&self, page: u64, bytes: &[u8]) -> Option<[u8; 20]>
        ensures serves { IfSome result (λ taken. HasServing page bytes.now taken self.now) }
        ensures of_bytes { IfSome result (λ taken. taken ≡ F.print bytes.now) }
        ensures none { IfNone result ((taken : List ℕ)
            → HasServing page bytes.now taken self.now → ⊥) }
    {
        for copy in &self.copies {
            let print = copy.print_if(page, bytes);
            if print.is_some() {
                return print;
            }
        }
        None
    }
}
