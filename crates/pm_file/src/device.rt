// The image file as a device.
ghost use Rattle.std.specs.Prelude.{◌≡◌, ℕ, ◌+◌, ◌*◌, ◌≤◌, if◌then◌else◌, ◌==◌, true, not, length, filter, vec_len, vec_capacity, Ok, Err};
ghost use Rattle.std.specs.List.{list_all};
ghost use Rattle.pm_device.specs.State.{Rose};
ghost use Rattle.pm_file.specs.Lines.{is_inside};
ghost use Rattle.pm_file.specs.Length.{is_length};

use crate::OpenFault;
use crate::transfer::{read_words, write_words};
use pm_device::{Failed, Pm};
use pm_layout::{MOST_PAGES, PAGE_BYTES};
use std::alloc::AllocError;
use std::fs::{File, Files, OpenFile, OpenOptions};
use std::io;
use std::io::Read;
use std::os::unix::fs::FileExt;

#[cfg(test)]
mod tests;

// Lines that an actor flushed.
#[derive(Clone, Copy, Debug)]
struct Flushed {
    who: u32,
    first: u64,
    lines: u64,
}

/// An image file held in memory. Words are read and stored in memory alone; a fence writes the lines that its actor
/// flushed, as they are then, and syncs the file. The device doesn't tell its past. Its room is that for flushes
/// that await a fence: one unit for each line.
#[derive(Drop)]
pub struct FilePm<F = File> {
    file: F,
    words: Vec<u64>,
    // what was flushed and not fenced since
    flushed: Vec<Flushed>,
    faults: u64,
    ghost size: { vec_len words ≤ 33554432 },
    ghost inside: { list_all (is_inside (length words.items)) flushed.items ≡ true },
}

// Writes the lines that this actor flushed, and syncs the file.
fn write_flushed<F: FileExt + OpenFile>(
    file: &F,
    words: &[u64],
    flushed: &[Flushed],
    who: u32,
) -> io::Result<()>
    requires size { length words.now ≤ 33554432 }
    requires inside { list_all (is_inside (length words.now)) flushed.now ≡ true }
{
    for lines in flushed {
        if lines.who == who {
            let first = 8 * lines.first;
            let end = first + 8 * lines.lines;
            write_words(file, first, &words[first as usize..end as usize])?;
        }
    }
    file.sync_data()
}

// Drops what this actor flushed.
fn forget(flushed: &mut Vec<Flushed>, who: u32)
    ensures left { flushed.new.items ≡ filter (λ f. not (f.who == who)) flushed.old.items }
    ensures bound { vec_len flushed.new ≤ vec_len flushed.old }
    ensures capacity { vec_capacity flushed.new ≡ vec_capacity flushed.old }
{
    flushed.retain(|lines| lines.who != who);
}

// One more, but at the end of the type.
fn raised(n: u64) -> u64
    ensures no_less { n ≤ result }
    ensures rose { Rose n result }
{
    if n < u64::MAX { n + 1 } else { n }
}

// Whether a file may be so long.
fn check_length(bytes: u64) -> Result<(), OpenFault>
    ensures { result ≡ (if is_length bytes then Ok tt else Err (OpenFault.BadLength bytes)) }
{
    if bytes > 0 && bytes % PAGE_BYTES == 0 && bytes <= MOST_PAGES * PAGE_BYTES {
        Ok(())
    } else {
        Err(OpenFault::BadLength { bytes })
    }
}

// Opens a file that is there, and tells its length in bytes.
fn find_file<R: Files>(rt: &R, path: &str) -> io::Result<(R::File, u64)> {
    let mut how = OpenOptions::new();
    how.read(true).write(true);
    let file = how.open(rt, path)?;
    let bytes = file.metadata()?.len();
    Ok((file, bytes))
}

// Makes a file of zeros, in place of any that is there.
fn make_file<R: Files>(rt: &R, path: &str, bytes: u64) -> io::Result<R::File> {
    let mut how = OpenOptions::new();
    how.read(true).write(true).create(true).truncate(true);
    let file = how.open(rt, path)?;
    file.set_len(bytes)?;
    file.sync_all()?;
    Ok(file)
}

impl<F: Read + FileExt + OpenFile + Drop> FilePm<F> {
    ghost use Rattle.std.specs.Prelude.{◌≡◌, ℕ, ◌*◌, ◌^◌, ◌-◌, ◌<◌, min, true, false, replicate, Some, Err, IfOk};
    ghost use Rattle.pm_file.specs.Length.{is_length};
    ghost use Rattle.pm_file.specs.Image.{IsOpened};

    /// Opens an image file. With `Some(n)` it is made anew with n pages of zeros, in place of a file that is there.
    ///
    /// # Errors
    /// `BadLength` where the length isn't that of 1 to 65,536 whole pages; no file is made then. `Refused` where the
    /// file couldn't be opened, read or made. `NoMemory` where there is no memory for the image.
    pub fn open<R: Files<File = F> + AllocGlobal>(
        rt: &R,
        path: &str,
        wanted: Option<u64>,
    ) -> Result<FilePm<F>, OpenFault>
        ensures opened { IfOk result (λ d. IsOpened (⟦<FilePm<F> as Pm>⟧.state d)) }
        ensures made { (n : ℕ) → wanted ≡ Some n
            → IfOk result (λ d. (⟦<FilePm<F> as Pm>⟧.state d).now ≡ replicate (512 * n) 0) }
        ensures bad_length { (bytes : ℕ) → result ≡ Err (OpenFault.BadLength bytes)
            → is_length bytes ≡ false }
        ensures bad_wanted { (n : ℕ) → wanted ≡ Some n → is_length (4096 * n) ≡ false
            → result ≡ Err (OpenFault.BadLength (min (4096 * n) (2 ^ 64 - 1))) }
    {
        match wanted {
            Some(pages) => Self::make(rt, path, pages),
            None => Self::load(rt, path),
        }
    }

    fn make<R: Files<File = F> + AllocGlobal>(
        rt: &R,
        path: &str,
        pages: u64,
    ) -> Result<FilePm<F>, OpenFault>
        ensures opened { IfOk result (λ d. IsOpened (⟦<FilePm<F> as Pm>⟧.state d)) }
        ensures made { IfOk result (λ d. (⟦<FilePm<F> as Pm>⟧.state d).now ≡ replicate (512 * pages)
            0) }
        ensures bad_length { (bytes : ℕ) → result ≡ Err (OpenFault.BadLength bytes)
            → is_length bytes ≡ false }
        ensures bad_wanted { is_length (4096 * pages) ≡ false
            → result ≡ Err (OpenFault.BadLength (min (4096 * pages) (2 ^ 64 - 1))) }
    {
        let bytes = pages.saturating_mul(PAGE_BYTES);
        check_length(bytes)?;
        let words = vec![in rt.alloc(); 0; (bytes / 8) as usize].map_err(|_| OpenFault::NoMemory)?;
        let file = make_file(rt, path, bytes).map_err(|_| OpenFault::Refused)?;
        Ok(FilePm {
            file,
            words,
            flushed: Vec::new(rt.alloc()),
            faults: 0,
        })
    }

    fn load<R: Files<File = F> + AllocGlobal>(rt: &R, path: &str) -> Result<FilePm<F>, OpenFault>
        ensures opened { IfOk result (λ d. IsOpened (⟦<FilePm<F> as Pm>⟧.state d)) }
        ensures bad_length { (bytes : ℕ) → result ≡ Err (OpenFault.BadLength bytes)
            → is_length bytes ≡ false }
    {
        let (mut file, bytes) = find_file(rt, path).map_err(|_| OpenFault::Refused)?;
        check_length(bytes)?;
        let mut words = vec![in rt.alloc(); 0; (bytes / 8) as usize].map_err(
            |_| OpenFault::NoMemory,
        )?;
        read_words(&mut file, &mut words).map_err(|_| OpenFault::Refused)?;
        Ok(FilePm {
            file,
            words,
            flushed: Vec::new(rt.alloc()),
            faults: 0,
        })
    }
}

impl<F: FileExt + OpenFile> Pm for FilePm<F> {
    ghost use Rattle.std.specs.Prelude.{◌≡◌, ◌+◌, ◌-◌, ◌*◌, ◌<◌, ◌≤◌, is_ok, OnOk, OnErr, None, [], ◌∷◌, ◌++◌, length, vec_len, vec_capacity};
    ghost use Rattle.pm_device.specs.State.{IsSame, Stores, Flushes, Fences, Keeps};
    ghost use Rattle.pm_file.specs.Pending.{pending, without};

    ghost state = { λ d. record { now = d.words.items; past = None; faults = d.faults; spare = vec_capacity d.flushed - vec_len d.flushed } };

    ghost may = { λ d m c. ⊥ };

    ghost agree = { λ d. tt };

    ghost tells = { λ d m c may. may };

    ghost now_is_left = { λ d. tt };

    fn words(&self) -> u64 {
        self.words.len() as u64
    }

    fn load(&self, at: u64) -> u64 {
        self.words[at as usize]
    }

    fn ready(&mut self, units: u64) -> Result<(), AllocError>
        ensures ok { OnOk result (units ≤ (⟦<FilePm<F> as Pm>⟧.state self.new).spare) }
        ensures err { OnErr result
            ((⟦<FilePm<F> as Pm>⟧.state self.new).spare ≡
            (⟦<FilePm<F> as Pm>⟧.state self.old).spare) }
        ensures same { IsSame (⟦<FilePm<F> as Pm>⟧.state self.old)
            (⟦<FilePm<F> as Pm>⟧.state self.new) }
        ensures keeps { Keeps (⟦<FilePm<F> as Pm>⟧.state self.old)
            (⟦<FilePm<F> as Pm>⟧.may self.old) (⟦<FilePm<F> as Pm>⟧.may self.new) }
        ensures pending { pending self.new ≡ pending self.old }
    {
        self.flushed.reserve(units as usize)
    }

    fn store(&mut self, at: u64, value: u64)
        requires inside { at < length (⟦<FilePm<F> as Pm>⟧.state self.old).now }
        requires room { 1 ≤ (⟦<FilePm<F> as Pm>⟧.state self.old).spare }
        ensures stores { Stores at (value ∷ []) (⟦<FilePm<F> as Pm>⟧.state self.old)
            (⟦<FilePm<F> as Pm>⟧.state self.new) }
        ensures keeps { Keeps (⟦<FilePm<F> as Pm>⟧.state self.old)
            (⟦<FilePm<F> as Pm>⟧.may self.old) (⟦<FilePm<F> as Pm>⟧.may self.new) }
        ensures pending { pending self.new ≡ pending self.old }
    {
        self.words[at as usize] = value;
    }

    fn store_run(&mut self, at: u64, values: &[u64])
        requires some { 1 ≤ length values.now }
        requires inside { at + length values.now ≤ length (⟦<FilePm<F> as Pm>⟧.state self.old).now }
        requires room { length values.now ≤ (⟦<FilePm<F> as Pm>⟧.state self.old).spare }
        ensures stores { Stores at values.now (⟦<FilePm<F> as Pm>⟧.state self.old)
            (⟦<FilePm<F> as Pm>⟧.state self.new) }
        ensures keeps { Keeps (⟦<FilePm<F> as Pm>⟧.state self.old)
            (⟦<FilePm<F> as Pm>⟧.may self.old) (⟦<FilePm<F> as Pm>⟧.may self.new) }
        ensures pending { pending self.new ≡ pending self.old }
    {
        let first = at as usize;
        self.words[first..first + values.len()].copy_from_slice(values);
    }

    fn flush(&mut self, who: u32, first_line: u64, lines: u64)
        requires some { 1 ≤ lines }
        requires inside { 8 * (first_line + lines) ≤ length (⟦<FilePm<F> as Pm>⟧.state self.old).now }
        requires room { lines ≤ (⟦<FilePm<F> as Pm>⟧.state self.old).spare }
        ensures flushes { Flushes who first_line lines (⟦<FilePm<F> as Pm>⟧.state self.old)
            (⟦<FilePm<F> as Pm>⟧.state self.new) }
        ensures keeps { Keeps (⟦<FilePm<F> as Pm>⟧.state self.old)
            (⟦<FilePm<F> as Pm>⟧.may self.old) (⟦<FilePm<F> as Pm>⟧.may self.new) }
        ensures pending { pending self.new ≡ pending self.old ++
            (record { who = who; first = first_line; lines = lines }) ∷ [] }
    {
        let _ = self.flushed.push(Flushed {
            who,
            first: first_line,
            lines,
        });
    }

    fn fence(&mut self, who: u32) -> Result<(), Failed>
        requires room { 1 ≤ (⟦<FilePm<F> as Pm>⟧.state self.old).spare }
        ensures fences { Fences who (is_ok result) (⟦<FilePm<F> as Pm>⟧.state self.old)
            (⟦<FilePm<F> as Pm>⟧.state self.new) }
        ensures keeps { Keeps (⟦<FilePm<F> as Pm>⟧.state self.old)
            (⟦<FilePm<F> as Pm>⟧.may self.old) (⟦<FilePm<F> as Pm>⟧.may self.new) }
        ensures pending { pending self.new ≡ without who (pending self.old) }
    {
        let written = write_flushed(&self.file, &self.words, &self.flushed, who);
        forget(&mut self.flushed, who);
        match written {
            Ok(()) => Ok(()),
            Err(_) => {
                self.faults = raised(self.faults);
                Err(Failed)
            }
        }
    }
}
