//! A snapshot of an image as a device: words in memory that are read, for programs that look into an image and store
//! nothing to it.
//!
//! The words are held once, and nothing is kept of calls: the snapshot doesn't tell its past. What is stored to it stands
//! at once, and its fences succeed.
#![tactic(auto)]

ghost use Rattle.std.specs.Prelude.{◌≡◌, ◌+◌, ◌*◌, ◌<◌, ◌≤◌, None, length, vec_len};
ghost use Rattle.pm_device.specs.State.{put_run};

use pm_device::{Failed, Pm};
use std::alloc::AllocError;

/// Words of an image in memory.
#[derive(Debug, Drop)]
pub struct SnapshotPm {
    words: Vec<u64>,
    spare: u64,
}

fn put_values(words: &mut Vec<u64>, at: usize, values: &[u64])
    requires { at + length values.now ≤ vec_len words.old }
    ensures { words.new.items ≡ put_run words.old.items at values.now }
{
    for (k, value) in values.iter().enumerate() {
        words[at + k] = *value;
    }
}

impl SnapshotPm {
    ghost use Rattle.std.specs.Prelude.{◌≡◌, None};

    /// A device with these words. It takes no memory beside them.
    pub fn of_words(words: Vec<u64>) -> SnapshotPm
        ensures { ⟦<SnapshotPm as Pm>⟧.state result ≡ record {
          now = words.items;
          past = None;
          faults = 0;
          spare = 0;
        } }
    {
        SnapshotPm { words, spare: 0 }
    }
}

impl Pm for SnapshotPm {
    ghost use Rattle.std.specs.Prelude.{◌≡◌, ◌+◌, ◌*◌, ◌<◌, ◌≤◌, is_ok, OnOk, OnErr, None, [], ◌∷◌, length};
    ghost use Rattle.pm_device.specs.State.{IsSame, Stores, Flushes, Fences, Keeps};

    ghost state = { λ d. record { now = d.words.items; past = None; faults = 0; spare = d.spare } };

    ghost may = { λ d m c. ⊥ };

    ghost agree = { λ d. tt };

    ghost tells = { λ d m c may. may };

    ghost now_is_left = { λ d. tt };

    fn words(&self) -> u64 {
        self.words.len() as u64
    }

    fn load(&self, at: u64) -> u64 {
        self.words[at as usize]
    }

    fn ready(&mut self, units: u64) -> Result<(), AllocError>
        ensures ok { OnOk result (units ≤ (⟦<SnapshotPm as Pm>⟧.state self.new).spare) }
        ensures err { OnErr result
            ((⟦<SnapshotPm as Pm>⟧.state self.new).spare ≡
            (⟦<SnapshotPm as Pm>⟧.state self.old).spare) }
        ensures same { IsSame (⟦<SnapshotPm as Pm>⟧.state self.old)
            (⟦<SnapshotPm as Pm>⟧.state self.new) }
        ensures keeps { Keeps (⟦<SnapshotPm as Pm>⟧.state self.old)
            (⟦<SnapshotPm as Pm>⟧.may self.old) (⟦<SnapshotPm as Pm>⟧.may self.new) }
    {
        self.spare = units;
        Ok(())
    }

    fn store(&mut self, at: u64, value: u64)
        requires inside { at < length (⟦<SnapshotPm as Pm>⟧.state self.old).now }
        requires room { 1 ≤ (⟦<SnapshotPm as Pm>⟧.state self.old).spare }
        ensures stores { Stores at (value ∷ []) (⟦<SnapshotPm as Pm>⟧.state self.old)
            (⟦<SnapshotPm as Pm>⟧.state self.new) }
        ensures keeps { Keeps (⟦<SnapshotPm as Pm>⟧.state self.old)
            (⟦<SnapshotPm as Pm>⟧.may self.old) (⟦<SnapshotPm as Pm>⟧.may self.new) }
    {
        self.words[at as usize] = value;
    }

    fn store_run(&mut self, at: u64, values: &[u64])
        requires some { 1 ≤ length values.now }
        requires inside { at + length values.now ≤ length (⟦<SnapshotPm as Pm>⟧.state self.old).now }
        requires room { length values.now ≤ (⟦<SnapshotPm as Pm>⟧.state self.old).spare }
        ensures stores { Stores at values.now (⟦<SnapshotPm as Pm>⟧.state self.old)
            (⟦<SnapshotPm as Pm>⟧.state self.new) }
        ensures keeps { Keeps (⟦<SnapshotPm as Pm>⟧.state self.old)
            (⟦<SnapshotPm as Pm>⟧.may self.old) (⟦<SnapshotPm as Pm>⟧.may self.new) }
    {
        put_values(&mut self.words, at as usize, values);
    }

    fn flush(&mut self, who: u32, first_line: u64, lines: u64)
        requires some { 1 ≤ lines }
        requires inside { 8 * (first_line + lines) ≤ length
            (⟦<SnapshotPm as Pm>⟧.state self.old).now }
        requires room { lines ≤ (⟦<SnapshotPm as Pm>⟧.state self.old).spare }
        ensures flushes { Flushes who first_line lines (⟦<SnapshotPm as Pm>⟧.state self.old)
            (⟦<SnapshotPm as Pm>⟧.state self.new) }
        ensures keeps { Keeps (⟦<SnapshotPm as Pm>⟧.state self.old)
            (⟦<SnapshotPm as Pm>⟧.may self.old) (⟦<SnapshotPm as Pm>⟧.may self.new) }
    {
        let _ = (who, first_line, lines);
    }

    fn fence(&mut self, who: u32) -> Result<(), Failed>
        requires room { 1 ≤ (⟦<SnapshotPm as Pm>⟧.state self.old).spare }
        ensures fences { Fences who (is_ok result) (⟦<SnapshotPm as Pm>⟧.state self.old)
            (⟦<SnapshotPm as Pm>⟧.state self.new) }
        ensures keeps { Keeps (⟦<SnapshotPm as Pm>⟧.state self.old)
            (⟦<SnapshotPm as Pm>⟧.may self.old) (⟦<SnapshotPm as Pm>⟧.may self.new) }
    {
        let _ = who;
        Ok(())
    }
}
