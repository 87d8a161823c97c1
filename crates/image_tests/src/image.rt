// Words of images, and devices of them.
use pm_device::MemPm;
use std::alloc::{AllocError, Global};
use std::process::Abort;
use std::test::Fail;

/// The words of an image of 64 pages.
pub const WORDS: usize = 32768;

/// Writes one word.
pub fn put(words: &mut Vec<u64>, at: usize, value: u64) {
    if at < words.len() {
        words[at] = value;
    }
}

/// Writes these words.
pub fn put_all(words: &mut Vec<u64>, values: &[(usize, u64)]) {
    for (at, value) in values {
        put(words, *at, *value);
    }
}

/// So many words, all 0 but for these.
pub fn words_of(
    alloc: Global,
    length: usize,
    some: &[(usize, u64)],
) -> Result<Vec<u64>, AllocError> {
    let mut words = vec![in alloc; 0; length]?;
    put_all(&mut words, some);
    Ok(words)
}

/// A device of the words of an image of 64 pages.
pub fn device_of(rt: &impl Abort, alloc: Global, words: Vec<u64>) -> Result<MemPm, Fail> {
    assert!(rt; words.len() == WORDS);
    Ok(MemPm::of_words(alloc, words, Vec::new(alloc))?)
}
