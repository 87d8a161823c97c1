// Lines and words.
ghost use Rattle.std.specs.Prelude.{◌≡◌, ◌≢◌, ◌↔◌, ◌<◌, ℕ, List, [], ◌∷◌, ◌++◌, length, slice_index, IfSome, IfNone, IsNone};
ghost use Rattle.std.specs.Option.{option_copied, option_map, option_to_list};
ghost use Rattle.dn_script.specs.Text.{lines, words, words_left, one_of, two_of, three_of, four_of};

use std::marker::Model;

// The first place of a byte.
fn find_byte(text: &[u8], byte: u8) -> Option<usize>
    ensures inside { IfSome result (λ i. i < length text.now) }
    ensures found { IfSome result (λ i. slice_index text.now i ≡ byte) }
    ensures first { IfSome result (λ i. (k : ℕ) → k < i → slice_index text.now k ≢ byte) }
    ensures none { IfNone result ((k : ℕ) → k < length text.now → slice_index text.now k ≢ byte) }
{
    text.iter().position(|b| *b == byte)
}

#[tactic(auto, using(crate::proofs::TextLaws::lines_at, crate::proofs::TextLaws::lines_only))]
/// The first line of a text that isn't empty, and what follows its end.
pub fn first_line(text: &[u8]) -> (&[u8], &[u8])
    requires { 0 < length text.now }
    ensures lines { lines text.now ≡ result.0.now ∷ lines result.1.now }
    ensures less { length result.1.now < length text.now }
{
    match find_byte(text, b'\n') {
        Some(end) => (&text[..end], &text[end + 1..]),
        None => (text, &text[text.len()..]),
    }
}

// The first word of a line, and what follows the space behind it.
#[tactic(auto, using(crate::proofs::TextLaws::words_at, crate::proofs::TextLaws::words_only))]
fn first_word(text: &[u8]) -> (&[u8], Option<&[u8]>)
    ensures { words text.now ≡ result.0.now ∷ words_left (option_copied result.1) }
{
    match find_byte(text, b' ') {
        Some(end) => (&text[..end], Some(&text[end + 1..])),
        None => (text, None),
    }
}

/// The words that are left of a line.
#[derive(Drop)]
pub(crate) struct Words<'a> {
    text: Option<&'a [u8]>,
}

impl<'a> Model for Words<'a> {
    ghost use Rattle.std.specs.Prelude.{List, ℕ};
    ghost use Rattle.std.specs.Option.{option_copied};
    ghost use Rattle.dn_script.specs.Text.{words_left};

    ghost Value = { List (List ℕ) };

    ghost view = { λ w. words_left (option_copied w.text) };
}

impl<'a> Words<'a> {
    /// The words of a line.
    pub(crate) fn of(line: &'a [u8]) -> Words<'a>
        ensures { result ≡ words line.now }
    {
        Words { text: Some(line) }
    }

    /// Takes the next word.
    pub(crate) fn next_word(&mut self) -> Option<&'a [u8]>
        ensures word { self.old ≡ option_to_list (option_copied result) ++ self.new }
        ensures none { IsNone result ↔ (self.old ≡ []) }
    {
        let text = self.text?;
        let (word, rest) = first_word(text);
        self.text = rest;
        Some(word)
    }

    /// The word, where it is the only one.
    pub(crate) fn one(mut self) -> Option<&'a [u8]>
        ensures { option_copied result ≡ one_of self.entry }
    {
        let first = self.next_word()?;
        match self.next_word() {
            Some(_) => None,
            None => Some(first),
        }
    }

    /// The words, where they are two.
    pub(crate) fn two(mut self) -> Option<(&'a [u8], &'a [u8])>
        ensures { option_map (λ w. (w.0.now, w.1.now)) result ≡ two_of self.entry }
    {
        let first = self.next_word()?;
        let second = self.one()?;
        Some((first, second))
    }

    /// The words, where they are three.
    pub(crate) fn three(mut self) -> Option<(&'a [u8], &'a [u8], &'a [u8])>
        ensures { option_map (λ w. (w.0.now, w.1.now, w.2.now)) result ≡ three_of self.entry }
    {
        let first = self.next_word()?;
        let (second, third) = self.two()?;
        Some((first, second, third))
    }

    /// The words, where they are four.
    pub(crate) fn four(mut self) -> Option<(&'a [u8], &'a [u8], &'a [u8], &'a [u8])>
        ensures { option_map (λ w. (w.0.now, w.1.now, w.2.now, w.3.now)) result ≡ four_of self.entry }
    {
        let first = self.next_word()?;
        let (second, third, fourth) = self.three()?;
        Some((first, second, third, fourth))
    }
}
