// The lines of a text and the words of a line, each taken from the front. Bytes need not be UTF-8.
ghost use Rattle.std.specs.Prelude.{◌≡◌, ◌≤◌, ◌==◌, ℕ, List, not, length};
ghost use Rattle.std.specs.List.{position, position_or_len};
ghost use Rattle.std.specs.Iterator.{YieldsFirstRef, item_count};
ghost use Rattle.std.specs.Str.Lines.{lines, strip_carriage_return};
ghost use Rattle.build_script.specs.Text.{words, is_blank};

use std::marker::Model;

/// A space or a tab.
fn is_blank(byte: u8) -> bool
    ensures { result ≡ is_blank byte }
{
    byte == b' ' || byte == b'\t'
}

/// Where the first LF stands.
fn first_line_feed(text: &[u8]) -> Option<usize>
    ensures { result ≡ position (λ byte. byte == 10) text.now }
{
    text.iter().position(|byte| *byte == b'\n')
}

/// Where the first word begins.
fn word_start(line: &[u8]) -> Option<usize>
    ensures { result ≡ position (λ byte. not (is_blank byte)) line.now }
{
    line.iter().position(|byte| !is_blank(*byte))
}

/// Where the first blank stands.
fn first_blank(text: &[u8]) -> Option<usize>
    ensures { result ≡ position is_blank text.now }
{
    text.iter().position(|byte| is_blank(*byte))
}

/// How many bytes the word takes with which a text begins.
#[tactic(auto, using(crate::proofs::TextLemmas::position_or))]
fn word_len(text: &[u8]) -> usize
    ensures within { result ≤ length text.now }
    ensures value { result ≡ position_or_len is_blank text.now }
{
    first_blank(text).unwrap_or(text.len())
}

/// What stands before an LF, without the one CR right before it.
fn without_carriage_return(line: &[u8]) -> &[u8]
    ensures { result.now ≡ strip_carriage_return line.now }
{
    line.strip_suffix(b"\r").unwrap_or(line)
}

/// The lines that are left of a text. Each ends at an LF, or at the end of the text.
#[derive(Drop)]
pub struct Lines<'a> {
    text: &'a [u8],
}

impl<'a> Model for Lines<'a> {
    ghost Value = { List (List ℕ) };

    ghost view = { λ left. lines left.text.now };
}

impl<'a> Lines<'a> {
    pub fn new(text: &'a [u8]) -> Self
        ensures { result ≡ lines text.now }
    {
        Lines { text }
    }
}

impl<'a> Iterator for Lines<'a> {
    type Item = &'a [u8];

    ghost next_gives = { YieldsFirstRef (λ left. left) };

    ghost remaining = { item_count (λ left. left) };

    fn next(&mut self) -> Option<&'a [u8]> {
        let text = self.text;
        if text.is_empty() {
            return None;
        }
        match first_line_feed(text) {
            Some(end) => {
                self.text = &text[end + 1..];
                Some(without_carriage_return(&text[..end]))
            }
            None => {
                self.text = &[];
                Some(text)
            }
        }
    }
}

/// The words that are left of a line, which stand between blanks.
#[derive(Drop)]
pub struct Words<'a> {
    line: &'a [u8],
}

impl<'a> Model for Words<'a> {
    ghost Value = { List (List ℕ) };

    ghost view = { λ left. words left.line.now };
}

impl<'a> Words<'a> {
    pub fn new(line: &'a [u8]) -> Self
        ensures { result ≡ words line.now }
    {
        Words { line }
    }
}

impl<'a> Iterator for Words<'a> {
    type Item = &'a [u8];

    ghost next_gives = { YieldsFirstRef (λ left. left) };

    ghost remaining = { item_count (λ left. left) };

    fn next(&mut self) -> Option<&'a [u8]> {
        let line = self.line;
        let text = &line[word_start(line)?..];
        let (word, rest) = text.split_at(word_len(text));
        self.line = rest;
        Some(word)
    }
}
