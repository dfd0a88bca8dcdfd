//! The lines of a text, and their words, which spaces, tabs and carriage returns separate.

ghost use Rattle.std.specs.Prelude.{◌≡◌, ◌<◌, ◌≤◌, ◌==◌, ◌||◌, ◌∷◌, ◌++◌, [], List, ℕ, length, IfSome, IfNone, Some, None};
ghost use Rattle.std.specs.List.{position_or_len, list_all};
ghost use Rattle.pla_reader.specs.Text.{lines_of, is_blank, bar, words, content as content_of, only_word as one_word, is_name};

use memchr::{memchr, memchr3};

/// The number of bytes before the first `byte`, or of all bytes.
fn len_until(text: &[u8], byte: u8) -> usize
    ensures value { result ≡ position_or_len (λ b. b == byte) text.now }
    ensures bound { result ≤ length text.now }
{
    memchr(byte, text).unwrap_or(text.len())
}

pub(crate) fn is_blank_byte(b: u8) -> bool
    ensures { result ≡ is_blank b }
{
    b == b' ' || (b == b'\t' || b == b'\r')
}

/// Whether a byte is skipped between the positions of a term.
pub(crate) fn is_separator(b: u8) -> bool
    ensures { result ≡ (is_blank b || b == bar) }
{
    is_blank_byte(b) || b == b'|'
}

fn word_len(text: &[u8]) -> usize
    ensures value { result ≡ position_or_len is_blank text.now }
    ensures bound { result ≤ length text.now }
{
    memchr3(b' ', b'\t', b'\r', text).unwrap_or(text.len())
}

/// The first line of `text` without its line feed, and the text after the line feed.
#[tactic(auto, using(crate::proofs::TextLemmas::first_line_lem))]
pub(crate) fn first_line(text: &[u8]) -> (&[u8], &[u8])
    requires { 0 < length text.now }
    ensures line { lines_of text.now ≡ result.0.now ∷ lines_of result.1.now }
    ensures shorter { length result.1.now < length text.now }
    ensures parts { (feed : List ℕ) × (text.now ≡ result.0.now ++ feed ++ result.1.now) }
{
    let (line, rest) = text.split_at(len_until(text, b'\n'));
    match rest {
        [] => (line, rest),
        [_, after @ ..] => (line, after),
    }
}

/// The part of `line` before its comment.
pub(crate) fn content(line: &[u8]) -> &[u8]
    ensures value { result.now ≡ content_of line.now }
    ensures front { (comment : List ℕ) × (line.now ≡ result.now ++ comment) }
{
    let (front, _) = line.split_at(len_until(line, b'#'));
    front
}

/// The first word of `text`, and the text after it.
#[tactic(auto, using(crate::proofs::TextLemmas::words_blank, crate::proofs::TextLemmas::words_word, crate::proofs::TextLemmas::words_none))]
pub(crate) fn next_word(text: &[u8]) -> Option<(&[u8], &[u8])>
    ensures none { IfNone result (words text.now ≡ []) }
    ensures some { IfSome result (λ found. words text.now ≡ found.0.now ∷ words found.1.now) }
    ensures shorter { IfSome result (λ found. length found.1.now < length text.now) }
    ensures parts { IfSome result
        (λ found. (blanks : List ℕ) × (text.now ≡ blanks ++ found.0.now ++ found.1.now)) }
{
    let mut rest = text;
    while let [b, more @ ..] = rest {
        if !is_blank_byte(*b) {
            let (word, after) = rest.split_at(word_len(rest));
            return Some((word, after));
        }
        rest = more;
    }
    None
}

/// The word of `text` if it has exactly one.
pub(crate) fn only_word(text: &[u8]) -> Option<&[u8]>
    ensures some { IfSome result (λ word. one_word (words text.now) ≡ Some word.now) }
    ensures none { IfNone result (one_word (words text.now) ≡ None) }
{
    let (word, after) = next_word(text)?;
    match next_word(after) {
        None => Some(word),
        Some(_) => None,
    }
}

pub(crate) fn count_words(text: &[u8]) -> usize
    ensures { result ≡ length (words text.now) }
{
    let mut count = 0;
    let mut rest = text;
    while let Some((_, after)) = next_word(rest) {
        count += 1;
        rest = after;
    }
    count
}

pub(crate) fn has_names(text: &[u8]) -> bool
    ensures { result ≡ list_all is_name (words text.now) }
{
    let mut rest = text;
    while let Some((word, after)) = next_word(rest) {
        if !is_graphic(word) {
            return false;
        }
        rest = after;
    }
    true
}

fn is_graphic(word: &[u8]) -> bool
    ensures { result ≡ is_name word.now }
{
    word.iter().all(|b| b.is_ascii_graphic())
}
