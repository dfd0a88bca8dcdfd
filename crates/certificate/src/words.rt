ghost use Rattle.std.specs.Prelude.{◌≡◌, ◌≤◌, ◌<◌, ◌==◌, ℕ, true, false, length, position, IfSome, IfNone, decimal as decimal_of};
ghost use Rattle.std.specs.Fmt.{digit_glyph};
ghost use Rattle.certificate.specs.Spelling.{most_nodes};
ghost use Rattle.definitions.specs.Texts.{number_of};
ghost use Rattle.certificate.specs.Faults.{is_decimal, is_mask, mask_of};
ghost use Rattle.certificate.specs.Parsing.{Cuts, Lacks};

use crate::bounds::sets_below_all;
use order_model::{Mask, decimal_number};

/// The most digits of a number: all bounds are below a million.
const MOST_DIGITS: usize = 6;

fn place_of(text: &[u8], byte: u8) -> Option<usize>
    ensures first { result ≡ position (λ b. b == byte) text.now }
    ensures bound { IfSome result (λ place. place < length text.now) }
{
    text.iter().position(|b| *b == byte)
}

/// The text before the first `byte`, and the text after it.
pub(crate) fn cut(text: &[u8], byte: u8) -> Option<(&[u8], &[u8])>
    ensures some { IfSome result (λ parts. Cuts byte text.now parts.0.now parts.1.now) }
    ensures none { IfNone result (Lacks byte text.now) }
{
    let place = place_of(text, byte)?;
    Some((&text[..place], &text[place + 1..]))
}

/// The number of at most 999,999 that `word` states in decimal, without leading zeros.
fn decimal(word: &[u8]) -> Option<u32>
    ensures some { IfSome result
        (λ value. (decimal_of value ≡ word.now) × (number_of word.now ≡ value)) }
    ensures none { IfNone result ((n : ℕ) → n ≤ most_nodes → word.now ≡ decimal_of n → ⊥) }
{
    if word.len() > MOST_DIGITS {
        return None;
    }
    if word.len() > 1 && word[0] == b'0' {
        return None;
    }
    decimal_number(word)
}

/// The number from `least` to `most` that `word` states in decimal, without leading zeros.
pub(crate) fn number(word: &[u8], least: u32, most: u32) -> Option<u32>
    requires { most ≤ most_nodes }
    ensures some { IfSome result
        (λ value. (is_decimal least most word.now ≡ true) × (number_of word.now ≡ value)) }
    ensures none { IfNone result (is_decimal least most word.now ≡ false) }
    ensures within { IfSome result (λ value. (least ≤ value) × (value ≤ most)) }
{
    let value = decimal(word)?;
    if value < least || value > most {
        return None;
    }
    Some(value)
}

/// The value of the hexadecimal digit `b`, in lower case.
fn hex_digit(b: u8) -> Option<Mask>
    ensures some { IfSome result (λ d. (b ≡ digit_glyph false d) × (d < 16)) }
    ensures none { IfNone result ((d : ℕ) → d < 16 → b ≡ digit_glyph false d → ⊥) }
{
    match b {
        b'0'..=b'9' => Some(Mask::from(b - b'0')),
        b'a'..=b'f' => Some(Mask::from(b - b'a') + 10),
        _ => None,
    }
}

/// The mask of a proper subset of `n` variables that `word` states in four hexadecimal digits.
pub(crate) fn mask(word: &[u8], n: u8) -> Option<Mask>
    requires { n ≤ 16 }
    ensures some { IfSome result (λ mask. (is_mask n word.now ≡ true) × (mask_of word.now ≡ mask)) }
    ensures none { IfNone result (is_mask n word.now ≡ false) }
{
    let [a, b, c, d] = word else {
        return None;
    };
    let a = hex_digit(*a)?;
    let b = hex_digit(*b)?;
    let c = hex_digit(*c)?;
    let d = hex_digit(*d)?;
    let mask = ((a * 16 + b) * 16 + c) * 16 + d;
    if u32::from(mask) >= sets_below_all(n) {
        return None;
    }
    Some(mask)
}
