ghost use Rattle.std.specs.Prelude.{◌≡◌, IsTrue, IfSome, IfNone, false};
ghost use Rattle.definitions.specs.Texts.{is_number, number_of};

/// The value of a word of one to nine decimal digits, which may begin with zeros.
#[tactic(auto, using(definitions::proofs::Lists::Digits::digit_is, definitions::proofs::Lists::Digits::pow_small))]
pub fn decimal_number(word: &[u8]) -> Option<u32>
    ensures some { IfSome result
        (λ value. IsTrue (is_number word.now) × (value ≡ number_of word.now)) }
    ensures none { IfNone result (is_number word.now ≡ false) }
{
    if word.is_empty() || word.len() > 9 {
        return None;
    }
    let mut value = 0u32;
    let mut rest = word;
    while let [b, more @ ..] = rest {
        if !b.is_ascii_digit() {
            return None;
        }
        value = value * 10 + (*b - b'0') as u32;
        rest = more;
    }
    Some(value)
}
