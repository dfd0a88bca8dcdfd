ghost use Rattle.std.specs.Prelude.{◌≡◌, true, map, IfOk};
ghost use Rattle.std.specs.List.{list_all};
ghost use Rattle.std.specs.String.{string_bytes};
ghost use Rattle.pla_reader.specs.Text.{words, is_name};
ghost use Rattle.pla_reader.specs.Covers.{numbered_names};

use crate::lines::next_word;
use std::alloc::{AllocError, Global};
use std::str;

fn name(alloc: Global, word: &[u8]) -> Result<String, AllocError>
    requires { is_name word.now ≡ true }
    ensures { IfOk result (λ name. string_bytes name ≡ word.now) }
{
    match str::from_utf8(word) {
        Ok(text) => text.to_owned(alloc),
        Err(_) => unreachable!(),
    }
}

pub(crate) fn names(alloc: Global, text: &[u8]) -> Result<Vec<String>, AllocError>
    requires { list_all is_name (words text.now) ≡ true }
    ensures { IfOk result (λ names. map string_bytes names.items ≡ words text.now) }
{
    let mut names = Vec::new(alloc);
    let mut rest = text;
    while let Some((word, after)) = next_word(rest) {
        names.push(name(alloc, word)?)?;
        rest = after;
    }
    Ok(names)
}

/// The names `front` followed by 0, `front` followed by 1, and so on.
pub(crate) fn default_names(
    alloc: Global,
    front: &str,
    count: u8,
) -> Result<Vec<String>, AllocError>
    ensures { IfOk result (λ names. map string_bytes names.items ≡ numbered_names front.now count) }
{
    let mut names = Vec::new(alloc);
    for i in 0..count {
        names.push(format!(in alloc; "{front}{i}")?)?;
    }
    Ok(names)
}
