ghost use Rattle.std.specs.Prelude.{◌≡◌, ◌==◌, slice_index};
ghost use Rattle.pla_reader.specs.Text.{words};
ghost use Rattle.definitions.specs.Texts.{same};
ghost use Rattle.pla_reader.specs.Lines.{directive as directive_of, line_said, is_end as ends};
ghost use Rattle.pla_reader.specs.Statements.{line_of};

use crate::lines::{content, next_word};

/// What a line states. Directives with arguments have the text after their first word.
#[derive(Drop)]
pub(crate) enum Statement<'a> {
    Empty,
    Inputs(&'a [u8]),
    Outputs(&'a [u8]),
    InputNames(&'a [u8]),
    OutputNames(&'a [u8]),
    /// Its number is not compared with the terms.
    Products(&'a [u8]),
    Type(&'a [u8]),
    /// `.e` or `.end`.
    End,
    Unknown,
    /// A term: the line without its comment.
    Row(&'a [u8]),
}

pub(crate) fn is_same(a: &[u8], b: &[u8]) -> bool
    ensures { result ≡ same a.now b.now }
{
    a == b
}

fn is_directive(word: &[u8]) -> bool
    ensures { result ≡ (slice_index word.now 0 == 46) }
{
    match word {
        [first, ..] => *first == b'.',
        [] => false,
    }
}

/// The statement of a line with the first word `word`, and `given` after it, which isn't checked.
#[tactic(auto, unfolding(crate::specs::Lines::directive))]
fn directive<'a>(word: &[u8], given: &'a [u8]) -> Statement<'a>
    ensures { line_of result ≡ directive_of word.now (words given.now) }
{
    if is_same(word, b".i") {
        Statement::Inputs(given)
    } else if is_same(word, b".o") {
        Statement::Outputs(given)
    } else if is_same(word, b".ilb") {
        Statement::InputNames(given)
    } else if is_same(word, b".ob") {
        Statement::OutputNames(given)
    } else if is_same(word, b".p") {
        Statement::Products(given)
    } else if is_same(word, b".type") {
        Statement::Type(given)
    } else if is_same(word, b".e") || is_same(word, b".end") {
        Statement::End
    } else {
        Statement::Unknown
    }
}

/// What `line` states before its comment. Only the first word is checked.
#[tactic(auto, unfolding(crate::specs::Lines::line_said, crate::specs::Lines::meaning))]
pub(crate) fn statement_of(line: &[u8]) -> Statement<'_>
    ensures { line_of result ≡ line_said line.now }
{
    let text = content(line);
    let Some((word, after)) = next_word(text) else {
        return Statement::Empty;
    };
    if is_directive(word) {
        directive(word, after)
    } else {
        Statement::Row(text)
    }
}

impl Statement<'_> {
    pub(crate) fn is_end(&self) -> bool
        ensures { result ≡ ends (line_of self.now) }
    {
        matches!(self, Statement::End)
    }
}
