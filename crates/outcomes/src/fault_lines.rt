//! The lines that name faults, made without memory.

ghost use Rattle.std.specs.Prelude.{◌≡◌, ◌+◌, ◌≤◌, ◌++◌, codes, decimal, length};
ghost use Rattle.arrayvec.specs.ArrayString.{array_string_len};
ghost use Rattle.outcomes.specs.Messages.{certificate_kind, fault_line as line_of, fault_words, file_kind, pairs_kind, program_name};

use crate::outcome::Fault;
use arrayvec::ArrayString;
use certificate::LineFault as CertificateFault;
use itoa::Buffer;
use order_model::PairsFault;
use pla_reader::LineFault as FileFault;

/// The program that writes a message. Each message begins with the program's name.
#[derive(Clone, Copy, Debug, PartialEq, Eq)]
pub enum Program {
    Minorder,
    Ordercheck,
}

/// Enough for the longest line: a program's name, the words `certificate line`, a number and the
/// name of a fault.
const LONGEST_LINE: usize = 64;

type LineText = ArrayString<LONGEST_LINE>;

fn program_text(program: Program) -> &'static str
    ensures name { result.now ≡ program_name program }
    ensures short { length result.now ≤ 10 }
{
    match program {
        Program::Minorder => "minorder",
        Program::Ordercheck => "ordercheck",
    }
}

/// The name of a fault in a line of the PLA file, such as `BadNumber`.
fn file_text(fault: FileFault) -> &'static str
    ensures kind { result.now ≡ file_kind fault }
    ensures short { length result.now ≤ 16 }
{
    match fault {
        FileFault::MissingHead => "MissingHead",
        FileFault::RepeatedHead => "RepeatedHead",
        FileFault::InputCount => "InputCount",
        FileFault::OutputCount => "OutputCount",
        FileFault::BadNumber => "BadNumber",
        FileFault::NameCount => "NameCount",
        FileFault::BadName => "BadName",
        FileFault::UnknownDirective => "UnknownDirective",
        FileFault::UnsupportedType => "UnsupportedType",
        FileFault::DontCare => "DontCare",
        FileFault::BadInputChar => "BadInputChar",
        FileFault::BadOutputChar => "BadOutputChar",
        FileFault::ShortTerm => "ShortTerm",
        FileFault::LongTerm => "LongTerm",
    }
}

/// The name of a fault in a line of a certificate.
fn certificate_text(fault: CertificateFault) -> &'static str
    ensures kind { result.now ≡ certificate_kind fault }
    ensures short { length result.now ≤ 12 }
{
    match fault {
        CertificateFault::MissingLine => "MissingLine",
        CertificateFault::BadLine => "BadLine",
        CertificateFault::BadNumber => "BadNumber",
        CertificateFault::NotRising => "NotRising",
        CertificateFault::TrailingText => "TrailingText",
    }
}

/// Appends `label`, and then `number` in decimal, to `text`.
fn push_number(text: &mut LineText, label: &str, number: usize)
    requires { array_string_len text.old + length label.now ≤ 32 }
    ensures words { text.new.bytes ≡ text.old.bytes ++ label.now ++ decimal number }
    ensures short { array_string_len text.new
        ≤ array_string_len text.old + length label.now + 20 }
{
    let mut digits = Buffer::new();
    text.push_str(label);
    text.push_str(digits.format(number));
}

/// Appends the name of the reason why pairs are refused. `PairCycle` is followed by its variable.
fn push_pairs(text: &mut LineText, fault: PairsFault)
    requires { array_string_len text.old ≤ 12 }
    ensures words { text.new.bytes ≡ text.old.bytes ++ pairs_kind fault }
    ensures short { array_string_len text.new ≤ array_string_len text.old + 30 }
{
    match fault {
        PairsFault::BadPair => text.push_str("BadPair"),
        PairsFault::PairOutOfRange => text.push_str("PairOutOfRange"),
        PairsFault::PairCycle(variable) => push_number(text, "PairCycle ", variable as usize),
    }
}

/// Appends the words that name `fault`, such as `TooLong` or `line 3: BadNumber`.
fn push_fault(text: &mut LineText, fault: Fault)
    requires { array_string_len text.old ≤ 12 }
    ensures words { text.new.bytes ≡ text.old.bytes ++ fault_words fault }
    ensures short { array_string_len text.new ≤ array_string_len text.old + 51 }
{
    match fault {
        Fault::Line(number, fault) => {
            push_number(text, "line ", number);
            text.push_str(": ");
            text.push_str(file_text(fault));
        }
        Fault::TooLong => text.push_str("TooLong"),
        Fault::OutOfMemory => text.push_str("OutOfMemory"),
        Fault::Device => text.push_str("Device"),
        Fault::StoreFull => text.push_str("StoreFull"),
        Fault::Pairs(fault) => push_pairs(text, fault),
        Fault::CertificateLine(number, fault) => {
            push_number(text, "certificate line ", number);
            text.push_str(": ");
            text.push_str(certificate_text(fault));
        }
        Fault::CertificateTooLong => text.push_str("certificate: TooLong"),
    }
}

/// The line on a fault: the program's name, a colon, and the words that name the fault.
#[tactic(auto, unfolding(crate::specs::Messages::fault_line))]
pub(crate) fn fault_line(program: Program, fault: Fault) -> LineText
    ensures { result.bytes ≡ line_of program fault }
{
    let mut text = LineText::new();
    text.push_str(program_text(program));
    text.push_str(": ");
    push_fault(&mut text, fault);
    text.push_str("\n");
    text
}
