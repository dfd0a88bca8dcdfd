ghost use Rattle.std.specs.Prelude.{◌≡◌, ◌≢◌, ◌*◌, ◌≤◌, length, IfOk, IfErr, OnOk};
ghost use Rattle.definitions.specs.Problems.{words_per_table};
ghost use Rattle.pla_reader.specs.Answering.{longest};
ghost use Rattle.pla_reader.specs.Reading.{Reads};
ghost use Rattle.minorder_c.specs.Read.{AreNames, HaveNamePlaces, HeadStays, IsFaultOf, IsRead, IsReadShort, IsReadStatus, IsReadWith, IsUnread, fault_kind};
ghost use Rattle.minorder_c.specs.Statuses.{ShowsShape};

use crate::rooms::{SHORT_ROOM, put_front};
use crate::status::Refusal;
use pla_reader::laws::covers_are_well_formed;
use pla_reader::{
    Cover, LineFault, MOST_BYTES, Names, PlaError, TextPlace, name_places, read_bytes,
};
use std::alloc::{AllocError, Global};
use truth_table::cover_words;

/// The status of a call whose text is no PLA file: `MINORDER_BAD_PLA` in C.
const BAD_PLA: u32 = 9;

/// The faults of lines have the numbers 1 to 14.
const TOO_LONG: u32 = 15;

/// A caller has so many places for names of inputs, and so many for those of outputs.
const NAME_PLACES: usize = 16;

#[repr(C)]
#[derive(Clone, Copy, Debug)]
pub(crate) struct PlaFault {
    /// The first faulty line, counted from 1. 0 if the text is empty or too long.
    pub line: usize,
    /// Which fault it is: 1 to 14 as `kind_of` numbers the faults of a line, or `TOO_LONG`.
    pub kind: u32,
}

#[derive(Clone, Copy)]
enum Unread {
    Fault(PlaFault),
    OutOfMemory,
}

impl From<AllocError> for Unread {
    ghost use Rattle.std.specs.Prelude.{◌≡◌};
    ghost use Rattle.minorder_c.specs.declared.pla_files.Unread.TheVariants.{OutOfMemory};

    ghost from_gives = { λ _ unread. unread ≡ OutOfMemory };

    fn from(_: AllocError) -> Unread {
        Unread::OutOfMemory
    }
}

#[derive(Drop)]
struct PlaForC {
    inputs: u32,
    outputs: u32,
    /// Where in the text the names stand, then places of length 0, `NAME_PLACES` in all.
    input_names: Vec<TextPlace>,
    /// As for the inputs.
    output_names: Vec<TextPlace>,
    /// The packed truth tables, one output behind the other.
    words: Vec<u64>,
}

/// The number in C of a line's fault: 1 to 14, in the order in which `LineFault` lists them.
fn kind_of(fault: LineFault) -> u32
    ensures { result ≡ fault_kind fault }
{
    match fault {
        LineFault::MissingHead => 1,
        LineFault::RepeatedHead => 2,
        LineFault::InputCount => 3,
        LineFault::OutputCount => 4,
        LineFault::BadNumber => 5,
        LineFault::NameCount => 6,
        LineFault::BadName => 7,
        LineFault::UnknownDirective => 8,
        LineFault::UnsupportedType => 9,
        LineFault::DontCare => 10,
        LineFault::BadInputChar => 11,
        LineFault::BadOutputChar => 12,
        LineFault::ShortTerm => 13,
        LineFault::LongTerm => 14,
    }
}

fn cover_of(alloc: Global, text: &[u8]) -> Result<Cover, Unread>
    ensures within { OnOk result (length text.now ≤ longest) }
    ensures read { IfOk result (λ cover. Reads text.now cover) }
    ensures refused { IfErr result (IsUnread text.now) }
{
    if text.len() > MOST_BYTES {
        return Err(Unread::Fault(PlaFault {
            line: 0,
            kind: TOO_LONG,
        }));
    }
    match read_bytes(alloc, text) {
        Ok(cover) => Ok(cover),
        Err(PlaError::Line(line, fault)) => Err(Unread::Fault(PlaFault {
            line,
            kind: kind_of(fault),
        })),
        Err(_) => Err(Unread::OutOfMemory),
    }
}

/// Where the names stand in `text`: 16 places, of length 0 past the last name, or all if the text
/// lists no names.
fn names_of(
    alloc: Global,
    text: &[u8],
    cover: &Cover,
    names: Names,
) -> Result<Vec<TextPlace>, AllocError>
    requires { Reads text.now cover.now }
    ensures names { IfOk result (λ v. AreNames names text.now v.items) }
    ensures long { IfOk result (λ v. length v.items ≡ 16) }
{
    covers_are_well_formed();
    let mut places = name_places(alloc, text, names)?;
    places.resize(
        NAME_PLACES,
        TextPlace {
            start: 0,
            length: 0,
        },
    )?;
    Ok(places)
}

/// What the PLA file with the text `text` states.
fn pla_of(alloc: Global, text: &[u8]) -> Result<PlaForC, Unread>
    ensures read { IfOk result (λ p. IsReadWith text.now p.inputs p.outputs p.input_names.items
        p.output_names.items (λ Is. Is p.words.items)) }
    ensures input_names { IfOk result (λ p. length p.input_names.items ≡ 16) }
    ensures output_names { IfOk result (λ p. length p.output_names.items ≡ 16) }
    ensures words { IfOk result
        (λ p. length p.words.items ≡ p.outputs * words_per_table p.inputs) }
    ensures refused { IfErr result (IsUnread text.now) }
{
    let cover = cover_of(alloc, text)?;
    let input_names = names_of(alloc, text, &cover, Names::Inputs)?;
    let output_names = names_of(alloc, text, &cover, Names::Outputs)?;
    Ok(PlaForC {
        inputs: u32::from(cover.inputs()),
        outputs: u32::from(cover.outputs()),
        input_names,
        output_names,
        words: cover_words(alloc, &cover)?,
    })
}

/// Reads the text of a PLA file: its numbers of inputs and outputs, where their names stand in it,
/// and the truth tables. Returns 7 if `tables` is too short; then all else is written. Returns 9 if
/// the text is no PLA file; then only its first fault is written.
#[unsafe(no_mangle)]
pub extern "C" fn minorder_read_pla_with_lengths(
    alloc: Global,
    text: &[u8],
    inputs: &mut u32,
    outputs: &mut u32,
    input_names: &mut [TextPlace],
    output_names: &mut [TextPlace],
    tables: &mut [u64],
    fault: &mut PlaFault,
) -> u32
    ensures status { IsReadStatus result }
    ensures shape { ShowsShape (HaveNamePlaces input_names.old output_names.old) result }
    ensures read { result ≡ 0 → IsRead text.now inputs.new outputs.new input_names.new
        output_names.new tables.old tables.new }
    ensures short { result ≡ 7 → IsReadShort text.now inputs.new outputs.new input_names.new
        output_names.new tables.old }
    ensures fault { result ≡ 9 → IsFaultOf text.now fault.new }
    ensures stays { HeadStays result inputs.old inputs.new outputs.old outputs.new input_names.old
        input_names.new output_names.old output_names.new }
    ensures tables { result ≢ 0 → tables.new ≡ tables.old }
    ensures no_fault { result ≢ 9 → fault.new ≡ fault.old }
{
    if input_names.len() != NAME_PLACES || output_names.len() != NAME_PLACES {
        return Refusal::Shape.status();
    }
    match pla_of(alloc, text) {
        Ok(pla) => {
            *inputs = pla.inputs;
            *outputs = pla.outputs;
            input_names.copy_from_slice(&pla.input_names);
            output_names.copy_from_slice(&pla.output_names);
            if tables.len() < pla.words.len() {
                return SHORT_ROOM;
            }
            put_front(tables, &pla.words);
            0
        }
        Err(Unread::Fault(found)) => {
            *fault = found;
            BAD_PLA
        }
        Err(Unread::OutOfMemory) => Refusal::OutOfMemory.status(),
    }
}
