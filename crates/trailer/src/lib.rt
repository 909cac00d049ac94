// The trailer of a file: its length, its mark, and where its sections are.
#![tactic(auto)]

ghost use Rattle.std.specs.Prelude.{◌≡◌, ◌-◌, ◌<◌, ◌≤◌, length, drop};
ghost use Rattle.smtlib.specs.Lexicon.{same};
ghost use Rattle.task.specs.Task.{mark, bound};
ghost use Rattle.trailer.specs.Bounds.{bounds_of, ordered, trailer_of, start_of, end_of};

use item_check::Section;
use task::Refusal;

// Where each section begins, and where the last one ends.
#[derive(Clone, Copy, PartialEq, Eq, Debug)]
pub struct Bounds {
    pub comments: usize,
    pub datatypes: usize,
    pub constants: usize,
    pub functions: usize,
    pub kvars: usize,
    pub constraint: usize,
    pub end: usize,
}

// The offset number i of the trailer.
#[tactic(auto, using(crate::proofs::Trailers::offset_there, crate::proofs::Trailers::offset_is))]
fn offset(file: &[u8], i: usize) -> usize
    requires { (28 ≤ length file.now) × (i < 6) }
    ensures { result ≡ bound file.now i }
{
    let start = file.len() - 28 + 4 * i;
    match task::number_at(file, start, 4) {
        Ok((n, _)) => n as usize,
        Err(_) => 0,
    }
}

// Whether the file ends in the mark.
fn is_marked(file: &[u8]) -> bool
    requires { 28 ≤ length file.now }
    ensures { result ≡ same (drop (length file.now - 4) file.now) mark }
{
    file.ends_with(b"HORN")
}

// The offsets as they stand.
fn bounds_of(file: &[u8]) -> Bounds
    requires { 28 ≤ length file.now }
    ensures { result ≡ bounds_of file.now }
{
    Bounds {
        comments: offset(file, 0),
        datatypes: offset(file, 1),
        constants: offset(file, 2),
        functions: offset(file, 3),
        kvars: offset(file, 4),
        constraint: offset(file, 5),
        end: file.len() - 28,
    }
}

// Whether the first offset is 0 and none is below the one before.
fn in_order(b: Bounds) -> bool
    ensures { result ≡ ordered b }
{
    b.comments == 0
        && b.comments <= b.datatypes
        && b.datatypes <= b.constants
        && b.constants <= b.functions
        && b.functions <= b.kvars
        && b.kvars <= b.constraint
        && b.constraint <= b.end
}

// The length, the mark and the offsets.
#[tactic(auto, unfolding(task::specs::Task::framed))]
pub fn read_trailer(file: &[u8]) -> Result<Bounds, Refusal>
    ensures { result ≡ trailer_of file.now }
{
    if file.len() < 28 || 60000 < file.len() || !is_marked(file) {
        return Err(Refusal::Trailer);
    }
    let b = bounds_of(file);
    if !in_order(b) {
        return Err(Refusal::Trailer);
    }
    Ok(b)
}

// Where a section begins.
pub fn start_of(b: Bounds, section: Section) -> usize
    ensures { result ≡ start_of b section }
{
    match section {
        Section::Comments => b.comments,
        Section::Datatypes => b.datatypes,
        Section::Constants => b.constants,
        Section::Functions => b.functions,
        Section::KVars => b.kvars,
    }
}

// Where it ends.
pub fn end_of(b: Bounds, section: Section) -> usize
    ensures { result ≡ end_of b section }
{
    match section {
        Section::Comments => b.datatypes,
        Section::Datatypes => b.constants,
        Section::Constants => b.functions,
        Section::Functions => b.kvars,
        Section::KVars => b.constraint,
    }
}
