// `survey`, `part`, `run` and `script`: what `smt_horn.rs` writes for a task file, or the refusal. They answer for any bytes, and write
// nothing before all that could refuse has been checked. The caller picks the edition with each call: with `Z3` the text is that of the source,
// with `Cvc5` the set functions have the names of cvc5 in it.
#![tactic(auto)]

ghost use Rattle.std.specs.Prelude.{◌≡◌, ◌+◌, ◌≤◌, length};
ghost use Rattle.inspect.specs.Inspect.{Room, Names};
ghost use Rattle.smt_text.specs.Editions.{names_of};
ghost use Rattle.smt_sort.specs.Section.{edition_in};
ghost use Rattle.horn_text.specs.Answers.{survey_answer, part_answer, part_buffer, script_answer, script_buffer, run_answer, run_buffer, run_table};
ghost use Rattle.horn_text.specs.Demand.{Promised};
ghost use Rattle.parts.specs.Whole.{Accepted};
ghost use Rattle.smt_horn.specs.Calls.{surveyed, written};
ghost use Rattle.smt_horn.specs.Putting.{range_of, sized as sized_of, answer_to, PutsTask, Puts, Answers};

use flatten::{Progress, Range};
use smt_sort::Encoder;
use smt_text::Edition;
use task::Refusal;
use trailer::Bounds;

// The numbers of parts and of assertions, the length of the script and that of its longest part.
#[derive(Clone, Copy, PartialEq, Eq, Debug)]
pub struct Sizes {
    pub parts: usize,
    pub assertions: usize,
    pub len: usize,
    pub longest: usize,
}

// What a call asks for: all parts; or those of a run, from a first one on and so many, with the length of each.
#[derive(Clone, Copy)]
enum Asked {
    All,
    Run(usize, usize),
}

// What a call finds: the number of the task's heads that are not literally true, and what was counted and measured of the parts that are asked
// for; or the refusal.
type Outcome = Result<(u64, Progress), Refusal>;

// The length of what was measured, or 9 if it is more than there is room for.
fn sized(sizes: Progress, room: usize) -> Result<usize, Refusal>
    ensures { written result ≡ sized_of sizes room }
{
    let len = sizes.len;
    if room < len {
        return Err(Refusal::Room);
    }
    Ok(len)
}

impl Asked {
    // The numbers of the parts that are asked for.
    fn range(self) -> Range
        ensures { result ≡ range_of self }
    {
        match self {
            Asked::All => Range {
                from: 0,
                to: usize::MAX,
            },
            Asked::Run(first, count) => Range {
                from: first,
                to: output::sum(first, count),
            },
        }
    }

    // What is answered once they were counted and measured: of a run all must be there, and the table must have a place for each.
    fn answer(self, sizes: Progress, room: usize, places: usize) -> Result<usize, Refusal>
        ensures { written result ≡ answer_to self sizes room places }
    {
        match self {
            Asked::All => sized(sizes, room),
            Asked::Run(first, count) => {
                if sizes.seen < output::sum(first, count) {
                    return Err(Refusal::Part);
                }
                if places < count {
                    return Err(Refusal::Room);
                }
                sized(sizes, room)
            }
        }
    }
}

// Measures the parts of a task whose sections and names are known, and writes them and their lengths unless the answer is a refusal.
fn put_task(enc: Encoder, b: Bounds, asked: Asked, buf: &mut [u8], lengths: &mut [u32]) -> Progress
    requires { Accepted enc.file.now b × Names enc.file.now enc.words.now }
    ensures { PutsTask enc.entry.file.now (edition_in enc.entry.words.now) asked buf.old buf.new lengths.old lengths.new result }
{
    let range = asked.range();
    let mut none = [0u32; 0];
    let sizes = parts::measure(enc, b, range, &mut none);
    let Ok(_) = asked.answer(sizes, buf.len(), lengths.len()) else {
        return sizes;
    };
    parts::write_smt_horn(enc, b, range, buf, lengths);
    sizes
}

// The same for any file. An empty table is lent for the names that the task declares.
fn put_with(
    file: &[u8],
    edition: Edition,
    asked: Asked,
    buf: &mut [u8],
    lengths: &mut [u32],
    table: &mut [u16],
) -> Outcome
    requires { Room file.now table.old }
    ensures { Puts file.now edition asked buf.old buf.new lengths.old lengths.new result }
{
    let found = inspect::inspect(file, table)?;
    let b = found.bounds;
    smt_sort::set_edition(table, edition);
    let enc = Encoder { file, words: table };
    Ok((found.heads, put_task(enc, b, asked, buf, lengths)))
}

// The same with a table of N words.
fn put_within<const N: usize>(
    file: &[u8],
    edition: Edition,
    asked: Asked,
    buf: &mut [u8],
    lengths: &mut [u32],
) -> Outcome
    requires { (1026 ≤ N) × (N ≤ 61026) × (length file.now ≤ 60000 → 1026 + length file.now ≤ N) }
    ensures { Puts file.now edition asked buf.old buf.new lengths.old lengths.new result }
{
    let mut table = [0u16; N];
    put_with(file, edition, asked, buf, lengths, &mut table)
}

// The same with a table by the file's length: a short file does not wait for a long table to be cleared.
fn put_parts(
    file: &[u8],
    edition: Edition,
    asked: Asked,
    buf: &mut [u8],
    lengths: &mut [u32],
) -> Outcome
    ensures { Puts file.now edition asked buf.old buf.new lengths.old lengths.new result }
{
    if file.len() <= 1000 {
        put_within::<2026>(file, edition, asked, buf, lengths)
    } else if file.len() <= 8000 {
        put_within::<9026>(file, edition, asked, buf, lengths)
    } else {
        put_within::<61026>(file, edition, asked, buf, lengths)
    }
}

// The parts of a file that are asked for: they are written to the buffer's start and their lengths to the table's, or nothing is.
fn write_parts(
    file: &[u8],
    edition: Edition,
    asked: Asked,
    buf: &mut [u8],
    lengths: &mut [u32],
) -> Result<usize, Refusal>
    ensures { Answers file.now edition asked buf.old buf.new lengths.old lengths.new (written result) }
{
    let room = buf.len();
    let places = lengths.len();
    let (_, sizes) = put_parts(file, edition, asked, buf, lengths)?;
    asked.answer(sizes, room, places)
}

// The numbers of parts and of assertions, the length of the script and that of its longest part; or the refusal.
#[tactic(auto, using(crate::proofs::Entries::was_refused, crate::proofs::Entries::survey_refused))]
pub fn survey(file: &[u8], edition: Edition) -> Result<Sizes, Refusal>
    ensures { surveyed result ≡ survey_answer (names_of edition) file.now }
{
    let mut none = [0u8; 0];
    let mut lengths = [0u32; 0];
    let (heads, all) = put_parts(file, edition, Asked::All, &mut none, &mut lengths)?;
    Ok(Sizes {
        parts: all.seen,
        assertions: heads as usize,
        len: all.len,
        longest: all.longest,
    })
}

// Writes `count` parts from number `first` on, joined, to the buffer's start and the length of each to the table's; or survey's refusal, then 8 if
// there are not as many parts, then 9 if they are longer than the buffer or the table has fewer places.
pub fn run(
    file: &[u8],
    edition: Edition,
    first: usize,
    count: usize,
    buf: &mut [u8],
    lengths: &mut [u32],
) -> Result<usize, Refusal>
    ensures { (written result ≡ run_answer (names_of edition) file.now first count (length buf.old) (length lengths.old)) × (buf.new ≡ run_buffer (names_of edition) file.now first count buf.old lengths.old) × (lengths.new ≡ run_table (names_of edition) file.now first count buf.old lengths.old) }
{
    write_parts(file, edition, Asked::Run(first, count), buf, lengths)
}

// Writes part i to the buffer's start; or survey's refusal, then 8 if there is no such part, then 9 if it is longer than the buffer. It is the
// run of that part alone.
pub fn part(file: &[u8], edition: Edition, i: usize, buf: &mut [u8]) -> Result<usize, Refusal>
    ensures { (written result ≡ part_answer (names_of edition) file.now i (length buf.old)) × (buf.new ≡ part_buffer (names_of edition) file.now i buf.old) }
{
    let mut lengths = [0u32; 1];
    run(file, edition, i, 1, buf, &mut lengths)
}

// Writes the script to the buffer's start; or survey's refusal, then 9 if it is longer than the buffer. What the buffer then holds carries
// demand 3.
pub fn script(file: &[u8], edition: Edition, buf: &mut [u8]) -> Result<usize, Refusal>
    ensures written { (written result ≡ script_answer (names_of edition) file.now (length buf.old)) × (buf.new ≡ script_buffer (names_of edition) file.now buf.old) }
    ensures promised { Promised (names_of edition) file.now buf.old buf.new }
{
    let mut lengths = [0u32; 0];
    write_parts(file, edition, Asked::All, buf, &mut lengths)
}
