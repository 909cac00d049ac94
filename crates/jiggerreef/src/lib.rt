// `survey`, `part`, `run` and `script` as the archive has them: jiggerreef_c exports these functions to C and Rust. A call answers 0 and stores its
// values, or it answers the number of its refusal and stores nothing. They ask nothing of the bytes, the edition's number, an index, a count or the
// length of a buffer or a table.
#![tactic(auto)]

ghost use Rattle.std.specs.Prelude.{◌≡◌, [], ◌∷◌, length};
ghost use Rattle.smt_text.specs.Editions.{names_of, edition_of};
ghost use Rattle.horn_text.specs.Answers.{survey_answer, part_answer, part_buffer, script_answer, script_buffer, run_answer, run_buffer, run_table};
ghost use Rattle.horn_text.specs.Demand.{Promised};
ghost use Rattle.smt_horn.specs.Calls.{written as answered};
ghost use Rattle.jiggerreef.specs.Archive.{number, stored};

use task::Refusal;

// Stores the numbers of parts and of assertions, the length of the script and that of its longest part; or answers the number of the
// refusal.
pub fn jiggerreef_survey(file: &[u8], edition: u8, sizes: &mut [usize; 4]) -> u8
    ensures { (result ≡ number (survey_answer (names_of (edition_of edition)) file.now)) × (sizes.new ≡ stored (survey_answer (names_of (edition_of edition)) file.now) sizes.old) }
{
    match smt_horn::survey(file, edition.into()) {
        Ok(found) => {
            *sizes = [found.parts, found.assertions, found.len, found.longest];
            0
        }
        Err(refusal) => u8::from(refusal),
    }
}

// Stores a written length; or answers the number of the refusal.
fn store_length(written: Result<usize, Refusal>, len: &mut usize) -> u8
    ensures { (result ≡ number (answered written)) × (len.new ∷ [] ≡ stored (answered written) (len.old ∷ [])) }
{
    match written {
        Ok(n) => {
            *len = n;
            0
        }
        Err(refusal) => u8::from(refusal),
    }
}

// Writes part i to the buffer's start and stores its length; or answers survey's refusal, then 8 if there is no such part, then 9 if it is
// longer than the buffer.
pub fn jiggerreef_part(file: &[u8], buf: &mut [u8], edition: u8, i: usize, len: &mut usize) -> u8
    ensures { (result ≡ number (part_answer (names_of (edition_of edition)) file.now i (length buf.old))) × (len.new ∷ [] ≡ stored (part_answer (names_of (edition_of edition)) file.now i (length buf.old)) (len.old ∷ [])) × (buf.new ≡ part_buffer (names_of (edition_of edition)) file.now i buf.old) }
{
    let written = smt_horn::part(file, edition.into(), i, buf);
    store_length(written, len)
}

// Writes `count` parts from number `first` on, joined, to the buffer's start, the length of each to the table's start, and stores the joined
// length; or answers survey's refusal, then 8 if there are not as many parts, then 9 if they are longer than the buffer or the table has fewer
// places.
pub fn jiggerreef_run(
    file: &[u8],
    buf: &mut [u8],
    lengths: &mut [u32],
    edition: u8,
    first: usize,
    count: usize,
    len: &mut usize,
) -> u8
    ensures { (result ≡ number (run_answer (names_of (edition_of edition)) file.now first count (length buf.old) (length lengths.old))) × (len.new ∷ [] ≡ stored (run_answer (names_of (edition_of edition)) file.now first count (length buf.old) (length lengths.old)) (len.old ∷ [])) × (buf.new ≡ run_buffer (names_of (edition_of edition)) file.now first count buf.old lengths.old) × (lengths.new ≡ run_table (names_of (edition_of edition)) file.now first count buf.old lengths.old) }
{
    let written = smt_horn::run(file, edition.into(), first, count, buf, lengths);
    store_length(written, len)
}

// Writes the script to the buffer's start and stores its length; or answers survey's refusal, then 9 if it is longer than the buffer. What
// the buffer then holds carries demand 3.
pub fn jiggerreef_script(file: &[u8], buf: &mut [u8], edition: u8, len: &mut usize) -> u8
    ensures value { (result ≡ number (script_answer (names_of (edition_of edition)) file.now (length buf.old))) × (len.new ∷ [] ≡ stored (script_answer (names_of (edition_of edition)) file.now (length buf.old)) (len.old ∷ [])) × (buf.new ≡ script_buffer (names_of (edition_of edition)) file.now buf.old) }
    ensures promised { Promised (names_of (edition_of edition)) file.now buf.old buf.new }
{
    let written = smt_horn::script(file, edition.into(), buf);
    store_length(written, len)
}
