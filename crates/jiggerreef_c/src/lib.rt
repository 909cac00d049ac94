// The archive for C and Rust: each function of `jiggerreef` under its own name, with its clauses.
#![tactic(auto)]

ghost use Rattle.std.specs.Prelude.{◌≡◌, [], ◌∷◌, length};
ghost use Rattle.smt_text.specs.Editions.{names_of, edition_of};
ghost use Rattle.horn_text.specs.Answers.{survey_answer, part_answer, part_buffer, script_answer, script_buffer, run_answer, run_buffer, run_table};
ghost use Rattle.horn_text.specs.Demand.{Promised};
ghost use Rattle.jiggerreef.specs.Archive.{number, stored};

// Stores the numbers of parts and of assertions, the length of the script and that of its longest part; or answers the number of the
// refusal.
#[unsafe(no_mangle)]
pub extern "C" fn jiggerreef_survey(file: &[u8], edition: u8, sizes: &mut [usize; 4]) -> u8
    ensures { (result ≡ number (survey_answer (names_of (edition_of edition)) file.now)) × (sizes.new ≡ stored (survey_answer (names_of (edition_of edition)) file.now) sizes.old) }
{
    jiggerreef::jiggerreef_survey(file, edition, sizes)
}

// Writes part i to the buffer's start and stores its length; or answers survey's refusal, then 8 if there is no such part, then 9 if it is
// longer than the buffer.
#[unsafe(no_mangle)]
pub extern "C" fn jiggerreef_part(
    file: &[u8],
    buf: &mut [u8],
    edition: u8,
    i: usize,
    len: &mut usize,
) -> u8
    ensures { (result ≡ number (part_answer (names_of (edition_of edition)) file.now i (length buf.old))) × (len.new ∷ [] ≡ stored (part_answer (names_of (edition_of edition)) file.now i (length buf.old)) (len.old ∷ [])) × (buf.new ≡ part_buffer (names_of (edition_of edition)) file.now i buf.old) }
{
    jiggerreef::jiggerreef_part(file, buf, edition, i, len)
}

// Writes `count` parts from number `first` on, joined, to the buffer's start, the length of each to the table's start, and stores the joined
// length; or answers survey's refusal, then 8 if there are not as many parts, then 9 if they are longer than the buffer or the table has fewer
// places.
#[unsafe(no_mangle)]
pub extern "C" fn jiggerreef_run(
    file: &[u8],
    buf: &mut [u8],
    lengths: &mut [u32],
    edition: u8,
    first: usize,
    count: usize,
    len: &mut usize,
) -> u8
    ensures { (result ≡ number (run_answer (names_of (edition_of edition)) file.now first count (length buf.old) (length lengths.old))) × (len.new ∷ [] ≡ stored (run_answer (names_of (edition_of edition)) file.now first count (length buf.old) (length lengths.old)) (len.old ∷ [])) × (buf.new ≡ run_buffer (names_of (edition_of edition)) file.now first count buf.old lengths.old) × (lengths.new ≡ run_table (names_of (edition_of edition)) file.now first count buf.old lengths.old) }
{
    jiggerreef::jiggerreef_run(file, buf, lengths, edition, first, count, len)
}

// Writes the script to the buffer's start and stores its length; or answers survey's refusal, then 9 if it is longer than the buffer. What
// the buffer then holds is read as the commands that the task calls for, and in no other way.
#[unsafe(no_mangle)]
pub extern "C" fn jiggerreef_script(file: &[u8], buf: &mut [u8], edition: u8, len: &mut usize) -> u8
    ensures value { (result ≡ number (script_answer (names_of (edition_of edition)) file.now (length buf.old))) × (len.new ∷ [] ≡ stored (script_answer (names_of (edition_of edition)) file.now (length buf.old)) (len.old ∷ [])) × (buf.new ≡ script_buffer (names_of (edition_of edition)) file.now buf.old) }
    ensures promised { Promised (names_of (edition_of edition)) file.now buf.old buf.new }
{
    jiggerreef::jiggerreef_script(file, buf, edition, len)
}
