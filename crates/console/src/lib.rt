// What the program `hornscript` writes for a task file: its script in the edition of Z3 on standard output, or one line `refused N` and nothing
// else. No contract can speak of standard output: what is proved is which parts the buffer holds at each turn, and that the bytes handed out
// add up to the script.
#![tactic(auto)]

ghost use Rattle.std.specs.Prelude.{◌≡◌, length};
ghost use Rattle.inspect.specs.Inspect.{Names};
ghost use Rattle.task.specs.Refusals.{number_of};
ghost use Rattle.task.specs.Task.{task_of};
ghost use Rattle.smt_text.specs.Editions.{names_of};
ghost use Rattle.smt_sort.specs.Section.{edition_in};
ghost use Rattle.horn_text.specs.Answers.{refused};
ghost use Rattle.flatten.specs.Parts.{up};
ghost use Rattle.parts.specs.Whole.{Accepted};
ghost use Rattle.console.specs.Turns.{fitting as fitting_of, Fills, Begun, Short, Whole, print_of, print_answer, printed};
ghost use Rattle.smt_horn.specs.Calls.{written};

use flatten::Range;
use smt_sort::Encoder;
use smt_text::Edition;
use task::Refusal;
use trailer::Bounds;

// Standard output.
const STDOUT_FILENO: i32 = 1;

// What a turn put into the buffer: the number of the part behind it, and how many bytes.
#[derive(Clone, Copy)]
pub struct Turn {
    pub next: usize,
    pub len: usize,
}

// How many bytes of a script were printed, or the refusal whose line was.
pub type Printed = Result<usize, Refusal>;

// How many of the lengths, from the first on, there is room for together.
fn fitting(lengths: &[u32], room: usize) -> usize
    ensures { result ≡ fitting_of room lengths.now }
{
    let mut left = room;
    for (i, len) in lengths.iter().enumerate() {
        let n = *len as usize;
        if left < n {
            return i;
        }
        left -= n;
    }
    lengths.len()
}

// Puts as many parts, from a number on, to the buffer's start as fit it and a table of their lengths.
fn fill(enc: Encoder, b: Bounds, from: usize, buf: &mut [u8], lengths: &mut [u32]) -> Turn
    requires accepted { Accepted enc.file.now b × Names enc.file.now enc.words.now }
    requires begun { Begun enc.file.now (edition_in enc.words.now) from }
    ensures { Fills enc.entry.file.now (edition_in enc.entry.words.now) from (length lengths.old) buf.old buf.new result }
{
    let places = lengths.len();
    let to = output::sum(from, places);
    let sizes = parts::measure(enc, b, Range { from, to }, lengths);
    let known = output::least(places, sizes.seen - from);
    let next = from + fitting(&lengths[..known], buf.len());
    let mut none = [0u32; 0];
    let put = parts::write_smt_horn(enc, b, Range { from, to: next }, buf, &mut none);
    Turn { next, len: put.len }
}

// Writes out the text of a turn. Answers how many bytes were written out so far.
fn print_turn(text: &[u8], done: usize) -> usize
    ensures { result ≡ up done (length text.now) }
{
    io::write_all(STDOUT_FILENO, text);
    output::sum(done, text.len())
}

// 196,608 zeros: the buffer of a turn.
fn turn_buffer() -> [u8; 196608]
    ensures { 196608 ≡ length result }
{
    [0; 196608]
}

// 6,144 zeros: the table of the lengths of a turn's parts.
fn turn_lengths() -> [u32; 6144]
    ensures { 6144 ≡ length result }
{
    [0; 6144]
}

// Writes out n parts by turns. The buffer is larger than the longest part may be, so that there are fewer turns: each walks the file anew.
fn print_turns(enc: Encoder, b: Bounds, n: usize) -> usize
    requires accepted { Accepted enc.file.now b × Names enc.file.now enc.words.now }
    requires short { Short enc.file.now (edition_in enc.words.now) n }
    ensures { Whole enc.entry.file.now (edition_in enc.entry.words.now) result }
{
    let mut buffer = turn_buffer();
    let mut lengths = turn_lengths();
    let mut next: usize = 0;
    let mut done: usize = 0;
    // a while: how many parts a turn takes is known when it is filled
    while next < n {
        let turn = fill(enc, b, next, &mut buffer, &mut lengths);
        let len = turn.len;
        done = print_turn(&buffer[..len], done);
        next = turn.next;
    }
    done
}

// Writes the line of a number of a refusal.
pub fn print_refused(n: u8) -> Result<usize, u8>
    ensures { printed result ≡ refused n }
{
    io::write_all(STDOUT_FILENO, b"refused ");
    io::print_decimal(STDOUT_FILENO, n.into());
    io::write_all(STDOUT_FILENO, b"\n");
    Err(n)
}

// Writes the line of a refusal.
pub fn print_refusal(refusal: Refusal) -> Printed
    ensures { written result ≡ refused (number_of refusal) }
{
    let _ = print_refused(refusal.into());
    Err(refusal)
}

// Writes the script of a task whose sections and names are known; or 9 if a part is longer than 65,536 bytes.
fn print_task(enc: Encoder, b: Bounds) -> Printed
    requires { Accepted enc.file.now b × Names enc.file.now enc.words.now }
    ensures { written result ≡ print_of (names_of (edition_in enc.entry.words.now)) (task_of enc.entry.file.now) }
{
    let mut none = [0u32; 0];
    let all = Range {
        from: 0,
        to: usize::MAX,
    };
    let sizes = parts::measure(enc, b, all, &mut none);
    if 65536 < sizes.longest {
        return print_refusal(Refusal::Room);
    }
    Ok(print_turns(enc, b, sizes.seen))
}

// Writes the script of a file, or `refused N`.
pub fn print_script(file: &[u8]) -> Printed
    ensures { written result ≡ print_answer file.now }
{
    let mut table = [0u16; 61026];
    match inspect::inspect(file, &mut table) {
        Ok(found) => {
            let b = found.bounds;
            smt_sort::set_edition(&mut table, Edition::Z3);
            let enc = Encoder {
                file,
                words: &table,
            };
            print_task(enc, b)
        }
        Err(refusal) => print_refusal(refusal),
    }
}
