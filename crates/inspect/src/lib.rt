// The whole file: its trailer, its sections front to back, its names, and what survey refuses.
#![tactic(auto)]

ghost use Rattle.std.specs.Prelude.{◌≡◌, ◌≤◌, length, take};
ghost use Rattle.task.specs.Fault.{refusal_of};
ghost use Rattle.task.specs.Task.{task_of};
ghost use Rattle.item_check.specs.Items.{item_walk};
ghost use Rattle.trailer.specs.Bounds.{Inside};
ghost use Rattle.inspect.specs.Inspect.{numbered, inspected_of, Room, Names};
ghost use Rattle.inspect.specs.Walk.{refused_by, walk_items, section_of, items_of, judge as judge_of, sound_of};

use item_check::Section;
use names::Table;
use task::{Fault, Refusal};
use trailer::Bounds;

// The number of a section's items and the fault that is judged first, or why it is refused.
type Listed = Result<(u64, Fault), Refusal>;

// The sections of a task, the number of its declarations and of its heads that are not literally true.
#[derive(Clone, Copy)]
pub struct Inspected {
    pub bounds: Bounds,
    pub declarations: u64,
    pub heads: u64,
}

// The refusal of a task with a fault.
fn refusal_of(f: Fault) -> Option<Refusal>
    ensures { refused_by result ≡ refusal_of f }
{
    match f {
        Fault::Text => Some(Refusal::Text),
        Fault::NoConstructors => Some(Refusal::NoConstructors),
        Fault::BitVecWidth => Some(Refusal::BitVecWidth),
        Fault::Unqualified => Some(Refusal::Unqualified),
        Fault::WKVar => Some(Refusal::WKVar),
        Fault::Arity => Some(Refusal::Arity),
        Fault::Shadowed => Some(Refusal::Shadowed),
        Fault::Clash => Some(Refusal::Clash),
        Fault::Unknown => Some(Refusal::Unknown),
        Fault::Arguments => Some(Refusal::Arguments),
        Fault::Sound => None,
    }
}

// The items of a section, from a position to its end.
fn check_section(s: &[u8], at: usize, section: Section) -> Listed
    ensures { numbered result ≡ walk_items (length s.now) (item_walk section s.now) (length s.now) at }
{
    let mut p = at;
    let mut count: u64 = 0;
    let mut fault = Fault::Sound;
    // a while: items have no count, and where one ends is known when it is read
    while p < s.len() {
        let (f, q) = item_check::check_item(s, p, section)?;
        p = q;
        count += 1;
        fault = fault.lower(f);
    }
    Ok((count, fault))
}

// The items of a section that stands in the file from a position to an end. Comments are not counted.
#[tactic(auto, using(crate::proofs::Whole::part_refused, crate::proofs::Whole::part_counted, crate::proofs::Whole::part_comments))]
fn check_part(file: &[u8], at: usize, end: usize, section: Section) -> Listed
    requires { end ≤ length file.now }
    ensures { numbered result ≡ section_of section (take end file.now) at }
{
    let (count, fault) = check_section(&file[..end], at, section)?;
    match section {
        Section::Comments => Ok((0, fault)),
        _ => Ok((count, fault)),
    }
}

// The items of all sections front to back: the number of declarations and the fault that is judged first.
#[tactic(auto, using(crate::proofs::Whole::stops_0, crate::proofs::Whole::stops_1, crate::proofs::Whole::stops_2, crate::proofs::Whole::stops_3, crate::proofs::Whole::stops_4))]
fn check_items(file: &[u8], b: Bounds) -> Listed
    requires { Inside file.now b }
    ensures { numbered result ≡ items_of file.now b }
{
    let (n0, f0) = check_part(file, b.comments, b.datatypes, Section::Comments)?;
    let (n1, f1) = check_part(file, b.datatypes, b.constants, Section::Datatypes)?;
    let (n2, f2) = check_part(file, b.constants, b.functions, Section::Constants)?;
    let (n3, f3) = check_part(file, b.functions, b.kvars, Section::Functions)?;
    let (n4, f4) = check_part(file, b.kvars, b.constraint, Section::KVars)?;
    let fault = f0.lower(f1.lower(f2.lower(f3.lower(f4))));
    Ok((n0 + (n1 + (n2 + (n3 + n4))), fault))
}

// The answer by the fault that is judged first.
fn judge(b: Bounds, declarations: u64, heads: u64, fault: Fault) -> Result<Inspected, Refusal>
    ensures { numbered result ≡ judge_of b declarations heads fault }
{
    match refusal_of(fault) {
        None => Ok(Inspected {
            bounds: b,
            declarations,
            heads,
        }),
        Some(refusal) => Err(refusal),
    }
}

// What `inspect` answers, by the faults of the task's pieces alone: its names are not judged.
#[tactic(auto, using(crate::proofs::Whole::pieces_unframed, crate::proofs::Whole::pieces_refused, crate::proofs::Whole::pieces_stop, crate::proofs::Whole::pieces_left))]
fn check_pieces(file: &[u8]) -> Result<Inspected, Refusal>
    ensures { numbered result ≡ inspected_of file.now (sound_of file.now) }
{
    let b = trailer::read_trailer(file)?;
    let (declarations, f) = check_items(file, b)?;
    let end = b.end;
    let at = b.constraint;
    let (counted, p) = constraint_check::check_constraint(&file[..end], at)?;
    if p != end {
        return Err(Refusal::Piece);
    }
    judge(b, declarations, counted.heads, f.lower(counted.fault))
}

// The sections of the task that a file holds, the number of its declarations (datatypes, constants, functions and KVars) and of its heads
// that are not literally true; or the refusal. The names that the task declares are put into an empty table, and all names are judged by
// them.
pub fn inspect(file: &[u8], table: &mut [u16]) -> Result<Inspected, Refusal>
    requires { Room file.now table.old }
    ensures { (numbered result ≡ inspected_of file.now (task_of file.now)) × Names file.now table.new }
{
    let sound = check_pieces(file)?;
    let b = sound.bounds;
    let mut names = Table { file, words: table };
    let fault = scope::judge_names(&mut names, b);
    judge(b, sound.declarations, sound.heads, fault)
}
