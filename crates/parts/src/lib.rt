// The parts of a script and the walk over those in a range, `write_smt_horn` of `smt_horn.rs`: the opening, the declarations, the blank line,
// the assertions, the closing. Each is written into the buffer behind the last written byte, its length goes into a table, and it is counted.
#![tactic(auto)]

ghost use Rattle.std.specs.Prelude.{◌≡◌, ◌≤◌, length, take};
ghost use Rattle.task.specs.Decode.{comment, section as section_of};
ghost use Rattle.trailer.specs.Bounds.{Inside};
ghost use Rattle.smt_sort.specs.Section.{encoder_by};
ghost use Rattle.horn_text.specs.Script.{write_comment, opening};
ghost use Rattle.output.specs.Emit.{output, Sends};
ghost use Rattle.flatten.specs.Parts.{writing, put, Puts};
ghost use Rattle.parts.specs.Whole.{item_text, itself, alone, comment_lines, opening_part, each, PutsAll, section_texts, declaration_texts, constraint_in, assertion_parts, fresh, PutsScript, Measured};

use assertion::Kept;
use flatten::{Moved, Progress, Range, Walk};
use item_check::Section;
use output::Out;
use path::Path;
use smt_sort::Encoder;
use smt_word::Sent;
use trailer::Bounds;

// Sends the line of the comment at a position.
#[tactic(auto, using(crate::proofs::Placing::comment_refused, crate::proofs::Placing::comment_sent))]
fn write_comment(s: &[u8], at: usize, buf: &mut [u8], out: Out) -> Sent
    ensures { Sends write_comment (comment s.now at) (output buf.old out.len) (output buf.new result.out.len) result.at }
{
    let Ok((x, p)) = task::read_text(s, at) else {
        return Sent { at, out };
    };
    let opened = out.bytes(buf, b";; ");
    let told = opened.bytes(buf, x);
    let ended = told.byte(buf, b'\n');
    Sent { at: p, out: ended }
}

// Sends the lines of the comments from a position to the section's end.
fn write_comments(s: &[u8], at: usize, buf: &mut [u8], out: Out) -> Sent
    ensures { Sends comment_lines (section_of comment s.now at) (output buf.old out.len) (output buf.new result.out.len) result.at }
{
    let mut sent = Sent { at, out };
    // a while: comments have no count, and where one ends is known when it is read
    while sent.at < s.len() {
        let next = write_comment(s, sent.at, buf, sent.out);
        if next.at <= sent.at {
            return sent;
        }
        sent = next;
    }
    sent
}

// Sends the script's opening: the logic, and the comments with a blank line behind them if there are any.
fn write_opening(s: &[u8], at: usize, buf: &mut [u8], out: Out) -> Sent
    ensures { Sends opening (section_of comment s.now at) (output buf.old out.len) (output buf.new result.out.len) result.at }
{
    let opened = out.bytes(buf, b"(set-logic HORN)\n\n");
    if s.len() <= at {
        return Sent { at, out: opened };
    }
    let comments = write_comments(s, at, buf, opened);
    Sent {
        at: comments.at,
        out: comments.out.byte(buf, b'\n'),
    }
}

// Sends the text of the item at a position of a section.
#[tactic(auto, using(crate::proofs::Placing::text_of), unfolding(crate::specs::Whole::item_text))]
fn write_item(enc: Encoder, at: usize, section: Section, buf: &mut [u8], out: Out) -> Sent
    ensures { Sends itself (item_text (encoder_by enc.entry) section enc.entry.file.now at) (output buf.old out.len) (output buf.new result.out.len) result.at }
{
    match section {
        Section::Comments => write_comment(enc.file, at, buf, out),
        Section::Datatypes => smt_fmt::write_datatype_decl(enc, at, buf, out),
        Section::Constants => smt_fmt::write_const_decl(enc, at, buf, out),
        Section::Functions => smt_fmt::write_fun_def(enc, at, buf, out),
        Section::KVars => smt_fmt::write_kvar_decl(enc, at, buf, out),
    }
}

// A fixed text as a part.
#[tactic(auto, using(flatten::proofs::Lending::put_out))]
fn put_text(text: &[u8], buf: &mut [u8], p: Progress, lengths: &mut [u32]) -> Progress
    ensures { writing result buf.new lengths.new ≡ put (writing p buf.old lengths.old) text.now }
{
    if p.has_next() {
        let start = p.len.min(buf.len());
        let sent = Out::new().bytes(&mut buf[start..], text);
        return p.placed(sent.len, lengths);
    }
    p.passed()
}

// The opening as a part.
#[tactic(auto, using(crate::proofs::Placing::part_out))]
fn put_opening(s: &[u8], at: usize, buf: &mut [u8], p: Progress, lengths: &mut [u32]) -> Progress
    ensures { PutsAll opening_part (section_of comment s.now at) (writing p buf.old lengths.old) (writing result buf.new lengths.new) }
{
    if p.has_next() {
        let start = p.len.min(buf.len());
        let sent = write_opening(s, at, &mut buf[start..], Out::new());
        return p.placed(sent.out.len, lengths);
    }
    p.passed()
}

// The item at a position of a section as a part.
#[tactic(auto, using(crate::proofs::Placing::item_out, crate::proofs::Placing::item_refused))]
fn put_item(
    enc: Encoder,
    at: usize,
    section: Section,
    buf: &mut [u8],
    p: Progress,
    lengths: &mut [u32],
) -> Moved
    ensures { Puts alone (item_text (encoder_by enc.entry) section enc.entry.file.now at) (writing p buf.old lengths.old) (writing result.progress buf.new lengths.new) result.at }
{
    if p.has_next() {
        let start = p.len.min(buf.len());
        let sent = write_item(enc, at, section, &mut buf[start..], Out::new());
        return Moved {
            at: sent.at,
            progress: p.placed(sent.out.len, lengths),
        };
    }
    let Ok((_, q)) = item_check::check_item(enc.file, at, section) else {
        return Moved { at, progress: p };
    };
    Moved {
        at: q,
        progress: p.passed(),
    }
}

// The items from a position to the section's end, each as a part.
fn put_section(
    enc: Encoder,
    at: usize,
    end: usize,
    section: Section,
    buf: &mut [u8],
    p: Progress,
    lengths: &mut [u32],
) -> Progress
    requires { end ≤ length enc.file.now }
    ensures { PutsAll each (section_of (item_text (encoder_by enc.entry) section) (take end enc.entry.file.now) at) (writing p buf.old lengths.old) (writing result buf.new lengths.new) }
{
    let mut moved = Moved { at, progress: p };
    // a while: items have no count, and where one ends is known when it is read
    while moved.at < end {
        let next = put_item(enc, moved.at, section, buf, moved.progress, lengths);
        if next.at <= moved.at {
            return moved.progress;
        }
        moved = next;
    }
    moved.progress
}

// The items of a section of the file, each as a part.
#[tactic(auto, using(declared::proofs::Gathering::ends_inside, crate::proofs::Scripts::section_put))]
fn put_items(
    enc: Encoder,
    b: Bounds,
    section: Section,
    buf: &mut [u8],
    p: Progress,
    lengths: &mut [u32],
) -> Progress
    requires { Inside enc.file.now b }
    ensures { PutsAll each (section_texts enc.entry.file.now (encoder_by enc.entry) b section) (writing p buf.old lengths.old) (writing result buf.new lengths.new) }
{
    let at = trailer::start_of(b, section);
    let end = trailer::end_of(b, section);
    put_section(enc, at, end, section, buf, p, lengths)
}

// The declarations in section order, each as a part.
#[tactic(auto, using(crate::proofs::Scripts::declarations_put))]
fn put_declarations(
    enc: Encoder,
    b: Bounds,
    buf: &mut [u8],
    p: Progress,
    lengths: &mut [u32],
) -> Progress
    requires { Inside enc.file.now b }
    ensures { PutsAll each (declaration_texts enc.entry.file.now (encoder_by enc.entry) b) (writing p buf.old lengths.old) (writing result buf.new lengths.new) }
{
    let p1 = put_items(enc, b, Section::Datatypes, buf, p, lengths);
    let p2 = put_items(enc, b, Section::Constants, buf, p1, lengths);
    let p3 = put_items(enc, b, Section::Functions, buf, p2, lengths);
    put_items(enc, b, Section::KVars, buf, p3, lengths)
}

// The assertions, each as a part. The text of a path is kept in a lent one, whatever that holds: binders in its first half, guards in the other.
#[tactic(auto, using(crate::proofs::Scripts::ready_start, crate::proofs::Scripts::assertions_put))]
fn put_kept(
    enc: Encoder,
    b: Bounds,
    buf: &mut [u8],
    p: Progress,
    text: &mut [u8],
    lengths: &mut [u32],
) -> Progress
    requires { Inside enc.file.now b }
    ensures { PutsAll (assertion_parts (encoder_by enc.entry)) (constraint_in enc.entry.file.now b) (writing p buf.old lengths.old) (writing result buf.new lengths.new) }
{
    let from = Walk {
        moved: Moved {
            at: b.constraint,
            progress: p,
        },
        kept: Kept::none(),
    };
    let walk = flatten::flatten_constraint(enc, from, 256, Path::empty(), buf, text, lengths);
    walk.moved.progress
}

// The same with room for N bytes of the text of a path.
fn put_keeping<const N: usize>(
    enc: Encoder,
    b: Bounds,
    buf: &mut [u8],
    p: Progress,
    lengths: &mut [u32],
) -> Progress
    requires { Inside enc.file.now b × (N ≤ 32768) }
    ensures { PutsAll (assertion_parts (encoder_by enc.entry)) (constraint_in enc.entry.file.now b) (writing p buf.old lengths.old) (writing result buf.new lengths.new) }
{
    let mut text = [0u8; N];
    put_kept(enc, b, buf, p, &mut text, lengths)
}

// The assertions, each as a part. Where they are only measured no text is kept, and a short file does not wait for a long one to be cleared.
fn put_assertions(
    enc: Encoder,
    b: Bounds,
    buf: &mut [u8],
    p: Progress,
    lengths: &mut [u32],
) -> Progress
    requires { Inside enc.file.now b }
    ensures { PutsAll (assertion_parts (encoder_by enc.entry)) (constraint_in enc.entry.file.now b) (writing p buf.old lengths.old) (writing result buf.new lengths.new) }
{
    if buf.len() == 0 {
        put_keeping::<0>(enc, b, buf, p, lengths)
    } else if enc.file.len() <= 1000 {
        put_keeping::<4096>(enc, b, buf, p, lengths)
    } else {
        put_keeping::<32768>(enc, b, buf, p, lengths)
    }
}

// Puts the parts in the range into the buffer, one behind the other, and their lengths into the table: what has room is stored, and all is
// counted. The encoder is a table of the names that the task declares.
pub fn write_smt_horn(
    enc: Encoder,
    b: Bounds,
    range: Range,
    buf: &mut [u8],
    lengths: &mut [u32],
) -> Progress
    requires { Inside enc.file.now b }
    ensures { PutsScript enc.entry.file.now enc.entry.words.now b (fresh range buf.old lengths.old) (writing result buf.new lengths.new) }
{
    let p0 = Progress::start(range);
    let p1 = put_opening(&enc.file[..b.datatypes], b.comments, buf, p0, lengths);
    let p2 = put_declarations(enc, b, buf, p1, lengths);
    let p3 = put_text(b"\n", buf, p2, lengths);
    let p4 = put_assertions(enc, b, buf, p3, lengths);
    put_text(b"\n(check-sat)\n", buf, p4, lengths)
}

// Counts the parts, measures those in the range and puts their lengths into the table.
#[tactic(auto, using(crate::proofs::Scripts::measured))]
pub fn measure(enc: Encoder, b: Bounds, range: Range, lengths: &mut [u32]) -> Progress
    requires { Inside enc.file.now b }
    ensures { Measured enc.entry.file.now enc.entry.words.now b range lengths.old result lengths.new }
{
    let mut none = [0u8; 0];
    write_smt_horn(enc, b, range, &mut none, lengths)
}
