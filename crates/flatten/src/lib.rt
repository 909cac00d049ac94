// `flatten_constraint` of `smt_horn.rs`: the walk of the constraint with the path of ForAlls. At each head that is not literally true it puts
// the assertion into the buffer behind the last written byte, and its length into a table, if the assertion's number among the parts is in the
// range. The walk carries how much text the binders and guards of the path have: a ForAll adds what it has for its body and takes it back behind
// it. So where the buffer is empty an assertion is measured without going over the path.
#![tactic(auto)]

ghost use Rattle.std.specs.Prelude.{true, [], ◌≡◌, ◌+◌, ◌≤◌, ◌<◌, min, length, set};
ghost use Rattle.task.specs.Ast.{Constraints};
ghost use Rattle.task.specs.Decode.{many, dec_pred, dec_constraint};
ghost use Rattle.path.specs.Offsets.{entries, Leaves};
ghost use Rattle.constraint_check.specs.Around.{is_head, for_all};
ghost use Rattle.smt_sort.specs.Section.{encoder_by};
ghost use Rattle.output.specs.Emit.{most};
ghost use Rattle.assertion.specs.Kept.{plus, minus, Within, fits, Stays, Numbers};
ghost use Rattle.assertion.specs.Under.{on_path};
ghost use Rattle.flatten.specs.Parts.{writing, has as has_in, most32, noted, placed as placed_is, passed as passed_is, PutsUnder, head_parts, clause_parts, member_parts};
ghost use Rattle.flatten.specs.Walk.{enough as enough_is, wanted, Passes, MeasuredPlaces, KeptPlaces, PathPlaces, KeptPuts, Ready, Restores, HeadsPut};

use assertion::Kept;
use output::Out;
use path::Path;
use smt_sort::Encoder;
use task::ConstraintNode;

// The numbers of the parts that are written: from one up to, not including, another.
#[derive(Clone, Copy, PartialEq, Eq, Debug)]
pub struct Range {
    pub from: usize,
    pub to: usize,
}

// Which parts are written, how many were met, how many bytes were written and how long the longest written part is.
#[derive(Clone, Copy, PartialEq, Eq, Debug)]
pub struct Progress {
    pub range: Range,
    pub seen: usize,
    pub len: usize,
    pub longest: usize,
}

// Where a walker is, and the progress so far.
#[derive(Clone, Copy, PartialEq, Eq, Debug)]
pub struct Moved {
    pub at: usize,
    pub progress: Progress,
}

// What a walk of a constraint carries: where it is and the progress so far, and what is kept of the ForAlls around it.
#[derive(Clone, Copy, PartialEq, Eq, Debug)]
pub struct Walk {
    pub moved: Moved,
    pub kept: Kept,
}

// Constraints in a row: how the walk meets the first, and how many they are.
#[derive(Clone, Copy, PartialEq, Eq, Debug)]
pub struct Row {
    pub from: Walk,
    pub left: u64,
}

// Puts a length into a place of the table, if it has that place.
fn note(lengths: &mut [u32], i: usize, n: usize)
    ensures { lengths.new ≡ set lengths.old i (min n most32) }
{
    if i < lengths.len() {
        lengths[i] = u32::try_from(n).unwrap_or(u32::MAX);
    }
}

impl Range {
    // Whether a number is in the range.
    pub fn has(self, n: usize) -> bool
        ensures { result ≡ has_in self n }
    {
        self.from <= n && n < self.to
    }
}

impl Moved {
    // At another position, with the same progress.
    fn to(self, at: usize) -> Moved
        ensures { (result.at ≡ at) × (result.progress ≡ self.progress) }
    {
        Moved { at, ..self }
    }
}

impl Walk {
    // At another position.
    fn to(self, at: usize) -> Walk
        ensures { (result.moved.at ≡ at) × (result.moved.progress ≡ self.moved.progress) × (result.kept ≡ self.kept) }
    {
        Walk {
            moved: self.moved.to(at),
            ..self
        }
    }

    // Constraints in a row, the first at another position.
    fn row(self, at: usize, left: u64) -> Row
        ensures { (result.from.moved.at ≡ at) × (result.from.moved.progress ≡ self.moved.progress) × (result.from.kept ≡ self.kept) × (result.left ≡ left) }
    {
        Row {
            from: self.to(at),
            left,
        }
    }

    // Down to the body of a ForAll: what it has is added.
    fn down(self, body: usize, own: Kept) -> Walk
        requires { (self.kept.vars + own.vars ≤ most) × (self.kept.guards + own.guards ≤ most) × (self.kept.count + own.count ≤ most) }
        ensures { (result.moved.at ≡ body) × (result.moved.progress ≡ self.moved.progress) × (result.kept ≡ plus self.kept own) }
    {
        Walk {
            moved: self.moved.to(body),
            kept: self.kept.plus(own),
        }
    }

    // Up again: what it has is taken back.
    fn up(self, own: Kept) -> Walk
        requires { Within own self.kept }
        ensures { (result.moved ≡ self.moved) × (result.kept ≡ minus self.kept own) }
    {
        Walk {
            kept: self.kept.minus(own),
            ..self
        }
    }
}

impl Progress {
    pub fn start(range: Range) -> Progress
        ensures { (result.range ≡ range) × (result.seen ≡ 0) × (result.len ≡ 0) × (result.longest ≡ 0) }
    {
        Progress {
            range,
            seen: 0,
            len: 0,
            longest: 0,
        }
    }

    // Whether the part that comes next is written.
    pub fn has_next(self) -> bool
        ensures { result ≡ has_in self.range self.seen }
    {
        self.range.has(self.seen)
    }

    // A part of n bytes was written, and its length is put into the table.
    pub fn placed(self, n: usize, lengths: &mut [u32]) -> Progress
        ensures { (result ≡ placed_is self n) × (lengths.new ≡ noted self.range self.seen n lengths.old) }
    {
        note(lengths, self.seen.saturating_sub(self.range.from), n);
        Progress {
            range: self.range,
            seen: self.seen.saturating_add(1),
            len: self.len.saturating_add(n),
            longest: self.longest.max(n),
        }
    }

    // A part was passed over.
    pub fn passed(self) -> Progress
        ensures { result ≡ passed_is self }
    {
        Progress {
            seen: self.seen.saturating_add(1),
            ..self
        }
    }
}

// Whether the assertion of a head is written: its number is in the range, and it is not literally true.
#[tactic(auto, unfolding(crate::specs::Walk::wanted))]
fn is_wanted(s: &[u8], from: Moved, levels: usize) -> bool
    ensures { result ≡ wanted from.progress (dec_pred levels s.now from.at) }
{
    from.progress.has_next() && !task_check::is_literally_true(s, from.at, levels)
}

// Passes a head whose assertion is not written. One that is literally true has no number.
#[tactic(auto, using(crate::proofs::Flattening::pred_refused, crate::proofs::Flattening::head_true, crate::proofs::Flattening::head_out))]
fn pass_head(s: &[u8], from: Moved, levels: usize) -> Moved
    ensures { Passes from (dec_pred levels s.now from.at) result }
{
    let Ok((_, q)) = task_check::check_pred(s, from.at, levels) else {
        return from;
    };
    if task_check::is_literally_true(s, from.at, levels) {
        return from.to(q);
    }
    Moved {
        at: q,
        progress: from.progress.passed(),
    }
}

// Measures the assertion of a head from the lengths that are kept of the ForAlls around it.
#[tactic(auto, using(crate::proofs::Flattening::measured_placed))]
fn measure_assert(
    enc: Encoder,
    from: Moved,
    levels: usize,
    kept: Kept,
    lengths: &mut [u32],
) -> Moved
    ensures { MeasuredPlaces (encoder_by enc.entry) kept (dec_pred levels enc.entry.file.now from.at) (writing from.progress [] lengths.old) (writing result.progress [] lengths.new) result.at }
{
    let sent = assertion::measure_assert(enc, from.at, levels, kept);
    Moved {
        at: sent.at,
        progress: from.progress.placed(sent.out.len, lengths),
    }
}

// Puts the assertion of a head behind the last written byte, from the text that is kept of the ForAlls around it.
#[tactic(auto, using(crate::proofs::Flattening::kept_placed))]
fn put_assert(
    enc: Encoder,
    from: Moved,
    levels: usize,
    kept: Kept,
    text: &[u8],
    buf: &mut [u8],
    lengths: &mut [u32],
) -> Moved
    requires { fits (length text.now) kept ≡ true }
    ensures { KeptPlaces (encoder_by enc.entry) text.now kept (dec_pred levels enc.entry.file.now from.at) (writing from.progress buf.old lengths.old) (writing result.progress buf.new lengths.new) result.at }
{
    let start = from.progress.len.min(buf.len());
    let sent = assertion::write_assert(
        enc,
        from.at,
        levels,
        kept,
        text,
        &mut buf[start..],
        Out::new(),
    );
    Moved {
        at: sent.at,
        progress: from.progress.placed(sent.out.len, lengths),
    }
}

// The same from the path and the number of its guards.
#[tactic(auto, using(crate::proofs::Flattening::path_placed))]
fn put_long_assert(
    enc: Encoder,
    from: Moved,
    levels: usize,
    path: Path,
    count: u64,
    buf: &mut [u8],
    lengths: &mut [u32],
) -> Moved
    requires leaves { Leaves path 0 }
    requires numbers { Numbers enc.file.now (entries path) count }
    ensures { PathPlaces (encoder_by enc.entry) (on_path enc.entry.file.now (entries path)) (dec_pred levels enc.entry.file.now from.at) (writing from.progress buf.old lengths.old) (writing result.progress buf.new lengths.new) result.at }
{
    let start = from.progress.len.min(buf.len());
    let sent = assertion::write_long_assert(
        enc,
        from.at,
        levels,
        path,
        count,
        &mut buf[start..],
        Out::new(),
    );
    Moved {
        at: sent.at,
        progress: from.progress.placed(sent.out.len, lengths),
    }
}

// Whether heads are put from what is kept alone: the buffer is empty, so that they are measured, or the text has room for the path's.
fn is_enough(kept: Kept, size: usize, room: usize) -> bool
    ensures { result ≡ enough_is size room kept }
{
    room == 0 || kept.fits(size)
}

// Such a head.
#[tactic(auto, using(crate::proofs::Flattening::kept_passed, crate::proofs::Flattening::measured_wanted, crate::proofs::Flattening::kept_wanted, crate::proofs::Flattening::enough_room))]
fn flatten_kept_head(
    enc: Encoder,
    from: Moved,
    levels: usize,
    kept: Kept,
    text: &[u8],
    buf: &mut [u8],
    lengths: &mut [u32],
) -> Moved
    requires { enough_is (length text.now) (length buf.old) kept ≡ true }
    ensures { KeptPuts (encoder_by enc.entry) text.now kept (dec_pred levels enc.entry.file.now from.at) (writing from.progress buf.old lengths.old) (writing result.progress buf.new lengths.new) result.at }
{
    if !is_wanted(enc.file, from, levels) {
        return pass_head(enc.file, from, levels);
    }
    if buf.is_empty() {
        return measure_assert(enc, from, levels, kept, lengths);
    }
    put_assert(enc, from, levels, kept, text, buf, lengths)
}

// Such heads in a row, from the first, which is one, to the row's end or to a constraint that is no head.
fn flatten_heads(
    enc: Encoder,
    row: Row,
    levels: usize,
    text: &[u8],
    buf: &mut [u8],
    lengths: &mut [u32],
) -> Row
    requires enough { enough_is (length text.now) (length buf.old) row.from.kept ≡ true }
    requires at_head { (is_head levels enc.file.now row.from.moved.at ≡ true) × (0 < row.left) }
    ensures heads_put { HeadsPut enc.entry.file.now (encoder_by enc.entry) text.now levels row (writing row.from.moved.progress buf.old lengths.old) result (writing result.from.moved.progress buf.new lengths.new) }
    ensures fewer_left { (result.left < row.left) × (result.from.kept ≡ row.from.kept) }
{
    let Walk { mut moved, kept } = row.from;
    for i in 0..row.left {
        let head = moved.to(moved.at + 1);
        moved = flatten_kept_head(enc, head, levels - 1, kept, text, buf, lengths);
        if !constraint_check::is_head(enc.file, moved.at, levels) {
            return Row {
                from: Walk { moved, kept },
                left: row.left - i - 1,
            };
        }
    }
    Row {
        from: Walk { moved, kept },
        left: 0,
    }
}

// A head of which the assertion is written from the path.
#[tactic(auto, using(crate::proofs::Flattening::path_passed, crate::proofs::Flattening::path_wanted))]
fn flatten_head(
    enc: Encoder,
    from: Walk,
    levels: usize,
    path: Path,
    buf: &mut [u8],
    lengths: &mut [u32],
) -> Moved
    requires leaves { Leaves path 0 }
    requires numbers { Numbers enc.file.now (entries path) from.kept.count }
    ensures { PutsUnder (head_parts (encoder_by enc.entry)) (on_path enc.entry.file.now (entries path)) (dec_pred levels enc.entry.file.now from.moved.at) (writing from.moved.progress buf.old lengths.old) (writing result.progress buf.new lengths.new) result.at }
{
    let Walk { moved, kept } = from;
    if is_wanted(enc.file, moved, levels) {
        return put_long_assert(enc, moved, levels, path, kept.count, buf, lengths);
    }
    pass_head(enc.file, moved, levels)
}

// The constraint at a position, inside the ForAlls of the path.
#[tactic(auto, using(crate::proofs::Flattening::none_left, crate::proofs::Flattening::node_refused, crate::proofs::Flattening::node_conj, crate::proofs::Flattening::node_for_all, crate::proofs::Flattening::kept_numbers, crate::proofs::Flattening::ready_fewer))]
#[cycle(constraints)]
pub fn flatten_constraint(
    enc: Encoder,
    from: Walk,
    levels: usize,
    path: Path,
    buf: &mut [u8],
    text: &mut [u8],
    lengths: &mut [u32],
) -> Walk
    requires { Ready enc.file.now (encoder_by enc) text.old path from.kept levels }
    ensures puts_under { PutsUnder (clause_parts (encoder_by enc.entry)) (on_path enc.entry.file.now (entries path)) (dec_constraint levels enc.entry.file.now from.moved.at) (writing from.moved.progress buf.old lengths.old) (writing result.moved.progress buf.new lengths.new) result.moved.at }
    ensures restores { Restores from result }
    ensures stays { Stays from.kept text.old text.new }
{
    if levels == 0 {
        return from;
    }
    let below = levels - 1;
    let at = from.moved.at;
    if is_enough(from.kept, text.len(), buf.len())
        && constraint_check::is_head(enc.file, at, levels)
    {
        return flatten_heads(enc, from.row(at, 1), levels, text, buf, lengths).from;
    }
    let Ok((node, p)) = task::read_constraint_node(enc.file, at) else {
        return from;
    };
    match node {
        ConstraintNode::Pred => {
            let moved = flatten_head(enc, from.to(p), below, path, buf, lengths);
            Walk { moved, ..from }
        }
        ConstraintNode::Conj(n) => {
            flatten_members(enc, from.row(p, n), below, path, buf, text, lengths)
        }
        ConstraintNode::ForAll => {
            flatten_for_all(enc, from.to(p), below, path, buf, text, lengths)
        }
    }
}

// Constraints in a row, each inside the same ForAlls. Heads for which what is kept is enough need no copy of the path.
#[tactic(auto, using(crate::proofs::Flattening::members_start, crate::proofs::Flattening::members_more, crate::proofs::Flattening::members_end, crate::proofs::Flattening::ready_stays))]
#[cycle(constraints)]
fn flatten_members(
    enc: Encoder,
    row: Row,
    levels: usize,
    path: Path,
    buf: &mut [u8],
    text: &mut [u8],
    lengths: &mut [u32],
) -> Walk
    requires { Ready enc.file.now (encoder_by enc) text.old path row.from.kept levels }
    ensures puts_under { PutsUnder (member_parts (encoder_by enc.entry)) (on_path enc.entry.file.now (entries path)) (many Constraints.none Constraints.more (dec_constraint levels) row.left enc.entry.file.now row.from.moved.at) (writing row.from.moved.progress buf.old lengths.old) (writing result.moved.progress buf.new lengths.new) result.moved.at }
    ensures restores { Restores row.from result }
    ensures stays { Stays row.from.kept text.old text.new }
{
    let Row { mut from, mut left } = row;
    let enough = is_enough(from.kept, text.len(), buf.len());
    // a while: a step takes one member, or all heads from one on
    while 0 < left {
        if enough && constraint_check::is_head(enc.file, from.moved.at, levels) {
            let rest = flatten_heads(enc, Row { from, left }, levels, text, buf, lengths);
            from = rest.from;
            left = rest.left;
        } else {
            from = flatten_constraint(enc, from, levels, path, buf, text, lengths);
            left -= 1;
        }
    }
    from
}

// A ForAll behind its code: its body is inside it too. What it has is added for the body, and taken back behind it.
#[tactic(auto, using(crate::proofs::Flattening::for_all_unheaded, crate::proofs::Flattening::for_all_puts, crate::proofs::Flattening::header_offset, crate::proofs::Flattening::ready_pushed, crate::proofs::Flattening::own_within, crate::proofs::Flattening::own_back))]
#[cycle(constraints)]
fn flatten_for_all(
    enc: Encoder,
    from: Walk,
    levels: usize,
    mut path: Path,
    buf: &mut [u8],
    text: &mut [u8],
    lengths: &mut [u32],
) -> Walk
    requires { Ready enc.file.now (encoder_by enc) text.old path from.kept (levels + 1) }
    ensures puts_under { PutsUnder (clause_parts (encoder_by enc.entry)) (on_path enc.entry.file.now (entries path)) (for_all levels enc.entry.file.now from.moved.at) (writing from.moved.progress buf.old lengths.old) (writing result.moved.progress buf.new lengths.new) result.moved.at }
    ensures restores { Restores from result }
    ensures stays { Stays from.kept text.old text.new }
{
    let at = from.moved.at;
    let Ok((_, body)) = constraint_check::check_header(enc.file, at, levels) else {
        return from;
    };
    let own = assertion::extend(enc, at, text, from.kept);
    path = path.push(at);
    let back = flatten_constraint(enc, from.down(body, own), levels, path, buf, text, lengths);
    back.up(own)
}
