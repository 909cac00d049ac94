// The writer of one assertion, `write_assert` of `smt_horn.rs`. The lengths of what the ForAlls around the head have are kept, so an assertion
// is measured from them and the head alone. It is written from the text that is kept of the ForAlls, or from their offsets where that text has
// no room. The writers read any bytes: what they send is told for a path whose offsets are those of ForAlls, and for a head that decodes.
#![tactic(auto)]

ghost use Rattle.std.specs.Prelude.{true, ◌≡◌, [], ◌∷◌, ◌++◌, ◌+◌, ◌≤◌, ◌<◌, length};
ghost use Rattle.task.specs.Decode.{many, dec_pred, deepest};
ghost use Rattle.task.specs.Run.{Runs};
ghost use Rattle.path.specs.Offsets.{entries, Leaves};
ghost use Rattle.output.specs.Emit.{output, most, emits, Sends};
ghost use Rattle.smt_sort.specs.Section.{encoder_by};
ghost use Rattle.assertion.specs.Under.{for_all_at, on_path, vars_text, guards_text, listing, lists, kvar_at, form_of, opening_text, implies_text, group_text, ungroup_text, before_text, behind_text, end_text, head_text, HeadSends, assert_text};
ghost use Rattle.assertion.specs.Kept.{plus as plus_is, minus as minus_is, Within, fits as fits_in, guards_in, Stores, Counts, Extends, Numbers, MeasuredSends, KeptSends};

use output::Out;
use path::Path;
use smt_sort::Encoder;
use smt_word::Sent;

// Guards in a row: where the next predicate stands, what was sent, and how many guards they are.
#[derive(Clone, Copy)]
struct Listed {
    at: usize,
    out: Out,
    count: u64,
}

// How an assertion is put together: for a KVar or for an expression, with binders or without, and the number of its guards.
#[derive(Clone, Copy, PartialEq, Eq, Debug)]
pub struct Form {
    pub kvar: bool,
    pub bound: bool,
    pub count: u64,
}

// What is kept of the ForAlls around a place: how long the text of their binders is and that of their guards, and how many guards there are.
#[derive(Clone, Copy, PartialEq, Eq, Debug)]
pub struct Kept {
    pub vars: usize,
    pub guards: usize,
    pub count: u64,
}

// Sends the binders of the path, without a space between two.
fn write_each_var(enc: Encoder, path: Path, buf: &mut [u8], out: Out) -> Out
    requires { Leaves path 0 }
    ensures { Sends (vars_text (encoder_by enc.entry)) (on_path enc.entry.file.now (entries path)) (output buf.old out.len) (output buf.new result.len) 0 }
{
    let mut sent = out;
    for offset in path.offsets() {
        let one = smt_sort::write_binder(enc, usize::from(*offset), 256, buf, sent);
        sent = one.out;
    }
    sent
}

// Sends the next predicate with a space before it and counts it, unless it is literally true: three bytes that are passed over.
fn write_guard(enc: Encoder, from: Listed, buf: &mut [u8]) -> Listed
    requires { from.count < most }
    ensures runs { Runs (λ w p. lists (encoder_by enc.entry) w (p ∷ [])) (dec_pred deepest enc.entry.file.now from.at) (listing buf.old from.out.len from.count) (listing buf.new result.out.len result.count) result.at }
    ensures one_more { result.count ≤ from.count + 1 }
{
    let Listed { at, out, count } = from;
    if task_check::is_literally_true(enc.file, at, 256) {
        return Listed {
            at: at + 3,
            out,
            count,
        };
    }
    let spaced = out.byte(buf, b' ');
    let one = smt_fmt::write_pred(enc, at, 256, buf, spaced);
    Listed {
        at: one.at,
        out: one.out,
        count: count + 1,
    }
}

// Sends and counts those of n predicates that are not literally true, a space before each.
fn write_kept(enc: Encoder, at: usize, n: u64, buf: &mut [u8], out: Out) -> Listed
    ensures { Runs (lists (encoder_by enc.entry)) (many [] ◌∷◌ (dec_pred deepest) n enc.entry.file.now at) (listing buf.old out.len 0) (listing buf.new result.out.len result.count) result.at }
{
    let mut listed = Listed { at, out, count: 0 };
    for _ in 0..n {
        listed = write_guard(enc, listed, buf);
    }
    listed
}

// Sends and counts those of the ForAll at an offset.
fn write_own_guards(enc: Encoder, at: usize, buf: &mut [u8], out: Out) -> Listed
    ensures { Runs (λ w f. lists (encoder_by enc.entry) w f.preds) (for_all_at enc.entry.file.now at) (listing buf.old out.len 0) (listing buf.new result.out.len result.count) 0 }
{
    let Ok((_, p)) = task_check::check_binder(enc.file, at, 256) else {
        return Listed { at, out, count: 0 };
    };
    let Ok((n, q)) = task::number_at(enc.file, p, 2) else {
        return Listed { at, out, count: 0 };
    };
    write_kept(enc, q, n, buf, out)
}

// Sends those of the path.
fn write_each_guard(enc: Encoder, path: Path, buf: &mut [u8], out: Out) -> Out
    requires { Leaves path 0 }
    ensures { Sends (guards_text (encoder_by enc.entry)) (on_path enc.entry.file.now (entries path)) (output buf.old out.len) (output buf.new result.len) 0 }
{
    let mut sent = out;
    for offset in path.offsets() {
        let own = write_own_guards(enc, usize::from(*offset), buf, sent);
        sent = own.out;
    }
    sent
}

impl Kept {
    // Of no ForAlls.
    pub fn none() -> Kept
        ensures { (result.vars ≡ 0) × (result.guards ≡ 0) × (result.count ≡ 0) }
    {
        Kept {
            vars: 0,
            guards: 0,
            count: 0,
        }
    }

    // With what a ForAll has, going down.
    pub fn plus(self, own: Kept) -> Kept
        requires { (self.vars + own.vars ≤ most) × (self.guards + own.guards ≤ most) × (self.count + own.count ≤ most) }
        ensures { result ≡ plus_is self own }
    {
        Kept {
            vars: self.vars + own.vars,
            guards: self.guards + own.guards,
            count: self.count + own.count,
        }
    }

    // Without it, coming up.
    pub fn minus(self, own: Kept) -> Kept
        requires { Within own self }
        ensures { result ≡ minus_is self own }
    {
        Kept {
            vars: self.vars - own.vars,
            guards: self.guards - own.guards,
            count: self.count - own.count,
        }
    }

    // Whether a text has room for the binders in its first half and for the guards in the other.
    pub fn fits(self, size: usize) -> bool
        ensures { result ≡ fits_in size self }
    {
        let half = size / 2;
        self.vars <= half && self.guards <= size - half
    }
}

// Puts the binder of the ForAll at an offset behind the first n bytes of a text, as far as there is room for it, and tells how long it is.
fn keep_binder(enc: Encoder, at: usize, text: &mut [u8], n: usize) -> usize
    requires { length enc.file.now < 65536 }
    ensures { Stores (λ f. vars_text (encoder_by enc.entry) (f ∷ [])) (for_all_at enc.entry.file.now at) n text.old text.new result }
{
    let start = n.min(text.len());
    let sent = smt_sort::write_binder(enc, at, 256, &mut text[start..], Out::new());
    sent.out.len
}

// The same with its guards.
fn keep_guards(enc: Encoder, at: usize, text: &mut [u8], n: usize) -> Listed
    requires { length enc.file.now < 65536 }
    ensures stores { Stores (λ f. guards_text (encoder_by enc.entry) (f ∷ [])) (for_all_at enc.entry.file.now at) n text.old text.new result.out.len }
    ensures counts { Counts (for_all_at enc.entry.file.now at) result.count }
{
    let start = n.min(text.len());
    write_own_guards(enc, at, &mut text[start..], Out::new())
}

// Measures what the ForAll at an offset has, and keeps as much of its text as there is room for, behind that of the ForAlls around it.
#[tactic(auto, using(crate::proofs::Keeping::first_size, crate::proofs::Keeping::extends))]
pub fn extend(enc: Encoder, at: usize, text: &mut [u8], kept: Kept) -> Kept
    requires { length enc.file.now < 65536 }
    ensures { Extends enc.entry.file.now (encoder_by enc.entry) at kept text.old text.new result }
{
    let half = text.len() / 2;
    let vars = keep_binder(enc, at, &mut text[..half], kept.vars);
    let own = keep_guards(enc, at, &mut text[half..], kept.guards);
    Kept {
        vars,
        guards: own.out.len,
        count: own.count,
    }
}

// Whether a KVar stands at a position.
fn is_kvar(s: &[u8], at: usize) -> bool
    ensures { result ≡ kvar_at s.now at }
{
    matches!(s.get(at), Some(0))
}

// The form of the assertion of the head at a position, with binders unless their number or length is 0.
fn form_of(s: &[u8], at: usize, binders: usize, count: u64) -> Form
    ensures { result ≡ form_of s.now at binders count }
{
    Form {
        kvar: is_kvar(s, at),
        bound: 0 < binders,
        count,
    }
}

// Sends what stands before the binders.
#[tactic(auto, unfolding(crate::specs::Under::opening_text))]
fn open_assert(bound: bool, buf: &mut [u8], out: Out) -> Out
    ensures { output buf.new result.len ≡ emits (output buf.old out.len) (opening_text bound) }
{
    if bound {
        return out.bytes(buf, b"(assert (forall (");
    }
    out.bytes(buf, b"(assert ")
}

// Sends what stands behind them.
#[tactic(auto, unfolding(crate::specs::Under::implies_text))]
fn open_implication(bound: bool, buf: &mut [u8], out: Out) -> Out
    ensures { output buf.new result.len ≡ emits (output buf.old out.len) (implies_text bound) }
{
    if bound {
        return out.bytes(buf, b") (=>");
    }
    out.bytes(buf, b"(=>")
}

// Sends what stands before the guards: `and`, unless there are none or one alone before a KVar, for which `true` stands if there are none.
#[tactic(auto, unfolding(crate::specs::Under::group_text, output::specs::Emit::emits))]
fn open_guards(kvar: bool, count: u64, buf: &mut [u8], out: Out) -> Out
    ensures { output buf.new result.len ≡ emits (output buf.old out.len) (group_text kvar count) }
{
    match (kvar, count) {
        (true, 0) => out.bytes(buf, b" true"),
        (true, 1) | (false, 0) => out,
        _ => out.bytes(buf, b" (and"),
    }
}

// Sends what stands behind them: the parenthesis of `and` before a KVar.
#[tactic(auto, unfolding(crate::specs::Under::ungroup_text, output::specs::Emit::emits))]
fn close_guards(kvar: bool, count: u64, buf: &mut [u8], out: Out) -> Out
    ensures { output buf.new result.len ≡ emits (output buf.old out.len) (ungroup_text kvar count) }
{
    if kvar && 1 < count {
        return out.byte(buf, b')');
    }
    out
}

// Sends what stands before the head: an expression is negated.
#[tactic(auto, unfolding(crate::specs::Under::before_text, output::specs::Emit::emits))]
fn open_head(kvar: bool, buf: &mut [u8], out: Out) -> Out
    ensures { output buf.new result.len ≡ emits (output buf.old out.len) (before_text kvar) }
{
    if kvar {
        return out.byte(buf, b' ');
    }
    out.bytes(buf, b" (not ")
}

// Sends what stands behind it: false is implied by the negation of an expression, with guards under one `and`.
#[tactic(auto, unfolding(crate::specs::Under::behind_text, output::specs::Emit::emits))]
fn close_head(kvar: bool, count: u64, buf: &mut [u8], out: Out) -> Out
    ensures { output buf.new result.len ≡ emits (output buf.old out.len) (behind_text kvar count) }
{
    if kvar {
        return out.byte(buf, b')');
    }
    if count == 0 {
        return out.bytes(buf, b") false)");
    }
    out.bytes(buf, b")) false)")
}

// Sends what closes an assertion.
#[tactic(auto, unfolding(crate::specs::Under::end_text))]
fn close_assert(bound: bool, buf: &mut [u8], out: Out) -> Out
    ensures { output buf.new result.len ≡ emits (output buf.old out.len) (end_text bound) }
{
    if bound {
        return out.bytes(buf, b"))\n");
    }
    out.bytes(buf, b")\n")
}

// Sends the head at a position, and what closes the assertion.
#[tactic(auto, using(crate::proofs::Asserts::head_sends))]
fn write_head(enc: Encoder, at: usize, levels: usize, form: Form, buf: &mut [u8], out: Out) -> Sent
    ensures { Sends (head_text (encoder_by enc.entry) form) (dec_pred levels enc.entry.file.now at) (output buf.old out.len) (output buf.new result.out.len) result.at }
{
    let opened = open_head(form.kvar, buf, out);
    let head = smt_fmt::write_pred(enc, at, levels, buf, opened);
    let closed = close_head(form.kvar, form.count, buf, head.out);
    let ended = close_assert(form.bound, buf, closed);
    Sent {
        at: head.at,
        out: ended,
    }
}

// Sends the guards from the text that is kept of them: `true` for none before a KVar, one alone, more under `and`. Before an expression all
// stand under the `and` that is closed behind it.
#[tactic(auto, using(crate::proofs::Asserts::fits_both, crate::proofs::Asserts::grouped_by, crate::proofs::Asserts::guards_between))]
fn write_guard_conjunction(text: &[u8], kept: Kept, kvar: bool, buf: &mut [u8], out: Out) -> Out
    requires { fits_in (length text.now) kept ≡ true }
    ensures { output buf.new result.len ≡ emits (output buf.old out.len) (group_text kvar kept.count ++ (guards_in text.now kept ++ ungroup_text kvar kept.count)) }
{
    let half = text.len() / 2;
    let end = half + kept.guards;
    let opened = open_guards(kvar, kept.count, buf, out);
    let listed = opened.bytes(buf, &text[half..end]);
    close_guards(kvar, kept.count, buf, listed)
}

// Measures the assertion of the head at a position, inside the ForAlls of which the lengths are kept.
pub fn measure_assert(enc: Encoder, at: usize, levels: usize, kept: Kept) -> Sent
    ensures { MeasuredSends (encoder_by enc.entry) kept (dec_pred levels enc.entry.file.now at) result.out.len result.at }
{
    let mut none = [0u8; 0];
    let form = form_of(enc.file, at, kept.vars, kept.count);
    let opened = open_assert(form.bound, &mut none, Out::new());
    let listed = opened.counted(kept.vars);
    let implied = open_implication(form.bound, &mut none, listed);
    let grouped = open_guards(form.kvar, form.count, &mut none, implied);
    let guarded = grouped.counted(kept.guards);
    let closed = close_guards(form.kvar, form.count, &mut none, guarded);
    write_head(enc, at, levels, form, &mut none, closed)
}

// Sends the assertion of the head at a position, inside the ForAlls of which the text is kept.
#[tactic(auto, using(crate::proofs::Asserts::fits_both, crate::proofs::Asserts::kept_asserts))]
pub fn write_assert(
    enc: Encoder,
    at: usize,
    levels: usize,
    kept: Kept,
    text: &[u8],
    buf: &mut [u8],
    out: Out,
) -> Sent
    requires { fits_in (length text.now) kept ≡ true }
    ensures { KeptSends (encoder_by enc.entry) text.now kept (dec_pred levels enc.entry.file.now at) (output buf.old out.len) (output buf.new result.out.len) result.at }
{
    let form = form_of(enc.file, at, kept.vars, kept.count);
    let opened = open_assert(form.bound, buf, out);
    let listed = opened.bytes(buf, &text[..kept.vars]);
    let implied = open_implication(form.bound, buf, listed);
    let guarded = write_guard_conjunction(text, kept, form.kvar, buf, implied);
    write_head(enc, at, levels, form, buf, guarded)
}

// Sends the assertion of the head at a position, inside the ForAlls of the path, from their offsets and the number of their guards.
#[tactic(auto, using(crate::proofs::Asserts::long_asserts))]
pub fn write_long_assert(
    enc: Encoder,
    at: usize,
    levels: usize,
    path: Path,
    count: u64,
    buf: &mut [u8],
    out: Out,
) -> Sent
    requires leaves { Leaves path 0 }
    requires numbers { Numbers enc.file.now (entries path) count }
    ensures { HeadSends (assert_text (encoder_by enc.entry)) (on_path enc.entry.file.now (entries path)) (dec_pred levels enc.entry.file.now at) (output buf.old out.len) (output buf.new result.out.len) result.at }
{
    let form = form_of(enc.file, at, path.depth, count);
    let opened = open_assert(form.bound, buf, out);
    let listed = write_each_var(enc, path, buf, opened);
    let implied = open_implication(form.bound, buf, listed);
    let grouped = open_guards(form.kvar, count, buf, implied);
    let guarded = write_each_guard(enc, path, buf, grouped);
    let closed = close_guards(form.kvar, count, buf, guarded);
    write_head(enc, at, levels, form, buf, closed)
}
