// Writers of sorts. A writer reads any bytes at any position and sends what it writes to the output: where a piece is decoded, it sends the
// piece's text and ends behind the piece. It asks for nothing but an encoder, which has the bytes with it.
#![tactic(auto)]

ghost use Rattle.std.specs.Prelude.{◌≡◌, [], ◌∷◌, ◌<◌, length, set};
ghost use Rattle.smtlib.specs.Lexicon.{is_one};
ghost use Rattle.task.specs.Ast.{Sorts};
ghost use Rattle.task.specs.Decode.{many, binder, dec_sort};
ghost use Rattle.task.specs.Node.{sort_of};
ghost use Rattle.smt_text.specs.Text.{write_sort_ctor, write_sort, write_binder};
ghost use Rattle.output.specs.Emit.{output, emits, Sends};
ghost use Rattle.smt_sort.specs.Section.{declared_in, edition_in, number_of, encoder_by, ctor_of, sorts_text, sort_list, applied_text, binders_text, binder_list};

mod encoder;

pub use encoder::Encoder;
use names::Kind;
use output::Out;
use smt_text::Edition;
use smt_word::Sent;
use task::SortNode;

// What an applied sort is made by.
#[derive(Clone, Copy)]
pub enum SortCtor<'a> {
    Set,
    Map,
    Data(&'a [u8]),
}

// The edition that the encoder is for.
#[tactic(auto, using(crate::proofs::Editions::no_words, crate::proofs::Editions::zero_word, crate::proofs::Editions::other_word))]
pub fn edition_of(enc: &[u16]) -> Edition
    ensures { result ≡ edition_in enc.now }
{
    match enc {
        [] | [0, ..] => Edition::Z3,
        _ => Edition::Cvc5,
    }
}

// Makes the encoder one for the edition.
pub fn set_edition(enc: &mut [u16], edition: Edition)
    requires { 0 < length enc.old }
    ensures { enc.new ≡ set enc.old 0 (number_of edition) }
{
    enc[0] = edition as u16;
}

// Whether a name is that of a declared piece of the kind.
#[tactic(auto, using(crate::proofs::Sorts::declared_is))]
pub fn is_declared(enc: Encoder, x: &[u8], kind: Kind) -> bool
    ensures { result ≡ is_one x.now (declared_in enc.entry.file.now enc.entry.words.now kind) }
{
    names::find(enc.file, enc.words, x, kind, kind).is_some()
}

// Sends what an applied sort is made by.
#[tactic(auto, unfolding(smt_text::specs::Text::write_name))]
fn write_sort_ctor(ctor: SortCtor, buf: &mut [u8], out: Out) -> Out
    ensures { output buf.new result.len ≡ emits (output buf.old out.len) (write_sort_ctor (ctor_of ctor.entry)) }
{
    match ctor {
        SortCtor::Set => out.bytes(buf, b"Set"),
        SortCtor::Map => out.bytes(buf, b"Array"),
        SortCtor::Data(x) => out.bytes(buf, x),
    }
}

// Sends the sort at a position.
#[tactic(auto, using(crate::proofs::Sorts::sort_none, crate::proofs::Sorts::sort_refused, crate::proofs::Sorts::sort_arm, crate::proofs::Sorts::int_arm, crate::proofs::Sorts::bool_arm, crate::proofs::Sorts::real_arm, crate::proofs::Sorts::str_arm, crate::proofs::Sorts::bv_size_arm, crate::proofs::Sorts::var_arm, crate::proofs::Sorts::abs_arm, crate::proofs::Sorts::set_arm, crate::proofs::Sorts::map_arm))]
#[cycle(sorts)]
pub fn write_sort(enc: Encoder, at: usize, levels: usize, buf: &mut [u8], out: Out) -> Sent
    ensures { Sends (write_sort (encoder_by enc.entry)) (dec_sort levels enc.entry.file.now at) (output buf.old out.len) (output buf.new result.out.len) result.at }
{
    if levels == 0 {
        return Sent { at, out };
    }
    let below = levels - 1;
    let Ok((node, p)) = task::read_sort_node(enc.file, at) else {
        return Sent { at, out };
    };
    match node {
        SortNode::Int => smt_word::write_word(b"Int", p, buf, out),
        SortNode::Bool => smt_word::write_word(b"Bool", p, buf, out),
        SortNode::Real => smt_word::write_word(b"Real", p, buf, out),
        SortNode::Str => smt_word::write_word(b"String", p, buf, out),
        SortNode::BitVec => write_bit_vec(enc, p, below, buf, out),
        SortNode::BvSize(n) => smt_word::write_number(n, p, buf, out),
        SortNode::Var(i) => smt_word::write_parameter(i, p, buf, out),
        SortNode::Func => write_array(enc, p, below, buf, out),
        SortNode::Abs(_) => write_sort(enc, p, below, buf, out),
        SortNode::Set(n) => write_applied(enc, SortCtor::Set, n, p, below, buf, out),
        SortNode::Map(n) => write_applied(enc, SortCtor::Map, n, p, below, buf, out),
        SortNode::Data(x, n) => write_data(enc, x, n, p, below, buf, out),
    }
}

// A BitVec with its width.
#[tactic(auto, using(crate::proofs::Sorts::bit_vec_sends))]
#[cycle(sorts)]
fn write_bit_vec(enc: Encoder, at: usize, levels: usize, buf: &mut [u8], out: Out) -> Sent
    ensures { Sends (write_sort (encoder_by enc.entry)) (sort_of enc.entry.file.now (dec_sort levels) (Ok (SortNode.BitVec, at))) (output buf.old out.len) (output buf.new result.out.len) result.at }
{
    let opened = out.bytes(buf, b"(_ BitVec ");
    let width = write_sort(enc, at, levels, buf, opened);
    let sent = width.out;
    let closed = sent.byte(buf, b')');
    Sent {
        at: width.at,
        out: closed,
    }
}

// A Func as an array.
#[tactic(auto, using(crate::proofs::Sorts::func_sends))]
#[cycle(sorts)]
fn write_array(enc: Encoder, at: usize, levels: usize, buf: &mut [u8], out: Out) -> Sent
    ensures { Sends (write_sort (encoder_by enc.entry)) (sort_of enc.entry.file.now (dec_sort levels) (Ok (SortNode.Func, at))) (output buf.old out.len) (output buf.new result.out.len) result.at }
{
    let opened = out.bytes(buf, b"(Array ");
    let from = write_sort(enc, at, levels, buf, opened);
    let first = from.out;
    let spaced = first.byte(buf, b' ');
    let to = write_sort(enc, from.at, levels, buf, spaced);
    let second = to.out;
    let closed = second.byte(buf, b')');
    Sent {
        at: to.at,
        out: closed,
    }
}

// A sort that is made by another, or of n others.
#[cycle(sorts)]
fn write_applied(
    enc: Encoder,
    ctor: SortCtor,
    n: u64,
    at: usize,
    levels: usize,
    buf: &mut [u8],
    out: Out,
) -> Sent
    ensures { Sends (applied_text (encoder_by enc.entry) (ctor_of ctor.entry)) (many Sorts.none Sorts.more (dec_sort levels) n enc.entry.file.now at) (output buf.old out.len) (output buf.new result.out.len) result.at }
{
    if n == 0 {
        let sent = write_sort_ctor(ctor, buf, out);
        return Sent { at, out: sent };
    }
    let opened = out.byte(buf, b'(');
    let made = write_sort_ctor(ctor, buf, opened);
    let sorts = write_sorts(enc, at, n, levels, buf, made);
    let sent = sorts.out;
    let closed = sent.byte(buf, b')');
    Sent {
        at: sorts.at,
        out: closed,
    }
}

// A datatype, or `Int` for one that is not declared.
#[tactic(auto, using(crate::proofs::Sorts::data_sends, crate::proofs::Sorts::opaque_sends, crate::proofs::Sorts::skipped_sends))]
#[cycle(sorts)]
fn write_data(
    enc: Encoder,
    x: &[u8],
    n: u64,
    at: usize,
    levels: usize,
    buf: &mut [u8],
    out: Out,
) -> Sent
    ensures { Sends (write_sort (encoder_by enc.entry)) (sort_of enc.entry.file.now (dec_sort levels) (Ok (SortNode.Data x.entry n, at))) (output buf.old out.len) (output buf.new result.out.len) result.at }
{
    if is_declared(enc, x, Kind::Datatype) {
        return write_applied(enc, SortCtor::Data(x), n, at, levels, buf, out);
    }
    let Ok((_, p)) = task_check::check_sorts(enc.file, at, n, levels) else {
        return Sent { at, out };
    };
    smt_word::write_word(b"Int", p, buf, out)
}

// Sends n sorts, a space before each.
#[cycle(sorts)]
fn write_sorts(enc: Encoder, at: usize, n: u64, levels: usize, buf: &mut [u8], out: Out) -> Sent
    ensures { Sends (sorts_text (encoder_by enc.entry)) (many Sorts.none Sorts.more (dec_sort levels) n enc.entry.file.now at) (output buf.old out.len) (output buf.new result.out.len) result.at }
{
    let one = |p, b: &mut [u8], o: Out|
        ensures { Sends (write_sort (encoder_by enc.entry)) (dec_sort levels enc.entry.file.now p) (output b.old o.len) (output b.new result.out.len) result.at }
    { write_sort(enc, p, levels, b, o) };
    smt_word::write_row(at, n, buf, out, one)
}

// Sends n sorts in parentheses.
pub fn write_sort_list(
    enc: Encoder,
    at: usize,
    n: u64,
    levels: usize,
    buf: &mut [u8],
    out: Out,
) -> Sent
    ensures { Sends (sort_list (encoder_by enc.entry)) (many Sorts.none Sorts.more (dec_sort levels) n enc.entry.file.now at) (output buf.old out.len) (output buf.new result.out.len) result.at }
{
    if n == 0 {
        return smt_word::write_word(b"()", at, buf, out);
    }
    let opened = out.byte(buf, b'(');
    let first = write_sort(enc, at, levels, buf, opened);
    let rest = write_sorts(enc, first.at, n - 1, levels, buf, first.out);
    let sent = rest.out;
    let closed = sent.byte(buf, b')');
    Sent {
        at: rest.at,
        out: closed,
    }
}

// Sends a name with its sort.
#[tactic(auto, using(crate::proofs::Sorts::no_name, crate::proofs::Sorts::binder_sends))]
pub fn write_binder(enc: Encoder, at: usize, levels: usize, buf: &mut [u8], out: Out) -> Sent
    ensures { Sends (write_binder (encoder_by enc.entry)) (binder levels enc.entry.file.now at) (output buf.old out.len) (output buf.new result.out.len) result.at }
{
    let Ok((x, p)) = task::read_name(enc.file, at) else {
        return Sent { at, out };
    };
    let opened = out.byte(buf, b'(');
    let named = opened.bytes(buf, x);
    let spaced = named.byte(buf, b' ');
    let sort = write_sort(enc, p, levels, buf, spaced);
    let sent = sort.out;
    let closed = sent.byte(buf, b')');
    Sent {
        at: sort.at,
        out: closed,
    }
}

// Sends n names with their sorts, a space before each.
pub fn write_binders(
    enc: Encoder,
    at: usize,
    n: u64,
    levels: usize,
    buf: &mut [u8],
    out: Out,
) -> Sent
    ensures { Sends (binders_text (encoder_by enc.entry)) (many [] ◌∷◌ (binder levels) n enc.entry.file.now at) (output buf.old out.len) (output buf.new result.out.len) result.at }
{
    smt_word::write_row(
        at,
        n,
        buf,
        out,
        |p, b, o| write_binder(enc, p, levels, b, o),
    )
}

// Sends n names with their sorts in parentheses.
pub fn write_binder_list(
    enc: Encoder,
    at: usize,
    n: u64,
    levels: usize,
    buf: &mut [u8],
    out: Out,
) -> Sent
    ensures { Sends (binder_list (encoder_by enc.entry)) (many [] ◌∷◌ (binder levels) n enc.entry.file.now at) (output buf.old out.len) (output buf.new result.out.len) result.at }
{
    if n == 0 {
        return smt_word::write_word(b"()", at, buf, out);
    }
    let opened = out.byte(buf, b'(');
    let first = write_binder(enc, at, levels, buf, opened);
    let rest = write_binders(enc, first.at, n - 1, levels, buf, first.out);
    let sent = rest.out;
    let closed = sent.byte(buf, b')');
    Sent {
        at: rest.at,
        out: closed,
    }
}
