// Writers of expressions. As those of sorts they read any bytes, and ask for nothing but an encoder.
#![tactic(auto)]

ghost use Rattle.std.specs.Prelude.{◌≡◌};
ghost use Rattle.task.specs.Ast.{Exprs};
ghost use Rattle.task.specs.Decode.{many, given, dec_expr};
ghost use Rattle.task.specs.Node.{expr_of};
ghost use Rattle.smt_text.specs.Editions.{names_of};
ghost use Rattle.smt_text.specs.Text.{write_thy_func, write_bin_op, write_expr};
ghost use Rattle.output.specs.Emit.{output, emit, emits, Sends};
ghost use Rattle.smt_sort.specs.Section.{edition_in, encoder_by};
ghost use Rattle.smt_expr.specs.Parts.{two, exprs_text, unary_text, binary_text, atom_text, nary_text, TellsQualified, HeadSends};

use names::Kind;
use output::Out;
use smt_sort::Encoder;
use smt_word::Sent;
use task::{BinOp, BinRel, ExprNode, Quantifier, ThyFunc};

// Whether an expression is written with the output sort as an application's head: a declared constructor, SetEmpty or MapDefault.
#[tactic(auto, using(crate::proofs::Heads::tells_var, crate::proofs::Heads::tells_func, crate::proofs::Heads::tells_other))]
fn is_qualified(enc: Encoder, at: usize) -> bool
    ensures { TellsQualified (encoder_by enc.entry) enc.entry.file.now at result }
{
    let Ok((node, _)) = task::read_expr_node(enc.file, at) else {
        return false;
    };
    match node {
        ExprNode::Var(x) => smt_sort::is_declared(enc, x, Kind::Constructor),
        ExprNode::ThyFunc(f) => task_check::needs_sort(f),
        _ => false,
    }
}

// Sends a theory function.
fn write_function(enc: Encoder, func: ThyFunc, p: usize, buf: &mut [u8], out: Out) -> Sent
    ensures { (result.at ≡ p) × (output buf.new result.out.len ≡ emits (output buf.old out.len) (write_thy_func (names_of (edition_in enc.entry.words.now)) func)) }
{
    let edition = smt_sort::edition_of(enc.words);
    let sent = out.write_thy_func(buf, edition, func);
    Sent { at: p, out: sent }
}

// The word of an operation.
fn bin_op_word(op: BinOp) -> &'static [u8]
    ensures { result.now ≡ write_bin_op op }
{
    match op {
        BinOp::Add => b"+",
        BinOp::Sub => b"-",
        BinOp::Mul => b"*",
        BinOp::Div => b"div",
        BinOp::Mod => b"mod",
    }
}

// Sends the expression at a position.
#[tactic(auto, using(crate::proofs::Exprs::expr_none, crate::proofs::Exprs::expr_arm, crate::proofs::Exprs::numeral_arm, crate::proofs::Exprs::boolean_arm, crate::proofs::Exprs::real_arm, crate::proofs::Exprs::string_arm, crate::proofs::Exprs::bit_vec_arm, crate::proofs::Exprs::var_arm, crate::proofs::Exprs::wk_var_arm, crate::proofs::Exprs::neg_arm, crate::proofs::Exprs::not_arm, crate::proofs::Exprs::binary_op_arm, crate::proofs::Exprs::atom_arm, crate::proofs::Exprs::imp_arm, crate::proofs::Exprs::iff_arm, crate::proofs::Exprs::and_arm, crate::proofs::Exprs::or_arm))]
#[cycle(exprs)]
pub fn write_expr(enc: Encoder, at: usize, levels: usize, buf: &mut [u8], out: Out) -> Sent
    ensures { Sends (write_expr (encoder_by enc.entry)) (dec_expr levels enc.entry.file.now at) (output buf.old out.len) (output buf.new result.out.len) result.at }
{
    if levels == 0 {
        return Sent { at, out };
    }
    let below = levels - 1;
    let Ok((node, p)) = task::read_expr_node(enc.file, at) else {
        return Sent { at, out };
    };
    match node {
        ExprNode::Numeral(lo, hi) => smt_word::write_numeral(lo, hi, p, buf, out),
        ExprNode::Boolean(b) => smt_word::write_boolean(b, p, buf, out),
        ExprNode::Real(n) => smt_word::write_number(n, p, buf, out),
        ExprNode::String(x) => smt_word::write_string(x, p, buf, out),
        ExprNode::BitVec(lo, hi, w) => smt_word::write_bit_vec(lo, hi, w, p, buf, out),
        ExprNode::Var(x) => smt_word::write_var(x, p, buf, out),
        ExprNode::WKVar => Sent { at: p, out },
        ExprNode::Neg => write_unary(enc, b"-", p, below, buf, out),
        ExprNode::Not => write_unary(enc, b"not", p, below, buf, out),
        ExprNode::BinaryOp(op) => write_binary(enc, bin_op_word(op), p, below, buf, out),
        ExprNode::Atom(rel) => write_atom(enc, rel, p, below, buf, out),
        ExprNode::Imp => write_binary(enc, b"=>", p, below, buf, out),
        ExprNode::Iff => write_binary(enc, b"=", p, below, buf, out),
        ExprNode::And(n) => { write_nary(enc, b"and", n, b"true", Sent { at: p, out }, below, buf) }
        ExprNode::Or(n) => { write_nary(enc, b"or", n, b"false", Sent { at: p, out }, below, buf) }
        ExprNode::IfThenElse => write_ite(enc, p, below, buf, out),
        ExprNode::Let(x) => write_let(enc, x, p, below, buf, out),
        ExprNode::App(has) => write_app(enc, has, p, below, buf, out),
        ExprNode::ThyFunc(f) => write_function(enc, f, p, buf, out),
        ExprNode::IsCtor(x) => write_is_ctor(enc, x, p, below, buf, out),
        ExprNode::Quantifier(q, n) => write_quantifier(enc, q, n, p, below, buf, out),
    }
}

// Sends n expressions, a space before each.
#[cycle(exprs)]
pub fn write_exprs(enc: Encoder, at: usize, n: u64, levels: usize, buf: &mut [u8], out: Out) -> Sent
    ensures { Sends (exprs_text (encoder_by enc.entry)) (many Exprs.none Exprs.more (dec_expr levels) n enc.entry.file.now at) (output buf.old out.len) (output buf.new result.out.len) result.at }
{
    let one = |p, b: &mut [u8], o: Out|
        ensures { Sends (write_expr (encoder_by enc.entry)) (dec_expr levels enc.entry.file.now p) (output b.old o.len) (output b.new result.out.len) result.at }
    { write_expr(enc, p, levels, b, o) };
    smt_word::write_row(at, n, buf, out, one)
}

// An operation of one operand.
#[tactic(auto, using(crate::proofs::Exprs::unary_sends))]
#[cycle(exprs)]
fn write_unary(enc: Encoder, op: &[u8], at: usize, levels: usize, buf: &mut [u8], out: Out) -> Sent
    ensures { Sends (unary_text (encoder_by enc.entry) op.now) (dec_expr levels enc.entry.file.now at) (output buf.old out.len) (output buf.new result.out.len) result.at }
{
    let opened = out.byte(buf, b'(');
    let named = opened.bytes(buf, op);
    let spaced = named.byte(buf, b' ');
    let operand = write_expr(enc, at, levels, buf, spaced);
    let sent = operand.out;
    let closed = sent.byte(buf, b')');
    Sent {
        at: operand.at,
        out: closed,
    }
}

// An operation of two operands.
#[tactic(auto, using(crate::proofs::Exprs::binary_sends))]
#[cycle(exprs)]
fn write_binary(enc: Encoder, op: &[u8], at: usize, levels: usize, buf: &mut [u8], out: Out) -> Sent
    ensures { Sends (binary_text (encoder_by enc.entry) op.now) (two levels enc.entry.file.now at) (output buf.old out.len) (output buf.new result.out.len) result.at }
{
    let opened = out.byte(buf, b'(');
    let named = opened.bytes(buf, op);
    let spaced = named.byte(buf, b' ');
    let left = write_expr(enc, at, levels, buf, spaced);
    let first = left.out;
    let parted = first.byte(buf, b' ');
    let right = write_expr(enc, left.at, levels, buf, parted);
    let second = right.out;
    let closed = second.byte(buf, b')');
    Sent {
        at: right.at,
        out: closed,
    }
}

// A relation by its code.
#[cycle(exprs)]
fn write_atom(enc: Encoder, rel: BinRel, at: usize, levels: usize, buf: &mut [u8], out: Out) -> Sent
    ensures { Sends (atom_text (encoder_by enc.entry) rel) (two levels enc.entry.file.now at) (output buf.old out.len) (output buf.new result.out.len) result.at }
{
    match rel {
        BinRel::Eq => write_binary(enc, b"=", at, levels, buf, out),
        BinRel::Ne => write_ne(enc, at, levels, buf, out),
        BinRel::Gt => write_binary(enc, b">", at, levels, buf, out),
        BinRel::Ge => write_binary(enc, b">=", at, levels, buf, out),
        BinRel::Lt => write_binary(enc, b"<", at, levels, buf, out),
        BinRel::Le => write_binary(enc, b"<=", at, levels, buf, out),
    }
}

// That two operands are not equal.
#[tactic(auto, using(crate::proofs::Exprs::ne_sends))]
#[cycle(exprs)]
fn write_ne(enc: Encoder, at: usize, levels: usize, buf: &mut [u8], out: Out) -> Sent
    ensures { Sends (atom_text (encoder_by enc.entry) BinRel.Ne) (two levels enc.entry.file.now at) (output buf.old out.len) (output buf.new result.out.len) result.at }
{
    let opened = out.bytes(buf, b"(not ");
    let equal = write_binary(enc, b"=", at, levels, buf, opened);
    let sent = equal.out;
    let closed = sent.byte(buf, b')');
    Sent {
        at: equal.at,
        out: closed,
    }
}

// Sends the parenthesis behind the last of a list.
fn close_list(last: Sent, buf: &mut [u8]) -> Sent
    ensures { (result.at ≡ last.at) × (output buf.new result.out.len ≡ emit (output buf.old last.out.len) 41) }
{
    let sent = last.out;
    let closed = sent.byte(buf, b')');
    Sent {
        at: last.at,
        out: closed,
    }
}

// A connective of n members, the first at a position; a word of its own for none.
#[cycle(exprs)]
fn write_nary(
    enc: Encoder,
    op: &[u8],
    n: u64,
    empty: &[u8],
    from: Sent,
    levels: usize,
    buf: &mut [u8],
) -> Sent
    ensures { Sends (nary_text (encoder_by enc.entry) op.now empty.now) (many Exprs.none Exprs.more (dec_expr levels) n enc.entry.file.now from.at) (output buf.old from.out.len) (output buf.new result.out.len) result.at }
{
    let at = from.at;
    let out = from.out;
    if n == 0 {
        return smt_word::write_word(empty, at, buf, out);
    }
    let opened = out.byte(buf, b'(');
    let named = opened.bytes(buf, op);
    let members = write_exprs(enc, at, n, levels, buf, named);
    close_list(members, buf)
}

// A choice of two.
#[tactic(auto, using(crate::proofs::Exprs::ite_sends))]
#[cycle(exprs)]
fn write_ite(enc: Encoder, at: usize, levels: usize, buf: &mut [u8], out: Out) -> Sent
    ensures { Sends (write_expr (encoder_by enc.entry)) (expr_of enc.entry.file.now levels (dec_expr levels) (Ok (ExprNode.IfThenElse, at))) (output buf.old out.len) (output buf.new result.out.len) result.at }
{
    let opened = out.bytes(buf, b"(ite ");
    let test = write_expr(enc, at, levels, buf, opened);
    let tested = test.out;
    let parted = tested.byte(buf, b' ');
    let yes = write_expr(enc, test.at, levels, buf, parted);
    let chosen = yes.out;
    let again = chosen.byte(buf, b' ');
    let no = write_expr(enc, yes.at, levels, buf, again);
    let sent = no.out;
    let closed = sent.byte(buf, b')');
    Sent {
        at: no.at,
        out: closed,
    }
}

// A name for an expression in another.
#[tactic(auto, using(crate::proofs::Exprs::let_sends))]
#[cycle(exprs)]
fn write_let(enc: Encoder, x: &[u8], at: usize, levels: usize, buf: &mut [u8], out: Out) -> Sent
    ensures { Sends (write_expr (encoder_by enc.entry)) (expr_of enc.entry.file.now levels (dec_expr levels) (Ok (ExprNode.Let x.entry, at))) (output buf.old out.len) (output buf.new result.out.len) result.at }
{
    let opened = out.bytes(buf, b"(let ((");
    let named = opened.bytes(buf, x);
    let spaced = named.byte(buf, b' ');
    let value = write_expr(enc, at, levels, buf, spaced);
    let bound = value.out;
    let inner = bound.bytes(buf, b")) ");
    let body = write_expr(enc, value.at, levels, buf, inner);
    let sent = body.out;
    let closed = sent.byte(buf, b')');
    Sent {
        at: body.at,
        out: closed,
    }
}

// A test for a constructor.
#[tactic(auto, using(crate::proofs::Exprs::is_ctor_sends))]
#[cycle(exprs)]
fn write_is_ctor(enc: Encoder, x: &[u8], at: usize, levels: usize, buf: &mut [u8], out: Out) -> Sent
    ensures { Sends (write_expr (encoder_by enc.entry)) (expr_of enc.entry.file.now levels (dec_expr levels) (Ok (ExprNode.IsCtor x.entry, at))) (output buf.old out.len) (output buf.new result.out.len) result.at }
{
    let opened = out.bytes(buf, b"((_ is ");
    let named = opened.bytes(buf, x);
    let spaced = named.bytes(buf, b") ");
    let operand = write_expr(enc, at, levels, buf, spaced);
    let sent = operand.out;
    let closed = sent.byte(buf, b')');
    Sent {
        at: operand.at,
        out: closed,
    }
}

// A quantifier over n names.
#[tactic(auto, using(crate::proofs::Exprs::quantifier_sends))]
#[cycle(exprs)]
fn write_quantifier(
    enc: Encoder,
    q: Quantifier,
    n: u64,
    at: usize,
    levels: usize,
    buf: &mut [u8],
    out: Out,
) -> Sent
    ensures { Sends (write_expr (encoder_by enc.entry)) (expr_of enc.entry.file.now levels (dec_expr levels) (Ok (ExprNode.Quantifier q n, at))) (output buf.old out.len) (output buf.new result.out.len) result.at }
{
    let opened = smt_word::open_quantifier(q, buf, out);
    let spaced = opened.byte(buf, b' ');
    let names = smt_sort::write_binder_list(enc, at, n, levels, buf, spaced);
    let listed = names.out;
    let parted = listed.byte(buf, b' ');
    let body = write_expr(enc, names.at, levels, buf, parted);
    let sent = body.out;
    let closed = sent.byte(buf, b')');
    Sent {
        at: body.at,
        out: closed,
    }
}

// The head at a position; its output sort, if it has one, stands at `from`.
#[tactic(auto, using(crate::proofs::Exprs::as_sends, crate::proofs::Exprs::unqualified_sends, crate::proofs::Exprs::unsorted_sends))]
#[cycle(exprs)]
fn write_application_head(
    enc: Encoder,
    has: bool,
    from: usize,
    at: usize,
    levels: usize,
    buf: &mut [u8],
    out: Out,
) -> Sent
    ensures { HeadSends (encoder_by enc.entry) (given levels has enc.entry.file.now from) (dec_expr levels enc.entry.file.now at) (output buf.old out.len) (output buf.new result.out.len) result.at }
{
    if has && is_qualified(enc, at) {
        let opened = out.bytes(buf, b"(as ");
        let head = write_expr(enc, at, levels, buf, opened);
        let named = head.out;
        let spaced = named.byte(buf, b' ');
        let sort = smt_sort::write_sort(enc, from, levels, buf, spaced);
        let sent = sort.out;
        let closed = sent.byte(buf, b')');
        return Sent {
            at: head.at,
            out: closed,
        };
    }
    write_expr(enc, at, levels, buf, out)
}

// An application: the number of its arguments stands behind its head.
#[tactic(auto, using(crate::proofs::Exprs::no_sort, crate::proofs::Exprs::no_head, crate::proofs::Exprs::no_count, crate::proofs::Exprs::bare_sends, crate::proofs::Exprs::app_sends))]
#[cycle(exprs)]
fn write_app(enc: Encoder, has: bool, at: usize, levels: usize, buf: &mut [u8], out: Out) -> Sent
    ensures { Sends (write_expr (encoder_by enc.entry)) (expr_of enc.entry.file.now levels (dec_expr levels) (Ok (ExprNode.App has, at))) (output buf.old out.len) (output buf.new result.out.len) result.at }
{
    let Ok((_, q)) = task_check::check_given(enc.file, has, at, levels) else {
        return Sent { at, out };
    };
    let Ok((_, p)) = task_check::check_expr(enc.file, q, levels, has) else {
        return Sent { at, out };
    };
    let Ok((n, t)) = task::number_at(enc.file, p, 2) else {
        return Sent { at, out };
    };
    if n == 0 {
        let bare = write_application_head(enc, has, at, q, levels, buf, out);
        let sent = bare.out;
        return Sent { at: t, out: sent };
    }
    let opened = out.byte(buf, b'(');
    let head = write_application_head(enc, has, at, q, levels, buf, opened);
    let named = head.out;
    let args = write_exprs(enc, t, n, levels, buf, named);
    close_list(args, buf)
}
