// The port of `smt_fmt.rs` with `SmtOptions::HORN`: predicates and declarations, on the writers of sorts and expressions. As those they read
// any bytes, and ask for nothing but an encoder. With them `write_kvar_decl` of `smt_horn.rs`.
#![tactic(auto)]

ghost use Rattle.std.specs.Prelude.{◌≡◌, true, [], ◌∷◌};
ghost use Rattle.task.specs.Ast.{Sorts, Exprs};
ghost use Rattle.task.specs.Decode.{many, name, dec_sort, dec_expr, dec_pred, body, data_ctor, datatype, constant, function, kvar, deepest};
ghost use Rattle.smt_text.specs.Text.{spaced, sexp_list, write_pred, write_ctor, write_parameters, write_datatype_decl, write_const_decl, write_fun_def, write_kvar_decl};
ghost use Rattle.output.specs.Emit.{output, emits, Sends};
ghost use Rattle.smt_sort.specs.Section.{encoder_by};
ghost use Rattle.smt_fmt.specs.Items.{kvar_text, ctors_text, ctor_list, body_text, open_text, opening_text, signed, ArgSends, ZipSends, SignatureSends, DefinedSends, BodySends};

use output::Out;
use smt_sort::Encoder;
use smt_word::Sent;
use task::PredNode;

// Where the writer of an argument ended: behind its name, behind its sort, and the output then.
#[derive(Clone, Copy)]
pub struct Argument {
    pub at: usize,
    pub from: usize,
    pub out: Out,
}

// A KVar of n arguments.
fn write_kvar(
    enc: Encoder,
    x: &[u8],
    n: u64,
    at: usize,
    levels: usize,
    buf: &mut [u8],
    out: Out,
) -> Sent
    ensures { Sends (kvar_text (encoder_by enc.entry) x.now) (many Exprs.none Exprs.more (dec_expr levels) n enc.entry.file.now at) (output buf.old out.len) (output buf.new result.out.len) result.at }
{
    if n == 0 {
        let named = out.bytes(buf, x);
        return Sent { at, out: named };
    }
    let opened = out.byte(buf, b'(');
    let named = opened.bytes(buf, x);
    let args = smt_expr::write_exprs(enc, at, n, levels, buf, named);
    let sent = args.out;
    let closed = sent.byte(buf, b')');
    Sent {
        at: args.at,
        out: closed,
    }
}

// Sends the predicate at a position.
#[tactic(auto, using(crate::proofs::Decls::pred_none, crate::proofs::Decls::kvar_arm, crate::proofs::Decls::expr_arm))]
pub fn write_pred(enc: Encoder, at: usize, levels: usize, buf: &mut [u8], out: Out) -> Sent
    ensures { Sends (write_pred (encoder_by enc.entry)) (dec_pred levels enc.entry.file.now at) (output buf.old out.len) (output buf.new result.out.len) result.at }
{
    if levels == 0 {
        return Sent { at, out };
    }
    let below = levels - 1;
    let Ok((node, p)) = task::read_pred_node(enc.file, at) else {
        return Sent { at, out };
    };
    match node {
        PredNode::KVar(x, n) => write_kvar(enc, x, n, p, below, buf, out),
        PredNode::Expr => smt_expr::write_expr(enc, p, below, buf, out),
    }
}

// A constructor with its fields.
#[tactic(auto, using(crate::proofs::Decls::no_name, crate::proofs::Decls::ctor_uncounted, crate::proofs::Decls::ctor_sends))]
fn write_ctor(enc: Encoder, at: usize, buf: &mut [u8], out: Out) -> Sent
    ensures { Sends (write_ctor (encoder_by enc.entry)) (data_ctor enc.entry.file.now at) (output buf.old out.len) (output buf.new result.out.len) result.at }
{
    let Ok((x, p)) = task::read_name(enc.file, at) else {
        return Sent { at, out };
    };
    let Ok((n, q)) = task::number_at(enc.file, p, 2) else {
        return Sent { at, out };
    };
    let opened = out.byte(buf, b'(');
    let named = opened.bytes(buf, x);
    let fields = smt_sort::write_binders(enc, q, n, 256, buf, named);
    let sent = fields.out;
    let closed = sent.byte(buf, b')');
    Sent {
        at: fields.at,
        out: closed,
    }
}

// Sends n constructors, a space before each.
fn write_ctors(enc: Encoder, at: usize, n: u64, buf: &mut [u8], out: Out) -> Sent
    ensures { Sends (ctors_text (encoder_by enc.entry)) (many [] ◌∷◌ data_ctor n enc.entry.file.now at) (output buf.old out.len) (output buf.new result.out.len) result.at }
{
    smt_word::write_row(at, n, buf, out, |p, b, o| write_ctor(enc, p, b, o))
}

// Sends n constructors in parentheses.
fn write_datatype_ctors(enc: Encoder, at: usize, n: u64, buf: &mut [u8], out: Out) -> Sent
    ensures { Sends (ctor_list (encoder_by enc.entry)) (many [] ◌∷◌ data_ctor n enc.entry.file.now at) (output buf.old out.len) (output buf.new result.out.len) result.at }
{
    if n == 0 {
        return smt_word::write_word(b"()", at, buf, out);
    }
    let opened = out.byte(buf, b'(');
    let first = write_ctor(enc, at, buf, opened);
    let rest = write_ctors(enc, first.at, n - 1, buf, first.out);
    let sent = rest.out;
    let closed = sent.byte(buf, b')');
    Sent {
        at: rest.at,
        out: closed,
    }
}

// Sends n parameters in parentheses.
#[tactic(auto, using(crate::proofs::Decls::no_list, crate::proofs::Decls::list_start, crate::proofs::Decls::list_more))]
fn write_parameters(n: u64, buf: &mut [u8], out: Out) -> Out
    ensures { output buf.new result.len ≡ emits (output buf.old out.len) (sexp_list (write_parameters 0 n)) }
{
    if n == 0 {
        return out.bytes(buf, b"()");
    }
    let mut sent = out.bytes(buf, b"(T0");
    for i in 1..n {
        let spaced = sent.byte(buf, b' ');
        let one = smt_word::write_parameter(i, 0, buf, spaced);
        sent = one.out;
    }
    sent.byte(buf, b')')
}

// Sends n constructors, behind the parameters if there are any.
#[tactic(auto, using(crate::proofs::Decls::no_parameters, crate::proofs::Decls::parameters_sends))]
fn write_datatype_body(enc: Encoder, vars: u64, n: u64, at: usize, buf: &mut [u8], out: Out) -> Sent
    ensures { Sends (body_text (encoder_by enc.entry) vars) (many [] ◌∷◌ data_ctor n enc.entry.file.now at) (output buf.old out.len) (output buf.new result.out.len) result.at }
{
    if vars == 0 {
        return write_datatype_ctors(enc, at, n, buf, out);
    }
    let opened = out.bytes(buf, b"(par ");
    let listed = write_parameters(vars, buf, opened);
    let spaced = listed.byte(buf, b' ');
    let ctors = write_datatype_ctors(enc, at, n, buf, spaced);
    let sent = ctors.out;
    let closed = sent.byte(buf, b')');
    Sent {
        at: ctors.at,
        out: closed,
    }
}

// Sends a datatype's opening up to its body.
#[tactic(auto, using(output::proofs::Sent::emits_append), unfolding(smt_text::specs::Text::write_name, output::specs::Emit::emits, crate::specs::Items::open_text))]
fn open_datatype(s: &[u8], x: &[u8], vars: u64, buf: &mut [u8], out: Out) -> Out
    ensures { output buf.new result.len ≡ emits (output buf.old out.len) (open_text x.now vars) }
{
    let opened = out.bytes(buf, b"(declare-datatypes ((");
    let named = opened.bytes(buf, x);
    let spaced = named.byte(buf, b' ');
    let numbered = spaced.number(buf, vars);
    numbered.bytes(buf, b")) (")
}

// Sends the declaration of the datatype at a position.
#[tactic(auto, using(crate::proofs::Decls::no_name, crate::proofs::Decls::datatype_unnumbered, crate::proofs::Decls::datatype_uncounted, crate::proofs::Decls::datatype_sends))]
pub fn write_datatype_decl(enc: Encoder, at: usize, buf: &mut [u8], out: Out) -> Sent
    ensures { Sends (write_datatype_decl (encoder_by enc.entry)) (datatype enc.entry.file.now at) (output buf.old out.len) (output buf.new result.out.len) result.at }
{
    let Ok((x, p)) = task::read_name(enc.file, at) else {
        return Sent { at, out };
    };
    let Ok((vars, q)) = task::number_at(enc.file, p, 2) else {
        return Sent { at, out };
    };
    let Ok((n, t)) = task::number_at(enc.file, q, 2) else {
        return Sent { at, out };
    };
    let opened = open_datatype(enc.file, x, vars, buf, out);
    let ctors = write_datatype_body(enc, vars, n, t, buf, opened);
    let sent = ctors.out;
    let closed = sent.bytes(buf, b"))\n");
    Sent {
        at: ctors.at,
        out: closed,
    }
}

// Sends the declaration of the constant at a position.
#[tactic(auto, using(crate::proofs::Decls::no_name))]
pub fn write_const_decl(enc: Encoder, at: usize, buf: &mut [u8], out: Out) -> Sent
    ensures { Sends (write_const_decl (encoder_by enc.entry)) (constant enc.entry.file.now at) (output buf.old out.len) (output buf.new result.out.len) result.at }
{
    let Ok((x, p)) = task::read_name(enc.file, at) else {
        return Sent { at, out };
    };
    let opened = out.bytes(buf, b"(declare-const ");
    let named = opened.bytes(buf, x);
    let spaced = named.byte(buf, b' ');
    let sort = smt_sort::write_sort(enc, p, 256, buf, spaced);
    let sent = sort.out;
    let closed = sent.bytes(buf, b")\n");
    Sent {
        at: sort.at,
        out: closed,
    }
}

// Sends a name and n sorts, the opening of a declaration up to its own sort.
fn open_signature(enc: Encoder, x: &[u8], n: u64, at: usize, buf: &mut [u8], out: Out) -> Sent
    ensures { Sends (opening_text (encoder_by enc.entry) x.now) (many Sorts.none Sorts.more (dec_sort deepest) n enc.entry.file.now at) (output buf.old out.len) (output buf.new result.out.len) result.at }
{
    let opened = out.bytes(buf, b"(declare-fun ");
    let named = opened.bytes(buf, x);
    let spaced = named.byte(buf, b' ');
    let sorts = smt_sort::write_sort_list(enc, at, n, 256, buf, spaced);
    let listed = sorts.out;
    let sent = listed.byte(buf, b' ');
    Sent {
        at: sorts.at,
        out: sent,
    }
}

// Sends the declaration of a function of the n sorts at a position, whose own sort stands at `from`.
#[tactic(auto, using(crate::proofs::Decls::signature_sends))]
fn write_fun_signature(
    enc: Encoder,
    x: &[u8],
    n: u64,
    at: usize,
    from: usize,
    buf: &mut [u8],
    out: Out,
) -> Out
    ensures { SignatureSends (encoder_by enc.entry) x.now (many Sorts.none Sorts.more (dec_sort deepest) n enc.entry.file.now at) (dec_sort deepest enc.entry.file.now from) (output buf.old out.len) (output buf.new result.len) }
{
    let opening = open_signature(enc, x, n, at, buf, out);
    let opened = opening.out;
    let sort = smt_sort::write_sort(enc, from, 256, buf, opened);
    let sent = sort.out;
    sent.bytes(buf, b")\n")
}

// Sends the name at a position with the sort at another.
#[tactic(auto, using(crate::proofs::Functions::arg_unnamed, crate::proofs::Functions::arg_sends))]
fn write_arg(enc: Encoder, at: usize, from: usize, buf: &mut [u8], out: Out) -> Argument
    ensures { ArgSends (encoder_by enc.entry) (name enc.entry.file.now at) (dec_sort deepest enc.entry.file.now from) (output buf.old out.len) (output buf.new result.out.len) result.at result.from }
{
    let Ok((x, p)) = task::read_name(enc.file, at) else {
        return Argument { at, from, out };
    };
    let opened = out.byte(buf, b'(');
    let named = opened.bytes(buf, x);
    let spaced = named.byte(buf, b' ');
    let sort = smt_sort::write_sort(enc, from, 256, buf, spaced);
    let sent = sort.out;
    let closed = sent.byte(buf, b')');
    Argument {
        at: p,
        from: sort.at,
        out: closed,
    }
}

// Sends m names with the n sorts that stand from another position on, a space before each, as many as there are of both.
#[tactic(auto, using(crate::proofs::Functions::zip_start, crate::proofs::Functions::zip_more, crate::proofs::Functions::zip_end))]
fn write_args(enc: Encoder, at: usize, m: u64, from: usize, n: u64, buf: &mut [u8], out: Out) -> Out
    ensures { ZipSends spaced (encoder_by enc.entry) (many [] ◌∷◌ name m enc.entry.file.now at) (many Sorts.none Sorts.more (dec_sort deepest) n enc.entry.file.now from) (output buf.old out.len) (output buf.new result.len) }
{
    let mut p = at;
    let mut q = from;
    let mut sent = out;
    for _ in 0..m.min(n) {
        let spaced = sent.byte(buf, b' ');
        let one = write_arg(enc, p, q, buf, spaced);
        p = one.at;
        q = one.from;
        sent = one.out;
    }
    sent
}

// The same in parentheses.
#[tactic(auto, using(crate::proofs::Functions::zip_none_list, crate::proofs::Functions::zip_list))]
fn write_arg_list(
    enc: Encoder,
    at: usize,
    m: u64,
    from: usize,
    n: u64,
    buf: &mut [u8],
    out: Out,
) -> Out
    ensures { ZipSends sexp_list (encoder_by enc.entry) (many [] ◌∷◌ name m enc.entry.file.now at) (many Sorts.none Sorts.more (dec_sort deepest) n enc.entry.file.now from) (output buf.old out.len) (output buf.new result.len) }
{
    if m == 0 || n == 0 {
        return out.bytes(buf, b"()");
    }
    let opened = out.byte(buf, b'(');
    let first = write_arg(enc, at, from, buf, opened);
    let rest = write_args(enc, first.at, m - 1, first.from, n - 1, buf, first.out);
    rest.byte(buf, b')')
}

// Sends the definition of a function of the n sorts at a position, whose own sort stands at `from`, where its body stands.
#[tactic(auto, using(crate::proofs::Functions::body_uncounted, crate::proofs::Functions::body_unnamed, crate::proofs::Functions::body_sends))]
fn write_definition(
    enc: Encoder,
    x: &[u8],
    n: u64,
    at: usize,
    from: usize,
    inner: Sent,
    buf: &mut [u8],
) -> Sent
    ensures { BodySends (encoder_by enc.entry) x.now (many Sorts.none Sorts.more (dec_sort deepest) n enc.entry.file.now at) (dec_sort deepest enc.entry.file.now from) (body true enc.entry.file.now inner.at) (output buf.old inner.out.len) (output buf.new result.out.len) result.at }
{
    let out = inner.out;
    let Ok((m, p)) = task::number_at(enc.file, inner.at, 2) else {
        return inner;
    };
    let Ok((_, q)) = item_check::check_names(enc.file, p, m) else {
        return inner;
    };
    let opened = out.bytes(buf, b"(define-fun ");
    let named = opened.bytes(buf, x);
    let spaced = named.byte(buf, b' ');
    let listed = write_arg_list(enc, p, m, at, n, buf, spaced);
    write_defined(enc, from, q, buf, listed)
}

// Sends a function's own sort and its body's expression, and closes the definition.
#[tactic(auto, using(crate::proofs::Functions::defined_sends))]
fn write_defined(enc: Encoder, from: usize, at: usize, buf: &mut [u8], out: Out) -> Sent
    ensures { DefinedSends (encoder_by enc.entry) (dec_sort deepest enc.entry.file.now from) (dec_expr deepest enc.entry.file.now at) (output buf.old out.len) (output buf.new result.out.len) result.at }
{
    let spaced = out.byte(buf, b' ');
    let sort = smt_sort::write_sort(enc, from, 256, buf, spaced);
    let sorted = sort.out;
    let parted = sorted.byte(buf, b' ');
    let expr = smt_expr::write_expr(enc, at, 256, buf, parted);
    let sent = expr.out;
    let closed = sent.bytes(buf, b")\n");
    Sent {
        at: expr.at,
        out: closed,
    }
}

// Sends the declaration of a function with the n inputs at a position.
#[tactic(auto, using(crate::proofs::Functions::no_inputs, crate::proofs::Functions::no_output, crate::proofs::Functions::no_flag, crate::proofs::Functions::defined, crate::proofs::Functions::declared))]
fn write_function(enc: Encoder, x: &[u8], n: u64, at: usize, buf: &mut [u8], out: Out) -> Sent
    ensures { Sends (write_fun_def (encoder_by enc.entry)) (signed x.now 0 n enc.entry.file.now at) (output buf.old out.len) (output buf.new result.out.len) result.at }
{
    let Ok((_, from)) = task_check::check_sorts(enc.file, at, n, 256) else {
        return Sent { at, out };
    };
    let Ok((_, p)) = task_check::check_sort(enc.file, from, 256, false) else {
        return Sent { at, out };
    };
    let Ok((has, q)) = task::read_coded::<bool>(enc.file, p) else {
        return Sent { at, out };
    };
    if has {
        return write_definition(enc, x, n, at, from, Sent { at: q, out }, buf);
    }
    let sent = write_fun_signature(enc, x, n, at, from, buf, out);
    Sent { at: q, out: sent }
}

// Sends the declaration of the function at a position.
#[tactic(auto, using(crate::proofs::Decls::no_name, crate::proofs::Decls::function_unnumbered, crate::proofs::Decls::function_uncounted, crate::proofs::Functions::function_sends))]
pub fn write_fun_def(enc: Encoder, at: usize, buf: &mut [u8], out: Out) -> Sent
    ensures { Sends (write_fun_def (encoder_by enc.entry)) (function enc.entry.file.now at) (output buf.old out.len) (output buf.new result.out.len) result.at }
{
    let Ok((x, p)) = task::read_name(enc.file, at) else {
        return Sent { at, out };
    };
    let Ok((_, q)) = task::number_at(enc.file, p, 2) else {
        return Sent { at, out };
    };
    let Ok((n, t)) = task::number_at(enc.file, q, 2) else {
        return Sent { at, out };
    };
    write_function(enc, x, n, t, buf, out)
}

// Sends the declaration of the KVar at a position.
#[tactic(auto, using(crate::proofs::Decls::no_name, crate::proofs::Decls::kvar_uncounted, crate::proofs::Decls::kvar_sends))]
pub fn write_kvar_decl(enc: Encoder, at: usize, buf: &mut [u8], out: Out) -> Sent
    ensures { Sends (write_kvar_decl (encoder_by enc.entry)) (kvar enc.entry.file.now at) (output buf.old out.len) (output buf.new result.out.len) result.at }
{
    let Ok((x, p)) = task::read_name(enc.file, at) else {
        return Sent { at, out };
    };
    let Ok((n, q)) = task::number_at(enc.file, p, 2) else {
        return Sent { at, out };
    };
    let opening = open_signature(enc, x, n, q, buf, out);
    let opened = opening.out;
    let closed = opened.bytes(buf, b"Bool)\n");
    Sent {
        at: opening.at,
        out: closed,
    }
}
