// Walks over the pieces of a task: where each ends, and what is at fault in it. A walker reads any bytes at any position.
#![tactic(auto)]

ghost use Rattle.std.specs.Prelude.{◌≡◌, ◌+◌, ◌<◌, true, false, [], ◌∷◌};
ghost use Rattle.smtlib.specs.Lexicon.{all, is_one, visible};
ghost use Rattle.task.specs.Ast.{Sorts, Exprs};
ghost use Rattle.task.specs.Decode.{many, name, binder, given, dec_sort, dec_expr, dec_pred};
ghost use Rattle.task.specs.Fault.{each, name_fault, text_fault, width_fault, sort_fault, sorts_fault, binder_fault, needs_sort, thy_func_fault, given_fault, expr_fault, exprs_fault, pred_fault};
ghost use Rattle.task.specs.Node.{read_of};
ghost use Rattle.task_check.specs.Walk.{walked, after as after_of, Rows, sort_parts, expr_parts, applied, quantified, read_true, named_at};

use task::{ExprNode, Fault, PredNode, Read, Refusal, SortNode, ThyFunc};

// What a sort's node leaves to be walked, with the fault of the node itself: sorts in a row, or the one sort of a BitVec.
#[derive(Clone, Copy)]
pub enum SortParts {
    Row(u64, Fault),
    Width(Fault),
}

// What an expression's node leaves to be walked, with the fault of the node itself: expressions in a row, or the parts of an
// application or of a quantifier.
#[derive(Clone, Copy)]
pub enum ExprParts {
    Row(u64, Fault),
    App(bool),
    Quantifier(u64),
}

// The answer with a fault that was met before.
pub fn after(f: Fault, walked: Read<Fault>) -> Read<Fault>
    ensures { read_of result ≡ after_of f (read_of walked) }
{
    walked.map(|(g, p)| (f.lower(g), p))
}

// n pieces in a row, each walked by the call at its position.
pub fn check_row<F: Fn(usize) -> Read<Fault>>(at: usize, n: u64, check: F) -> Read<Fault>
    requires { F.IsAlwaysCallable check }
    ensures { Rows (F.post check) n at (read_of result) }
{
    let mut p = at;
    let mut fault = Fault::Sound;
    for _ in 0..n {
        let (f, q) = check(p)?;
        p = q;
        fault = fault.lower(f);
    }
    Ok((fault, p))
}

// The fault of a name: it is no symbol.
#[tactic(auto, unfolding(task::specs::Fault::name_fault))]
pub fn name_fault(x: &[u8]) -> Fault
    ensures { result ≡ name_fault x.now }
{
    if smtlib::is_symbol(x) {
        Fault::Sound
    } else {
        Fault::Text
    }
}

// Whether the name at a position is the given one.
#[tactic(auto, using(crate::proofs::Names::named_none, crate::proofs::Names::named_one))]
pub fn is_named(s: &[u8], at: usize, x: &[u8]) -> bool
    ensures { result ≡ is_one x.now (named_at s.now at) }
{
    task::read_name(s, at).is_ok_and(|(y, _)| smtlib::same_bytes(x, y))
}

// A byte from 32 to 126.
fn is_visible(b: u8) -> bool
    ensures { result ≡ visible b }
{
    matches!(b, 32..=126)
}

// Whether every byte is such a byte. Every byte is looked at: a loop with no other way out is compiled to look at many at once.
fn all_visible(text: &[u8]) -> bool
    ensures { result ≡ all visible text.now }
{
    let mut visible = true;
    for b in text {
        visible &= is_visible(*b);
    }
    visible
}

// The fault of a comment's or a string's bytes.
#[tactic(auto, unfolding(task::specs::Fault::text_fault))]
pub fn text_fault(x: &[u8]) -> Fault
    ensures { result ≡ text_fault x.now }
{
    if all_visible(x) {
        Fault::Sound
    } else {
        Fault::Text
    }
}

// The fault of a sort that is no BvSize and stands directly under BitVec.
fn width_fault(under: bool) -> Fault
    ensures { result ≡ width_fault under }
{
    if under {
        Fault::BitVecWidth
    } else {
        Fault::Sound
    }
}

// What a sort's node leaves to be walked. `under` tells whether the sort stands directly under BitVec.
fn sort_parts(node: SortNode, under: bool) -> SortParts
    ensures { result ≡ sort_parts under node.entry }
{
    let fault = width_fault(under);
    match node {
        SortNode::Int => SortParts::Row(0, fault),
        SortNode::Bool => SortParts::Row(0, fault),
        SortNode::Real => SortParts::Row(0, fault),
        SortNode::Str => SortParts::Row(0, fault),
        SortNode::BitVec => SortParts::Width(fault),
        SortNode::BvSize(_) => SortParts::Row(0, width_fault(!under)),
        SortNode::Var(_) => SortParts::Row(0, fault),
        SortNode::Func => SortParts::Row(2, fault),
        SortNode::Abs(_) => SortParts::Row(1, fault),
        SortNode::Set(n) => SortParts::Row(n, fault),
        SortNode::Map(n) => SortParts::Row(n, fault),
        SortNode::Data(x, n) => SortParts::Row(n, fault.lower(name_fault(x))),
    }
}

// The sort at a position. `under` tells whether it stands directly under BitVec.
#[tactic(auto, using(crate::proofs::Sorts::sort_none, crate::proofs::Sorts::sort_refused, crate::proofs::Sorts::sort_row, crate::proofs::Sorts::sort_width))]
#[cycle(sorts)]
pub fn check_sort(s: &[u8], at: usize, levels: usize, under: bool) -> Read<Fault>
    ensures { read_of result ≡ walked (sort_fault under) (dec_sort levels s.now at) }
{
    if levels == 0 {
        return Err(Refusal::Level);
    }
    let below = levels - 1;
    let (node, p) = task::read_sort_node(s, at)?;
    match sort_parts(node, under) {
        SortParts::Row(n, f) => after(f, check_sorts(s, p, n, below)),
        SortParts::Width(f) => after(f, check_sort(s, p, below, true)),
    }
}

// n sorts in a row.
#[cycle(sorts)]
pub fn check_sorts(s: &[u8], at: usize, n: u64, levels: usize) -> Read<Fault>
    ensures { read_of result ≡ walked sorts_fault (many Sorts.none Sorts.more (dec_sort levels) n s.now at) }
{
    let one = |p|
        ensures { read_of result ≡ walked (sort_fault false) (dec_sort levels s.entry.now p) }
    { check_sort(s, p, levels, false) };
    check_row(at, n, one)
}

// A name and a sort.
#[tactic(auto, using(crate::proofs::Exprs::binder_refused, crate::proofs::Exprs::binder_walks))]
pub fn check_binder(s: &[u8], at: usize, levels: usize) -> Read<Fault>
    ensures { read_of result ≡ walked binder_fault (binder levels s.now at) }
{
    let (x, p) = task::read_name(s, at)?;
    after(name_fault(x), check_sort(s, p, levels, false))
}

// n names with their sorts.
pub fn check_binders(s: &[u8], at: usize, n: u64, levels: usize) -> Read<Fault>
    ensures { read_of result ≡ walked (each binder_fault) (many [] ◌∷◌ (binder levels) n s.now at) }
{
    check_row(at, n, |p| check_binder(s, p, levels))
}

// The output sort of an application, if there is one.
#[tactic(auto, using(crate::proofs::Exprs::given_none, crate::proofs::Exprs::given_walks))]
pub fn check_given(s: &[u8], has: bool, at: usize, levels: usize) -> Read<Fault>
    ensures { read_of result ≡ walked given_fault (given levels has s.now at) }
{
    if has {
        return check_sort(s, at, levels, false);
    }
    Ok((Fault::Sound, at))
}

// Whether a theory function is written by its sort.
#[tactic(auto, unfolding(task::specs::Fault::needs_sort))]
pub fn needs_sort(f: ThyFunc) -> bool
    ensures { result ≡ needs_sort f }
{
    match f {
        ThyFunc::SetEmpty => true,
        ThyFunc::MapDefault => true,
        _ => false,
    }
}

// The fault of a theory function. `head` tells whether it is the head of an application with an output sort.
#[tactic(auto, unfolding(task::specs::Fault::thy_func_fault))]
fn thy_func_fault(f: ThyFunc, head: bool) -> Fault
    ensures { result ≡ thy_func_fault head f }
{
    if head {
        return Fault::Sound;
    }
    if needs_sort(f) {
        return Fault::Unqualified;
    }
    Fault::Sound
}

// What an expression's node leaves to be walked.
fn expr_parts(node: ExprNode, head: bool) -> ExprParts
    ensures { result ≡ expr_parts head node.entry }
{
    match node {
        ExprNode::Numeral(_, _) => ExprParts::Row(0, Fault::Sound),
        ExprNode::Boolean(_) => ExprParts::Row(0, Fault::Sound),
        ExprNode::Real(_) => ExprParts::Row(0, Fault::Sound),
        ExprNode::String(x) => ExprParts::Row(0, text_fault(x)),
        ExprNode::BitVec(_, _, _) => ExprParts::Row(0, Fault::Sound),
        ExprNode::Var(x) => ExprParts::Row(0, name_fault(x)),
        ExprNode::WKVar => ExprParts::Row(0, Fault::WKVar),
        ExprNode::Neg => ExprParts::Row(1, Fault::Sound),
        ExprNode::Not => ExprParts::Row(1, Fault::Sound),
        ExprNode::BinaryOp(_) => ExprParts::Row(2, Fault::Sound),
        ExprNode::Atom(_) => ExprParts::Row(2, Fault::Sound),
        ExprNode::Imp => ExprParts::Row(2, Fault::Sound),
        ExprNode::Iff => ExprParts::Row(2, Fault::Sound),
        ExprNode::And(n) => ExprParts::Row(n, Fault::Sound),
        ExprNode::Or(n) => ExprParts::Row(n, Fault::Sound),
        ExprNode::IfThenElse => ExprParts::Row(3, Fault::Sound),
        ExprNode::Let(x) => ExprParts::Row(2, name_fault(x)),
        ExprNode::App(has) => ExprParts::App(has),
        ExprNode::ThyFunc(f) => ExprParts::Row(0, thy_func_fault(f, head)),
        ExprNode::IsCtor(x) => ExprParts::Row(1, name_fault(x)),
        ExprNode::Quantifier(_, n) => ExprParts::Quantifier(n),
    }
}

// The expression at a position. `head` tells whether it is the head of an application with an output sort.
#[tactic(auto, using(crate::proofs::Exprs::expr_none, crate::proofs::Exprs::expr_refused, crate::proofs::Exprs::expr_row, crate::proofs::Exprs::expr_app, crate::proofs::Exprs::expr_quantifier))]
#[cycle(exprs)]
pub fn check_expr(s: &[u8], at: usize, levels: usize, head: bool) -> Read<Fault>
    ensures { read_of result ≡ walked (expr_fault head) (dec_expr levels s.now at) }
{
    if levels == 0 {
        return Err(Refusal::Level);
    }
    let below = levels - 1;
    let (node, p) = task::read_expr_node(s, at)?;
    match expr_parts(node, head) {
        ExprParts::Row(n, f) => after(f, check_exprs(s, p, n, below)),
        ExprParts::App(has) => check_app(s, p, has, below),
        ExprParts::Quantifier(n) => check_quantifier(s, p, n, below),
    }
}

// n expressions in a row.
#[cycle(exprs)]
pub fn check_exprs(s: &[u8], at: usize, n: u64, levels: usize) -> Read<Fault>
    ensures { read_of result ≡ walked exprs_fault (many Exprs.none Exprs.more (dec_expr levels) n s.now at) }
{
    let one = |p|
        ensures { read_of result ≡ walked (expr_fault false) (dec_expr levels s.entry.now p) }
    { check_expr(s, p, levels, false) };
    check_row(at, n, one)
}

// An application behind its flag: the output sort, the head, and counted arguments.
#[tactic(auto, using(crate::proofs::Exprs::app_stops, crate::proofs::Exprs::app_head_stops, crate::proofs::Exprs::app_count_stops, crate::proofs::Exprs::app_walks))]
#[cycle(exprs)]
fn check_app(s: &[u8], at: usize, has: bool, levels: usize) -> Read<Fault>
    ensures { read_of result ≡ walked (expr_fault false) (applied levels has s.now at) }
{
    let (f, p) = check_given(s, has, at, levels)?;
    let (g, q) = check_expr(s, p, levels, has)?;
    let (n, r) = task::number_at(s, q, 2)?;
    after(f, after(g, check_exprs(s, r, n, levels)))
}

// A quantifier behind its count: names with their sorts, and the body.
#[tactic(auto, using(crate::proofs::Exprs::quantifier_stops, crate::proofs::Exprs::quantifier_walks))]
#[cycle(exprs)]
fn check_quantifier(s: &[u8], at: usize, n: u64, levels: usize) -> Read<Fault>
    ensures { read_of result ≡ walked (expr_fault false) (quantified levels n s.now at) }
{
    let (f, p) = check_binders(s, at, n, levels)?;
    after(f, check_expr(s, p, levels, false))
}

// The predicate at a position.
#[tactic(auto, using(crate::proofs::Preds::pred_none, crate::proofs::Preds::pred_refused, crate::proofs::Preds::kvar_walks, crate::proofs::Preds::expr_walks))]
pub fn check_pred(s: &[u8], at: usize, levels: usize) -> Read<Fault>
    ensures { read_of result ≡ walked pred_fault (dec_pred levels s.now at) }
{
    if levels == 0 {
        return Err(Refusal::Level);
    }
    let below = levels - 1;
    let (node, p) = task::read_pred_node(s, at)?;
    match node {
        PredNode::KVar(x, n) => after(name_fault(x), check_exprs(s, p, n, below)),
        PredNode::Expr => after(Fault::Sound, check_expr(s, p, below, false)),
    }
}

// n predicates in a row.
pub fn check_preds(s: &[u8], at: usize, n: u64, levels: usize) -> Read<Fault>
    ensures { read_of result ≡ walked (each pred_fault) (many [] ◌∷◌ (dec_pred levels) n s.now at) }
{
    check_row(at, n, |p| check_pred(s, p, levels))
}

// Whether the predicate at a position is literally true: the three bytes of Boolean true as a predicate stand there, and levels are left for them.
// Test by test: tried as a slice's pattern, whose tests of bytes have no names for a proof to cite.
#[tactic(auto, using(crate::proofs::Preds::true_none, crate::proofs::Preds::true_at_lem, crate::proofs::Preds::true_short, crate::proofs::Preds::true_first, crate::proofs::Preds::true_second, crate::proofs::Preds::true_third))]
pub fn is_literally_true(s: &[u8], at: usize, levels: usize) -> bool
    ensures { result ≡ read_true (dec_pred levels s.now at) }
{
    if levels < 2 {
        return false;
    }
    if s.len() < 3 {
        return false;
    }
    if s.len() - 3 < at {
        return false;
    }
    if s[at] != 1 {
        return false;
    }
    if s[at + 1] != 1 {
        return false;
    }
    s[at + 2] == 1
}
