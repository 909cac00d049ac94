// The walk over the bodies of functions and over the constraint that judges names by a table: a name is pushed where its scope begins and
// popped where it ends.
#![tactic(auto)]

ghost use Rattle.std.specs.Prelude.{◌≡◌, not, [], ◌∷◌, ◌+◌, ◌*◌, ◌≤◌, ◌<◌, length};
ghost use Rattle.task.specs.Ast.{Exprs, Constraints};
ghost use Rattle.task.specs.Decode.{many, dec_expr, dec_pred, dec_constraint};
ghost use Rattle.smtlib.specs.Lexicon.{is_one};
ghost use Rattle.task.specs.declared.Fault.TheVariants.{Clash};
ghost use Rattle.task.specs.Fault.{unless, each};
ghost use Rattle.task.specs.Scope.{known_fault, arguments_fault};
ghost use Rattle.task.specs.Node.{read_of};
ghost use Rattle.task_check.specs.Walk.{Rows, applied, quantified};
ghost use Rattle.constraint_check.specs.Around.{for_all};
ghost use Rattle.names.specs.Table.{number_of, entries, names_of};
ghost use Rattle.names.specs.Change.{Blank, Restored};
ghost use Rattle.names.specs.Same.{Same};
ghost use Rattle.declared.specs.Arity.{value_of, size_at, arity_in};
ghost use Rattle.scope.specs.Known.{taken_in, expr_in, exprs_in, pred_in, constraint_in, constraints_in, Roomy};
ghost use Rattle.scope.specs.Row.{Scoped, Judges, Gives};
ghost use Rattle.scope.specs.Judged.{FunctionsJudged, Sectioned, NamesJudged};
ghost use Rattle.scope.specs.Walk.{scope_parts, let_form, under_form, under_in, body_form, signature_form, function_form, body_in, perhaps_in};

use names::{Kind, Table};
use task::{ConstraintNode, ExprNode, Fault, PredNode, Read, Refusal};
use trailer::Bounds;

// What an expression's node leaves to be walked, with the fault of the node itself: expressions in a row, or the parts of an application, a
// Let or a quantifier.
#[derive(Clone, Copy)]
pub enum ScopeParts {
    Row(u64, Fault),
    App(bool),
    Let,
    Quantifier(u64),
}

// The fault of a ForAll's name.
#[tactic(auto, using(crate::proofs::Constraints::name_clashes, crate::proofs::Constraints::name_free))]
fn clash_fault(table: &Table, x: &[u8]) -> Fault
    ensures { result ≡ unless (not (is_one x.now (taken_in table.now.file.now table.now.words.now))) Clash }
{
    if table.find(x, Kind::KVar, Kind::Function).is_some() {
        return Fault::Clash;
    }
    Fault::Sound
}

// The fault of a name: none of the kinds in a range has it.
#[tactic(auto, using(crate::proofs::Exprs::name_known, crate::proofs::Exprs::name_unknown))]
fn known_fault(table: &Table, x: &[u8], lowest: Kind, highest: Kind) -> Fault
    ensures { result ≡ known_fault (names_of (number_of lowest) (number_of highest) (entries table.now.file.now table.now.words.now)) x.now }
{
    if table.find(x, lowest, highest).is_some() {
        return Fault::Sound;
    }
    Fault::Unknown
}

// What an expression's node leaves to be walked.
#[tactic(auto, unfolding(crate::specs::Known::ctors_in, crate::specs::Known::vars_in))]
fn scope_parts(table: &Table, node: ExprNode) -> ScopeParts
    ensures { result ≡ scope_parts table.now.file.now table.now.words.now node.entry }
{
    match node {
        ExprNode::Numeral(_, _) => ScopeParts::Row(0, Fault::Sound),
        ExprNode::Boolean(_) => ScopeParts::Row(0, Fault::Sound),
        ExprNode::Real(_) => ScopeParts::Row(0, Fault::Sound),
        ExprNode::String(_) => ScopeParts::Row(0, Fault::Sound),
        ExprNode::BitVec(_, _, _) => ScopeParts::Row(0, Fault::Sound),
        ExprNode::Var(x) => ScopeParts::Row(
            0,
            known_fault(table, x, Kind::Constructor, Kind::Bound),
        ),
        ExprNode::WKVar => ScopeParts::Row(0, Fault::Sound),
        ExprNode::Neg => ScopeParts::Row(1, Fault::Sound),
        ExprNode::Not => ScopeParts::Row(1, Fault::Sound),
        ExprNode::BinaryOp(_) => ScopeParts::Row(2, Fault::Sound),
        ExprNode::Atom(_) => ScopeParts::Row(2, Fault::Sound),
        ExprNode::Imp => ScopeParts::Row(2, Fault::Sound),
        ExprNode::Iff => ScopeParts::Row(2, Fault::Sound),
        ExprNode::And(n) => ScopeParts::Row(n, Fault::Sound),
        ExprNode::Or(n) => ScopeParts::Row(n, Fault::Sound),
        ExprNode::IfThenElse => ScopeParts::Row(3, Fault::Sound),
        ExprNode::Let(_) => ScopeParts::Let,
        ExprNode::App(has) => ScopeParts::App(has),
        ExprNode::ThyFunc(_) => ScopeParts::Row(0, Fault::Sound),
        ExprNode::IsCtor(x) => ScopeParts::Row(
            1,
            known_fault(table, x, Kind::Constructor, Kind::Constructor),
        ),
        ExprNode::Quantifier(_, n) => ScopeParts::Quantifier(n),
    }
}

// n pieces in a row, each judged by the call at its position.
fn scope_row<F: Fn(&mut Table, usize) -> Read<Fault>>(
    table: &mut Table,
    at: usize,
    n: u64,
    judge: F,
) -> Read<Fault>
    requires space { Roomy table.old at }
    requires judges { Judges (F.pre judge) (F.post judge) }
    ensures { (Rows (Gives table.old (F.post judge)) n at (read_of result) × Restored table.old.file.now table.old.words.now table.new.words.now) × Same table.old table.new }
{
    let mut p = at;
    let mut fault = Fault::Sound;
    for _ in 0..n {
        let (f, q) = judge(table, p)?;
        p = q;
        fault = fault.lower(f);
    }
    Ok((fault, p))
}

// The expression at a position: where it ends, and the fault of its names.
#[tactic(auto, using(crate::proofs::Exprs::expr_none, crate::proofs::Exprs::expr_refused, crate::proofs::Exprs::row_space_on, crate::proofs::Exprs::app_space_on, crate::proofs::Exprs::quantifier_space_on, crate::proofs::Exprs::let_space_on))]
#[cycle(exprs)]
pub fn scope_expr(table: &mut Table, at: usize, levels: usize) -> Read<Fault>
    requires { Roomy table.old at }
    ensures { Scoped expr_in (dec_expr levels) at table.old table.new (read_of result) }
{
    if levels == 0 {
        return Err(Refusal::Level);
    }
    let below = levels - 1;
    let (node, p) = task::read_expr_node(table.file, at)?;
    match scope_parts(table, node) {
        ScopeParts::Row(n, f) => task_check::after(f, scope_exprs(table, p, n, below)),
        ScopeParts::App(has) => scope_app(table, p, has, below),
        ScopeParts::Let => scope_let(table, at + 1, below),
        ScopeParts::Quantifier(n) => scope_quantifier(table, p, n, below),
    }
}

// n expressions in a row.
#[cycle(exprs)]
fn scope_exprs(table: &mut Table, at: usize, n: u64, levels: usize) -> Read<Fault>
    requires { Roomy table.old at }
    ensures { Scoped exprs_in (many Exprs.none Exprs.more (dec_expr levels) n) at table.old table.new (read_of result) }
{
    let one = |t: &mut Table, p|
        requires { Roomy t.old p }
        ensures { Scoped expr_in (dec_expr levels) p t.old t.new (read_of result) }
    { scope_expr(t, p, levels) };
    scope_row(table, at, n, one)
}

// An application behind its flag: the output sort, the head, and counted arguments.
#[tactic(auto, using(crate::proofs::Exprs::app_stops, crate::proofs::Exprs::app_head_space, crate::proofs::Exprs::app_head_stops, crate::proofs::Exprs::app_count_stops, crate::proofs::Exprs::app_rest_space))]
#[cycle(exprs)]
fn scope_app(table: &mut Table, at: usize, has: bool, levels: usize) -> Read<Fault>
    requires { Roomy table.old at }
    ensures { Scoped expr_in (applied levels has) at table.old table.new (read_of result) }
{
    let s = table.file;
    let (_, p) = task_check::check_given(s, has, at, levels)?;
    let (f, q) = scope_expr(table, p, levels)?;
    let (n, r) = task::number_at(s, q, 2)?;
    task_check::after(f, scope_exprs(table, r, n, levels))
}

// A Let behind its code: its name is known in its second operand.
#[tactic(auto, using(crate::proofs::Exprs::let_unnamed, crate::proofs::Exprs::let_first_space, crate::proofs::Exprs::let_first_stops))]
#[cycle(exprs)]
fn scope_let(table: &mut Table, at: usize, levels: usize) -> Read<Fault>
    requires { Roomy table.old at × (3 * length (entries table.old.file.now table.old.words.now) < at) }
    ensures { Scoped expr_in (let_form levels) at table.old table.new (read_of result) }
{
    let (_, p) = task::read_name(table.file, at)?;
    let (f, q) = scope_expr(table, p, levels)?;
    table.push(at, Kind::Bound);
    let body = scope_expr(table, q, levels);
    table.pop();
    task_check::after(f, body)
}

// A quantifier behind its count: its names are known in its body.
#[tactic(auto, using(crate::proofs::Exprs::quantifier_stops))]
#[cycle(exprs)]
fn scope_quantifier(table: &mut Table, at: usize, n: u64, levels: usize) -> Read<Fault>
    requires { Roomy table.old at }
    ensures { Scoped expr_in (quantified levels n) at table.old table.new (read_of result) }
{
    let (_, p) = task_check::check_binders(table.file, at, n, levels)?;
    declared::push_binders(table, at, n, levels, Kind::Bound);
    let body = scope_expr(table, p, levels);
    table.pop_last(n);
    body
}

// How many sorts the KVar has whose name stands at a place: the number behind the name.
#[tactic(auto, using(crate::proofs::Preds::size_unnamed, crate::proofs::Preds::size_read))]
fn sorts_at(s: &[u8], at: usize) -> Read<u64>
    ensures { size_at s.now at ≡ value_of (read_of result) }
{
    let (_, p) = task::read_name(s, at)?;
    task::number_at(s, p, 2)
}

// The fault of a KVar predicate with n arguments: its KVar is not declared, or has another number of sorts.
#[tactic(auto, using(crate::proofs::Preds::no_kvar, crate::proofs::Preds::kvar_inside, crate::proofs::Preds::kvar_unsized, crate::proofs::Preds::kvar_counted, crate::proofs::Preds::kvar_miscounted))]
fn arguments_fault(table: &Table, x: &[u8], n: u64) -> Fault
    ensures { result ≡ arguments_fault (arity_in table.now.file.now table.now.words.now x.now) n }
{
    let Some(k) = table.find(x, Kind::KVar, Kind::KVar) else {
        return Fault::Unknown;
    };
    let Ok((m, _)) = sorts_at(table.file, table.offset_of(k)) else {
        return Fault::Unknown;
    };
    if n == m {
        return Fault::Sound;
    }
    Fault::Arguments
}

// The predicate at a position: where it ends, and the fault of its names.
#[tactic(auto, using(crate::proofs::Preds::pred_none, crate::proofs::Preds::pred_refused, crate::proofs::Preds::pred_space, crate::proofs::Preds::pred_expr))]
pub fn scope_pred(table: &mut Table, at: usize, levels: usize) -> Read<Fault>
    requires { Roomy table.old at }
    ensures { Scoped pred_in (dec_pred levels) at table.old table.new (read_of result) }
{
    if levels == 0 {
        return Err(Refusal::Level);
    }
    let below = levels - 1;
    let (node, p) = task::read_pred_node(table.file, at)?;
    match node {
        PredNode::KVar(x, n) => {
            let fault = arguments_fault(table, x, n);
            task_check::after(fault, scope_exprs(table, p, n, below))
        }
        PredNode::Expr => scope_expr(table, p, below),
    }
}

// n predicates in a row.
pub fn scope_preds(table: &mut Table, at: usize, n: u64, levels: usize) -> Read<Fault>
    requires { Roomy table.old at }
    ensures { Scoped (λ s t. each (pred_in s t)) (many [] ◌∷◌ (dec_pred levels) n) at table.old table.new (read_of result) }
{
    scope_row(table, at, n, |t, p| scope_pred(t, p, levels))
}

// The constraint at a position: where it ends, and the fault of its names.
#[tactic(auto, using(crate::proofs::Constraints::constraint_none, crate::proofs::Constraints::constraint_refused, crate::proofs::Constraints::node_space))]
#[cycle(constraints)]
pub fn scope_constraint(table: &mut Table, at: usize, levels: usize) -> Read<Fault>
    requires { Roomy table.old at }
    ensures { Scoped constraint_in (dec_constraint levels) at table.old table.new (read_of result) }
{
    if levels == 0 {
        return Err(Refusal::Level);
    }
    let below = levels - 1;
    let (node, p) = task::read_constraint_node(table.file, at)?;
    match node {
        ConstraintNode::Pred => scope_pred(table, p, below),
        ConstraintNode::Conj(n) => scope_members(table, p, n, below),
        ConstraintNode::ForAll => scope_for_all(table, p, below),
    }
}

// n constraints in a row.
#[cycle(constraints)]
fn scope_members(table: &mut Table, at: usize, n: u64, levels: usize) -> Read<Fault>
    requires { Roomy table.old at }
    ensures { Scoped constraints_in (many Constraints.none Constraints.more (dec_constraint levels) n) at table.old table.new (read_of result) }
{
    let one = |t: &mut Table, p|
        requires { Roomy t.old p }
        ensures { Scoped constraint_in (dec_constraint levels) p t.old t.new (read_of result) }
    { scope_constraint(t, p, levels) };
    scope_row(table, at, n, one)
}

// A ForAll behind its code: its name is known in its predicates and its body.
#[tactic(auto, using(crate::proofs::Constraints::for_all_unnamed, crate::proofs::Constraints::for_all_unsorted, crate::proofs::Constraints::for_all_uncounted))]
#[cycle(constraints)]
fn scope_for_all(table: &mut Table, at: usize, levels: usize) -> Read<Fault>
    requires { Roomy table.old at × (3 * length (entries table.old.file.now table.old.words.now) < at) }
    ensures { Scoped constraint_in (for_all levels) at table.old table.new (read_of result) }
{
    let s = table.file;
    let (x, p) = task::read_name(s, at)?;
    let (_, q) = task_check::check_sort(s, p, levels, false)?;
    let (n, r) = task::number_at(s, q, 2)?;
    let clash = clash_fault(table, x);
    table.push(at, Kind::Bound);
    let under = scope_under(table, r, n, levels);
    table.pop();
    task_check::after(clash, under)
}

// A ForAll behind the number of its predicates: these, and the body.
#[tactic(auto, using(crate::proofs::Constraints::under_stops, crate::proofs::Constraints::under_space))]
#[cycle(constraints)]
fn scope_under(table: &mut Table, at: usize, n: u64, levels: usize) -> Read<Fault>
    requires { Roomy table.old at }
    ensures { Scoped under_in (under_form levels n) at table.old table.new (read_of result) }
{
    let (f, p) = scope_preds(table, at, n, levels)?;
    task_check::after(f, scope_constraint(table, p, levels))
}

// A function's body, if it has as many argument names as there are inputs: its arguments are known in it.
#[tactic(auto, using(crate::proofs::Functions::body_uncounted, crate::proofs::Functions::body_unmatched, crate::proofs::Functions::body_args_stop))]
fn scope_body(table: &mut Table, at: usize, inputs: u64) -> Read<Fault>
    requires { Roomy table.old at × (3 * length (entries table.old.file.now table.old.words.now) + inputs ≤ at) }
    ensures { Scoped body_in (body_form inputs) at table.old table.new (read_of result) }
{
    let s = table.file;
    let (n, p) = task::number_at(s, at, 2)?;
    if n != inputs {
        return Err(Refusal::Arity);
    }
    let (_, q) = item_check::check_names(s, p, n)?;
    declared::push_names(table, p, n, Kind::Bound);
    let body = scope_expr(table, q, 256);
    table.pop_last(n);
    body
}

// A function behind its number of parameters.
#[tactic(auto, using(crate::proofs::Functions::signature_uncounted, crate::proofs::Functions::signature_inputs_stop, crate::proofs::Functions::signature_output_stop, crate::proofs::Functions::signature_unflagged, crate::proofs::Functions::signature_none, crate::proofs::Functions::signature_space))]
fn scope_signature(table: &mut Table, at: usize) -> Read<Fault>
    requires { Roomy table.old at }
    ensures { Scoped perhaps_in signature_form at table.old table.new (read_of result) }
{
    let s = table.file;
    let (n, p) = task::number_at(s, at, 2)?;
    let (_, q) = task_check::check_sorts(s, p, n, 256)?;
    let (_, r) = task_check::check_sort(s, q, 256, false)?;
    let (has, t) = task::read_coded(s, r)?;
    if has {
        return scope_body(table, t, n);
    }
    Ok((Fault::Sound, t))
}

// A function: where it ends, and the fault of the names in its body.
#[tactic(auto, using(crate::proofs::Functions::function_unnamed, crate::proofs::Functions::function_unparameterized, crate::proofs::Functions::function_space, crate::proofs::Functions::function_walks))]
fn scope_function(table: &mut Table, at: usize) -> Read<Fault>
    requires { Roomy table.old at }
    ensures { Scoped perhaps_in function_form at table.old table.new (read_of result) }
{
    let s = table.file;
    let (_, p) = task::read_name(s, at)?;
    let (_, q) = task::number_at(s, p, 2)?;
    scope_signature(table, q)
}

// The functions from a position to an end: the fault of the names in their bodies. Each function is known behind its own body.
#[tactic(auto, using(crate::proofs::Sections::judging_start, crate::proofs::Sections::judging_ends))]
fn scope_functions(table: &mut Table, at: usize, end: usize) -> Fault
    requires { Roomy table.old at × (end ≤ length table.old.file.now) }
    ensures { FunctionsJudged table.old.file.now at end table.old.words.now result table.new.words.now × Same table.old table.new }
{
    let mut p = at;
    let mut fault = Fault::Sound;
    // a while: items have no count, and where one ends is known when it is read
    while p < end {
        let Ok((f, q)) = scope_function(table, p) else {
            return fault;
        };
        table.push(p, Kind::Function);
        fault = fault.lower(f);
        p = q;
    }
    fault
}

// The fault of the names of a task that has no other fault. The names that it declares are put into an empty table.
pub fn judge_names(table: &mut Table, b: Bounds) -> Fault
    requires sectioned { Sectioned table.old.file.now b × Blank table.old.words.now }
    requires room { 1026 + length table.old.file.now ≤ length table.old.words.now }
    ensures { NamesJudged table.old.file.now result table.new.words.now × Same table.old table.new }
{
    declared::declare(table, b);
    let bodies = scope_functions(table, b.functions, b.kvars);
    declared::declare_kvars(table, b);
    let Ok((fault, _)) = scope_constraint(table, b.constraint, 256) else {
        // the constraint was read before
        return bodies;
    };
    bodies.lower(fault)
}
