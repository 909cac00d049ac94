// The walk over a constraint: where it ends, what is at fault in it, and how many of its heads are not literally true.
#![tactic(auto)]

ghost use Rattle.std.specs.Prelude.{◌≡◌, [], ◌+◌, ◌<◌, length, cond};
ghost use Rattle.std.specs.List.{list_any};
ghost use Rattle.smtlib.specs.Lexicon.{is_one};
ghost use Rattle.task.specs.Ast.{Constraints};
ghost use Rattle.task.specs.Decode.{many, dec_pred, dec_constraint, deepest};
ghost use Rattle.task.specs.Fault.{pred_fault, constraint_fault, constraints_fault, shadow_fault};
ghost use Rattle.task.specs.Task.{pred_heads, heads_of, heads_in};
ghost use Rattle.task.specs.Node.{read_of};
ghost use Rattle.task_check.specs.Walk.{walked, read_true, named_at};
ghost use Rattle.path.specs.Offsets.{entries, Leaves};
ghost use Rattle.constraint_check.specs.Tally.{tally};
ghost use Rattle.constraint_check.specs.Around.{names_on, is_head, header_fault, header, for_all};

use path::Path;
use task::{ConstraintNode, Fault, Read, Refusal};

// The fault of a piece, and the number of its heads that are not literally true.
#[derive(Clone, Copy)]
pub struct Counted {
    pub fault: Fault,
    pub heads: u64,
}

// Whether the name at one of the offsets is the given one.
fn is_repeated(s: &[u8], x: &[u8], offsets: &[u16]) -> bool
    ensures { result ≡ list_any (λ o. is_one x.now (named_at s.now o)) offsets.now }
{
    offsets
        .iter()
        .any(|o| task_check::is_named(s, usize::from(*o), x))
}

// The fault of a ForAll that is named like one on the path.
#[tactic(auto, using(crate::proofs::Names::shadow_repeats, crate::proofs::Names::shadow_free, crate::proofs::Names::none_out))]
fn shadow_fault(s: &[u8], x: &[u8], path: Path) -> Fault
    requires { Leaves path 0 }
    ensures { result ≡ shadow_fault (names_on s.now (entries path)) x.now }
{
    if is_repeated(s, x, path.offsets()) {
        return Fault::Shadowed;
    }
    Fault::Sound
}

// Whether a head stands at a position, and a level is left for it.
pub fn is_head(s: &[u8], at: usize, levels: usize) -> bool
    ensures { result ≡ is_head levels s.now at }
{
    0 < levels && at < s.len() && s[at] == 0
}

// 1, or 0 for a predicate that is literally true.
fn count_of(s: &[u8], at: usize, levels: usize) -> u64
    ensures { result ≡ cond (read_true (dec_pred levels s.now at)) 0 1 }
{
    if task_check::is_literally_true(s, at, levels) {
        return 0;
    }
    1
}

// A head: the predicate at a position.
#[tactic(auto, using(crate::proofs::Constraints::head_read, crate::proofs::Constraints::head_refused))]
fn check_head(s: &[u8], at: usize, levels: usize) -> Read<Counted>
    ensures { read_of result ≡ tally pred_fault pred_heads (dec_pred levels s.now at) }
{
    let (fault, p) = task_check::check_pred(s, at, levels)?;
    let heads = count_of(s, at, levels);
    Ok((Counted { fault, heads }, p))
}

// The constraint at a position, inside the ForAlls of the path.
#[tactic(auto, using(crate::proofs::Constraints::constraint_none, crate::proofs::Constraints::constraint_refused, path::proofs::Entries::leaves_fewer))]
#[cycle(constraints)]
fn check_within(s: &[u8], at: usize, levels: usize, path: Path) -> Read<Counted>
    requires { Leaves path levels × (length s.now < 65536) }
    ensures { read_of result ≡ tally (constraint_fault (names_on s.now (entries path))) heads_of (dec_constraint levels s.now at) }
{
    if levels == 0 {
        return Err(Refusal::Level);
    }
    let below = levels - 1;
    let (node, p) = task::read_constraint_node(s, at)?;
    match node {
        ConstraintNode::Pred => check_head(s, p, below),
        ConstraintNode::Conj(n) => check_members(s, p, n, below, path),
        ConstraintNode::ForAll => check_for_all(s, p, below, path),
    }
}

// n constraints in a row.
#[tactic(auto, using(crate::proofs::Constraints::going_starts, crate::proofs::Constraints::going_ends))]
#[cycle(constraints)]
fn check_members(s: &[u8], at: usize, n: u64, levels: usize, path: Path) -> Read<Counted>
    requires { Leaves path levels × (length s.now < 65536) }
    ensures { read_of result ≡ tally (constraints_fault (names_on s.now (entries path))) heads_in (many Constraints.none Constraints.more (dec_constraint levels) n s.now at) }
{
    let mut p = at;
    let mut fault = Fault::Sound;
    let mut heads: u64 = 0;
    for _ in 0..n {
        // a head needs no copy of the path
        let read = if is_head(s, p, levels) {
            check_head(s, p + 1, levels - 1)
        } else {
            check_within(s, p, levels, path)
        };
        let (one, q) = read?;
        p = q;
        fault = fault.lower(one.fault);
        heads += one.heads;
    }
    Ok((Counted { fault, heads }, p))
}

// A ForAll's header, which stands behind its code: name, sort, counted predicates.
#[tactic(auto, using(crate::proofs::Constraints::header_stops, crate::proofs::Constraints::header_uncounted, crate::proofs::Constraints::header_walks))]
pub fn check_header(s: &[u8], at: usize, levels: usize) -> Read<Fault>
    ensures { read_of result ≡ walked header_fault (header levels s.now at) }
{
    let (fault, p) = task_check::check_binder(s, at, levels)?;
    let (n, q) = task::number_at(s, p, 2)?;
    task_check::after(fault, task_check::check_preds(s, q, n, levels))
}

// A ForAll behind its code: header and body. It is compiled into `check_within`, so that a level has one copy of the path on the stack.
#[tactic(auto, using(crate::proofs::Constraints::for_all_unnamed, crate::proofs::Constraints::for_all_stops, crate::proofs::Constraints::for_all_body_stops, path::proofs::Entries::leaves_fewer, path::proofs::Entries::leaves_pushed, crate::proofs::Names::name_inside))]
#[cycle(constraints)]
#[inline(always)]
fn check_for_all(s: &[u8], at: usize, levels: usize, mut path: Path) -> Read<Counted>
    requires { Leaves path (levels + 1) × (length s.now < 65536) }
    ensures { read_of result ≡ tally (constraint_fault (names_on s.now (entries path))) heads_of (for_all levels s.now at) }
{
    let (x, _) = task::read_name(s, at)?;
    let (header, p) = check_header(s, at, levels)?;
    let fault = header.lower(shadow_fault(s, x, path));
    path = path.push(at);
    let (body, q) = check_within(s, p, levels, path)?;
    let whole = Counted {
        fault: fault.lower(body.fault),
        heads: body.heads,
    };
    Ok((whole, q))
}

// The constraint at a position. Its offsets have two bytes each on the path.
#[tactic(auto, using(path::proofs::Entries::leaves_empty))]
pub fn check_constraint(s: &[u8], at: usize) -> Read<Counted>
    requires { length s.now < 65536 }
    ensures { read_of result ≡ tally (constraint_fault []) heads_of (dec_constraint deepest s.now at) }
{
    check_within(s, at, 256, Path::empty())
}
