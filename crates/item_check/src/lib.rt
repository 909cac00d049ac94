// The items of a file's sections: comments, datatypes, constants, functions and KVars. Where each ends and what is at fault in it.
#![tactic(auto)]

ghost use Rattle.std.specs.Prelude.{◌≡◌, true, [], ◌∷◌};
ghost use Rattle.task.specs.Decode.{many, name, comment, data_ctor, datatype, body, function, kvar};
ghost use Rattle.task.specs.Fault.{each, name_fault, text_fault, data_ctor_fault, empty_fault, datatype_fault, arity_fault, body_fault, function_fault, kvar_fault};
ghost use Rattle.task.specs.Node.{read_of};
ghost use Rattle.task_check.specs.Walk.{walked};
ghost use Rattle.item_check.specs.Items.{item_walk, signature, signature_fault};

use task::{Fault, Read};

// What a section holds.
#[derive(Clone, Copy, PartialEq, Eq, Debug)]
pub enum Section {
    Comments,
    Datatypes,
    Constants,
    Functions,
    KVars,
}

// A comment.
fn check_comment(s: &[u8], at: usize) -> Read<Fault>
    ensures { read_of result ≡ walked text_fault (comment s.now at) }
{
    let (x, p) = task::read_text(s, at)?;
    Ok((task_check::text_fault(x), p))
}

// A constructor: a name and counted fields.
fn check_ctor(s: &[u8], at: usize) -> Read<Fault>
    ensures { read_of result ≡ walked data_ctor_fault (data_ctor s.now at) }
{
    let (x, p) = task::read_name(s, at)?;
    let (n, q) = task::number_at(s, p, 2)?;
    task_check::after(
        task_check::name_fault(x),
        task_check::check_binders(s, q, n, 256),
    )
}

// n constructors in a row.
fn check_ctors(s: &[u8], at: usize, n: u64) -> Read<Fault>
    ensures { read_of result ≡ walked (each data_ctor_fault) (many [] ◌∷◌ data_ctor n s.now at) }
{
    task_check::check_row(at, n, |p| check_ctor(s, p))
}

// The fault of a datatype without constructors.
#[tactic(auto, unfolding(task::specs::Fault::empty_fault))]
fn empty_fault(n: u64) -> Fault
    ensures { result ≡ empty_fault n }
{
    if n == 0 {
        return Fault::NoConstructors;
    }
    Fault::Sound
}

// A datatype: a name, the number of its parameters and counted constructors.
fn check_datatype(s: &[u8], at: usize) -> Read<Fault>
    ensures { read_of result ≡ walked datatype_fault (datatype s.now at) }
{
    let (x, p) = task::read_name(s, at)?;
    let (_, q) = task::number_at(s, p, 2)?;
    let (n, r) = task::number_at(s, q, 2)?;
    let fault = task_check::name_fault(x).lower(empty_fault(n));
    task_check::after(fault, check_ctors(s, r, n))
}

// n names in a row.
pub fn check_names(s: &[u8], at: usize, n: u64) -> Read<Fault>
    ensures { read_of result ≡ walked (each name_fault) (many [] ◌∷◌ name n s.now at) }
{
    task_check::check_row(at, n, |p| check_name(s, p))
}

// A name.
fn check_name(s: &[u8], at: usize) -> Read<Fault>
    ensures { read_of result ≡ walked name_fault (name s.now at) }
{
    let (x, p) = task::read_name(s, at)?;
    Ok((task_check::name_fault(x), p))
}

// The fault of a body with another number of argument names than the function has inputs.
#[tactic(auto, unfolding(task::specs::Fault::arity_fault))]
fn arity_fault(args: u64, inputs: u64) -> Fault
    ensures { result ≡ arity_fault args inputs }
{
    if args == inputs {
        return Fault::Sound;
    }
    Fault::Arity
}

// A body: counted argument names and an expression. The function has that many inputs.
#[tactic(auto, using(crate::proofs::Walks::body_uncounted, crate::proofs::Walks::body_names_stop))]
fn check_present(s: &[u8], at: usize, inputs: u64) -> Read<Fault>
    ensures { read_of result ≡ walked (body_fault inputs) (body true s.now at) }
{
    let (n, p) = task::number_at(s, at, 2)?;
    let (f, q) = check_names(s, p, n)?;
    let fault = arity_fault(n, inputs).lower(f);
    task_check::after(fault, task_check::check_expr(s, q, 256, false))
}

// A body, if there is one.
#[tactic(auto, using(crate::proofs::Walks::body_none, crate::proofs::Walks::body_some))]
fn check_body(s: &[u8], at: usize, has: bool, inputs: u64) -> Read<Fault>
    ensures { read_of result ≡ walked (body_fault inputs) (body has s.now at) }
{
    if has {
        return check_present(s, at, inputs);
    }
    Ok((Fault::Sound, at))
}

// A function behind its parameters: counted input sorts, the output sort, a flag and the body.
#[tactic(auto, using(crate::proofs::Walks::signature_uncounted, crate::proofs::Walks::signature_inputs_stop, crate::proofs::Walks::signature_output_stops, crate::proofs::Walks::signature_unflagged))]
fn check_signature(s: &[u8], at: usize) -> Read<Fault>
    ensures { read_of result ≡ walked signature_fault (signature [] 0 s.now at) }
{
    let (n, p) = task::number_at(s, at, 2)?;
    let (f, q) = task_check::check_sorts(s, p, n, 256)?;
    let (g, r) = task_check::check_sort(s, q, 256, false)?;
    let (has, t) = task::read_coded(s, r)?;
    task_check::after(f.lower(g), check_body(s, t, has, n))
}

// A function: a name, the number of its parameters and the rest.
fn check_function(s: &[u8], at: usize) -> Read<Fault>
    ensures { read_of result ≡ walked function_fault (function s.now at) }
{
    let (x, p) = task::read_name(s, at)?;
    let (_, q) = task::number_at(s, p, 2)?;
    task_check::after(task_check::name_fault(x), check_signature(s, q))
}

// A KVar: a name and counted sorts.
fn check_kvar(s: &[u8], at: usize) -> Read<Fault>
    ensures { read_of result ≡ walked kvar_fault (kvar s.now at) }
{
    let (x, p) = task::read_name(s, at)?;
    let (n, q) = task::number_at(s, p, 2)?;
    task_check::after(
        task_check::name_fault(x),
        task_check::check_sorts(s, q, n, 256),
    )
}

// An item of a section.
#[tactic(auto, unfolding(crate::specs::Items::item_walk))]
pub fn check_item(s: &[u8], at: usize, section: Section) -> Read<Fault>
    ensures { read_of result ≡ item_walk section s.now at }
{
    match section {
        Section::Comments => check_comment(s, at),
        Section::Datatypes => check_datatype(s, at),
        Section::Constants => task_check::check_binder(s, at, 256),
        Section::Functions => check_function(s, at),
        Section::KVars => check_kvar(s, at),
    }
}
