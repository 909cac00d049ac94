// The names that a task declares, as entries of a symbol table in the order of the file: datatypes with their constructors and fields, and
// constants; then KVars. The walkers read any bytes: what they add is told for pieces that decode.
#![tactic(auto)]

ghost use Rattle.std.specs.Prelude.{[], ◌∷◌, ◌+◌, ◌≤◌, length};
ghost use Rattle.task.specs.Decode.{many, name, binder, data_ctor, datatype, kvar};
ghost use Rattle.trailer.specs.Bounds.{Inside, start_of, end_of};
ghost use Rattle.names.specs.Change.{Blank};
ghost use Rattle.names.specs.Same.{Same};
ghost use Rattle.declared.specs.Symbols.{alone, named, row_symbols, ctor_symbols, ctors_symbols, datatype_symbols};
ghost use Rattle.declared.specs.Row.{Takes, Row};
ghost use Rattle.declared.specs.Gather.{Collected, item_symbols, themselves, Sweeps, Gathers, holding, add_kvars, AddsKVar, Declared, KVarsDeclared};

use item_check::Section;
use names::{Kind, Table};
use trailer::Bounds;

// A name with its sort: the name is an entry of the kind.
fn push_binder(table: &mut Table, at: usize, levels: usize, kind: Kind) -> usize
    ensures { Collected (named kind) (binder levels) at table.old table.new result }
{
    let s = table.file;
    let Ok((_, p)) = task::read_name(s, at) else {
        return at;
    };
    table.push(at, kind);
    let Ok((_, q)) = task_check::check_sort(s, p, levels, false) else {
        return at;
    };
    q
}

// n pieces in a row, each pushed by the call at its position.
fn push_row<F: Fn(&mut Table, usize) -> usize>(
    table: &mut Table,
    at: usize,
    n: u64,
    push: F,
) -> usize
    requires { Takes (F.pre push) }
    ensures { Row (F.post push) n at table.old result table.new }
{
    let mut p = at;
    for _ in 0..n {
        p = push(table, p);
    }
    p
}

// n names with their sorts.
pub fn push_binders(table: &mut Table, at: usize, n: u64, levels: usize, kind: Kind) -> usize
    ensures { Collected (row_symbols (named kind)) (many [] ◌∷◌ (binder levels) n) at table.old table.new result }
{
    push_row(table, at, n, |t, p| push_binder(t, p, levels, kind))
}

// A name: it is an entry of the kind.
fn push_name(table: &mut Table, at: usize, kind: Kind) -> usize
    ensures { Collected (alone kind) name at table.old table.new result }
{
    let Ok((_, p)) = task::read_name(table.file, at) else {
        return at;
    };
    table.push(at, kind);
    p
}

// n names.
pub fn push_names(table: &mut Table, at: usize, n: u64, kind: Kind) -> usize
    ensures { Collected (row_symbols (alone kind)) (many [] ◌∷◌ name n) at table.old table.new result }
{
    push_row(table, at, n, |t, p| push_name(t, p, kind))
}

// A constructor with its fields.
fn push_ctor(table: &mut Table, at: usize) -> usize
    ensures { Collected ctor_symbols data_ctor at table.old table.new result }
{
    let s = table.file;
    let Ok((_, p)) = task::read_name(s, at) else {
        return at;
    };
    let Ok((n, q)) = task::number_at(s, p, 2) else {
        return at;
    };
    table.push(at, Kind::Constructor);
    push_binders(table, q, n, 256, Kind::Field)
}

// n constructors in a row.
fn push_ctors(table: &mut Table, at: usize, n: u64) -> usize
    ensures { Collected ctors_symbols (many [] ◌∷◌ data_ctor n) at table.old table.new result }
{
    push_row(table, at, n, push_ctor)
}

// A datatype with its constructors.
fn push_datatype(table: &mut Table, at: usize) -> usize
    ensures { Collected datatype_symbols datatype at table.old table.new result }
{
    let s = table.file;
    let Ok((_, p)) = task::read_name(s, at) else {
        return at;
    };
    let Ok((_, q)) = task::number_at(s, p, 2) else {
        return at;
    };
    let Ok((n, r)) = task::number_at(s, q, 2) else {
        return at;
    };
    table.push(at, Kind::Datatype);
    push_ctors(table, r, n)
}

// An item of a section.
#[tactic(auto, unfolding(crate::specs::Gather::item_symbols))]
fn push_item(table: &mut Table, at: usize, section: Section) -> usize
    ensures { Collected themselves (item_symbols section) at table.old table.new result }
{
    match section {
        Section::Comments => at,
        Section::Datatypes => push_datatype(table, at),
        Section::Constants => push_binder(table, at, 256, Kind::Constant),
        Section::Functions => at,
        Section::KVars => at,
    }
}

// The items from a position to the section's end.
pub fn push_section(table: &mut Table, at: usize, end: usize, section: Section)
    requires { end ≤ length table.old.file.now }
    ensures { Gathers table.old.file.now section at end table.old.words.now table.new.words.now × Same table.old table.new }
{
    let mut p = at;
    // a while: items have no count, and where one ends is known when it is read
    while p < end {
        let next = push_item(table, p, section);
        if next <= p {
            return;
        }
        p = next;
    }
}

// The items of a section of the file.
fn push_items(table: &mut Table, b: Bounds, section: Section)
    requires { Inside table.old.file.now b }
    ensures { Gathers table.old.file.now section (start_of b section) (end_of b section) table.old.words.now table.new.words.now × Same table.old table.new }
{
    let at = trailer::start_of(b, section);
    let end = trailer::end_of(b, section);
    push_section(table, at, end, section);
}

// Puts the datatypes and constants of the file into an empty table with as many words for entries as the file has bytes.
pub fn declare(table: &mut Table, b: Bounds)
    requires inside { Inside table.old.file.now b × Blank table.old.words.now }
    requires room { 1026 + length table.old.file.now ≤ length table.old.words.now }
    ensures { Declared table.old.file.now b table.old.words.now table.new.words.now × Same table.old table.new }
{
    push_items(table, b, Section::Datatypes);
    push_items(table, b, Section::Constants);
}

// A KVar: its name, unless there is one with that name.
fn push_kvar(table: &mut Table, at: usize) -> usize
    ensures { AddsKVar (kvar table.old.file.now at) table.old.file.now table.old.words.now table.new.words.now result × Same table.old table.new }
{
    let s = table.file;
    let Ok((x, _)) = task::read_name(s, at) else {
        return at;
    };
    let Ok((_, q)) = item_check::check_item(s, at, Section::KVars) else {
        return at;
    };
    if table.find(x, Kind::KVar, Kind::KVar).is_none() {
        table.push(at, Kind::KVar);
    }
    q
}

// The KVars from a position to an end.
fn push_kvars(table: &mut Table, at: usize, end: usize)
    requires { end ≤ length table.old.file.now }
    ensures { Sweeps (holding table.old.file.now) add_kvars kvar table.old.file.now at end table.old.words.now table.new.words.now × Same table.old table.new }
{
    let mut p = at;
    // a while: items have no count, and where one ends is known when it is read
    while p < end {
        let next = push_kvar(table, p);
        if next <= p {
            return;
        }
        p = next;
    }
}

// Puts the KVars of the file into the table, behind what is there.
pub fn declare_kvars(table: &mut Table, b: Bounds)
    requires { Inside table.old.file.now b }
    ensures { KVarsDeclared table.old.file.now b table.old.words.now table.new.words.now × Same table.old table.new }
{
    push_kvars(table, b.kvars, b.constraint);
}
