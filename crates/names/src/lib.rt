// A symbol table in a lent slice of words, over the bytes s of a file. Word 0 is left for options. Word 1 is the number of entries. Words 2
// to 1025 are the heads of the buckets. Entry k has three words from 1026 + 3 * k on: one more than the number of the next older entry of
// its bucket, or 0; where its name stands in s; the number of its kind.
#![tactic(auto)]

ghost use Rattle.std.specs.Prelude.{◌≡◌, ◌+◌, ◌*◌, ◌≤◌, ◌<◌, length, get_or};
ghost use Rattle.smtlib.specs.Lexicon.{same};
ghost use Rattle.names.specs.Table.{number_of, name_at, has_name, Named, hash_of, count_of, offset_of, symbol_of, entries, fits, last_of, room_for, Chained};
ghost use Rattle.names.specs.Change.{Pushed, Popped};

mod table;

pub use table::Table;

// What an entry's name is the name of. A search asks for a range of kinds in this order.
#[derive(Clone, Copy, PartialEq, Eq, PartialOrd, Ord, Debug)]
pub enum Kind {
    Datatype,
    KVar,
    Constructor,
    Field,
    Constant,
    Function,
    Bound,
    Occurrence,
}

// A kind as it stands in the table.
impl From<Kind> for u16 {
    ghost from_gives = { λ kind n. n ≡ number_of kind };

    fn from(kind: Kind) -> u16 {
        kind as u16
    }
}

// The bucket of a name.
#[tactic(auto, using(crate::proofs::Bytes::hash_start, crate::proofs::Bytes::hash_step, crate::proofs::Bytes::hash_end))]
fn hash(name: &[u8]) -> usize
    ensures { (result ≡ hash_of name.now) × (result < 1024) }
{
    let mut h = 0;
    for b in name {
        h = (31 * h + usize::from(*b)) % 1024;
    }
    h
}

// The name at a place.
#[tactic(auto, unfolding(crate::specs::Table::name_at))]
fn name_at(s: &[u8], at: usize) -> &[u8]
    requires { Named s.now at }
    ensures { result.now ≡ name_at s.now at }
{
    let from = at + 1;
    &s[from..from + usize::from(s[at])]
}

// Whether entry k has the name and a kind in the range.
#[tactic(auto, using(crate::proofs::Chains::entry_low, crate::proofs::Chains::entry_high, crate::proofs::Chains::entry_named, crate::proofs::Chains::word_named))]
fn is_entry(s: &[u8], table: &[u16], k: usize, name: &[u8], lowest: u16, highest: u16) -> bool
    requires within { 1026 + 3 * k + 2 < length table.now }
    requires named { Named s.now (get_or table.now (1026 + 3 * k + 1) 0) }
    ensures { result ≡ fits name.now lowest highest (symbol_of s.now table.now k) }
{
    let at = 1026 + 3 * k;
    let kind = table[at + 2];
    lowest <= kind
        && kind <= highest
        && smtlib::same_bytes(name, name_at(s, usize::from(table[at + 1])))
}

// The last entry with the name and a kind in the range.
pub fn find(s: &[u8], table: &[u16], name: &[u8], lowest: Kind, highest: Kind) -> Option<usize>
    requires { Chained s.now table.now }
    ensures { result ≡ last_of (fits name.now (number_of lowest) (number_of highest)) (entries s.now table.now) }
{
    let low = u16::from(lowest);
    let high = u16::from(highest);
    let h = 2 + hash(name);
    let mut link = usize::from(table[h]);
    // a while: it follows the chain of a bucket
    while 0 < link {
        let k = link - 1;
        if is_entry(s, table, k, name, low, high) {
            return Some(k);
        }
        link = usize::from(table[1026 + 3 * k]);
    }
    None
}

// Whether a whole name stands at a place that a word has room for.
#[tactic(auto, using(crate::proofs::Bytes::name_behind, crate::proofs::Bytes::name_far, crate::proofs::Bytes::name_before))]
fn has_name(s: &[u8], at: usize) -> bool
    ensures { result ≡ has_name s.now at }
{
    at <= 65535 && at < s.len() && usize::from(s[at]) < s.len() - at
}

// Whether a table of that many words has room for entry n.
#[tactic(auto, using(crate::proofs::Bytes::room_most, crate::proofs::Bytes::room_rest))]
fn room_for(words: usize, n: usize) -> bool
    ensures { result ≡ room_for words n }
{
    n < 65535 && 1026 + 3 * n + 3 <= words
}

// Entry n: its three words, the head of its bucket and the number of entries.
fn place(s: &[u8], table: &mut [u16], n: usize, offset: usize, kind: u16)
    requires chained { Chained s.now table.old × (n ≡ count_of table.old) }
    requires room { (n < 65535) × (1026 + 3 * n + 3 ≤ length table.old) × (offset < 65536) × Named s.now offset }
    ensures { Pushed s.now table.old offset kind table.new }
{
    let at = 1026 + 3 * n;
    let h = 2 + hash(name_at(s, offset));
    table[at] = table[h];
    table[at + 1] = offset as u16;
    table[at + 2] = kind;
    table[h] = (n + 1) as u16;
    table[1] = (n + 1) as u16;
}

// One entry more, if there is room for it and a name stands there.
#[tactic(auto, using(crate::proofs::Chains::push_unnamed, crate::proofs::Chains::push_full))]
pub fn push(s: &[u8], table: &mut [u16], offset: usize, kind: Kind)
    requires { Chained s.now table.old }
    ensures { Pushed s.now table.old offset (number_of kind) table.new }
{
    let n = usize::from(table[1]);
    if has_name(s, offset) && room_for(table.len(), n) {
        place(s, table, n, offset, kind.into());
    }
}

// One entry less, if there is one: the last goes.
#[tactic(auto, using(crate::proofs::Chains::pop_none, crate::proofs::Chains::last_named))]
pub fn pop(s: &[u8], table: &mut [u16])
    requires { Chained s.now table.old }
    ensures { Popped s.now table.old 1 table.new }
{
    let n = usize::from(table[1]);
    if n == 0 {
        return;
    }
    let last = n - 1;
    let at = 1026 + 3 * last;
    let h = 2 + hash(name_at(s, usize::from(table[at + 1])));
    table[h] = table[at];
    table[1] = last as u16;
}

// n entries less: the last n go.
pub fn pop_last(s: &[u8], table: &mut [u16], n: u64)
    requires { Chained s.now table.old }
    ensures { Popped s.now table.old n table.new }
{
    for _ in 0..n {
        pop(s, table);
    }
}

// Where the name of entry k stands.
pub fn offset_of(table: &[u16], k: usize) -> usize
    requires { 1026 + 3 * k + 1 < length table.now }
    ensures { result ≡ offset_of table.now k }
{
    usize::from(table[1026 + 3 * k + 1])
}
