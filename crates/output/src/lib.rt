// The output: a counter by value that sends bytes, decimals and names to a buffer, and the names of the theory functions.
#![tactic(auto)]

ghost use Rattle.std.specs.Prelude.{◌≡◌, true, [], ◌∷◌, ◌++◌, ◌+◌, ◌-◌, ◌*◌, ◌/◌, ◌%◌, ◌^◌, ◌≤◌, ◌<◌, min, ltb, length, take, drop};
ghost use Rattle.std.proofs.lemmas.List.Edits.{sets};
ghost use Rattle.smtlib.specs.Lexicon.{any};
ghost use Rattle.smtlib.specs.Read.{doubled as doubled_of};
ghost use Rattle.smtlib.specs.Compose.{decimal as decimal_of};
ghost use Rattle.smt_text.specs.Editions.{names_of};
ghost use Rattle.smt_text.specs.Text.{write_thy_func, write_string};
ghost use Rattle.smt_text.specs.Table.{is_quote};
ghost use Rattle.output.specs.Emit.{output, most, emit, emits};
ghost use Rattle.output.specs.Digits.{padded};
ghost use Rattle.output.specs.Names.{name_at, place_of, length_of, behind_of, in_edition, indexed_text, entry_of};

use smt_text::Edition;
use task::ThyFunc;

// How many bytes were sent.
#[derive(Clone, Copy)]
pub struct Out {
    pub len: usize,
}

// A number divided by 10^9, and the rest.
#[derive(Clone, Copy)]
struct Divided {
    lo: u64,
    hi: u64,
    rest: u64,
}

// The digits of a number stand from a place on.
#[derive(Clone, Copy)]
struct Digits {
    bytes: [u8; 45],
    start: usize,
}

// Which of the names a theory function's is, with the names of Z3, and its index if it has one.
#[derive(Clone, Copy)]
pub enum Entry {
    Plain(usize),
    Indexed(usize, u64),
}

static NAMES: [u8; 378] =
    *b"str.lenstr.++str.prefixofstr.suffixofstr.containszero_extendsign_extendint2bvbv2intint2bvbv2intint2b\
    vbv2intint2bvbv2intbvulebvslebvugebvsgebvudivbvsdivbvsrembvurembvlshrbvashrbvandbvorbvxorbvnotbvaddb\
    vnegbvsubbvmulbvshlbvugtbvsgtbvultbvsltemptysetsingletonunionintersectionsetminussubsetmemberconstse\
    lectstoreset.emptyset.singletonset.unionset.interset.minusset.subsetset.member";

static PLACES: [u16; 55] = [
    0, 7, 13, 25, 37, 49, 60, 71, 77, 83, 89, 95, 101, 107, 113, 119, 124, 129, 134, 139, 145, 151,
    157, 163, 169, 175, 180, 184, 189, 194, 199, 204, 209, 214, 219, 224, 229, 234, 239, 247, 256,
    261, 273, 281, 287, 293, 298, 304, 309, 318, 331, 340, 349, 358, 368,
];

static LENGTHS: [u16; 55] = [
    7, 6, 12, 12, 12, 11, 11, 6, 6, 6, 6, 6, 6, 6, 6, 5, 5, 5, 5, 6, 6, 6, 6, 6, 6, 5, 4, 5, 5, 5,
    5, 5, 5, 5, 5, 5, 5, 5, 8, 9, 5, 12, 8, 6, 6, 5, 6, 5, 9, 13, 9, 9, 9, 10, 10,
];

// The smaller of two numbers.
pub fn least(a: usize, b: usize) -> usize
    ensures { result ≡ min a b }
{
    a.min(b)
}

// The sum, or the largest number that there is.
pub fn sum(a: usize, b: usize) -> usize
    ensures { result ≡ min (a + b) most }
{
    a.saturating_add(b)
}

// The difference of two numbers, or 0: how much of a buffer is left behind a place.
pub fn room(size: usize, at: usize) -> usize
    ensures { result ≡ size - at }
{
    size.saturating_sub(at)
}

// Copies the first n bytes of a text to a place of a buffer. A loop over the bytes of a fixed word is compiled to stores of its parts.
#[tactic(auto, using(crate::proofs::Sent::sets_step))]
fn copy(buf: &mut [u8], at: usize, text: &[u8], n: usize)
    requires { (n ≤ length text.now) × (n ≤ length buf.old - at) }
    ensures { buf.new ≡ sets buf.old at (take n text.now) }
{
    for i in 0..n {
        buf[at + i] = text[i];
    }
}

// The number divided by 10^9: a long division by limbs of 32 bits.
fn divide(lo: u64, hi: u64) -> Divided
    ensures { (result.lo + 2 ^ 64 * result.hi ≡ (lo + 2 ^ 64 * hi) / 10 ^ 9) × (result.rest ≡ (lo + 2 ^ 64 * hi) % 10 ^ 9) }
{
    let high = hi % 1000000000 * 4294967296 + lo / 4294967296;
    let low = high % 1000000000 * 4294967296 + lo % 4294967296;
    Divided {
        lo: high / 1000000000 * 4294967296 + low / 1000000000,
        hi: hi / 1000000000,
        rest: low % 1000000000,
    }
}

// Whether a number has nine digits at the most.
fn is_short(lo: u64, hi: u64) -> bool
    ensures { result ≡ ltb (lo + 2 ^ 64 * hi) (10 ^ 9) }
{
    hi == 0 && lo < 1000000000
}

// Puts the last nine digits of a number before a place.
fn fill(bytes: &mut [u8], end: usize, n: u64)
    requires { (9 ≤ end) × (end ≤ length bytes.old) }
    ensures { drop (end - 9) bytes.new ≡ padded 9 n ++ drop end bytes.old }
{
    let mut m = n;
    for i in 0..9 {
        bytes[end - 1 - i] = 48 + (m % 10) as u8;
        m /= 10;
    }
}

// Puts the digits of a number before a place that has room for them, and tells where they begin.
#[tactic(auto, using(crate::proofs::Decimals::last_end))]
fn fill_last(bytes: &mut [u8], end: usize, n: u64) -> usize
    requires { (1 ≤ end) × (end ≤ length bytes.old) × (n < 10 ^ end) }
    ensures { (drop result bytes.new ≡ decimal_of n ++ drop end bytes.old) × (result < end) }
{
    let mut i = end - 1;
    let mut m = n;
    // a while: that a digit is the first is known when it is divided off
    while 10 <= m {
        bytes[i] = 48 + (m % 10) as u8;
        m /= 10;
        i -= 1;
    }
    bytes[i] = 48 + m as u8;
    i
}

// The decimal of a number of two halves, filled in from the last digit on. If `keep` is false only where it begins is told.
fn digits_of(lo: u64, hi: u64, keep: bool) -> Digits
    ensures { (keep ≡ true → drop result.start result.bytes ≡ decimal_of (lo + 2 ^ 64 * hi)) × (45 - result.start ≡ length (decimal_of (lo + 2 ^ 64 * hi))) × (result.start < 45) × (length result.bytes ≡ 45) }
{
    let mut bytes = [48u8; 45];
    let mut end: usize = 45;
    let mut l = lo;
    let mut h = hi;
    // a while: the same of the first nine digits
    while !is_short(l, h) {
        let q = divide(l, h);
        if keep {
            fill(&mut bytes, end, q.rest);
        }
        l = q.lo;
        h = q.hi;
        end -= 9;
    }
    let start = fill_last(&mut bytes, end, l);
    Digits { bytes, start }
}

// Whether a text has a quotation mark. Every byte is looked at: a loop with no other way out is compiled to look at many at once.
fn has_quote(text: &[u8]) -> bool
    ensures { result ≡ any is_quote text.now }
{
    let mut found = false;
    for b in text {
        if *b == b'"' {
            found = true;
        }
    }
    found
}

impl Out {
    // Nothing was sent yet.
    pub fn new() -> Self
        ensures { result.len ≡ 0 }
    {
        Self { len: 0 }
    }

    // Sends bytes. A text that has room is copied whole, so for a fixed word the number of bytes is known when it is compiled.
    pub fn bytes(self, buf: &mut [u8], text: &[u8]) -> Self
        ensures { output buf.new result.len ≡ emits (output buf.old self.len) text.now }
    {
        let at = self.len;
        let left = room(buf.len(), at);
        if text.len() <= left {
            copy(buf, at, text, text.len());
            return Self {
                len: at + text.len(),
            };
        }
        copy(buf, at, text, left);
        Self {
            len: sum(at, text.len()),
        }
    }

    // Counts n bytes of which none is stored.
    pub fn counted(self, n: usize) -> Self
        ensures { result.len ≡ min (self.len + n) most }
    {
        Self {
            len: sum(self.len, n),
        }
    }

    // Sends a byte.
    #[tactic(auto, unfolding(crate::specs::Emit::emit))]
    pub fn byte(self, buf: &mut [u8], b: u8) -> Self
        ensures { output buf.new result.len ≡ emit (output buf.old self.len) b }
    {
        let at = self.len;
        if at < buf.len() {
            buf[at] = b;
            return Self { len: at + 1 };
        }
        Self { len: sum(at, 1) }
    }

    // Sends the decimal of a number of two halves, the low one first.
    #[tactic(auto, using(crate::proofs::Sent::sent_out))]
    pub fn decimal(self, buf: &mut [u8], lo: u64, hi: u64) -> Self
        ensures { output buf.new result.len ≡ emits (output buf.old self.len) (decimal_of (lo + 2 ^ 64 * hi)) }
    {
        let keep = self.len < buf.len();
        let Digits { bytes, start } = digits_of(lo, hi, keep);
        if !keep {
            return self.counted(45 - start);
        }
        self.bytes(buf, &bytes[start..])
    }

    // Sends the decimal of a number.
    pub fn number(self, buf: &mut [u8], n: u64) -> Self
        ensures { output buf.new result.len ≡ emits (output buf.old self.len) (decimal_of n) }
    {
        self.decimal(buf, n, 0)
    }

    // Sends a byte of a string: a quotation mark twice.
    #[tactic(auto, unfolding(crate::specs::Emit::emits))]
    fn string_byte(self, buf: &mut [u8], b: u8) -> Self
        ensures { output buf.new result.len ≡ emits (output buf.old self.len) (doubled_of (b ∷ [])) }
    {
        let sent = self.byte(buf, b);
        if b == b'"' {
            return sent.byte(buf, b);
        }
        sent
    }

    // Sends the bytes of a string, each quotation mark twice. Where there is none, they are sent at once.
    #[tactic(auto, using(crate::proofs::Quotes::sent_plain))]
    fn doubled(self, buf: &mut [u8], text: &[u8]) -> Self
        ensures { output buf.new result.len ≡ emits (output buf.old self.len) (doubled_of text.now) }
    {
        if !has_quote(text) {
            return self.bytes(buf, text);
        }
        let mut sent = self;
        for b in text {
            sent = sent.string_byte(buf, *b);
        }
        sent
    }

    // Sends a string.
    #[tactic(auto, using(crate::proofs::Sent::emits_append), unfolding(crate::specs::Emit::emits, smt_text::specs::Text::write_string))]
    pub fn string(self, buf: &mut [u8], text: &[u8]) -> Self
        ensures { output buf.new result.len ≡ emits (output buf.old self.len) (write_string text.now) }
    {
        let opened = self.byte(buf, b'"');
        let sent = opened.doubled(buf, text);
        sent.byte(buf, b'"')
    }

    // Sends name i of a theory function; nothing if there is none.
    #[tactic(auto, using(crate::proofs::Listing::inside, crate::proofs::Listing::unlisted))]
    fn listed(self, buf: &mut [u8], i: usize) -> Self
        ensures { output buf.new result.len ≡ emits (output buf.old self.len) (name_at i) }
    {
        if 55 <= i {
            return self;
        }
        let start = place(i);
        let end = start + length_of(i);
        self.bytes(buf, &NAMES[start..end])
    }

    // Sends a name with its index.
    #[tactic(auto, using(crate::proofs::Sent::emits_append), unfolding(crate::specs::Emit::emits))]
    fn indexed(self, buf: &mut [u8], i: usize, n: u64) -> Self
        ensures { output buf.new result.len ≡ emits (output buf.old self.len) (indexed_text i n) }
    {
        let opened = self.bytes(buf, b"(_ ");
        let named = opened.listed(buf, i);
        let spaced = named.byte(buf, b' ');
        let numbered = spaced.number(buf, n);
        numbered.byte(buf, b')')
    }

    // Sends a theory function.
    pub fn write_thy_func(self, buf: &mut [u8], edition: Edition, func: ThyFunc) -> Self
        ensures { output buf.new result.len ≡ emits (output buf.old self.len) (write_thy_func (names_of edition) func) }
    {
        match entry_of(func) {
            Entry::Plain(i) => self.listed(buf, in_edition(edition, i)),
            Entry::Indexed(i, n) => self.indexed(buf, i, n),
        }
    }
}

fn place(i: usize) -> usize
    requires { i < 55 }
    ensures { result ≡ place_of i }
{
    usize::from(PLACES[i])
}

fn length_of(i: usize) -> usize
    requires { i < 55 }
    ensures { result ≡ length_of i }
{
    usize::from(LENGTHS[i])
}

// How far behind the names of Z3 those of an edition stand.
fn behind(edition: Edition) -> usize
    ensures { (result ≡ behind_of edition) × (result ≤ 10) }
{
    match edition {
        Edition::Z3 => 0,
        Edition::Cvc5 => 10,
    }
}

// Where the name of number i stands in an edition: 38 to 44 are the set functions.
#[tactic(auto, unfolding(crate::specs::Names::in_edition))]
fn in_edition(edition: Edition, i: usize) -> usize
    ensures { result ≡ in_edition edition i }
{
    match i {
        38..=44 => i + behind(edition),
        _ => i,
    }
}

// The entry of a theory function.
fn entry_of(func: ThyFunc) -> Entry
    ensures { result ≡ entry_of func }
{
    match func {
        ThyFunc::StrLen => Entry::Plain(0),
        ThyFunc::StrConcat => Entry::Plain(1),
        ThyFunc::StrPrefixOf => Entry::Plain(2),
        ThyFunc::StrSuffixOf => Entry::Plain(3),
        ThyFunc::StrContains => Entry::Plain(4),
        ThyFunc::BvZeroExtend(n) => Entry::Indexed(5, u64::from(n)),
        ThyFunc::BvSignExtend(n) => Entry::Indexed(6, u64::from(n)),
        ThyFunc::IntToBv8 => Entry::Indexed(7, 8),
        ThyFunc::Bv8ToInt => Entry::Plain(8),
        ThyFunc::IntToBv32 => Entry::Indexed(9, 32),
        ThyFunc::Bv32ToInt => Entry::Plain(10),
        ThyFunc::IntToBv64 => Entry::Indexed(11, 64),
        ThyFunc::Bv64ToInt => Entry::Plain(12),
        ThyFunc::IntToBv128 => Entry::Indexed(13, 128),
        ThyFunc::Bv128ToInt => Entry::Plain(14),
        ThyFunc::BvUle => Entry::Plain(15),
        ThyFunc::BvSle => Entry::Plain(16),
        ThyFunc::BvUge => Entry::Plain(17),
        ThyFunc::BvSge => Entry::Plain(18),
        ThyFunc::BvUdiv => Entry::Plain(19),
        ThyFunc::BvSdiv => Entry::Plain(20),
        ThyFunc::BvSrem => Entry::Plain(21),
        ThyFunc::BvUrem => Entry::Plain(22),
        ThyFunc::BvLshr => Entry::Plain(23),
        ThyFunc::BvAshr => Entry::Plain(24),
        ThyFunc::BvAnd => Entry::Plain(25),
        ThyFunc::BvOr => Entry::Plain(26),
        ThyFunc::BvXor => Entry::Plain(27),
        ThyFunc::BvNot => Entry::Plain(28),
        ThyFunc::BvAdd => Entry::Plain(29),
        ThyFunc::BvNeg => Entry::Plain(30),
        ThyFunc::BvSub => Entry::Plain(31),
        ThyFunc::BvMul => Entry::Plain(32),
        ThyFunc::BvShl => Entry::Plain(33),
        ThyFunc::BvUgt => Entry::Plain(34),
        ThyFunc::BvSgt => Entry::Plain(35),
        ThyFunc::BvUlt => Entry::Plain(36),
        ThyFunc::BvSlt => Entry::Plain(37),
        ThyFunc::SetEmpty => Entry::Plain(38),
        ThyFunc::SetSng => Entry::Plain(39),
        ThyFunc::SetCup => Entry::Plain(40),
        ThyFunc::SetCap => Entry::Plain(41),
        ThyFunc::SetDif => Entry::Plain(42),
        ThyFunc::SetSub => Entry::Plain(43),
        ThyFunc::SetMem => Entry::Plain(44),
        ThyFunc::MapDefault => Entry::Plain(45),
        ThyFunc::MapSelect => Entry::Plain(46),
        ThyFunc::MapStore => Entry::Plain(47),
    }
}
