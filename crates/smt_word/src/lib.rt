// Writers of what is one word or a few: they send it and end at the position that they are given.
#![tactic(auto)]

ghost use Rattle.std.specs.Prelude.{◌≡◌, ◌∷◌, ◌+◌, ◌*◌, ◌^◌};
ghost use Rattle.smtlib.specs.Compose.{decimal};
ghost use Rattle.task.specs.Ast.{Constant};
ghost use Rattle.smt_text.specs.Text.{write_name, write_string as string_text, write_parameter as parameter_text, write_constant, write_boolean as boolean_text, write_quantifier};
ghost use Rattle.output.specs.Emit.{output, emits};
ghost use Rattle.smt_word.specs.Row.{Calls};

use output::Out;
use task::Quantifier;

// Where a writer ended, and the output then.
#[derive(Clone, Copy)]
pub struct Sent {
    pub at: usize,
    pub out: Out,
}

// Sends a word.
pub fn write_word(word: &[u8], p: usize, buf: &mut [u8], out: Out) -> Sent
    ensures { (result.at ≡ p) × (output buf.new result.out.len ≡ emits (output buf.old out.len) word.now) }
{
    let sent = out.bytes(buf, word);
    Sent { at: p, out: sent }
}

// Sends a number.
pub fn write_number(n: u64, p: usize, buf: &mut [u8], out: Out) -> Sent
    ensures { (result.at ≡ p) × (output buf.new result.out.len ≡ emits (output buf.old out.len) (decimal n)) }
{
    let sent = out.number(buf, n);
    Sent { at: p, out: sent }
}

// Sends parameter i of a datatype.
#[tactic(auto, unfolding(output::specs::Emit::emits))]
pub fn write_parameter(i: u64, p: usize, buf: &mut [u8], out: Out) -> Sent
    ensures { (result.at ≡ p) × (output buf.new result.out.len ≡ emits (output buf.old out.len) (parameter_text i)) }
{
    let opened = out.byte(buf, b'T');
    let sent = opened.number(buf, i);
    Sent { at: p, out: sent }
}

// Sends a number of two halves.
pub fn write_numeral(lo: u64, hi: u64, p: usize, buf: &mut [u8], out: Out) -> Sent
    ensures { (result.at ≡ p) × (output buf.new result.out.len ≡ emits (output buf.old out.len) (decimal (lo + 2 ^ 64 * hi))) }
{
    let sent = out.decimal(buf, lo, hi);
    Sent { at: p, out: sent }
}

// Sends a Boolean.
pub fn write_boolean(b: bool, p: usize, buf: &mut [u8], out: Out) -> Sent
    ensures { (result.at ≡ p) × (output buf.new result.out.len ≡ emits (output buf.old out.len) (boolean_text b)) }
{
    if b {
        return write_word(b"true", p, buf, out);
    }
    write_word(b"false", p, buf, out)
}

// Sends a string.
pub fn write_string(x: &[u8], p: usize, buf: &mut [u8], out: Out) -> Sent
    ensures { (result.at ≡ p) × (output buf.new result.out.len ≡ emits (output buf.old out.len) (string_text x.now)) }
{
    let sent = out.string(buf, x);
    Sent { at: p, out: sent }
}

// Sends a value of a BitVec with its width.
#[tactic(auto, using(output::proofs::Sent::emits_append), unfolding(output::specs::Emit::emits))]
pub fn write_bit_vec(lo: u64, hi: u64, width: u64, p: usize, buf: &mut [u8], out: Out) -> Sent
    ensures { (result.at ≡ p) × (output buf.new result.out.len ≡ emits (output buf.old out.len) (write_constant (Constant.bit_vec (lo + 2 ^ 64 * hi) width))) }
{
    let opened = out.bytes(buf, b"(_ bv");
    let valued = opened.decimal(buf, lo, hi);
    let spaced = valued.byte(buf, b' ');
    let sized = spaced.number(buf, width);
    let closed = sized.byte(buf, b')');
    Sent { at: p, out: closed }
}

// Sends a name.
#[tactic(auto, unfolding(smt_text::specs::Text::write_name))]
pub fn write_var(x: &[u8], p: usize, buf: &mut [u8], out: Out) -> Sent
    ensures { (result.at ≡ p) × (output buf.new result.out.len ≡ emits (output buf.old out.len) (write_name x.now)) }
{
    let sent = out.bytes(buf, x);
    Sent { at: p, out: sent }
}

// Sends which quantifier it is, behind the parenthesis.
pub fn open_quantifier(q: Quantifier, buf: &mut [u8], out: Out) -> Out
    ensures { output buf.new result.len ≡ emits (output buf.old out.len) (40 ∷ write_quantifier q) }
{
    match q {
        Quantifier::Exists => out.bytes(buf, b"(exists"),
        Quantifier::Forall => out.bytes(buf, b"(forall"),
    }
}

// Sends n pieces in a row, a space before each, each by the call at its position.
pub fn write_row<F: Fn(usize, &mut [u8], Out) -> Sent>(
    at: usize,
    n: u64,
    buf: &mut [u8],
    out: Out,
    write: F,
) -> Sent
    requires { F.IsAlwaysCallable write }
    ensures { Calls (F.post write) n at (output buf.old out.len) result.at (output buf.new result.out.len) }
{
    let mut p = at;
    let mut sent = out;
    for _ in 0..n {
        let spaced = sent.byte(buf, b' ');
        let one = write(p, buf, spaced);
        p = one.at;
        sent = one.out;
    }
    Sent { at: p, out: sent }
}
