// The words of SMT-LIB 2.6: whether bytes are a simple symbol. What a reading of a script is, and the theorems about readings, stand in
// specs/ and proofs/.
#![tactic(auto)]

ghost use Rattle.std.specs.Prelude.{◌≡◌};
ghost use Rattle.smtlib.specs.Lexicon.{all, same, symbol_byte, is_simple, is_reserved, is_symbol};
ghost use Rattle.smtlib.specs.Table.{in_row};

// The bytes of symbols below 128, each at its own place, and a space at every other place.
static SYMBOL_PLACES: [u8; 128] =
    *b"                                 !  $%&   *+ -./0123456789  <=>?@ABCDEFGHIJKLMNOPQRSTUVWXYZ   ^_ abcdefghijklmnopqrstuvwxyz   ~ ";

// Whether bytes are a simple symbol and no reserved word: the names that document 01's refusal 4 lets through.
pub fn is_symbol(word: &[u8]) -> bool
    ensures { result ≡ is_symbol word.now }
{
    is_simple(word) && !is_reserved(word)
}

// Whether two slices hold the same bytes.
#[tactic(auto, using(crate::proofs::Words::same_lengths, crate::proofs::Words::prefix_same))]
pub fn same_bytes(a: &[u8], b: &[u8]) -> bool
    ensures { result ≡ same a.now b.now }
{
    a == b
}

// Whether bytes are a reserved word. Only the words of its length are compared.
fn is_reserved(word: &[u8]) -> bool
    ensures { result ≡ is_reserved word.now }
{
    match word.len() {
        1 => in_row(b"! _ ", word),
        2 => in_row(b"as ", word),
        3 => in_row(b"let par pop ", word),
        4 => in_row(b"echo exit push ", word),
        5 => in_row(b"match reset ", word),
        6 => in_row(b"exists forall BINARY STRING assert ", word),
        7 => in_row(b"DECIMAL NUMERAL ", word),
        8 => in_row(b"get-info set-info ", word),
        9 => in_row(b"check-sat get-model get-proof get-value set-logic ", word),
        10 => in_row(b"define-fun get-option set-option ", word),
        11 => in_row(b"HEXADECIMAL declare-fun define-sort ", word),
        12 => in_row(b"declare-sort ", word),
        13 => in_row(b"declare-const ", word),
        14 => in_row(
            b"define-fun-rec get-assertions get-assignment get-unsat-core ",
            word,
        ),
        15 => in_row(b"define-funs-rec ", word),
        16 => in_row(b"declare-datatype reset-assertions ", word),
        17 => in_row(b"declare-datatypes ", word),
        18 => in_row(b"check-sat-assuming ", word),
        21 => in_row(b"get-unsat-assumptions ", word),
        _ => false,
    }
}

// Whether word is one of the words of a row, which are as long as it is and have one byte behind each.
fn in_row(row: &[u8], word: &[u8]) -> bool
    ensures { result ≡ in_row word.now row.now }
{
    row.chunks_exact(word.len() + 1)
        .any(|piece| matches!(piece, [own @ .., _] if word == own))
}

// Whether bytes are symbol bytes of which the first is no digit.
fn is_simple(word: &[u8]) -> bool
    ensures { result ≡ is_simple word.now }
{
    match word {
        [] => false,
        [first, ..] => !first.is_ascii_digit() && all_symbol_bytes(word),
    }
}

fn all_symbol_bytes(word: &[u8]) -> bool
    ensures { result ≡ all symbol_byte word.now }
{
    word.iter().all(|b| is_symbol_byte(*b))
}

fn is_symbol_byte(b: u8) -> bool
    ensures { result ≡ symbol_byte b }
{
    b < 128 && SYMBOL_PLACES[b as usize] != b' '
}
