// Tries smtlib::is_symbol on the words of standard input, a line each: a word, the word with one byte more, with one byte less and in
// the other case. Then on the empty word, on words of 255 bytes and on each single byte. Writes what it found. It reads at most 4,096
// bytes, and passes over words of more than 63.
#![tactic(auto)]

ghost use Rattle.std.specs.Prelude.{◌≡◌, ◌<◌, length};

// Standard output.
const STDOUT_FILENO: i32 = 1;

fn main() {
    let mut input = io::buffer();
    let n = io::read_full(0, &mut input);
    try_lines(&input[..n]);
    try_empty();
    try_long();
    try_single_bytes();
}

// The lines that end in a line feed.
fn try_lines(text: &[u8]) {
    for line in text.split_inclusive(|b| *b == b'\n') {
        if let Some(word) = line.strip_suffix(b"\n") {
            try_word(word);
        }
    }
}

// One line: the word and its four answers.
fn try_word(word: &[u8]) {
    let n = word.len();
    if n == 0 || 63 < n {
        return;
    }
    io::write_all(STDOUT_FILENO, word);
    answer(smtlib::is_symbol(word));
    let mut copy = copied(word);
    answer(smtlib::is_symbol(&copy[..n + 1]));
    answer(smtlib::is_symbol(&word[..n - 1]));
    flip(&mut copy);
    answer(smtlib::is_symbol(&copy[..n]));
    io::write_all(STDOUT_FILENO, b"\n");
}

// The word, and an `s` at each place behind it.
fn copied(word: &[u8]) -> [u8; 64]
    requires { length word.now < 64 }
    ensures { length result ≡ 64 }
{
    let mut copy = [b's'; 64];
    copy[..word.len()].copy_from_slice(word);
    copy
}

// Puts each letter in the other case.
fn flip(text: &mut [u8]) {
    for b in text.iter_mut() {
        *b = flipped(*b);
    }
}

fn flipped(b: u8) -> u8 {
    match b {
        b'A'..=b'Z' => b + 32,
        b'a'..=b'z' => b - 32,
        _ => b,
    }
}

fn answer(yes: bool) {
    let text: &[u8] = if yes { b" yes" } else { b" no" };
    io::write_all(STDOUT_FILENO, text);
}

fn try_empty() {
    io::write_all(STDOUT_FILENO, b"(no byte)");
    answer(smtlib::is_symbol(b""));
    io::write_all(STDOUT_FILENO, b"\n");
}

// 255 letters; and the same with a parenthesis at the end, and at the start.
fn try_long() {
    let mut word = [b'a'; 255];
    io::write_all(STDOUT_FILENO, b"(255 bytes)");
    answer(smtlib::is_symbol(&word));
    word[254] = b'(';
    answer(smtlib::is_symbol(&word));
    word[254] = b'a';
    word[0] = b'(';
    answer(smtlib::is_symbol(&word));
    io::write_all(STDOUT_FILENO, b"\n");
}

fn try_single_bytes() {
    let found = single_symbols();
    io::write_all(STDOUT_FILENO, b" ");
    io::print_decimal(STDOUT_FILENO, found);
    io::write_all(STDOUT_FILENO, b"\n");
}

// Writes those of the 256 bytes that are a symbol alone, and counts them.
fn single_symbols() -> u64 {
    let mut found: u64 = 0;
    for b in 0..=u8::MAX {
        let word = [b];
        if smtlib::is_symbol(&word) {
            io::write_all(STDOUT_FILENO, &word);
            found += 1;
        }
    }
    found
}
