// Writes the pieces of standard input, each behind a byte for its kind, to which 128 is added for the edition of cvc5, the end of its datatype
// section in 2 bytes and its length in 2: for each the number of bytes that it is measured to have, a space, its text and a line feed. It reads at
// most 4,096 pieces.
#![tactic(auto)]

ghost use Rattle.std.specs.Prelude.{◌≤◌, length};
ghost use Rattle.names.specs.Table.{Chained};

use item_check::Section;
use names::Table;
use output::Out;
use smt_sort::Encoder;
use smt_text::Edition;
use smt_word::Sent;

// Standard output.
const STDOUT_FILENO: i32 = 1;

// A piece behind a datatype section.
#[derive(Clone, Copy)]
struct Piece<'a> {
    kind: u8,
    edition: Edition,
    end: usize,
    body: &'a [u8],
    ghost short: { length body.now ≤ 65535 },
}

fn main() {
    let mut buffer = io::large_buffer();
    for _ in 0..4096 {
        let Some(piece) = next_piece(&mut buffer) else {
            return;
        };
        print_piece(piece);
    }
}

// The next piece, if there is one. Its bytes are put into the buffer.
fn next_piece(buffer: &mut [u8]) -> Option<Piece> {
    let mut head = [0u8; 5];
    if io::read_full(0, &mut head) < 5 {
        return None;
    }
    let [kind, end0, end1, size0, size1] = head;
    let size = usize::from(u16::from_le_bytes([size0, size1]));
    let body = buffer.get_mut(..size)?;
    if io::read_full(0, body) < size {
        return None;
    }
    Some(Piece {
        kind: kind % 128,
        edition: edition_of(kind),
        end: u16::from_le_bytes([end0, end1]).into(),
        body,
    })
}

// The edition that is asked for with a kind.
fn edition_of(kind: u8) -> Edition {
    if kind < 128 {
        Edition::Z3
    } else {
        Edition::Cvc5
    }
}

// Measures a piece without a buffer, and writes it into one.
fn print_piece(piece: Piece) {
    let mut none = [0u8; 0];
    io::print_decimal(STDOUT_FILENO, write_piece(piece, &mut none) as u64);
    io::write_all(STDOUT_FILENO, b" ");
    let mut buffer = io::large_buffer();
    let len = write_piece(piece, &mut buffer);
    if let Some(text) = buffer.get(..len) {
        io::write_all(STDOUT_FILENO, text);
    }
    io::write_all(STDOUT_FILENO, b"\n");
}

// Writes a piece with a table of the names that the datatype section declares, and answers its length.
fn write_piece(piece: Piece, buf: &mut [u8]) -> usize {
    if piece.body.len() < piece.end {
        return 0;
    }
    let mut table = [0u16; 66562];
    let mut names = Table {
        file: piece.body,
        words: &mut table,
    };
    declared::push_section(&mut names, 0, piece.end, Section::Datatypes);
    smt_sort::set_edition(&mut table, piece.edition);
    let sent = write_encoded(piece, encoder(piece.body, &table), buf);
    sent.out.len
}

// A table as an encoder.
fn encoder<'a>(file: &'a [u8], words: &'a [u16]) -> Encoder<'a>
    requires { Chained file.now words.now }
{
    Encoder { file, words }
}

fn write_encoded(piece: Piece, enc: Encoder, buf: &mut [u8]) -> Sent {
    let out = Out::new();
    let at = piece.end;
    match piece.kind {
        0 => smt_sort::write_sort(enc, at, 256, buf, out),
        1 => smt_expr::write_expr(enc, at, 256, buf, out),
        2 => smt_fmt::write_pred(enc, at, 256, buf, out),
        3 => smt_fmt::write_datatype_decl(enc, at, buf, out),
        4 => smt_fmt::write_const_decl(enc, at, buf, out),
        5 => smt_fmt::write_fun_def(enc, at, buf, out),
        6 => smt_fmt::write_kvar_decl(enc, at, buf, out),
        7..=255 => Sent { at, out },
    }
}
