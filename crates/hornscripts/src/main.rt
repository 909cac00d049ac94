// Reads task files from standard input, each behind its length in 4 bytes, and writes for each a line of what survey answers and then what
// `hornscript` writes. It reads at most 4,096 files of at most 65,535 bytes.
#![tactic(auto)]

ghost use Rattle.std.specs.Prelude.{◌≡◌, ◌≤◌, Some, length};

use smt_horn::Sizes;
use smt_text::Edition;

// Standard output.
const STDOUT_FILENO: i32 = 1;

fn main() {
    let mut buffer = io::large_buffer();
    for number in 0..4096 {
        let Some(file) = next_file(&mut buffer) else {
            return;
        };
        print_file(number, file);
    }
}

// The next file, put into the buffer, if there is one.
fn next_file(buffer: &mut [u8]) -> Option<&[u8]>
    ensures { (file : _) → result ≡ Some file → length file.now ≤ 65535 }
{
    let mut head = [0u8; 4];
    if io::read_full(0, &mut head) < 4 {
        return None;
    }
    let size = u32::from_le_bytes(head) as usize;
    if 65535 < size {
        return None;
    }
    let file = buffer.get_mut(..size)?;
    if io::read_full(0, file) < size {
        return None;
    }
    Some(file)
}

// The line of survey's answer, then the script or the refusal.
fn print_file(number: u64, file: &[u8]) {
    io::write_all(STDOUT_FILENO, b"file ");
    print_counted(number, b": ");
    match smt_horn::survey(file, Edition::Z3) {
        Ok(sizes) => print_sizes(sizes),
        Err(refusal) => {
            let _ = console::print_refusal(refusal);
        }
    }
    let _ = console::print_script(file);
}

fn print_sizes(sizes: Sizes) {
    print_counted(sizes.parts as u64, b" parts, ");
    print_counted(sizes.assertions as u64, b" assertions, ");
    print_counted(sizes.len as u64, b" bytes, longest ");
    print_counted(sizes.longest as u64, b"\n");
}

// A number and what stands behind it.
fn print_counted(n: u64, what: &[u8]) {
    io::print_decimal(STDOUT_FILENO, n);
    io::write_all(STDOUT_FILENO, what);
}
