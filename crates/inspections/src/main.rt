// Inspects the files of standard input, each behind its length in 4 bytes, and writes a line for each: its sections and numbers, or the
// number of its refusal. It reads at most 4,096 files of at most 65,535 bytes.
#![tactic(auto)]

ghost use Rattle.std.specs.Prelude.{◌≡◌, ◌≤◌, Some, length};

use trailer::Bounds;

// Standard output.
const STDOUT_FILENO: i32 = 1;

fn main() {
    let mut buffer = io::large_buffer();
    for _ in 0..4096 {
        let Some(file) = next_file(&mut buffer) else {
            return;
        };
        inspect_file(file);
    }
}

// The next file, put into the buffer, if there is one.
fn next_file(buffer: &mut [u8]) -> Option<&[u8]>
    ensures { (file : _) → result ≡ Some file → length file.now ≤ 65535 }
{
    let mut head = [0u8; 4];
    if io::read_full(0, &mut head) < 4 {
        return None;
    }
    let size = u32::from_le_bytes(head) as usize;
    if 65535 < size {
        return None;
    }
    let file = buffer.get_mut(..size)?;
    if io::read_full(0, file) < size {
        return None;
    }
    Some(file)
}

// The line of a file.
fn inspect_file(file: &[u8]) {
    let mut table = [0u16; 61026];
    match inspect::inspect(file, &mut table) {
        Ok(found) => {
            print_bounds(found.bounds);
            io::write_all(STDOUT_FILENO, b" declarations ");
            io::print_decimal(STDOUT_FILENO, found.declarations);
            io::write_all(STDOUT_FILENO, b" heads ");
            io::print_decimal(STDOUT_FILENO, found.heads);
        }
        Err(refusal) => {
            io::write_all(STDOUT_FILENO, b"refused ");
            io::print_decimal(STDOUT_FILENO, u8::from(refusal).into());
        }
    }
    io::write_all(STDOUT_FILENO, b"\n");
}

fn print_bounds(b: Bounds) {
    io::write_all(STDOUT_FILENO, b"task");
    for start in [
        b.comments,
        b.datatypes,
        b.constants,
        b.functions,
        b.kvars,
        b.constraint,
    ] {
        print_number(start);
    }
    io::write_all(STDOUT_FILENO, b" end");
    print_number(b.end);
}

fn print_number(n: usize) {
    io::write_all(STDOUT_FILENO, b" ");
    io::print_decimal(STDOUT_FILENO, n as u64);
}
