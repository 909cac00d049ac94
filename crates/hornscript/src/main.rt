// Reads a task file from standard input and writes its script to standard output, or one line `refused N`. A file is read up to 65,536 bytes:
// more than 60,000 are refused.
#![tactic(auto)]

fn main() {
    let mut input = io::large_buffer();
    let n = io::read_full(0, &mut input);
    let _ = console::print_script(&input[..n]);
}
