// Replays recorded task files, for the programs `replay` and `replay_long`. Each argument is the name of one: NAME.task has its bytes,
// NAME.answer what the calls have to answer for it in the edition of Z3 and then in that of cvc5. Writes a line for each, `NAME: as recorded`,
// or `NAME: differs` and then what was answered.
//
// An answer is `refused N`, or survey's four numbers with two checksums: of the parts joined, and of the places where they end. It is only
// given if `part`, `script` and `run` agree with it: the script is the parts joined, a buffer one byte short is refused with 9, part P with 8,
// bytes behind a text and all bytes at a refusal are unchanged; all parts in one run and in two have these bytes and, by the table of lengths,
// these ends.
#![tactic(auto)]

ghost use Rattle.std.specs.Prelude.{◌≡◌, ◌<◌, length};
ghost use Rattle.io.specs.Counts.{IsPrefixLen};
ghost use Rattle.replaying.specs.declared.TheConstants.{MODULUS};

use output::Out;
use smt_horn::Sizes;
use smt_text::Edition;
use std::env::FillError;
use std::fs;
use std::fs::File;
use std::io::Read;
use std::rt::Env;
use task::Refusal;

// Standard output.
const STDOUT_FILENO: i32 = 1;

// What every byte of a buffer is before a call.
const FILLED: u8 = 0xa5;

// What every place of a table of lengths is before a call.
const MARKED: u32 = 0xaaaa_aaaa;

// Checksums are taken modulo this prime number.
const MODULUS: u64 = 36028797018963913;

// The checksum of bytes.
#[derive(Clone, Copy, PartialEq, Eq)]
struct Checksum {
    value: u64,
    ghost below: { value < MODULUS },
}

// Of the parts so far: the checksums of their bytes and of their ends, their length, and whether every call answered as it has to.
#[derive(Clone, Copy, PartialEq, Eq)]
struct Joined {
    bytes: Checksum,
    ends: Checksum,
    len: usize,
    good: bool,
}

impl Checksum {
    // That of no bytes.
    fn new() -> Checksum {
        Checksum { value: 1 }
    }

    // With one byte more.
    fn with_byte(self, b: u8) -> Checksum {
        Checksum {
            value: (self.value * 257 + u64::from(b)) % MODULUS,
        }
    }

    // With bytes more.
    fn with_bytes(self, bytes: &[u8]) -> Checksum {
        let mut checksum = self;
        for b in bytes {
            checksum = checksum.with_byte(*b);
        }
        checksum
    }

    // With the 8 bytes of a number more, the lowest first.
    fn with_number(self, n: usize) -> Checksum {
        self.with_bytes(&n.to_le_bytes())
    }

    // With the ends more of parts that begin at a place and have these lengths.
    fn with_ends(self, start: usize, lengths: &[u32]) -> Checksum {
        let mut checksum = self;
        let mut end = start;
        for len in lengths {
            end = end.saturating_add(*len as usize);
            checksum = checksum.with_number(end);
        }
        checksum
    }
}

impl Joined {
    // No parts yet.
    fn new(good: bool) -> Joined {
        Joined {
            bytes: Checksum::new(),
            ends: Checksum::new(),
            len: 0,
            good,
        }
    }
}

// 1,048,576 bytes that are filled: the buffer of every call.
fn filled_buffer() -> [u8; 1048576]
    ensures { 1048576 ≡ length result }
{
    [FILLED; 1048576]
}

// Replays the file of each argument of the program. No contract can speak of what it writes.
pub fn replay_all(rt: &HostRuntime) {
    let mut buf = filled_buffer();
    for i in 1..usize::MAX {
        if !replay(rt, i, &mut buf) {
            return;
        }
    }
}

// Replays the file that an argument names, if there is one. A name of more than 4,096 bytes counts as empty.
fn replay(rt: &HostRuntime, i: usize, buf: &mut [u8]) -> bool {
    let mut name = io::buffer();
    let n = match rt.arg(i, &mut name) {
        Ok(n) => n,
        Err(FillError::TooLong) => 0,
        Err(FillError::NotPresent) => return false,
    };
    replay_named(rt, &name[..n], buf);
    true
}

fn replay_named(rt: &HostRuntime, name: &[u8], buf: &mut [u8]) {
    let mut file = io::large_buffer();
    let n = read_file(rt, name, b".task", &mut file);
    let mut recorded = io::buffer();
    let m = read_file(rt, name, b".answer", &mut recorded);
    io::write_all(STDOUT_FILENO, name);
    print_outcome(&file[..n], &recorded[..m], buf);
}

// Reads the file of that name and ending as far as there is room; none of it where it cannot be opened or its name is not UTF-8.
fn read_file(rt: &HostRuntime, name: &[u8], ending: &[u8], buf: &mut [u8]) -> usize
    ensures { IsPrefixLen result buf.new }
{
    let mut path = io::buffer();
    let sent = Out::new().bytes(&mut path, name).bytes(&mut path, ending);
    let n = sent.len.min(4096);
    let Ok(text) = std::str::from_utf8(&path[..n]) else {
        return 0;
    };
    match fs::open(rt, text) {
        Ok(mut file) => read_full(&mut file, buf),
        Err(_) => 0,
    }
}

// Reads until the buffer is full, the file ends or a read fails, and answers how many bytes it put at the buffer's start.
fn read_full(file: &mut File, buf: &mut [u8]) -> usize
    ensures { IsPrefixLen result buf.new }
{
    let mut done: usize = 0;
    // a while: how many bytes a read gives is known when it has read
    while done < buf.len() {
        match file.read(&mut buf[done..]) {
            Ok(0) => return done,
            Ok(n) => done += n,
            Err(_) => return done,
        }
    }
    done
}

// Compares what is answered with what was recorded.
fn print_outcome(file: &[u8], recorded: &[u8], buf: &mut [u8]) {
    let mut text = io::buffer();
    let first = answer(Out::new(), file, Edition::Z3, buf, &mut text);
    let out = answer(first, file, Edition::Cvc5, buf, &mut text);
    let answered = &text[..out.len.min(4096)];
    if answered == recorded {
        io::write_all(STDOUT_FILENO, b": as recorded\n");
        return;
    }
    io::write_all(STDOUT_FILENO, b": differs\n");
    io::write_all(STDOUT_FILENO, answered);
}

// Sends the answer for a file in an edition.
fn answer(out: Out, file: &[u8], edition: Edition, buf: &mut [u8], text: &mut [u8]) -> Out {
    match smt_horn::survey(file, edition) {
        Ok(sizes) => {
            let joined = join_parts(file, edition, sizes, buf);
            let sent = send_sizes(out, text, sizes);
            send_joined(sent, text, file, edition, sizes, joined, buf)
        }
        Err(refusal) => send_refused(out, text, file, edition, refusal, buf),
    }
}

// Sends what survey answers.
fn send_sizes(out: Out, text: &mut [u8], sizes: Sizes) -> Out {
    let out1 = counted(out, text, sizes.parts, b" parts, ");
    let out2 = counted(out1, text, sizes.assertions, b" assertions, ");
    let out3 = counted(out2, text, sizes.len, b" bytes, longest ");
    counted(out3, text, sizes.longest, b"\n")
}

fn counted(out: Out, text: &mut [u8], n: usize, what: &[u8]) -> Out {
    out.number(text, n as u64).bytes(text, what)
}

// Sends the checksums if all calls agree.
fn send_joined(
    out: Out,
    text: &mut [u8],
    file: &[u8],
    edition: Edition,
    sizes: Sizes,
    joined: Joined,
    buf: &mut [u8],
) -> Out {
    if joined.len != sizes.len {
        return out.bytes(text, b"the parts have another length\n");
    }
    if !joined.good {
        return out.bytes(text, b"a part differs\n");
    }
    if !calls_agree(file, edition, sizes.parts, joined, buf) {
        return out.bytes(text, b"the script or a run differs\n");
    }
    out.bytes(text, b"script ")
        .number(text, joined.bytes.value)
        .bytes(text, b"\nends ")
        .number(text, joined.ends.value)
        .byte(text, b'\n')
}

// Sends a refusal if all calls agree.
fn send_refused(
    out: Out,
    text: &mut [u8],
    file: &[u8],
    edition: Edition,
    refusal: Refusal,
    buf: &mut [u8],
) -> Out {
    if !all_refuse(file, edition, refusal, buf) {
        return out.bytes(text, b"the calls refuse differently\n");
    }
    out.bytes(text, b"refused ")
        .number(text, u8::from(refusal).into())
        .byte(text, b'\n')
}

// Whether `part`, `run` and `script` refuse a file likewise and leave the buffer as it was.
fn all_refuse(file: &[u8], edition: Edition, refusal: Refusal, buf: &mut [u8]) -> bool {
    let refused = Err(refusal);
    let mut none = [0u32; 0];
    let run = smt_horn::run(file, edition, 0, 1, buf, &mut none) == refused;
    let first = smt_horn::part(file, edition, 0, buf) == refused;
    let last = smt_horn::part(file, edition, usize::MAX, buf) == refused;
    let whole = smt_horn::script(file, edition, buf) == refused;
    run && first && last && whole && is_filled(buf)
}

// Whether all bytes are filled.
fn is_filled(bytes: &[u8]) -> bool {
    bytes.iter().all(|b| *b == FILLED)
}

// Whether all places are marked.
fn is_marked(lengths: &[u32]) -> bool {
    lengths.iter().all(|len| *len == MARKED)
}

// All parts, one after another into the same buffer with 16 bytes behind the longest.
fn join_parts(file: &[u8], edition: Edition, sizes: Sizes, buf: &mut [u8]) -> Joined {
    let room = sizes.longest.saturating_add(16).min(buf.len());
    let parts = sizes.parts;
    let none = smt_horn::part(file, edition, parts, buf) == Err(Refusal::Part);
    let mut joined = Joined::new(none);
    for i in 0..parts {
        joined = join_part(file, edition, i, parts <= 300, &mut buf[..room], joined);
    }
    joined
}

// The next part; where `short` is said also into a buffer one byte short.
fn join_part(
    file: &[u8],
    edition: Edition,
    i: usize,
    short: bool,
    buf: &mut [u8],
    before: Joined,
) -> Joined {
    let Ok(n) = smt_horn::part(file, edition, i, buf) else {
        return Joined {
            good: false,
            ..before
        };
    };
    let (text, behind) = buf.split_at_mut(n.min(buf.len()));
    let bytes = before.bytes.with_bytes(text);
    let unchanged = is_filled(behind);
    text.fill(FILLED);
    let refused = !short || refuses_short(file, edition, i, n, buf);
    let end = before.len.saturating_add(n);
    Joined {
        bytes,
        ends: before.ends.with_number(end),
        len: end,
        good: before.good && unchanged && refused,
    }
}

// Whether a part of n bytes is refused with 9 if the buffer has room for one byte less.
fn refuses_short(file: &[u8], edition: Edition, i: usize, n: usize, buf: &mut [u8]) -> bool {
    if n == 0 {
        return false;
    }
    let room = (n - 1).min(buf.len());
    let refused = smt_horn::part(file, edition, i, &mut buf[..room]) == Err(Refusal::Room);
    refused && is_filled(buf)
}

// Whether `script` writes a text of that length and checksum, if the buffer has room for it, and refuses with 9 otherwise.
fn script_agrees(file: &[u8], edition: Edition, joined: Joined, buf: &mut [u8]) -> bool {
    let len = joined.len;
    if len == 0 {
        return false;
    }
    let room = (len - 1).min(buf.len());
    let refused = smt_horn::script(file, edition, &mut buf[..room]) == Err(Refusal::Room);
    if !is_filled(buf) {
        return false;
    }
    if buf.len() < len {
        return refused;
    }
    let exact = smt_horn::script(file, edition, &mut buf[..len]) == Ok(len)
        && Checksum::new().with_bytes(&buf[..len]) == joined.bytes;
    let fits = smt_horn::script(file, edition, buf) == Ok(len)
        && Checksum::new().with_bytes(&buf[..len]) == joined.bytes;
    let unchanged = is_filled(&buf[len..]);
    buf[..len].fill(FILLED);
    refused && exact && fits && unchanged
}

// Whether `script` and `run` agree with the parts one by one.
fn calls_agree(
    file: &[u8],
    edition: Edition,
    parts: usize,
    joined: Joined,
    buf: &mut [u8],
) -> bool {
    script_agrees(file, edition, joined, buf) && runs_agree(file, edition, parts, joined, buf)
}

// Whether runs do, with a table of lengths that has more places than there can be parts.
fn runs_agree(file: &[u8], edition: Edition, parts: usize, joined: Joined, buf: &mut [u8]) -> bool {
    let mut lengths = [MARKED; 65536];
    if !runs_refuse(file, edition, parts, buf, &mut lengths) {
        return false;
    }
    if buf.len() < joined.len {
        return smt_horn::run(file, edition, 0, parts, buf, &mut lengths) == Err(Refusal::Room);
    }
    runs_join(file, edition, parts, joined, buf, &mut lengths)
}

// All parts in one run, and in two.
fn runs_join(
    file: &[u8],
    edition: Edition,
    parts: usize,
    joined: Joined,
    buf: &mut [u8],
    lengths: &mut [u32],
) -> bool {
    let start = Joined::new(true);
    let whole = join_run(file, edition, 0, parts, buf, lengths, start);
    let half = parts / 2;
    let first = join_run(file, edition, 0, half, buf, lengths, start);
    let both = join_run(file, edition, half, parts - half, buf, lengths, first);
    joined.good && whole == joined && both == joined
}

// Whether runs past the last part are refused with 8, a table one place short is refused with 9, a run of zero parts has length 0, and all leave
// buffer and table as they were.
fn runs_refuse(
    file: &[u8],
    edition: Edition,
    parts: usize,
    buf: &mut [u8],
    lengths: &mut [u32],
) -> bool {
    smt_horn::run(file, edition, parts, 0, buf, lengths) == Ok(0)
        && refuses_few(file, edition, parts, buf, lengths)
        && smt_horn::run(file, edition, parts, 1, buf, lengths) == Err(Refusal::Part)
        && smt_horn::run(file, edition, usize::MAX, usize::MAX, buf, lengths) == Err(Refusal::Part)
        && is_filled(buf)
        && is_marked(lengths)
}

// Whether a run of all parts is refused with 9 if the table has one place less.
fn refuses_few(
    file: &[u8],
    edition: Edition,
    parts: usize,
    buf: &mut [u8],
    lengths: &mut [u32],
) -> bool {
    if parts == 0 {
        return false;
    }
    let places = (parts - 1).min(lengths.len());
    smt_horn::run(file, edition, 0, parts, buf, &mut lengths[..places]) == Err(Refusal::Room)
}

// The parts of a run, and what they come to behind those before them.
fn join_run(
    file: &[u8],
    edition: Edition,
    first: usize,
    count: usize,
    buf: &mut [u8],
    lengths: &mut [u32],
    before: Joined,
) -> Joined {
    let Ok(n) = smt_horn::run(file, edition, first, count, buf, lengths) else {
        return Joined {
            good: false,
            ..before
        };
    };
    let (text, behind) = buf.split_at_mut(n.min(buf.len()));
    let (told, others) = lengths.split_at_mut(count.min(lengths.len()));
    let joined = Joined {
        bytes: before.bytes.with_bytes(text),
        ends: before.ends.with_ends(before.len, told),
        len: before.len.saturating_add(n),
        good: before.good && is_filled(behind) && is_marked(others),
    };
    text.fill(FILLED);
    told.fill(MARKED);
    joined
}
