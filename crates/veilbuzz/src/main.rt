// The program: a chart on standard input, its report on standard output, its ending on a descriptor of its own (rules 13.1 to 13.3). Every input
// has a text and an ending; where not all of the text could be written, the ending tells so. The status itself is set by what starts the program
// (tests/ended).
#![tactic(auto)]

ghost use Rattle.std.specs.Prelude.{◌≤◌, length};

use std::fs::OpenOptions;
use std::io::{Read, Write};
use std::os::unix::fs::PermissionsExt;
use std::rt::Files;
use std::{fs, io};

// The program's status is always 0; what starts it reads the ending here, on descriptor 9 (tests/ended). Where that is closed, nothing is told: so
// whoever starts the program in another way keeps it closed. A program reaches a descriptor that was left open to it by this name alone.
const ENDING: &str = "/proc/self/fd/9";

// The bit of a descriptor's permissions that says that it is open for writing.
const WRITES: u32 = 0o200;

// Reads until the buffer is full, the input ends or a read fails, and returns how many bytes it put at the start of the buffer.
fn read_full<R: Read>(input: &mut R, buffer: &mut [u8]) -> usize
    ensures { result ≤ length buffer.new }
{
    let mut done = 0;
    while done < buffer.len() {
        match input.read(&mut buffer[done..]) {
            Ok(0) => return done,
            Ok(taken) => done += taken,
            Err(_) => return done,
        }
    }
    done
}

// Tells a number on the descriptor for the ending, if that is open for writing.
fn tell(files: &impl Files, ending: u64) -> io::Result<()> {
    let open = fs::symlink_metadata(files, ENDING)?;
    if open.permissions().mode() & WRITES == 0 {
        return Ok(());
    }
    // For reading too: so opening a pipe waits for no reader.
    let mut told = OpenOptions::new()
        .read(true)
        .append(true)
        .open(files, ENDING)?;
    write!(told, "{ending}")
}

// Reads standard input, up to one byte more than a chart can have, writes the report of these bytes, and tells how that went.
fn main(rt: HostRuntime) {
    let mut input = [0u8; report::TAKEN];
    let taken = read_full(&mut rt.stdin(), &mut input);
    let text = report::report(&input[..taken]);
    let bytes = text.bytes;
    let size = text.size;
    let whole = rt.write_all(&bytes[..size]).is_ok();
    let _ = tell(&rt, report::ending(text.refused, whole));
}
