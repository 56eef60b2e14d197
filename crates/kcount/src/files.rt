// A file read whole, and bytes written to standard output. A call that a signal interrupts is made again.
ghost use Rattle.std.specs.Prelude.{◌≡◌, ◌<◌, ◌≤◌, length, take, IfSome, IsTrue, OnOk};
ghost use Rattle.std.specs.Io.KnownBytes.{Appends};

use std::alloc::Global;
use std::io::{ErrorKind, Read, Write};
use std::rt::Files;
use std::{fs, io};

// The most calls that are made to read one file, or to write the output: over a million more than either has bytes, so that many may be
// interrupted, and the program ends whatever the system answers to them.
// The loops stand here, since the library's `write_all` and its functions that read make up to 2^64 calls.
const CALLS: usize = 1100000;

// Reads until the list is full or the file ends, and answers how many bytes were read: 0 if a call fails or the calls run out. Of a file
// whose bytes are known these are all, or as many as the list has room for.
fn read_all<R: Read>(file: &mut R, text: &mut [u8]) -> usize
    ensures within { result ≤ length text.new }
    ensures whole { IfSome (R.remaining file.old) (λ bytes. 0 < result → take result text.new ≡ take (length text.new) bytes) }
{
    let mut done = 0;
    for _ in 0..CALLS {
        if done == text.len() {
            return done;
        }
        match file.read(&mut text[done..]) {
            Ok(0) => return done,
            Ok(count) => done += count,
            Err(e) => {
                if e.kind() != ErrorKind::Interrupted {
                    return 0;
                }
            }
        }
    }
    0
}

// Fills the list from a file, and answers how many bytes were read. A file that cannot be opened, or of which any read fails,
// counts as empty: its first part alone might be another text that is accepted.
pub(crate) fn read(files: &impl Files, path: &str, text: &mut [u8]) -> usize
    ensures { result ≤ length text.new }
{
    match fs::open(files, path) {
        Ok(mut file) => read_all(&mut file, text),
        Err(_) => 0,
    }
}

// Writes all the bytes, or answers the error of the call that failed, or of the last one if the calls run out.
fn write_all<W: Write>(out: &mut W, bytes: &[u8]) -> io::Result<()>
    ensures { OnOk result (Appends (W.contents out.old) (W.contents out.new) bytes.now) }
{
    let mut done = 0;
    for call in 0..CALLS {
        if done == bytes.len() {
            return Ok(());
        }
        match out.write(&bytes[done..]) {
            Ok(count) => done += count,
            Err(e) => {
                if e.kind() != ErrorKind::Interrupted || call == CALLS - 1 {
                    return Err(e);
                }
            }
        }
    }
    Err(io::Error::from(ErrorKind::WriteZero))
}

// One line on standard error says that the output was not written, and why: the system's reason, without the number that the library
// puts behind it.
fn tell<E: Eprint>(errors: &E, alloc: Global, e: io::Error) {
    let _ = match format!(in alloc; "{e}") {
        Ok(text) => match text.split_once(" (os error ") {
            Some((reason, _)) => eprintln!(errors;
                "kcount: the output was not written in full: {reason}"
            ),
            None => eprintln!(errors; "kcount: the output was not written in full: {text}"),
        },
        Err(_) => eprintln!(errors; "kcount: the output was not written in full: {e}"),
    };
}

// Writes the bytes, and answers whether that was done. If a write fails, one line on standard error says so and why.
pub(crate) fn print<W: Write, E: Eprint>(
    out: &mut W,
    errors: &E,
    alloc: Global,
    bytes: &[u8],
) -> bool
    ensures { IsTrue result → Appends (W.contents out.old) (W.contents out.new) bytes.now }
{
    match write_all(out, bytes) {
        Ok(()) => true,
        Err(e) => {
            tell(errors, alloc, e);
            false
        }
    }
}
