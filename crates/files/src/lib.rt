// What the programs share: files read whole into a buffer, the argument, and files written.
#![tactic(auto)]

ghost use Rattle.std.specs.Prelude.{◌≤◌, length, IfSome};

use std::io::{Cursor, Read, Write};
use std::rt::{Env, Files};
use std::{fs, io, str};

// How many bytes a program reads of a file, or of its argument.
pub const MOST_BYTES: usize = 4_096;

// The file at `path`, as the front of `buffer` that it fills. A missing file reads as empty, and of a longer one than the buffer the
// front is read: a buffer longer than the longest sheet and plan keeps the answer.
// Kept: a path of bytes, since a `&str` would ask more of callers.
pub fn load<'a>(rt: &impl Files, path: &[u8], buffer: &'a mut [u8]) -> &'a [u8]
    ensures { length result.now ≤ length buffer.old }
{
    let Ok(name) = str::from_utf8(path) else {
        return &[];
    };
    match fs::open(rt, name) {
        Ok(mut file) => read_full(&mut file, buffer),
        Err(_) => &[],
    }
}

// Reads until the buffer is full, the file ends or a read fails: the bytes that it put at the front of the buffer.
fn read_full<'a>(file: &mut impl Read, buffer: &'a mut [u8]) -> &'a [u8]
    ensures { length result.now ≤ length buffer.old }
{
    let mut done = 0;
    // Kept: it counts bytes, not turns, and `io::copy` would go on after a read that a signal interrupts, which here ends the file.
    while done < buffer.len() {
        match file.read(&mut buffer[done..]) {
            Ok(n) if n > 0 => done += n,
            _ => break,
        }
    }
    &buffer[..done]
}

// Writes the bytes to the file at `path`, made or emptied first; where that fails, a line on standard error says why.
pub fn save(rt: &(impl Files + Eprint), path: &[u8], bytes: &[u8]) {
    // Where standard error takes no line there is nowhere left to say so.
    let _ = match str::from_utf8(path) {
        Ok(name) => fs::write(rt, name, bytes).or_else(|error| eprintln!(rt; "{name}: {error}")),
        Err(error) => eprintln!(rt; "{}: {error}", path.escape_ascii()),
    };
}

// The program's first argument, in `buffer`; None where there is none, it is empty or it does not fit.
pub fn argument<'a>(rt: &impl Env, buffer: &'a mut [u8]) -> Option<&'a [u8]>
    ensures { IfSome result (λ path. (1 ≤ length path.now) × (length path.now ≤ length buffer.old)) }
{
    match rt.arg(1, buffer) {
        Ok(n) if n > 0 => Some(&buffer[..n]),
        _ => None,
    }
}

// The prefix with the module's number in two digits and `.bin` behind it, in `buffer`; None where that does not fit.
pub fn table_path<'a>(prefix: &[u8], module: usize, buffer: &'a mut [u8]) -> Option<&'a [u8]>
    ensures { IfSome result (λ path. length path.now ≤ length buffer.old) }
{
    let mut path = Cursor::new(&mut *buffer);
    path.write_all(prefix).ok()?;
    write!(path, "{module:02}.bin").ok()?;
    let written = path.position() as usize;
    buffer.get(..written)
}
