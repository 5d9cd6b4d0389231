// The files of a program: each argument names one, and `-` or no argument stands for standard input.
#![tactic(auto)]

ghost use Rattle.std.specs.Prelude.{◌≤◌, length, take};
ghost use Rattle.std.specs.Io.KnownBytes.{Consumes};

use either::Either;
use std::env::{Env, FillError};
use std::io::{Cursor, Error, Read, Write};
use std::rt::Files;
use std::str::from_utf8;
use std::{fmt, fs, io};

// What a program reads: standard input, or a file that was opened.
pub type Source<R> = Either<<R as Input>::Reader, <R as Files>::File>;

// Room for an argument. A longer one counts as empty, and so does one that is missing.
const ARGUMENT_ROOM: usize = 4096;

// Room for the text of an error.
const CAUSE_ROOM: usize = 256;

// C's EILSEQ, as whose text the cause is written where a path is no UTF-8.
const NO_TEXT: i32 = 84;

// ---- standard error
// Bytes as text: what is no UTF-8 in them is shown as U+FFFD.
#[derive(Drop)]
struct Shown<'a>(&'a [u8]);

impl fmt::Display for Shown<'_> {
    fn fmt<W: fmt::Write>(&self, f: &mut fmt::Formatter<W>) -> fmt::Result {
        for chunk in self.0.utf8_chunks() {
            f.write_str(chunk.valid())?;
            if !chunk.invalid().is_empty() {
                f.write_str("\u{FFFD}")?;
            }
        }
        Ok(())
    }
}

// These bytes, on standard error.
pub fn say(rt: &impl Eprint, text: &[u8]) {
    let _ = eprint!(rt; "{}", Shown(text));
}

// An error's text without the number that stands behind it where it is the system's.
fn without_number(text: &str) -> &str {
    match text.rsplit_once(" (os error ") {
        Some((cause, _)) => cause,
        None => text,
    }
}

// The line for a file that could not be read or written: its name, and the system's words for the cause.
fn fail(rt: &impl Eprint, path: &[u8], error: Error) {
    let mut room = Cursor::new([0u8; CAUSE_ROOM]);
    let _ = write!(room, "{error}");
    let bytes = room.into_inner();
    let text = from_utf8(&bytes).unwrap_or("").trim_end_matches('\0');
    say(rt, path);
    let _ = eprintln!(rt; ": {}", without_number(text));
}

// ---- standard output
// These bytes, on standard output. Where they cannot be written, nothing else changes.
pub fn put(rt: &impl Print, bytes: &[u8]) {
    let _ = rt.write_all(bytes);
}

// ---- arguments
// Puts argument i at the front of the buffer and answers its length.
fn argument(rt: &impl Env, i: usize, room: &mut [u8]) -> usize
    ensures { result ≤ length room.new }
{
    rt.arg(i, room).unwrap_or(0)
}

fn is_given(rt: &impl Env, i: usize) -> bool {
    let mut room = [0u8; 1];
    !matches!(rt.arg(i, &mut room), Err(FillError::NotPresent))
}

// How many arguments the program was started with, its own name among them.
pub fn argument_count(rt: &impl Env) -> usize {
    for i in 0..usize::MAX {
        if !is_given(rt, i) {
            return i;
        }
    }
    usize::MAX
}

fn is_dash(path: &[u8]) -> bool {
    path == b"-".as_slice()
}

// ---- files
// A path is text for the library that opens it.
fn path_text(path: &[u8]) -> io::Result<&str> {
    from_utf8(path).map_err(|_| Error::from_raw_os_error(NO_TEXT))
}

// Reading nothing fails where reading would, as on a directory.
fn open_readable<R: Files>(rt: &R, path: &[u8]) -> io::Result<R::File> {
    let mut file = fs::open(rt, path_text(path)?)?;
    file.read(&mut [])?;
    Ok(file)
}

fn open_file<R: Files + Eprint>(rt: &R, path: &[u8]) -> Option<R::File> {
    match open_readable(rt, path) {
        Ok(file) => Some(file),
        Err(error) => {
            fail(rt, path, error);
            None
        }
    }
}

// Opens the file that argument i names, or standard input. Where it fails the cause goes to standard error.
pub fn open<R: Env + Files + Input + Eprint>(rt: &R, i: usize) -> Option<Source<R>> {
    if argument_count(rt) <= i {
        return Some(Either::Left(rt.reader()));
    }
    let mut room = [0u8; ARGUMENT_ROOM];
    let length = argument(rt, i, &mut room);
    let path = &room[..length];
    if is_dash(path) {
        return Some(Either::Left(rt.reader()));
    }
    Some(Either::Right(open_file(rt, path)?))
}

// Reads until the buffer is full, the input ends or a read fails: answers how many bytes it put at the front.
pub fn read_full<S: Read>(source: &mut S, room: &mut [u8]) -> usize
    ensures fits { result ≤ length room.new }
    ensures bytes { Consumes (S.remaining source.old) (S.remaining source.new) (take result room.new) }
{
    let mut done: usize = 0;
    // A while: how far a turn goes is up to the source.
    while done < room.len() {
        match source.read(&mut room[done..]) {
            Ok(0) => return done,
            Ok(count) => done += count,
            Err(_) => return done,
        }
    }
    done
}

fn write_file(rt: &impl Files, path: &[u8], bytes: &[u8]) -> io::Result<()> {
    fs::write(rt, path_text(path)?, bytes)
}

// Writes the bytes to the file that argument i names, in place of what it held; the cause of a failure goes to standard error.
pub fn save<R: Env + Files + Eprint>(rt: &R, i: usize, bytes: &[u8]) {
    let mut room = [0u8; ARGUMENT_ROOM];
    let length = argument(rt, i, &mut room);
    let path = &room[..length];
    if let Err(error) = write_file(rt, path, bytes) {
        fail(rt, path, error);
    }
}

// ---- what is said of the call
// The name of argument i, on standard error.
pub fn print_name<R: Env + Eprint>(rt: &R, i: usize) {
    let mut room = [0u8; ARGUMENT_ROOM];
    let length = argument(rt, i, &mut room);
    let name = &room[..length];
    if length == 0 || is_dash(name) {
        say(rt, b"standard input");
        return;
    }
    say(rt, name);
}

// How a program is called, on standard error.
pub fn usage(rt: &impl Eprint, words: &[u8]) {
    say(rt, b"usage: ");
    say(rt, words);
    say(rt, b"\n");
}
