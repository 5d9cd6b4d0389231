// Steps the tables of a book on a desk: prints the start, and for each direction on standard input the label and the states after it, or its refusal. A
// direction is a word of one or two hexadecimal digits. Each line is written as soon as its direction is read, so directions may be typed.
#![tactic(auto)]

ghost use Rattle.std.specs.Prelude.{◌≡◌, ◌≤◌, length, IfSome};
ghost use Rattle.template.specs.Holds.{Holds};
ghost use Rattle.stepdesk.specs.Printed.{opening, line_for};
ghost use Rattle.stepdesk.specs.Ready.{BothRead, Ready};

use model::{Desk, ProcessState};
use sheet::Sheet;
use std::env::Env;
use std::io::Read;
use stepping::Word;

// One byte more than the longest proper sheet, so that a byte after EN is seen.
const SHEET_ROOM: usize = 434;

// One byte more than the longest book, so that one that is too long is seen.
const BOOK_ROOM: usize = 339;

// The desk, and the word that is being read. Where more bytes are to be read a function answers the session behind what it took, and otherwise None.
#[derive(Clone, Copy)]
struct Session {
    desk: Desk,
    word: Word,
}

// ---- what is written on standard output, and nothing else is
// The opening for the bytes of two files.
fn put_opening(rt: &impl Print, sheet: &[u8], book: &[u8], text: &[u8])
    requires { text.now ≡ opening sheet.now book.now }
{
    input::put(rt, text);
}

// The line for a direction, where the desk is this.
fn put_line(rt: &impl Print, sheet: &[u8], book: &[u8], desk: Desk, direction: u8, text: &[u8])
    requires { text.now ≡ line_for sheet.now book.now desk direction }
{
    input::put(rt, text);
}

// ---- the opening
// Its text, at the front of the buffer: answers its length.
fn opening_text(text: &mut [u8], sheet: &[u8], book: &[u8]) -> usize
    requires { 64 ≤ length text.old }
    ensures { Holds text.new result (opening sheet.now book.now) }
{
    match planner::read(sheet, book) {
        Ok(tables) => {
            let read = sheet::read(sheet).unwrap();
            stepping::start_text(text, read.architecture, &tables)
        }
        Err(refusal) => text::refused_text(text, refusal),
    }
}

// ---- the directions
// The word is a direction: the desk is stepped, and the line written.
fn step(rt: &impl Print, sheet: &[u8], book: &[u8], read: Sheet, session: Session) -> Session
    requires { Ready sheet.now book.now read session }
    ensures { Ready sheet.now book.now read result }
{
    let direction = session.word.value;
    let mut desk = session.desk;
    let answer = planner::step(sheet, book, &mut desk, direction);
    let mut text = [0u8; 64];
    let end = stepping::step_text(&mut text, read.architecture, direction, answer, desk);
    put_line(rt, sheet, book, session.desk, direction, &text[..end]);
    Session {
        desk,
        word: stepping::no_word(),
    }
}

// A word ends, if there is one. One that is no direction is the last.
fn end_word<R: Print + Eprint>(
    rt: &R,
    sheet: &[u8],
    book: &[u8],
    read: Sheet,
    session: Session,
) -> Option<Session>
    requires { Ready sheet.now book.now read session }
    ensures { IfSome result (λ after. Ready sheet.now book.now read after) }
{
    let word = session.word;
    if word.digits == 0 {
        return Some(session);
    }
    if word.digits == 3 {
        input::say(
            rt,
            b"standard input: a direction is one or two hexadecimal digits\n",
        );
        return None;
    }
    Some(step(rt, sheet, book, read, session))
}

// One byte more.
fn take_byte<R: Print + Eprint>(
    rt: &R,
    sheet: &[u8],
    book: &[u8],
    read: Sheet,
    session: Session,
    byte: u8,
) -> Option<Session>
    requires { Ready sheet.now book.now read session }
    ensures { IfSome result (λ after. Ready sheet.now book.now read after) }
{
    if stepping::is_blank(byte) {
        return end_word(rt, sheet, book, read, session);
    }
    Some(Session {
        word: stepping::extended(session.word, byte),
        ..session
    })
}

// All of these bytes, or those up to the first word that is no direction.
fn take_bytes<R: Print + Eprint>(
    rt: &R,
    sheet: &[u8],
    book: &[u8],
    read: Sheet,
    start: Session,
    bytes: &[u8],
) -> Option<Session>
    requires { Ready sheet.now book.now read start }
    ensures { IfSome result (λ after. Ready sheet.now book.now read after) }
{
    let mut session = start;
    for byte in bytes {
        session = take_byte(rt, sheet, book, read, session, *byte)?;
    }
    Some(session)
}

// Reads once. Where nothing comes, the last word ends.
fn take_some<R: Print + Eprint, S: Read>(
    rt: &R,
    source: &mut S,
    sheet: &[u8],
    book: &[u8],
    read: Sheet,
    session: Session,
) -> Option<Session>
    requires { Ready sheet.now book.now read session }
    ensures { IfSome result (λ after. Ready sheet.now book.now read after) }
{
    let mut bytes = [0u8; 512];
    let n = source.read(&mut bytes).unwrap_or(0);
    if n == 0 {
        let _ = end_word(rt, sheet, book, read, session);
        return None;
    }
    take_bytes(rt, sheet, book, read, session, &bytes[..n])
}

// A proved loop has to end, and nothing says that standard input does: so the turns are counted up to a number that no run reaches.
fn take_all<R: Print + Eprint, S: Read>(
    rt: &R,
    source: &mut S,
    sheet: &[u8],
    book: &[u8],
    read: Sheet,
    start: Session,
)
    requires { Ready sheet.now book.now read start }
{
    let mut session = start;
    for _ in 0..u64::MAX {
        match take_some(rt, source, sheet, book, read, session) {
            Some(after) => session = after,
            None => return,
        }
    }
}

// A fresh desk, and then all directions.
fn step_all<R: Input + Print + Eprint>(rt: &R, sheet: &[u8], book: &[u8], read: Sheet)
    requires { BothRead sheet.now book.now read }
{
    let blank = Desk {
        states: [ProcessState(0); 4],
        environment: 0,
    };
    let desk = planner::fresh(sheet, blank).unwrap();
    take_all(
        rt,
        &mut rt.reader(),
        sheet,
        book,
        read,
        Session {
            desk,
            word: stepping::no_word(),
        },
    );
}

// The answer for the bytes of two files, and the cause of a refusal.
fn answer<R: Env + Input + Print + Eprint>(rt: &R, sheet: &[u8], book: &[u8]) {
    let mut text = [0u8; 64];
    let end = opening_text(&mut text, sheet, book);
    put_opening(rt, sheet, book, &text[..end]);
    match planner::read(sheet, book) {
        Ok(_) => {
            let read = sheet::read(sheet).unwrap();
            step_all(rt, sheet, book, read);
        }
        Err(refusal) => cause::explain(rt, refusal, sheet),
    }
}

fn main(rt: HostRuntime) {
    if input::argument_count(&rt) != 3 {
        input::usage(&rt, b"desk SHEET BOOK");
        return;
    }
    let sheet_file = input::open(&rt, 1);
    let book_file = input::open(&rt, 2);
    let (Some(mut sheet_file), Some(mut book_file)) = (sheet_file, book_file) else {
        return;
    };
    let mut sheet = [0u8; SHEET_ROOM];
    let sheet_end = input::read_full(&mut sheet_file, &mut sheet);
    let mut book = [0u8; BOOK_ROOM];
    let book_end = input::read_full(&mut book_file, &mut book);
    answer(&rt, &sheet[..sheet_end], &book[..book_end]);
}
