// Draws a sheet as one graph for Graphviz: its automaton and, with a book in a second file, each process's table; or `refused` and the number, with
// the cause on standard error.
#![tactic(auto)]

ghost use Rattle.std.specs.Prelude.{◌≡◌, ◌≤◌, length};
ghost use Rattle.sheet.specs.Struct.{IsProper, sheet_of};
ghost use Rattle.template.specs.Holds.{Holds};
ghost use Rattle.text.specs.Text.{text_or_refused};
ghost use Rattle.draw.specs.Drawn.{drawn, with_book, drawn_with};

use sheet::Sheet;
use std::env::Env;

// One byte more than the longest proper sheet, so that a byte after EN is seen.
const SHEET_ROOM: usize = 434;

// One byte more than the longest book, so that one that is too long is seen.
const BOOK_ROOM: usize = 339;

// ---- the texts, each at the front of the buffer: the functions answer its length
// For the bytes of a sheet.
fn sheet_text(text: &mut [u8], sheet: &[u8]) -> usize
    requires { 65536 ≤ length text.old }
    ensures { Holds text.new result (drawn sheet.now) }
{
    match sheet::read(sheet) {
        Ok(read) => drawing::sheet_text(text, read),
        Err(refusal) => text::refused_text(text, refusal),
    }
}

// Of a proper sheet, for the bytes of a book.
fn tables_text(text: &mut [u8], sheet: Sheet, book: &[u8]) -> usize
    requires in_bounds { 65536 ≤ length text.old }
    requires proper { IsProper sheet }
    ensures { Holds text.new result (text_or_refused (with_book (sheet_of sheet) book.now)) }
{
    match book::read_for(sheet.architecture, book) {
        Ok(tables) => drawing::book_text(text, sheet, &tables),
        Err(refusal) => text::refused_text(text, refusal),
    }
}

// For the bytes of a sheet and of a book.
fn book_text(text: &mut [u8], sheet: &[u8], book: &[u8]) -> usize
    requires { 65536 ≤ length text.old }
    ensures { Holds text.new result (drawn_with sheet.now book.now) }
{
    match sheet::read(sheet) {
        Ok(read) => tables_text(text, read, book),
        Err(refusal) => text::refused_text(text, refusal),
    }
}

// ---- what the program writes on standard output
// The text that is due for the bytes of a sheet.
fn put_out(rt: &impl Print, sheet: &[u8], text: &[u8])
    requires { text.now ≡ drawn sheet.now }
{
    input::put(rt, text);
}

// The text that is due for the bytes of a sheet and of a book.
fn put_out_with(rt: &impl Print, sheet: &[u8], book: &[u8], text: &[u8])
    requires { text.now ≡ drawn_with sheet.now book.now }
{
    input::put(rt, text);
}

// The answer for the bytes of a sheet, and the cause of a refusal.
fn answer<R: Env + Print + Eprint>(rt: &R, sheet: &[u8]) {
    let mut text = [0u8; 65536];
    let end = sheet_text(&mut text, sheet);
    put_out(rt, sheet, &text[..end]);
    cause::explain_sheet(rt, sheet);
}

// The answer for the bytes of a sheet and of a book, and the cause of a refusal.
fn answer_with<R: Env + Print + Eprint>(rt: &R, sheet: &[u8], book: &[u8]) {
    let mut text = [0u8; 65536];
    let end = book_text(&mut text, sheet, book);
    put_out_with(rt, sheet, book, &text[..end]);
    cause::explain_book(rt, sheet, book);
}

// With the book that the second argument names, if there is one.
fn main(rt: HostRuntime) {
    let count = input::argument_count(&rt);
    if count > 3 {
        input::usage(&rt, b"draw [SHEET [BOOK]]");
        return;
    }
    let Some(mut sheet_file) = input::open(&rt, 1) else {
        return;
    };
    let mut sheet = [0u8; SHEET_ROOM];
    let sheet_end = input::read_full(&mut sheet_file, &mut sheet);
    if count < 3 {
        answer(&rt, &sheet[..sheet_end]);
        return;
    }
    let Some(mut book_file) = input::open(&rt, 2) else {
        return;
    };
    let mut book = [0u8; BOOK_ROOM];
    let book_end = input::read_full(&mut book_file, &mut book);
    answer_with(&rt, &sheet[..sheet_end], &book[..book_end]);
}
