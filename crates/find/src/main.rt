// Finds tables for the sheet in a file or on standard input: prints them with the greatest number of their annotation, `none`, or `refused` and the
// number, with the cause on standard error. With two more names it writes the book and the annotation to these files.
#![tactic(auto)]

ghost use Rattle.std.specs.Prelude.{◌≡◌, ◌≤◌, length};
ghost use Rattle.model.specs.Computed.{first_choice};
ghost use Rattle.model.specs.Calls.{find_choice, find_of};
ghost use Rattle.sheet.specs.Struct.{sheet_of, IsProper};
ghost use Rattle.template.specs.Holds.{Holds};
ghost use Rattle.find.specs.Printed.{choice_text, printed, book_file, annotation_file, left, found, book₀, annotation₀};

use model::{Found, Refusal};
use sheet::Sheet;
use std::env::Env;
use std::rt::Files;

// One byte more than the longest proper sheet, so that a byte after EN is seen.
const ROOM: usize = 434;

// Of a proper sheet: the text of the tables that find put into the book.
fn choice_text(text: &mut [u8], sheet: Sheet, book: &[u8], annotation: &[u16]) -> usize
    requires in_bounds { 2048 ≤ length text.old }
    requires proper { IsProper sheet }
    requires fact { find_choice (sheet_of sheet) (first_choice (sheet_of sheet)) book₀ annotation₀ ≡ found book.now annotation.now }
    ensures { Holds text.new result (choice_text (sheet_of sheet) (first_choice (sheet_of sheet))) }
{
    let a = sheet.architecture;
    let length = sizes::book_length(a);
    let tables = book::read_for(a, &book[..length]).unwrap();
    let vertices = sizes::vertices(sheet);
    text::tables_text(text, a, &tables, &annotation[..vertices])
}

// The text of the tables that find put into the book.
fn found_text(text: &mut [u8], sheet: &[u8], book: &[u8], annotation: &[u16]) -> usize
    requires in_bounds { 2048 ≤ length text.old }
    requires fact { find_of sheet.now book₀ annotation₀ ≡ found book.now annotation.now }
    ensures { Holds text.new result (printed sheet.now) }
{
    let read = sheet::read(sheet).unwrap();
    choice_text(text, read, book, annotation)
}

// The text of what find answered, at the front of the buffer: answers its length.
fn outcome_text(
    text: &mut [u8],
    sheet: &[u8],
    outcome: Result<Found, Refusal>,
    book: &[u8],
    annotation: &[u16],
) -> usize
    requires in_bounds { 2048 ≤ length text.old }
    requires fact { find_of sheet.now book₀ annotation₀ ≡ left outcome book.now annotation.now }
    ensures { Holds text.new result (printed sheet.now) }
{
    match outcome {
        Ok(Found::Tables) => found_text(text, sheet, book, annotation),
        Ok(Found::Nothing) => text::answer_text(text, b"none\n"),
        Err(refusal) => text::refused_text(text, refusal),
    }
}

// Puts out the text that is due for the bytes of a sheet file: this is all that the program writes on standard output.
fn put_out(rt: &impl Print, sheet: &[u8], text: &[u8])
    requires { text.now ≡ printed sheet.now }
{
    input::put(rt, text);
}

// ---- the files
// Writes the book of the first choice that keeps the sheet.
fn save_book<R: Env + Files + Eprint>(rt: &R, sheet: Sheet, book: &[u8])
    requires { book.now ≡ book_file (sheet_of sheet) (first_choice (sheet_of sheet)) }
{
    input::save(rt, 2, book);
}

// Writes its annotation.
fn save_annotation<R: Env + Files + Eprint>(rt: &R, sheet: Sheet, annotation: &[u8])
    requires { annotation.now ≡ annotation_file (sheet_of sheet) (first_choice (sheet_of sheet)) }
{
    input::save(rt, 3, annotation);
}

// Of a proper sheet: writes what find put into the buffers.
fn save_choice<R: Env + Files + Eprint>(rt: &R, sheet: Sheet, book: &[u8], annotation: &[u16])
    requires proper { IsProper sheet }
    requires fact { find_choice (sheet_of sheet) (first_choice (sheet_of sheet)) book₀ annotation₀ ≡ found book.now annotation.now }
{
    let a = sheet.architecture;
    let length = sizes::book_length(a);
    save_book(rt, sheet, &book[..length]);
    let vertices = sizes::vertices(sheet);
    let mut bytes = [0u8; 8192];
    let end = words::to_bytes(&mut bytes, &annotation[..vertices]);
    save_annotation(rt, sheet, &bytes[..end]);
}

// Writes what find put into the buffers, where files are named for it.
fn save_found<R: Env + Files + Eprint>(rt: &R, sheet: &[u8], book: &[u8], annotation: &[u16])
    requires { find_of sheet.now book₀ annotation₀ ≡ found book.now annotation.now }
{
    if input::argument_count(rt) < 4 {
        return;
    }
    let read = sheet::read(sheet).unwrap();
    save_choice(rt, read, book, annotation);
}

// The answer for the bytes of a sheet file, with the files or the cause of a refusal.
fn answer<R: Env + Files + Print + Eprint>(rt: &R, sheet: &[u8]) {
    let mut book = [0u8; 338];
    let mut annotation = [0u16; 4096];
    let outcome = planner::find(sheet, &mut book, &mut annotation);
    let mut text = [0u8; 2048];
    let end = outcome_text(&mut text, sheet, outcome, &book, &annotation);
    put_out(rt, sheet, &text[..end]);
    match outcome {
        Ok(Found::Tables) => save_found(rt, sheet, &book, &annotation),
        Ok(Found::Nothing) => {}
        Err(refusal) => cause::explain(rt, refusal, sheet),
    }
}

fn main(rt: HostRuntime) {
    let count = input::argument_count(&rt);
    if count == 3 || count > 4 {
        input::usage(&rt, b"find [SHEET], or find SHEET BOOK ANNOTATION");
        return;
    }
    let Some(mut file) = input::open(&rt, 1) else {
        return;
    };
    let mut sheet = [0u8; ROOM];
    let length = input::read_full(&mut file, &mut sheet);
    answer(&rt, &sheet[..length]);
}
