// Annotates the book in a file: prints `greatest` and the greatest number of the annotation, `loop` and the run that breaks the sheet, or `refused` and the
// number, with the cause on standard error. With a third name it writes the annotation to that file, in words of two bytes, the low byte first.
#![tactic(auto)]

ghost use Rattle.std.specs.Prelude.{◌≡◌, ◌≤◌, length, Ok};
ghost use Rattle.model.specs.declared.Finding.TheVariants.{Yes, No};
ghost use Rattle.model.specs.Calls.{annotate_of, AnnotatePath};
ghost use Rattle.judging.specs.declared.Annotated.TheVariants.{Loop};
ghost use Rattle.judging.specs.Answers.{verdict_of, after_path};
ghost use Rattle.template.specs.Holds.{Holds};
ghost use Rattle.annotate.specs.Printed.{chosen_in, chosen_file, printed, annotation₀, path₀, left};

use judging::Annotated;
use lasso::Lengths;
use model::Refusal;
use std::env::Env;
use std::rt::Files;

// One byte more than the longest proper sheet, so that a byte after EN is seen.
const SHEET_ROOM: usize = 434;

// One byte more than the longest book, so that one that is too long is seen.
const BOOK_ROOM: usize = 339;

// The longest run has 8,192 steps: 64 bytes for each, and 128 for the rest.
const TEXT_ROOM: usize = 524416;

// ---- the texts, each at the front of the buffer: the functions answer its length
// The run that annotate wrote: the sheet and the book are read again, and the steps taken again.
fn loop_text(text: &mut [u8], sheet: &[u8], book: &[u8], lengths: Lengths, path: &[u8]) -> usize
    requires in_bounds { 524416 ≤ length text.old }
    requires fact { (annotate_of sheet.now book.now annotation₀ path₀).answer ≡ Ok No }
    requires annotate_path { AnnotatePath sheet.now book.now annotation₀ path₀ (after_path (Ok (Loop lengths)) path.now) }
    ensures { Holds text.new result (printed sheet.now book.now (after_path (Ok (Loop lengths)) path.now)) }
{
    let read = sheet::read(sheet).unwrap();
    let tables = book::read_for(read.architecture, book).unwrap();
    replay::run_text(text, read, &tables, path, lengths.stem, lengths.cycle)
}

// What annotate answered. The zeros behind the annotation are never the greatest.
fn verdict_text(
    text: &mut [u8],
    sheet: &[u8],
    book: &[u8],
    done: Result<Annotated, Refusal>,
    annotation: &[u16],
    path: &[u8],
) -> usize
    requires in_bounds { 524416 ≤ length text.old }
    requires fact { annotate_of sheet.now book.now annotation₀ path₀ ≡ left (verdict_of done) annotation.now }
    requires annotate_path { AnnotatePath sheet.now book.now annotation₀ path₀ (after_path done path.now) }
    ensures { Holds text.new result (printed sheet.now book.now (after_path done path.now)) }
{
    match done {
        Ok(Annotated::Keeps) => text::greatest_text(text, annotation),
        Ok(Annotated::Loop(lengths)) => loop_text(text, sheet, book, lengths, path),
        Err(refusal) => text::refused_text(text, refusal),
    }
}

// Puts out the text that is due for the bytes of two files: this is all that the program writes on standard output.
fn put_out(
    rt: &impl Print,
    sheet: &[u8],
    book: &[u8],
    done: Result<Annotated, Refusal>,
    path: &[u8],
    text: &[u8],
)
    requires annotate_path { AnnotatePath sheet.now book.now annotation₀ path₀ (after_path done path.now) }
    requires text_value { text.now ≡ printed sheet.now book.now (after_path done path.now) }
{
    input::put(rt, text);
}

// Writes the annotation of the book.
fn save_bytes<R: Env + Files + Eprint>(rt: &R, sheet: &[u8], book: &[u8], annotation: &[u8])
    requires { annotation.now ≡ chosen_file (chosen_in sheet.now book.now) }
{
    input::save(rt, 3, annotation);
}

// Writes what annotate put into the buffer, where a file is named for it.
fn save_annotation<R: Env + Files + Eprint>(rt: &R, sheet: &[u8], book: &[u8], annotation: &[u16])
    requires { annotate_of sheet.now book.now annotation₀ path₀ ≡ left (Ok Yes) annotation.now }
{
    if input::argument_count(rt) < 4 {
        return;
    }
    let read = sheet::read(sheet).unwrap();
    let vertices = sizes::vertices(read);
    let mut bytes = [0u8; 8192];
    let end = words::to_bytes(&mut bytes, &annotation[..vertices]);
    save_bytes(rt, sheet, book, &bytes[..end]);
}

// The answer for the bytes of two files, with the file or the cause of a refusal.
fn answer<R: Env + Files + Print + Eprint>(rt: &R, sheet: &[u8], book: &[u8]) {
    let mut annotation = [0u16; 4096];
    let mut path = [0u8; 16384];
    let done = planner::annotate(sheet, book, &mut annotation, &mut path);
    let mut text = [0u8; TEXT_ROOM];
    let end = verdict_text(&mut text, sheet, book, done, &annotation, &path);
    put_out(rt, sheet, book, done, &path, &text[..end]);
    match done {
        Ok(Annotated::Keeps) => save_annotation(rt, sheet, book, &annotation),
        Ok(Annotated::Loop(_)) => {}
        Err(refusal) => cause::explain(rt, refusal, sheet),
    }
}

fn main(rt: HostRuntime) {
    let count = input::argument_count(&rt);
    if count < 3 || count > 4 {
        input::usage(&rt, b"annotate SHEET BOOK [ANNOTATION]");
        return;
    }
    let sheet_file = input::open(&rt, 1);
    let book_file = input::open(&rt, 2);
    let (Some(mut sheet_file), Some(mut book_file)) = (sheet_file, book_file) else {
        return;
    };
    let mut sheet = [0u8; SHEET_ROOM];
    let sheet_end = input::read_full(&mut sheet_file, &mut sheet);
    let mut book = [0u8; BOOK_ROOM];
    let book_end = input::read_full(&mut book_file, &mut book);
    answer(&rt, &sheet[..sheet_end], &book[..book_end]);
}
