// Judges the book in a file with the annotation in another: prints `yes`, `no`, or `refused` and the number, with the cause on standard error.
#![tactic(auto)]

ghost use Rattle.std.specs.Prelude.{◌≡◌, ◌≤◌, length};
ghost use Rattle.model.specs.Calls.{judge_of};
ghost use Rattle.words.specs.Words.{words_of};
ghost use Rattle.template.specs.Holds.{Holds};
ghost use Rattle.judge.specs.Printed.{verdict_text, printed};

use model::{Finding, Refusal};
use std::env::Env;

// One byte more than the longest proper sheet, so that a byte after EN is seen.
const SHEET_ROOM: usize = 434;

// One byte more than the longest book, so that one that is too long is seen.
const BOOK_ROOM: usize = 339;

// The longest annotation that is looked at: 4,096 words.
const ANNOTATION_ROOM: usize = 8192;

// The verdict on the bytes of three files.
fn judge_files(sheet: &[u8], book: &[u8], annotation: &[u8]) -> Result<Finding, Refusal>
    requires { length annotation.now ≤ 8192 }
    ensures { result ≡ judge_of sheet.now book.now (words_of annotation.now) }
{
    let mut words = [0u16; 4096];
    let count = words::from_bytes(&mut words, annotation);
    planner::judge(sheet, book, &words[..count])
}

// The text of a verdict, at the front of the buffer: answers its length.
fn verdict_text(text: &mut [u8], verdict: Result<Finding, Refusal>) -> usize
    requires { 32 ≤ length text.old }
    ensures { Holds text.new result (verdict_text verdict) }
{
    match verdict {
        Ok(Finding::Yes) => text::answer_text(text, b"yes\n"),
        Ok(Finding::No) => text::answer_text(text, b"no\n"),
        Err(refusal) => text::refused_text(text, refusal),
    }
}

// Puts out the text that is due for the bytes of three files: this is all that the program writes on standard output.
fn put_out(rt: &impl Print, sheet: &[u8], book: &[u8], annotation: &[u8], text: &[u8])
    requires { text.now ≡ printed sheet.now book.now annotation.now }
{
    input::put(rt, text);
}

// The answer for the bytes of three files, and the cause of a refusal.
fn answer<R: Env + Print + Eprint>(rt: &R, sheet: &[u8], book: &[u8], annotation: &[u8])
    requires { length annotation.now ≤ 8192 }
{
    let verdict = judge_files(sheet, book, annotation);
    let mut text = [0u8; 32];
    let end = verdict_text(&mut text, verdict);
    put_out(rt, sheet, book, annotation, &text[..end]);
    if let Err(refusal) = verdict {
        cause::explain(rt, refusal, sheet);
    }
}

fn main(rt: HostRuntime) {
    if input::argument_count(&rt) != 4 {
        input::usage(&rt, b"judge SHEET BOOK ANNOTATION");
        return;
    }
    let sheet_file = input::open(&rt, 1);
    let book_file = input::open(&rt, 2);
    let annotation_file = input::open(&rt, 3);
    let (Some(mut sheet_file), Some(mut book_file), Some(mut annotation_file)) = (
        sheet_file,
        book_file,
        annotation_file,
    ) else {
        return;
    };
    let mut sheet = [0u8; SHEET_ROOM];
    let sheet_end = input::read_full(&mut sheet_file, &mut sheet);
    let mut book = [0u8; BOOK_ROOM];
    let book_end = input::read_full(&mut book_file, &mut book);
    let mut annotation = [0u8; ANNOTATION_ROOM];
    let annotation_end = input::read_full(&mut annotation_file, &mut annotation);
    answer(
        &rt,
        &sheet[..sheet_end],
        &book[..book_end],
        &annotation[..annotation_end],
    );
}
