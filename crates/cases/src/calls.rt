// The public calls, each with the lines that say what it answered and wrote. A lent buffer is exactly as long as what is written there, and
// holds 7 before, so that a 0 that is printed was written.
ghost use Rattle.std.specs.Prelude.{◌+◌, ◌*◌, ◌≤◌, length};

use crate::print;
use judging::Annotated;
use lasso::Lengths;
use layout::TB;
use model::{Desk, Finding, Found, Refusal};

// The front of a line.
fn open(rt: &impl Print, case: &[u8], call: &[u8]) {
    print::text(rt, case);
    print::text(rt, b" ");
    print::text(rt, call);
}

// The rest of a refused call's line.
fn refused(rt: &impl Print, refusal: Refusal) {
    let _ = println!(rt; " refused {}", refusal.number());
}

// Checks the sheet.
pub fn check(rt: &impl Print, case: &[u8], sheet: &[u8]) {
    open(rt, case, b"check");
    match planner::check(sheet) {
        Ok(()) => print::text(rt, b" proper\n"),
        Err(refusal) => refused(rt, refusal),
    }
}

// Checks so many bytes of the sheet.
pub fn check_front(rt: &impl Print, case: &[u8], sheet: &[u8], bytes: usize)
    requires { bytes ≤ length sheet.now }
{
    check(rt, case, &sheet[0..bytes]);
}

// How many rows the book has: each opens with TB, which stands nowhere else in a book.
fn rows(book: &[u8]) -> usize {
    book.windows(2)
        .filter(|pair| *pair == TB.as_slice())
        .count()
}

// The greatest number of an annotation. A blank is no number.
fn greatest(annotation: &[u16]) -> u16 {
    annotation
        .iter()
        .copied()
        .filter(|n| *n < u16::MAX)
        .max()
        .unwrap_or(0)
}

// What find wrote, and what judge says of that.
fn found(rt: &impl Print, case: &[u8], sheet: &[u8], book: &[u8], annotation: &[u16]) {
    let _ = println!(rt; " tables {} greatest {}", rows(book), greatest(annotation));
    open(rt, case, b"find book");
    print::bytes(rt, book);
    open(rt, case, b"find annotation");
    print::annotation(rt, annotation);
    judge(rt, case, sheet, book, annotation);
}

// Finds tables into these buffers.
fn find_into(rt: &impl Print, case: &[u8], sheet: &[u8], book: &mut [u8], annotation: &mut [u16]) {
    open(rt, case, b"find");
    match planner::find(sheet, book, annotation) {
        Ok(Found::Tables) => found(rt, case, sheet, book, annotation),
        Ok(Found::Nothing) => print::text(rt, b" none\n"),
        Err(refusal) => refused(rt, refusal),
    }
}

// Finds tables: their book has this many bytes, their annotation this many numbers.
pub fn find(rt: &impl Print, case: &[u8], sheet: &[u8], bytes: usize, numbers: usize)
    requires bytes_bound { bytes ≤ 338 }
    requires numbers_bound { numbers ≤ 4096 }
{
    let mut book = [7u8; 338];
    let mut annotation = [7u16; 4096];
    find_into(
        rt,
        case,
        sheet,
        &mut book[0..bytes],
        &mut annotation[0..numbers],
    );
}

// Judges the book with this annotation.
pub fn judge(rt: &impl Print, case: &[u8], sheet: &[u8], book: &[u8], annotation: &[u16]) {
    open(rt, case, b"judge");
    match planner::judge(sheet, book, annotation) {
        Ok(Finding::Yes) => print::text(rt, b" yes\n"),
        Ok(Finding::No) => print::text(rt, b" no\n"),
        Err(refusal) => refused(rt, refusal),
    }
}

// The rest of the line of `loop`: how many steps the two parts of the run have, and their bytes.
fn run(rt: &impl Print, lengths: Lengths, path: &[u8])
    requires { (2 * (lengths.stem + lengths.cycle) ≤ length path.now) × (lengths.stem + lengths.cycle ≤ 8192) }
{
    let _ = print!(rt; " loop {} {}", lengths.stem, lengths.cycle);
    let end = 2 * (lengths.stem + lengths.cycle);
    print::bytes(rt, &path[0..end]);
}

// Annotates the book into these buffers, and judges what was written.
fn annotate_into(
    rt: &impl Print,
    case: &[u8],
    sheet: &[u8],
    book: &[u8],
    annotation: &mut [u16],
    path: &mut [u8],
) {
    open(rt, case, b"annotate");
    match planner::annotate(sheet, book, annotation, path) {
        Ok(Annotated::Keeps) => {
            print::annotation(rt, annotation);
            judge(rt, case, sheet, book, annotation);
        }
        Ok(Annotated::Loop(lengths)) => run(rt, lengths, path),
        Err(refusal) => refused(rt, refusal),
    }
}

// Annotates the book: its annotation has this many numbers, and the path this many bytes.
pub fn annotate_with(
    rt: &impl Print,
    case: &[u8],
    sheet: &[u8],
    book: &[u8],
    numbers: usize,
    bytes: usize,
)
    requires { (numbers ≤ 4096) × (bytes ≤ 16384) }
{
    let mut annotation = [7u16; 4096];
    let mut path = [7u8; 16384];
    annotate_into(
        rt,
        case,
        sheet,
        book,
        &mut annotation[0..numbers],
        &mut path[0..bytes],
    );
}

// Annotates the book: its annotation has this many numbers, and the path is as long as is asked.
pub fn annotate(rt: &impl Print, case: &[u8], sheet: &[u8], book: &[u8], numbers: usize)
    requires { numbers ≤ 4096 }
{
    annotate_with(rt, case, sheet, book, numbers, 4 * numbers);
}

// Writes the tables as a book into this buffer.
fn write_into(rt: &impl Print, case: &[u8], sheet: &[u8], tables: &[u8; 272], book: &mut [u8]) {
    open(rt, case, b"write");
    match planner::write(sheet, tables, book) {
        Ok(()) => print::bytes(rt, book),
        Err(refusal) => refused(rt, refusal),
    }
}

// Writes the tables as a book, which has this many bytes.
fn write(rt: &impl Print, case: &[u8], sheet: &[u8], tables: &[u8; 272], bytes: usize)
    requires { bytes ≤ 338 }
{
    let mut book = [7u8; 338];
    write_into(rt, case, sheet, tables, &mut book[0..bytes]);
}

// The front of the tables: A has ten entries.
fn entries(rt: &impl Print, tables: &[u8; 272]) {
    print::bytes(rt, &tables[..10]);
}

// Reads a book of A and writes its tables again: the same book comes back.
pub fn reread(rt: &impl Print, case: &[u8], sheet: &[u8], book: &[u8])
    requires { length book.now ≤ 338 }
{
    open(rt, case, b"read");
    match planner::read(sheet, book) {
        Ok(tables) => {
            entries(rt, &tables);
            write(rt, case, sheet, &tables, book.len());
        }
        Err(refusal) => refused(rt, refusal),
    }
}

// The part of a process. An empty one has its refusal from `range`.
pub fn part(rt: &impl Print, case: &[u8], sheet: &[u8], book: &[u8], process: usize) {
    open(rt, case, b"part ");
    print::number(rt, process as u64);
    match planner::range(sheet, book, process) {
        Ok(_) => print::bytes(rt, planner::part(sheet, book, process)),
        Err(refusal) => refused(rt, refusal),
    }
}

// The rest of a line: the five places of a desk.
fn places(rt: &impl Print, desk: Desk) {
    let states = desk.states;
    print::bytes(
        rt,
        &[
            states[0].0,
            states[1].0,
            states[2].0,
            states[3].0,
            desk.environment,
        ],
    );
}

// Makes a desk fresh.
pub fn fresh(rt: &impl Print, case: &[u8], sheet: &[u8], desk: Desk) -> Desk {
    open(rt, case, b"fresh");
    match planner::fresh(sheet, desk) {
        Ok(after) => {
            places(rt, after);
            after
        }
        Err(refusal) => {
            refused(rt, refusal);
            desk
        }
    }
}

// Steps a desk by a direction.
pub fn step(
    rt: &impl Print,
    case: &[u8],
    sheet: &[u8],
    book: &[u8],
    desk: Desk,
    direction: u8,
) -> Desk {
    open(rt, case, b"step");
    print::hex(rt, direction);
    match planner::step_by_value(sheet, book, desk, direction) {
        Ok(next) => {
            print::text(rt, b" label");
            print::hex(rt, next.label);
            print::text(rt, b" desk");
            places(rt, next.desk);
            next.desk
        }
        Err(refusal) => {
            refused(rt, refusal);
            desk
        }
    }
}

// Joins two sheets into this buffer.
pub fn join(rt: &impl Print, case: &[u8], first: &[u8], second: &[u8], sheet: &mut [u8]) {
    open(rt, case, b"join");
    match planner::join(first, second, sheet) {
        Ok(length) => {
            print::text(rt, b" length ");
            print::number(rt, length as u64);
            print::text(rt, b"\n");
            open(rt, case, b"join sheet");
            print::bytes(rt, sheet);
        }
        Err(refusal) => refused(rt, refusal),
    }
}
