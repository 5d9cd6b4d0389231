// The public calls for C and Rust (include/soclethyme.h): an answer is 0 for the good one, 256 for the other finding, otherwise the refusal's number. A label,
// the length of a sheet or a part of a book is above all of these.
#![tactic(auto)]

ghost use Rattle.std.specs.Prelude.{◌≡◌};
ghost use Rattle.model.specs.Numbers.{reply_code, verdict_code, outcome_code, shown_code, written_code};
ghost use Rattle.model.specs.Calls.{check_of, find_of, write_of, read_of, part_of, judge_of, annotate_of, join_of};
ghost use Rattle.model.specs.Desk.{fresh_of, step_of};
ghost use Rattle.export.specs.After.{tables_after, part_code, RunAfter, desk_of, bytes_of};

use judging::Annotated;
use model::{Desk, Finding, Found, ProcessState, Refusal};

fn reply_code(reply: Result<(), Refusal>) -> u32
    ensures { result ≡ reply_code reply }
{
    match reply {
        Ok(()) => 0,
        Err(refusal) => refusal.number(),
    }
}

// ---- a desk is five bytes: the four states, and the mask
fn desk_of(bytes: [u8; 5]) -> Desk
    ensures { result ≡ desk_of bytes }
{
    Desk {
        states: [
            ProcessState(bytes[0]),
            ProcessState(bytes[1]),
            ProcessState(bytes[2]),
            ProcessState(bytes[3]),
        ],
        environment: bytes[4],
    }
}

fn bytes_of(desk: Desk) -> [u8; 5]
    ensures { result ≡ bytes_of desk }
{
    let states = desk.states;
    [
        states[0].0,
        states[1].0,
        states[2].0,
        states[3].0,
        desk.environment,
    ]
}

// ---- the calls
#[unsafe(no_mangle)]
pub extern "C" fn soclethyme_check(sheet: &[u8]) -> u32
    ensures { result ≡ reply_code (check_of sheet.now) }
{
    reply_code(planner::check(sheet))
}

#[unsafe(no_mangle)]
pub extern "C" fn soclethyme_find(sheet: &[u8], book: &mut [u8], annotation: &mut [u16]) -> u32
    ensures value { result ≡ outcome_code (find_of sheet.now book.old annotation.old).answer }
    ensures book_after { book.new ≡ (find_of sheet.now book.old annotation.old).book }
    ensures annotation_after { annotation.new ≡ (find_of sheet.now book.old annotation.old).annotation }
{
    match planner::find(sheet, book, annotation) {
        Ok(Found::Tables) => 0,
        Ok(Found::Nothing) => 256,
        Err(refusal) => refusal.number(),
    }
}

#[unsafe(no_mangle)]
pub extern "C" fn soclethyme_write(sheet: &[u8], tables: &[u8; 272], book: &mut [u8]) -> u32
    ensures value { result ≡ reply_code (write_of sheet.now tables.now book.old).answer }
    ensures book_after { book.new ≡ (write_of sheet.now tables.now book.old).book }
{
    reply_code(planner::write(sheet, tables, book))
}

// A refusal leaves the tables as they were.
#[unsafe(no_mangle)]
pub extern "C" fn soclethyme_read(sheet: &[u8], book: &[u8], tables: &mut [u8; 272]) -> u32
    ensures value { result ≡ reply_code (read_of sheet.now book.now).answer }
    ensures tables_after { tables.new ≡ tables_after (read_of sheet.now book.now) tables.old }
{
    match planner::read(sheet, book) {
        Ok(new) => {
            *tables = new;
            0
        }
        Err(refusal) => refusal.number(),
    }
}

#[unsafe(no_mangle)]
pub extern "C" fn soclethyme_part(sheet: &[u8], book: &[u8], process: usize) -> u32
    ensures { result ≡ part_code (part_of sheet.now book.now process) }
{
    match planner::range(sheet, book, process) {
        Ok(part) => part.end as u32 * 65536 + part.start as u32,
        Err(refusal) => refusal.number(),
    }
}

#[unsafe(no_mangle)]
pub extern "C" fn soclethyme_judge(sheet: &[u8], book: &[u8], annotation: &[u16]) -> u32
    ensures { result ≡ verdict_code (judge_of sheet.now book.now annotation.now) }
{
    match planner::judge(sheet, book, annotation) {
        Ok(Finding::Yes) => 0,
        Ok(Finding::No) => 256,
        Err(refusal) => refusal.number(),
    }
}

// The two lengths are written on `loop` only.
#[unsafe(no_mangle)]
pub extern "C" fn soclethyme_annotate(
    sheet: &[u8],
    book: &[u8],
    annotation: &mut [u16],
    path: &mut [u8],
    lengths: &mut [u32; 2],
) -> u32
    ensures value { result ≡ verdict_code (annotate_of sheet.now book.now annotation.old path.old).answer }
    ensures annotation_after { annotation.new ≡ (annotate_of sheet.now book.now annotation.old path.old).annotation }
    ensures run_after { RunAfter sheet.now book.now annotation.old path.old lengths.old path.new lengths.new }
{
    match planner::annotate(sheet, book, annotation, path) {
        Ok(Annotated::Keeps) => 0,
        Ok(Annotated::Loop(run)) => {
            *lengths = [run.stem as u32, run.cycle as u32];
            256
        }
        Err(refusal) => refusal.number(),
    }
}

#[unsafe(no_mangle)]
pub extern "C" fn soclethyme_fresh(sheet: &[u8], desk: &mut [u8; 5]) -> u32
    ensures value { result ≡ reply_code (fresh_of sheet.now (desk_of desk.old)).answer }
    ensures desk_after { desk.new ≡ bytes_of (fresh_of sheet.now (desk_of desk.old)).desk }
{
    match planner::fresh(sheet, desk_of(*desk)) {
        Ok(fresh) => {
            *desk = bytes_of(fresh);
            0
        }
        Err(refusal) => refusal.number(),
    }
}

#[unsafe(no_mangle)]
pub extern "C" fn soclethyme_step(
    sheet: &[u8],
    book: &[u8],
    desk: &mut [u8; 5],
    direction: u8,
) -> u32
    ensures value { result ≡ shown_code (step_of sheet.now book.now (desk_of desk.old) direction).answer }
    ensures desk_after { desk.new ≡ bytes_of (step_of sheet.now book.now (desk_of desk.old) direction).desk }
{
    match planner::step_by_value(sheet, book, desk_of(*desk), direction) {
        Ok(next) => {
            *desk = bytes_of(next.desk);
            65536 + next.label as u32
        }
        Err(refusal) => refusal.number(),
    }
}

#[unsafe(no_mangle)]
pub extern "C" fn soclethyme_join(first: &[u8], second: &[u8], sheet: &mut [u8]) -> u32
    ensures value { result ≡ written_code (join_of first.now second.now sheet.old).answer }
    ensures sheet_after { sheet.new ≡ (join_of first.now second.now sheet.old).sheet }
{
    match planner::join(first, second, sheet) {
        Ok(length) => 65536 + length as u32,
        Err(refusal) => refusal.number(),
    }
}
