// Why a call was refused, in words, on standard error: the programs share it. Standard output has the refusal's number alone.
#![tactic(auto)]

ghost use Rattle.std.specs.Prelude.{◌≡◌};
ghost use Rattle.model.specs.Calls.{check_of};
ghost use Rattle.cause.specs.Fault.{faulty, FaultEnds};

use model::Refusal;
use std::env::Env;

// Is a whole record of these bytes at fault?
fn is_faulty(sheet: &[u8]) -> bool
    ensures { result ≡ faulty (check_of sheet.now) }
{
    match planner::check(sheet) {
        Ok(()) => false,
        Err(refusal) => 1 < refusal.number(),
    }
}

// How many bytes of the sheet end with its first faulty record; all where none is faulty.
pub fn fault_end(sheet: &[u8]) -> usize
    ensures { FaultEnds sheet.now result }
{
    for n in 0..sheet.len() {
        if is_faulty(&sheet[..n]) {
            return n;
        }
    }
    sheet.len()
}

// ---- the words
fn say(rt: &impl Eprint, text: &[u8]) {
    input::say(rt, text);
}

fn say_cause(rt: &impl Eprint, refusal: Refusal) {
    match refusal {
        Refusal::SheetTooShort => say(rt, b"the sheet ends within a record, or before EN"),
        Refusal::WrongMark => say(rt, b"a mark may not stand there, or bytes follow EN"),
        Refusal::BadArchitecture => say(rt, b"a field of AR is outside the rules"),
        Refusal::BadProcess => say(
            rt,
            b"a field of a PR or PM is outside the rules, or an output is taken",
        ),
        Refusal::NoOwnerOrTooMany => say(
            rt,
            b"a variable has no owner, or there are more than 256 composed states",
        ),
        Refusal::BadAutomaton => say(rt, b"a field of AU is outside the rules"),
        Refusal::BadEdge => say(rt, b"a field of an ED or EX is outside the rules"),
        Refusal::BufferTooShort => say(rt, b"the buffer for the book or the sheet is too short"),
        Refusal::AnnotationBufferTooShort => say(rt, b"the annotation is too short"),
        Refusal::BadBook => say(
            rt,
            b"the book has the wrong length, or a byte other than the one due",
        ),
        Refusal::BadEntry => say(
            rt,
            b"an entry has a value that it may not have, or a tie is broken",
        ),
        Refusal::NoSuchProcess => say(rt, b"there is no process of that number"),
        Refusal::PathBufferTooShort => say(rt, b"the path buffer is too short"),
        Refusal::BadDirectionOrDesk => say(rt, b"the direction or the desk does not fit the sheet"),
        Refusal::BadTie => say(
            rt,
            b"an SY names a process that there is not, one process twice, or two that do not match",
        ),
        Refusal::FrontsDiffer => say(
            rt,
            b"the records before AU are not those of the first sheet",
        ),
        Refusal::JoinTooLarge => say(
            rt,
            b"joined with the first sheet there are more than 16 states or 64 edges",
        ),
        Refusal::BadPrompt => say(
            rt,
            b"a prompt input of a PM is no input, or no output of a lower process",
        ),
    }
}

// Where the sheet is at fault.
fn say_place(rt: &impl Eprint, refusal: Refusal, sheet: &[u8]) {
    match refusal {
        Refusal::SheetTooShort => say(rt, b": after byte "),
        Refusal::WrongMark => say(rt, b": at byte "),
        _ => say(rt, b": in the record that ends at byte "),
    }
    let _ = eprint!(rt; "{}", fault_end(sheet));
}

// A fault of the sheet itself.
fn is_of_sheet(refusal: Refusal) -> bool {
    matches!(
        refusal,
        Refusal::SheetTooShort
            | Refusal::WrongMark
            | Refusal::BadArchitecture
            | Refusal::BadProcess
            | Refusal::NoOwnerOrTooMany
            | Refusal::BadAutomaton
            | Refusal::BadEdge
            | Refusal::BadTie
            | Refusal::BadPrompt
    )
}

// The argument that names the file at fault: sheet, book and annotation are the first, the second and the third of every program.
fn culprit(refusal: Refusal) -> usize {
    match refusal {
        Refusal::AnnotationBufferTooShort => 3,
        _ if is_of_sheet(refusal) => 1,
        _ => 2,
    }
}

// The line for a refusal for which the file that argument i names is at fault.
fn explain_file<R: Env + Eprint>(rt: &R, i: usize, refusal: Refusal, sheet: &[u8]) {
    input::print_name(rt, i);
    say(rt, b": ");
    say_cause(rt, refusal);
    if is_of_sheet(refusal) {
        say_place(rt, refusal, sheet);
    }
    say(rt, b"\n");
}

// The line for a refusal.
pub fn explain<R: Env + Eprint>(rt: &R, refusal: Refusal, sheet: &[u8]) {
    explain_file(rt, culprit(refusal), refusal, sheet);
}

// The line for a sheet that is refused; none for a proper one.
pub fn explain_sheet<R: Env + Eprint>(rt: &R, sheet: &[u8]) {
    if let Err(refusal) = planner::check(sheet) {
        explain(rt, refusal, sheet);
    }
}

// The line for a sheet or a book that is refused; none for proper ones.
pub fn explain_book<R: Env + Eprint>(rt: &R, sheet: &[u8], book: &[u8]) {
    if let Err(refusal) = planner::read(sheet, book) {
        explain(rt, refusal, sheet);
    }
}

// The line for two sheets that are not joined: the first is at fault only by itself.
pub fn explain_joining<R: Env + Eprint>(rt: &R, refusal: Refusal, first: &[u8], second: &[u8]) {
    match planner::check(first) {
        Ok(()) => explain_file(rt, 2, refusal, second),
        Err(_) => explain_file(rt, 1, refusal, first),
    }
}
