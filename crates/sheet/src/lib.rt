// The sheet file: its marks, and reading it into a struct up to its first fault in file order.
#![tactic(auto)]

ghost use Rattle.std.specs.Prelude.{◌≡◌, ◌≤◌, length, IfOk, Ok};
ghost use Rattle.model.specs.Reading.{marked, read_front, read_sheet};
ghost use Rattle.model.specs.Calls.{reply};
ghost use Rattle.model.specs.BenchCases.{sheet_a};
ghost use Rattle.sheet.specs.Struct.{Arrays, FrontKnown, front_of, reading_of};

mod behind;
mod faults;
mod front;
mod tied;

use architecture::Architecture;
use automaton::Automaton;
use behind::read_automaton;
use faults::ar_fault;
use front::{opened, read_processes};
use model::Refusal;
use tied::read_ties;

// Each record opens with one of these marks.
pub const AR: [u8; 2] = *b"AR";

pub const PR: [u8; 2] = *b"PR";

pub const PM: [u8; 2] = *b"PM";

pub const SY: [u8; 2] = *b"SY";

pub const AU: [u8; 2] = *b"AU";

pub const ED: [u8; 2] = *b"ED";

pub const EX: [u8; 2] = *b"EX";

pub const EN: [u8; 2] = *b"EN";

// An architecture with its state bounds, and an automaton.
#[derive(Clone, Copy)]
pub struct Sheet {
    pub architecture: Architecture,
    pub automaton: Automaton,
}

// AR, the PR and PM and the SY records: where the record behind them begins, the mask of all outputs, and the count of composed states.
#[derive(Clone, Copy)]
pub struct FrontRead {
    pub architecture: Architecture,
    pub end: usize,
    pub owned: u8,
    pub total: u16,
}

// The mark stands at `at`, whole.
#[tactic(auto, using(crate::proofs::Marks::starts_marked))]
pub fn is_marked(sheet: &[u8], at: usize, mark: &[u8; 2]) -> bool
    requires { at ≤ length sheet.now }
    ensures { result ≡ marked sheet.now at mark.now }
{
    sheet[at..].starts_with(mark)
}

// The architecture that the bytes begin with, or its first fault.
#[tactic(auto, using(crate::proofs::RefusalTests::in_order), unfolding(model::specs::Reading::read_front))]
pub fn read_front(sheet: &[u8]) -> Result<FrontRead, Refusal>
    ensures result_value { front_of result ≡ read_front sheet.now }
    ensures front_known { IfOk result (λ front. FrontKnown sheet.now front) }
{
    if sheet.len() < 2 {
        return Err(Refusal::SheetTooShort);
    }
    if !is_marked(sheet, 0, &AR) {
        return Err(Refusal::WrongMark);
    }
    if sheet.len() < 5 {
        return Err(Refusal::SheetTooShort);
    }
    let variables = sheet[2];
    let environment = sheet[3];
    let root = sheet[4];
    if ar_fault(variables, environment, root) {
        return Err(Refusal::BadArchitecture);
    }
    let processes = read_processes(sheet, opened(variables, environment, root, 5))?;
    read_ties(sheet, processes)
}

// The sheet that the bytes stand for, or its first fault.
pub fn read(sheet: &[u8]) -> Result<Sheet, Refusal>
    ensures result_value { reading_of result ≡ read_sheet sheet.now }
    ensures arrays { IfOk result (λ read. Arrays read) }
{
    let front = read_front(sheet)?;
    let automaton = read_automaton(sheet, front)?;
    Ok(Sheet {
        architecture: front.architecture,
        automaton,
    })
}

// Case A: the arbiter with two clients, fully informed.
pub const CASE_A: [u8; 60] = *b"\
    AR\x04\x02\x00PR\x03\x0C\x02AU\x04\x00\x0E\x00\
    ED\x00\x00\x00\x00ED\x00\x03\x0C\x00ED\x00\x01\x01\x00\
    ED\x00\x02\x02\x00ED\x01\x01\x00\x04ED\x02\x02\x00\x08\
    ED\x03\x03\x00\x00EN";

// The computed test of this table, which as a constant has no contract: it is case A of the definitions, and reads as a proper sheet.
#[tactic(auto, unfolding(model::specs::Reading::read_sheet, model::specs::Calls::reply))]
pub fn sheet_a() -> [u8; 60]
    ensures value { result ≡ sheet_a 2 }
    ensures result_value { reply (read_sheet result) ≡ Ok tt }
{
    CASE_A
}
