// The layout of a sheet's books, as words: what each byte of a book is.
// A word is 0 at an entry and else the due byte plus one, and no Option: `slot_of`, of which the contract of fill_slots speaks, has this form.
#![tactic(auto)]

ghost use Rattle.std.specs.Prelude.{◌≡◌, suc, ◌+◌, ◌<◌, ◌≤◌, length};
ghost use Rattle.model.specs.Book as book;
ghost use Rattle.architecture.specs.Struct.{IsProper, architecture_of};
ghost use Rattle.append.specs.Appends.{Appends};
ghost use Rattle.layout.specs.Slots.{slots_of, record_codes, process_codes};

use architecture::Architecture;
use model::ProcessState;

// The mark of a book's record.
pub const TB: [u8; 2] = *b"TB";

// A byte that is due, as a word.
fn due(byte: u8) -> u16
    ensures { result ≡ suc byte }
{
    u16::from(byte) + 1
}

// A process's number, as the word of the byte that is due.
fn due_number(n: usize) -> u16
    requires { n < 4 }
    ensures { result ≡ suc n }
{
    n as u16 + 1
}

// The record of process i for its state x.
fn put_record(slots: &mut [u16], at: usize, i: usize, x: ProcessState, row: usize) -> usize
    requires row_in_bounds { at + (4 + row) ≤ length slots.old }
    requires i_bound { i < 4 }
    ensures { Appends slots.old at (record_codes i x.0 row) result slots.new }
{
    let within_mark = append::put(slots, at, due(TB[0]));
    let after_mark = append::put(slots, within_mark, due(TB[1]));
    let after_process = append::put(slots, after_mark, due_number(i));
    let after_state = append::put(slots, after_process, due(x.0));
    append::fill(slots, after_state, 0, row)
}

// All records of process i. The counter runs up to the bound, and is made a process state for each record.
fn put_records(slots: &mut [u16], start: usize, a: Architecture, i: usize) -> usize
    requires proper { IsProper a }
    requires i_lt_processes { i < a.processes }
    requires i_in_bounds { start + length (process_codes a i) ≤ length slots.old }
    ensures { Appends slots.old start (process_codes a i) result slots.new }
{
    let row = architecture::row_length(a.inputs_of(i));
    let mut at = start;
    for x in 0..a.bound_of(i) {
        at = put_record(slots, at, i, ProcessState(x as u8), row);
    }
    at
}

// What each byte of a book is, and how many there are.
pub fn fill_slots(slots: &mut [u16], a: Architecture) -> usize
    requires proper { IsProper a }
    requires in_bounds { 338 ≤ length slots.old }
    ensures value { (result ≡ book.book_length (architecture_of a)) × (result ≤ 338) }
    ensures result_after { slots_of slots.new result ≡ book.form (architecture_of a) }
{
    let mut at = 0;
    for i in 0..a.processes {
        at = put_records(slots, at, a, i);
    }
    let within_end = append::put(slots, at, due(sheet::EN[0]));
    append::put(slots, within_end, due(sheet::EN[1]))
}
