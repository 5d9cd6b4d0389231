// Books: writing tables, reading them back, and the part of one process.
#![tactic(auto)]

ghost use Rattle.std.specs.Prelude.{◌≡◌, ◌≤◌, length};
ghost use Rattle.model.specs.Book as model;
ghost use Rattle.model.specs.Calls.{written_for, wrote, gave, part_for, cut};
ghost use Rattle.architecture.specs.Struct.{IsProper, architecture_of, processes_in};
ghost use Rattle.book.specs.Answers.{after_read, after_part, fitting_by};

mod walk;

use architecture::Architecture;
use model::Refusal;
use walk::{is_malformed, put_bytes, take_entries};

// Where the records of a process are in a book.
#[derive(Clone, Copy)]
pub struct Part {
    pub start: usize,
    pub end: usize,
}

// Of a proper sheet: the book of the tables goes to the front of the buffer.
pub fn write_for(a: Architecture, tables: &[u8; 272], book: &mut [u8]) -> Result<(), Refusal>
    requires { IsProper a }
    ensures value { result ≡ (wrote (written_for (architecture_of a) tables.now book.old) book.old).answer }
    ensures book_after { book.new ≡ (wrote (written_for (architecture_of a) tables.now book.old) book.old).book }
{
    if ties::entry_fault(a, tables) {
        return Err(Refusal::BadEntry);
    }
    let mut slots = [0u16; 338];
    let n = layout::fill_slots(&mut slots, a);
    if book.len() < n {
        return Err(Refusal::BufferTooShort);
    }
    put_bytes(book, &slots, n, tables);
    Ok(())
}

// The tables, unless an entry has a value that it may not have.
fn fitting(a: Architecture, tables: [u8; 272]) -> Result<[u8; 272], Refusal>
    requires proper { IsProper a }
    requires tables_len { length tables ≡ 272 }
    ensures { result ≡ fitting_by (architecture_of a) tables }
{
    if ties::entry_fault(a, &tables) {
        return Err(Refusal::BadEntry);
    }
    Ok(tables)
}

// Of a proper sheet: the tables of the book.
pub fn read_for(a: Architecture, book: &[u8]) -> Result<[u8; 272], Refusal>
    requires { IsProper a }
    ensures { after_read result ≡ gave (model.read_book (architecture_of a) book.now) }
{
    let mut slots = [0u16; 338];
    let n = layout::fill_slots(&mut slots, a);
    if is_malformed(&slots, n, book) {
        return Err(Refusal::BadBook);
    }
    let mut tables = [0u8; 272];
    take_entries(&mut tables, &slots, n, book);
    fitting(a, tables)
}

// Where the records of process i begin.
fn part_start(a: Architecture, i: usize) -> usize
    requires proper { IsProper a }
    requires i_le_processes { i ≤ a.processes }
    ensures { result ≡ model.part_start (processes_in a) i }
{
    let mut at = 0;
    for k in 0..i {
        at += a.bound_of(k) * (4 + architecture::row_length(a.inputs_of(k)));
    }
    at
}

// Of a proper sheet: where the records of process i are in the book.
pub fn range_for(a: Architecture, book: &[u8], i: usize) -> Result<Part, Refusal>
    requires { IsProper a }
    ensures { after_part result ≡ cut (part_for (architecture_of a) book.now i) i }
{
    if a.processes <= i {
        return Err(Refusal::NoSuchProcess);
    }
    read_for(a, book)?;
    Ok(Part {
        start: part_start(a, i),
        end: part_start(a, i + 1),
    })
}
