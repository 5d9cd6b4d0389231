// Finding the first tables that keep a sheet, once the sheet is read.
#![tactic(auto)]

ghost use Rattle.std.specs.Prelude.{◌≡◌, length};
ghost use Rattle.model.specs.Choice.{entries as entries_of, chosen};
ghost use Rattle.model.specs.Reading.{proper};
ghost use Rattle.model.specs.Computed.{annotation as annotation_of};
ghost use Rattle.model.specs.Book.{book_of};
ghost use Rattle.model.specs.Calls.{front, reply, room_to_find, find_in};
ghost use Rattle.architecture.specs.Struct.{architecture_of};
ghost use Rattle.sheet.specs.Struct.{sheet_of, IsProper};
ghost use Rattle.search.specs.Choices.{Witness};
ghost use Rattle.search.specs.Answers.{Leads};

use model::{Found, Refusal};
use sheet::Sheet;

// The entries of the first choice that keeps the sheet, if there is one.
fn first_tables(witness: &mut [u8; 272], sheet: Sheet) -> Found
    requires proper { IsProper sheet }
    requires witness_len { length witness.old ≡ 272 }
    ensures { Leads (sheet_of sheet) witness.new result }
{
    let mut fixed = [0u16; 6416];
    let n = exploration::prepare(&mut fixed, sheet);
    let a = sheet.architecture;
    let mut groups = [0u16; 544];
    search::put_groups(&mut groups, a, n);
    let mut numbers = [0u16; 4096];
    let mut stack = [0u16; 4096];
    let mut waiting = [0u8; 4096];
    let mut targets = [0u16; 4096];
    let mut steps = [0u16; 4096];
    search::first(
        witness,
        n,
        sheet,
        &fixed,
        &groups,
        &mut numbers,
        &mut stack,
        &mut waiting,
        &mut targets,
        &mut steps,
    )
}

// 8 and 9: is there room for the book and for the annotation?
fn check_room(sheet: Sheet, book: &[u8], annotation: &[u16]) -> Result<(), Refusal>
    requires { IsProper sheet }
    ensures { result ≡ reply (room_to_find (sheet_of sheet) book.now annotation.now) }
{
    let a = sheet.architecture;
    let automaton = sheet.automaton;
    let mut slots = [0u16; 338];
    let n = layout::fill_slots(&mut slots, a);
    if book.len() < n {
        return Err(Refusal::BufferTooShort);
    }
    let vertices = automaton.states as usize * a.composed_states();
    if annotation.len() < vertices {
        return Err(Refusal::AnnotationBufferTooShort);
    }
    Ok(())
}

// Of a choice that keeps the sheet: its book and its annotation go to the fronts of the buffers. Where there is room neither is refused.
fn put_found(sheet: Sheet, witness: &[u8; 272], book: &mut [u8], annotation: &mut [u16])
    requires proper { IsProper sheet }
    requires witness { Witness (sheet_of sheet) witness.now }
    requires annotation_value { room_to_find (sheet_of sheet) book.old annotation.old ≡ proper (sheet_of sheet) }
    ensures book_after { book.new ≡ front (book_of (architecture_of sheet.architecture) (chosen (architecture_of sheet.architecture) witness.now)) book.old }
    ensures annotation_after { annotation.new ≡ front (annotation_of (sheet_of sheet) (chosen (architecture_of sheet.architecture) witness.now)) annotation.old }
{
    let a = sheet.architecture;
    let _ = book::write_for(a, witness, book);
    let _ = judging::annotate_tables(sheet, witness, annotation);
}

// Of a proper sheet: the book and the annotation of the first choice that keeps it go to the fronts of the buffers.
pub fn find_for(sheet: Sheet, book: &mut [u8], annotation: &mut [u16]) -> Result<Found, Refusal>
    requires { IsProper sheet }
    ensures value { result ≡ (find_in (room_to_find (sheet_of sheet) book.old annotation.old) book.old annotation.old).answer }
    ensures book_after { book.new ≡ (find_in (room_to_find (sheet_of sheet) book.old annotation.old) book.old annotation.old).book }
    ensures annotation_after { annotation.new ≡ (find_in (room_to_find (sheet_of sheet) book.old annotation.old) book.old annotation.old).annotation }
{
    if let Err(refusal) = check_room(sheet, book, annotation) {
        return Err(refusal);
    }
    let mut witness = [0u8; 272];
    match first_tables(&mut witness, sheet) {
        Found::Nothing => Ok(Found::Nothing),
        Found::Tables => {
            put_found(sheet, &witness, book, annotation);
            Ok(Found::Tables)
        }
    }
}
