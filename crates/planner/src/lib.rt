// The public calls. Each takes whatever comes, and its contract says what it answers and what each lent buffer then holds.
#![tactic(auto)]

ghost use Rattle.std.specs.Prelude.{◌≡◌};
ghost use Rattle.model.specs.Calls.{check_of, find_of, write_of, read_of, part_of, judge_of, annotate_of, AnnotatePath, join_of};
ghost use Rattle.model.specs.Calls.{part as part_in};
ghost use Rattle.model.specs.Desk.{after_fresh, after_step, fresh_of, step_of};
ghost use Rattle.book.specs.Answers.{after_read, after_part};
ghost use Rattle.judging.specs.Answers.{verdict_of, after_path};

use book::Part;
use judging::Annotated;
use model::{Desk, Finding, Found, Refusal, Stepped};

// A proper sheet, or the refusal of its first fault.
pub fn check(sheet: &[u8]) -> Result<(), Refusal>
    ensures { result ≡ check_of sheet.now }
{
    sheet::read(sheet)?;
    Ok(())
}

// Finds the first tables that keep the sheet: their book and annotation go to the fronts of the buffers. `none` writes nothing.
pub fn find(sheet: &[u8], book: &mut [u8], annotation: &mut [u16]) -> Result<Found, Refusal>
    ensures value { result ≡ (find_of sheet.now book.old annotation.old).answer }
    ensures book_after { book.new ≡ (find_of sheet.now book.old annotation.old).book }
    ensures annotation_after { annotation.new ≡ (find_of sheet.now book.old annotation.old).annotation }
{
    let read = sheet::read(sheet)?;
    synthesis::find_for(read, book, annotation)
}

// Writes the book of these tables at the front of the buffer, or refuses and leaves it.
pub fn write(sheet: &[u8], tables: &[u8; 272], book: &mut [u8]) -> Result<(), Refusal>
    ensures value { result ≡ (write_of sheet.now tables.now book.old).answer }
    ensures book_after { book.new ≡ (write_of sheet.now tables.now book.old).book }
{
    let read = sheet::read(sheet)?;
    book::write_for(read.architecture, tables, book)
}

// The tables of a book: its entries in order, and 0 behind them.
pub fn read(sheet: &[u8], book: &[u8]) -> Result<[u8; 272], Refusal>
    ensures { after_read result ≡ read_of sheet.now book.now }
{
    let read = sheet::read(sheet)?;
    book::read_for(read.architecture, book)
}

// Where the records of a process are in the book.
pub fn range(sheet: &[u8], book: &[u8], process: usize) -> Result<Part, Refusal>
    ensures { after_part result ≡ part_of sheet.now book.now process }
{
    let read = sheet::read(sheet)?;
    book::range_for(read.architecture, book, process)
}

// The records of a process: a part of the book itself, empty where it is refused; `range` says why.
pub fn part<'a>(sheet: &[u8], book: &'a [u8], process: usize) -> &'a [u8]
    ensures { result.now ≡ part_in (part_of sheet.now book.now process) book.now }
{
    match range(sheet, book, process) {
        Ok(range) => &book[range.start..range.end],
        Err(_) => &book[..0],
    }
}

// Is the annotation of this book valid? Longer ones are used at the front only.
pub fn judge(sheet: &[u8], book: &[u8], annotation: &[u16]) -> Result<Finding, Refusal>
    ensures { result ≡ judge_of sheet.now book.now annotation.now }
{
    let read = sheet::read(sheet)?;
    judging::judge_for(read, book, annotation)
}

// Annotates the book: the annotation goes to the front of its buffer; or `loop` where a rejecting loop is reachable, with a run that shows it at the
// front of the path, each step as its direction and its edge, and how many steps its two parts have.
pub fn annotate(
    sheet: &[u8],
    book: &[u8],
    annotation: &mut [u16],
    path: &mut [u8],
) -> Result<Annotated, Refusal>
    ensures verdict_value { verdict_of result ≡ (annotate_of sheet.now book.now annotation.old path.old).answer }
    ensures annotation_after { annotation.new ≡ (annotate_of sheet.now book.now annotation.old path.old).annotation }
    ensures annotate_path { AnnotatePath sheet.now book.now annotation.old path.old (after_path result path.new) }
{
    let read = sheet::read(sheet)?;
    judging::annotate_for(read, book, annotation, path)
}

// Makes a desk fresh: the sheet's processes in state 0, and the root mask. The places of processes that the sheet lacks are as they came.
pub fn fresh(sheet: &[u8], desk: Desk) -> Result<Desk, Refusal>
    ensures { after_fresh result desk ≡ fresh_of sheet.now desk }
{
    let read = sheet::read(sheet)?;
    Ok(desk::fresh_for(read.architecture, desk))
}

// The desk after one direction, and its new label.
pub fn step_by_value(
    sheet: &[u8],
    book: &[u8],
    desk: Desk,
    direction: u8,
) -> Result<Stepped, Refusal>
    ensures { after_step result desk ≡ step_of sheet.now book.now desk direction }
{
    let read = sheet::read(sheet)?;
    desk::step_for(read.architecture, book, desk, direction)
}

// Moves the desk that is lent on by one direction, and answers its new label.
pub fn step(sheet: &[u8], book: &[u8], desk: &mut Desk, direction: u8) -> Result<u8, Refusal>
    ensures { (result ≡ (step_of sheet.now book.now desk.old direction).answer)
        × (desk.new ≡ (step_of sheet.now book.now desk.old direction).desk) }
{
    let next = step_by_value(sheet, book, *desk, direction)?;
    *desk = next.desk;
    Ok(next.label)
}

// Joins two sheets with the same machines: both as one go to the front of the buffer, and how many bytes they have is answered.
pub fn join(first: &[u8], second: &[u8], sheet: &mut [u8]) -> Result<u16, Refusal>
    ensures value { result ≡ (join_of first.now second.now sheet.old).answer }
    ensures sheet_after { sheet.new ≡ (join_of first.now second.now sheet.old).sheet }
{
    let one = sheet::read(first)?;
    let other = sheet::read(second)?;
    joining::join_for(first, one, second, other, sheet)
}
