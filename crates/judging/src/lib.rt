// Judging a book with an annotation, and annotating a book, once the sheet is read.
#![tactic(auto)]

ghost use Rattle.std.specs.Prelude.{◌≡◌, ◌*◌, ◌≤◌, length, take};
ghost use Rattle.model.specs.Choice.{IsTables, chosen};
ghost use Rattle.model.specs.RunGraph.{vertices, RejectingLoop};
ghost use Rattle.model.specs.Calls.{front, room_for, book_for, judged, annotated, rooms_for, book_and_rooms_for, WritesLasso, PathFor};
ghost use Rattle.architecture.specs.Struct.{architecture_of};
ghost use Rattle.sheet.specs.Struct.{sheet_of, IsProper};
ghost use Rattle.judging.specs.Answers.{verdict_of, after_path};

use annotation::LoopFound;
use lasso::Lengths;
use model::{Finding, Refusal};
use sheet::Sheet;

// What annotating a book answers: an annotation, or `loop` and how many steps the two parts of the run have that is written.
#[derive(Clone, Copy)]
pub enum Annotated {
    Keeps,
    Loop(Lengths),
}

// Of the tables of a choice: is the annotation valid?
fn judge_tables(sheet: Sheet, tables: &[u8], annotation: &[u16]) -> Result<Finding, Refusal>
    requires proper { IsProper sheet }
    requires tables { IsTables (architecture_of sheet.architecture) (chosen (architecture_of sheet.architecture) tables.now) }
    ensures { result ≡ judged (room_for (sheet_of sheet) (chosen (architecture_of sheet.architecture) tables.now) annotation.now) annotation.now }
{
    let mut targets = [0u16; 4096];
    let mut steps = [0u16; 4096];
    let shape = graph::fill(&mut targets, &mut steps, sheet, tables);
    if annotation.len() < shape.states * shape.total {
        return Err(Refusal::AnnotationBufferTooShort);
    }
    if annotation::is_valid(annotation, &targets, &steps, shape) {
        return Ok(Finding::Yes);
    }
    Ok(Finding::No)
}

// Of a proper sheet: is the annotation of the book valid?
pub fn judge_for(sheet: Sheet, book: &[u8], annotation: &[u16]) -> Result<Finding, Refusal>
    requires { IsProper sheet }
    ensures { result ≡ judged (book_for (sheet_of sheet) book.now annotation.now) annotation.now }
{
    let tables = book::read_for(sheet.architecture, book)?;
    judge_tables(sheet, &tables, annotation)
}

// Of the tables of a choice: their annotation, or `loop`.
pub fn annotate_tables(
    sheet: Sheet,
    tables: &[u8],
    annotation: &mut [u16],
) -> Result<Finding, Refusal>
    requires proper { IsProper sheet }
    requires tables { IsTables (architecture_of sheet.architecture) (chosen (architecture_of sheet.architecture) tables.now) }
    ensures value { result ≡ (annotated (room_for (sheet_of sheet) (chosen (architecture_of sheet.architecture) tables.now) annotation.old) annotation.old).answer }
    ensures annotation_after { annotation.new
        ≡ (annotated (room_for (sheet_of sheet) (chosen (architecture_of sheet.architecture) tables.now) annotation.old) annotation.old).annotation }
{
    let mut targets = [0u16; 4096];
    let mut steps = [0u16; 4096];
    let shape = graph::fill(&mut targets, &mut steps, sheet, tables);
    let n = shape.states * shape.total;
    if annotation.len() < n {
        return Err(Refusal::AnnotationBufferTooShort);
    }
    let mut numbers = [0u16; 4096];
    let mut stack = [0u16; 4096];
    let mut waiting = [0u8; 4096];
    match annotation::number(
        &mut numbers,
        &mut stack,
        &mut waiting,
        &targets,
        &steps,
        shape,
    ) {
        Err(LoopFound) => Ok(Finding::No),
        Ok(()) => {
            annotation[..n].copy_from_slice(&numbers[..n]);
            Ok(Finding::Yes)
        }
    }
}

// Of the tables of a choice: their annotation, or `loop` and the run that breaks the sheet.
fn annotate_or_break(
    sheet: Sheet,
    tables: &[u8],
    annotation: &mut [u16],
    path: &mut [u8],
) -> Result<Annotated, Refusal>
    requires proper { IsProper sheet }
    requires tables { IsTables (architecture_of sheet.architecture) (chosen (architecture_of sheet.architecture) tables.now) }
    ensures verdict_value { verdict_of result
        ≡ (annotated (rooms_for (sheet_of sheet) (chosen (architecture_of sheet.architecture) tables.now) annotation.old path.old)
        annotation.old).answer }
    ensures annotation_after { annotation.new
        ≡ (annotated (rooms_for (sheet_of sheet) (chosen (architecture_of sheet.architecture) tables.now) annotation.old path.old)
        annotation.old).annotation }
    ensures path_for { PathFor (rooms_for (sheet_of sheet) (chosen (architecture_of sheet.architecture) tables.now) annotation.old path.old) path.old
        (after_path result path.new) }
{
    if path.len() < 4 * sizes::vertices(sheet) {
        return Err(Refusal::PathBufferTooShort);
    }
    match annotate_tables(sheet, tables, annotation)? {
        Finding::Yes => Ok(Annotated::Keeps),
        Finding::No => Ok(Annotated::Loop(lasso::put_lasso(path, sheet, tables))),
    }
}

// Of a proper sheet: the annotation of the book, or `loop` and the run that breaks the sheet.
pub fn annotate_for(
    sheet: Sheet,
    book: &[u8],
    annotation: &mut [u16],
    path: &mut [u8],
) -> Result<Annotated, Refusal>
    requires { IsProper sheet }
    ensures verdict_value { verdict_of result ≡ (annotated (book_and_rooms_for (sheet_of sheet) book.now annotation.old path.old) annotation.old).answer }
    ensures annotation_after { annotation.new ≡ (annotated (book_and_rooms_for (sheet_of sheet) book.now annotation.old path.old) annotation.old).annotation }
    ensures path_for { PathFor (book_and_rooms_for (sheet_of sheet) book.now annotation.old path.old) path.old (after_path result path.new) }
{
    let tables = book::read_for(sheet.architecture, book)?;
    annotate_or_break(sheet, &tables, annotation, path)
}
