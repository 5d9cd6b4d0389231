// What the programs print: the tables of a choice, the greatest number of an annotation, one of the short answers, or `refused` and the number.
#![tactic(auto)]

ghost use Rattle.std.specs.Prelude.{◌≡◌, ◌+◌, ◌<◌, ◌≤◌, length, get_or};
ghost use Rattle.theory.specs.Lists.{greatest as greatest_of};
ghost use Rattle.model.specs.Choice.{entries as entries_of};
ghost use Rattle.model.specs.Numbers.{number};
ghost use Rattle.architecture.specs.Struct.{IsProper, architecture_of, process_in, processes_in, first_in, entries_of as start_of};
ghost use Rattle.automaton.specs.Struct.{Arrays, edge_of, first_in as edges_in};
ghost use Rattle.append.specs.Appends.{Appends};
ghost use Rattle.template.specs.Holds.{Holds};
ghost use Rattle.text.specs.Rows.{row_of, fields_text, edge_text, edges_text};
ghost use Rattle.text.specs.Text as spec;

use append::put_all;
use architecture::Architecture;
use automaton::{Automaton, Edge};
use model::{ProcessState, Refusal};
use template::put_filled;

// ---- tables: each function that puts something answers the index behind it
// The row of process i for its state x, a part of the tables.
pub fn row_of(a: Architecture, i: usize, x: ProcessState, tables: &[u8]) -> &[u8]
    requires proper { IsProper a }
    requires i_lt_processes { (i < a.processes) × (x.0 < (process_in a i).bound) }
    requires a_in_bounds { length (entries_of (architecture_of a)) ≤ length tables.now }
    ensures result_value { result.now ≡ row_of (process_in a i) (start_of (first_in a i)) tables.now x.0 }
    ensures result_nonzero { 0 < length result.now }
{
    let from = a.row_at(i, x);
    let end = from + architecture::row_length(a.inputs_of(i));
    &tables[from..end]
}

// A space and a state of a process.
pub fn put_field(text: &mut [u8], at: usize, x: ProcessState) -> usize
    requires { at + length (spec.field x.0) ≤ length text.old }
    ensures { Appends text.old at (spec.field x.0) result text.new }
{
    put_filled(text, at, b" #", &[x.0 as usize])
}

// The next states of a row. They are bytes, and each is made a process state here.
fn put_next(text: &mut [u8], start: usize, next: &[u8]) -> usize
    requires { start + length (spec.fields next.now) ≤ length text.old }
    ensures { Appends text.old start (spec.fields next.now) result text.new }
{
    let mut at = start;
    for &x in next {
        at = put_field(text, at, ProcessState(x));
    }
    at
}

// The front of a row: process, state and output mask.
fn put_head(text: &mut [u8], at: usize, i: usize, x: ProcessState, mask: u8) -> usize
    requires { at + length (spec.head i x.0 mask) ≤ length text.old }
    ensures { Appends text.old at (spec.head i x.0 mask) result text.new }
{
    put_filled(text, at, b"# # %", &[i, x.0 as usize, mask as usize])
}

// The row of process i for its state x.
#[tactic(auto, unfolding(crate::specs::Text::row_text))]
fn put_row(text: &mut [u8], at: usize, i: usize, x: ProcessState, row: &[u8]) -> usize
    requires row_in_bounds { at + length (spec.row_text i x.0 row.now) ≤ length text.old }
    requires row_nonzero { 0 < length row.now }
    ensures { Appends text.old at (spec.row_text i x.0 row.now) result text.new }
{
    let after_head = put_head(text, at, i, x, row[0]);
    let after_next = put_next(text, after_head, &row[1..]);
    put_all(text, after_next, b"\n")
}

// All rows of process i: each number below the bound is made a process state.
fn put_rows(text: &mut [u8], start: usize, a: Architecture, i: usize, tables: &[u8]) -> usize
    requires proper { IsProper a }
    requires i_lt_processes { i < a.processes }
    requires a_in_bounds { length (entries_of (architecture_of a)) ≤ length tables.now }
    requires i_in_bounds { start + length (spec.rows_text tables.now i (process_in a i) (start_of (first_in a i))) ≤ length text.old }
    ensures { Appends text.old start (spec.rows_text tables.now i (process_in a i) (start_of (first_in a i))) result text.new }
{
    let mut at = start;
    for x in 0..a.bound_of(i) {
        let state = ProcessState(x as u8);
        at = put_row(text, at, i, state, row_of(a, i, state, tables));
    }
    at
}

// The rows of all processes.
fn put_tables(text: &mut [u8], start: usize, a: Architecture, tables: &[u8]) -> usize
    requires proper { IsProper a }
    requires a_in_bounds { length (entries_of (architecture_of a)) ≤ length tables.now }
    requires tables_in_bounds { start + length (spec.tables_text (processes_in a) tables.now) ≤ length text.old }
    ensures { Appends text.old start (spec.tables_text (processes_in a) tables.now) result text.new }
{
    let mut at = start;
    for i in 0..a.processes {
        at = put_rows(text, at, a, i, tables);
    }
    at
}

// ---- edges
// The states and the masks of an edge fill the template.
fn put_fields(text: &mut [u8], at: usize, template: &[u8], edge: Edge) -> usize
    requires { at + length (fields_text template.now (edge_of edge)) ≤ length text.old }
    ensures { Appends text.old at (fields_text template.now (edge_of edge)) result text.new }
{
    put_filled(
        text,
        at,
        template,
        &[
            edge.from.0 as usize,
            edge.to.0 as usize,
            edge.on as usize,
            edge.off as usize,
        ],
    )
}

// An edge, by the template of its kind.
fn put_edge(text: &mut [u8], at: usize, ed: &[u8], ex: &[u8], edge: Edge) -> usize
    requires { at + length (edge_text ed.now ex.now (edge_of edge)) ≤ length text.old }
    ensures { Appends text.old at (edge_text ed.now ex.now (edge_of edge)) result text.new }
{
    if edge.unless {
        return put_fields(text, at, ex, edge);
    }
    put_fields(text, at, ed, edge)
}

// All edges, each by the template of its kind.
pub fn put_edges(text: &mut [u8], start: usize, ed: &[u8], ex: &[u8], u: Automaton) -> usize
    requires arrays { Arrays u }
    requires edges_in_bounds { start + length (edges_text ed.now ex.now (edges_in u u.edges)) ≤ length text.old }
    ensures { Appends text.old start (edges_text ed.now ex.now (edges_in u u.edges)) result text.new }
{
    let mut at = start;
    for i in 0..u.edges {
        at = put_edge(text, at, ed, ex, u.edge(i));
    }
    at
}

// ---- the numbers of the first line and the last
// How many rows the tables have.
fn row_count(a: Architecture) -> usize
    requires { IsProper a }
    ensures { result ≡ spec.row_count (processes_in a) }
{
    let mut rows: usize = 0;
    for i in 0..a.processes {
        rows += a.bound_of(i);
    }
    rows
}

// The greatest number of an annotation, where a blank counts for nothing.
fn greatest(annotation: &[u16]) -> u16
    ensures { result ≡ greatest_of spec.unblank annotation.now }
{
    let mut most: u16 = 0;
    for &number in annotation {
        if number != 65535 {
            most = most.max(number);
        }
    }
    most
}

// `greatest` and the greatest number of an annotation.
fn put_greatest(text: &mut [u8], at: usize, annotation: &[u16]) -> usize
    requires { at + length (spec.greatest_text annotation.now) ≤ length text.old }
    ensures { Appends text.old at (spec.greatest_text annotation.now) result text.new }
{
    put_filled(text, at, b"greatest #\n", &[greatest(annotation) as usize])
}

// ---- the texts, each at the front of a buffer with room for it: the functions answer its length
// The tables, between their count and the greatest number.
#[tactic(auto, unfolding(crate::specs::Text::text_of, architecture::specs::Struct::architecture_of))]
fn put_text(text: &mut [u8], a: Architecture, tables: &[u8], annotation: &[u16]) -> usize
    requires proper { IsProper a }
    requires a_in_bounds { length (entries_of (architecture_of a)) ≤ length tables.now }
    requires annotation_in_bounds { length (spec.text_of (architecture_of a) tables.now annotation.now) ≤ length text.old }
    ensures { Appends text.old 0 (spec.text_of (architecture_of a) tables.now annotation.now) result text.new }
{
    let after_count = put_filled(text, 0, b"tables #\n", &[row_count(a)]);
    let after_tables = put_tables(text, after_count, a, tables);
    put_greatest(text, after_tables, annotation)
}

// A found choice.
pub fn tables_text(text: &mut [u8], a: Architecture, tables: &[u8], annotation: &[u16]) -> usize
    requires in_bounds { 2048 ≤ length text.old }
    requires proper { IsProper a }
    requires a_in_bounds { length (entries_of (architecture_of a)) ≤ length tables.now }
    ensures { Holds text.new result (spec.text_of (architecture_of a) tables.now annotation.now) }
{
    put_text(text, a, tables, annotation)
}

// `greatest` and the greatest number of an annotation.
pub fn greatest_text(text: &mut [u8], annotation: &[u16]) -> usize
    requires { 32 ≤ length text.old }
    ensures { Holds text.new result (spec.greatest_text annotation.now) }
{
    put_greatest(text, 0, annotation)
}

// One of the answers that have no number.
pub fn answer_text(text: &mut [u8], answer: &[u8]) -> usize
    requires { length answer.now ≤ length text.old }
    ensures { Holds text.new result answer.now }
{
    put_all(text, 0, answer)
}

// `refused` and the number.
pub fn refused_text(text: &mut [u8], refusal: Refusal) -> usize
    requires { 32 ≤ length text.old }
    ensures { Holds text.new result (spec.refused_text (number refusal)) }
{
    put_filled(text, 0, b"refused #\n", &[refusal.number() as usize])
}
