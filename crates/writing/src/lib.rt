// Writing a sheet: an automaton's records, and EN, behind the records before AU. Each function answers the index behind what it wrote.
#![tactic(auto)]

ghost use Rattle.std.specs.Prelude.{◌++◌, ◌+◌, ◌≤◌, length};
ghost use Rattle.model.specs.Reading.{EN as mark_en};
ghost use Rattle.model.specs.SheetFile.{edge_mark, edge_bytes, edges_bytes, states_bytes, automaton_bytes};
ghost use Rattle.append.specs.Appends.{Appends};
ghost use Rattle.automaton.specs.Struct.{Arrays, edge_of, first_in, automaton_of};

use append::put_all;
use automaton::{Automaton, Edge};
use sheet::{AU, ED, EN, EX};

// The mark of an edge, by its kind.
fn put_mark(sheet: &mut [u8], at: usize, unless: bool) -> usize
    requires { at + 2 ≤ length sheet.old }
    ensures { Appends sheet.old at (edge_mark unless) result sheet.new }
{
    put_all(sheet, at, if unless { &EX } else { &ED })
}

// An ED or EX.
fn put_edge(sheet: &mut [u8], at: usize, edge: Edge) -> usize
    requires { at + length (edge_bytes (edge_of edge)) ≤ length sheet.old }
    ensures { Appends sheet.old at (edge_bytes (edge_of edge)) result sheet.new }
{
    let after_mark = put_mark(sheet, at, edge.unless);
    put_all(
        sheet,
        after_mark,
        &[edge.from.0, edge.to.0, edge.on, edge.off],
    )
}

// All of them, in file order.
fn put_edges(sheet: &mut [u8], start: usize, u: Automaton) -> usize
    requires arrays { Arrays u }
    requires edges_in_bounds { start + length (edges_bytes (first_in u u.edges)) ≤ length sheet.old }
    ensures { Appends sheet.old start (edges_bytes (first_in u u.edges)) result sheet.new }
{
    let mut at = start;
    for i in 0..u.edges {
        at = put_edge(sheet, at, u.edge(i));
    }
    at
}

// AU: the low byte of the rejecting mask comes first.
fn put_states(sheet: &mut [u8], at: usize, u: Automaton) -> usize
    requires { at + length (states_bytes (automaton_of u)) ≤ length sheet.old }
    ensures { Appends sheet.old at (states_bytes (automaton_of u)) result sheet.new }
{
    let after_mark = put_all(sheet, at, &AU);
    let [low, high] = u.rejecting.to_le_bytes();
    put_all(sheet, after_mark, &[u.states, u.initial.0, low, high])
}

// The records before AU, byte by byte: between two buffers that are lent, put_all calls memmove, which the library asks of no linker.
fn put_front(sheet: &mut [u8], front: &[u8]) -> usize
    requires { length front.now ≤ length sheet.old }
    ensures { Appends sheet.old 0 front.now result sheet.new }
{
    for k in 0..front.len() {
        sheet[k] = front[k];
    }
    front.len()
}

// A whole sheet: these bytes, which are the records before AU, then AU, every ED and EX, and EN.
pub fn put_sheet(sheet: &mut [u8], front: &[u8], u: Automaton) -> usize
    requires arrays { Arrays u }
    requires mark_en_in_bounds { length (front.now ++ automaton_bytes (automaton_of u) ++ mark_en) ≤ length sheet.old }
    ensures { Appends sheet.old 0 (front.now ++ automaton_bytes (automaton_of u) ++ mark_en) result sheet.new }
{
    let after_front = put_front(sheet, front);
    let after_states = put_states(sheet, after_front, u);
    let after_edges = put_edges(sheet, after_states, u);
    put_all(sheet, after_edges, &EN)
}
