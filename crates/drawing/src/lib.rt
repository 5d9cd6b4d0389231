// What the drawing program prints: a sheet, and with a book its tables, as one graph for Graphviz.
#![tactic(auto)]

ghost use Rattle.std.specs.Prelude.{◌≡◌, [], ◌+◌, ◌<◌, ◌≤◌, eqb, length};
ghost use Rattle.model.specs.Mask.{if};
ghost use Rattle.model.specs.Choice.{entries as entries_of};
ghost use Rattle.architecture.specs.Struct.{IsProper, architecture_of, process_in, processes_in, first_in, entries_of as start_of};
ghost use Rattle.automaton.specs.Struct.{Arrays, automaton_of};
ghost use Rattle.sheet.specs.Struct.{IsProper as Proper, sheet_of};
ghost use Rattle.append.specs.Appends.{Appends};
ghost use Rattle.template.specs.Holds.{Holds};
ghost use Rattle.drawing.specs.Drawing as spec;

use append::put_all;
use architecture::Architecture;
use automaton::Automaton;
use model::{AutomatonState, ProcessState};
use sheet::Sheet;
use template::put_filled;

// ---- the automaton: each function that puts something answers the index behind it
// A state; a rejecting one has two circles.
fn put_state(text: &mut [u8], at: usize, q: AutomatonState, is_rejecting: bool) -> usize
    requires { at + length (spec.state_text q.0 is_rejecting) ≤ length text.old }
    ensures { Appends text.old at (spec.state_text q.0 is_rejecting) result text.new }
{
    let n = q.0 as usize;
    if is_rejecting {
        return put_filled(
            text,
            at,
            b"        q# [label=\"#\", shape=doublecircle];\n",
            &[n, n],
        );
    }
    put_filled(text, at, b"        q# [label=\"#\"];\n", &[n, n])
}

// All states: each number below their count is made an automaton state.
fn put_states(text: &mut [u8], start: usize, states: u8, rejecting: u16) -> usize
    requires { start + length (spec.states_text states rejecting) ≤ length text.old }
    ensures { Appends text.old start (spec.states_text states rejecting) result text.new }
{
    let mut left = rejecting;
    let mut at = start;
    for q in 0..states {
        at = put_state(text, at, AutomatonState(q), left % 2 == 1);
        left /= 2;
    }
    at
}

// The front of its cluster.
fn put_automaton_front(text: &mut [u8], at: usize, initial: AutomatonState) -> usize
    requires { at + length (spec.automaton_front initial.0) ≤ length text.old }
    ensures { Appends text.old at (spec.automaton_front initial.0) result text.new }
{
    put_filled(
        text,
        at,
        b"    subgraph cluster_automaton {\n        label=\"automaton (two circles: rejecting)\";\n        q [shape=point];\n        q -> q#;\n",
        &[initial.0 as usize],
    )
}

// Its cluster.
#[tactic(auto, unfolding(crate::specs::Drawing::automaton_text, automaton::specs::Struct::automaton_of))]
fn put_automaton(text: &mut [u8], at: usize, u: Automaton) -> usize
    requires arrays { Arrays u }
    requires u_in_bounds { at + length (spec.automaton_text (automaton_of u)) ≤ length text.old }
    ensures { Appends text.old at (spec.automaton_text (automaton_of u)) result text.new }
{
    let after_front = put_automaton_front(text, at, u.initial);
    let after_states = put_states(text, after_front, u.states, u.rejecting);
    let after_edges = text::put_edges(
        text,
        after_states,
        b"        q# -> q# [label=\"?\"];\n",
        b"        q# -> q# [label=\"unless ?\"];\n",
        u,
    );
    put_all(text, after_edges, b"    }\n")
}

// ---- the moves of a state
// The inputs of an index, on a line of their own.
fn put_condition(text: &mut [u8], at: usize, mask: u8, index: usize) -> usize
    requires { at + length (spec.condition_text mask index) ≤ length text.old }
    ensures { Appends text.old at (spec.condition_text mask index) result text.new }
{
    let on = ties::unpack(mask, index) as usize;
    put_filled(text, at, b"?\\l", &[on, mask as usize - on])
}

// The same, where the next state z is y.
fn put_way(
    text: &mut [u8],
    at: usize,
    mask: u8,
    y: ProcessState,
    z: ProcessState,
    index: usize,
) -> usize
    requires { at + length (if (eqb z.0 y.0) (spec.condition_text mask index) []) ≤ length text.old }
    ensures { Appends text.old at (if (eqb z.0 y.0) (spec.condition_text mask index) []) result text.new }
{
    if z.0 == y.0 {
        return put_condition(text, at, mask, index);
    }
    at
}

// The conditions under which y is next. The next states are bytes, and each is made a process state here.
fn put_conditions(text: &mut [u8], start: usize, mask: u8, y: ProcessState, next: &[u8]) -> usize
    requires { start + length (spec.conditions_text mask y.0 next.now 0) ≤ length text.old }
    ensures { Appends text.old start (spec.conditions_text mask y.0 next.now 0) result text.new }
{
    let mut at = start;
    for (index, &z) in next.iter().enumerate() {
        at = put_way(text, at, mask, y, ProcessState(z), index);
    }
    at
}

// How many of the next states are y.
fn ways(y: ProcessState, next: &[u8]) -> usize
    ensures { result ≡ spec.ways y.0 next.now }
{
    next.iter().filter(|z| **z == y.0).count()
}

// The conditions of a move to y, of which there are n.
fn put_label(text: &mut [u8], at: usize, mask: u8, y: ProcessState, next: &[u8], n: usize) -> usize
    requires n_value { n ≡ spec.ways y.0 next.now }
    requires next_in_bounds { at + length (spec.label_text mask y.0 next.now) ≤ length text.old }
    ensures { Appends text.old at (spec.label_text mask y.0 next.now) result text.new }
{
    if n == next.len() {
        return put_all(text, at, b"true");
    }
    put_conditions(text, at, mask, y, next)
}

// The front of a move of process i from state x to y.
fn put_move_front(text: &mut [u8], at: usize, i: usize, x: ProcessState, y: ProcessState) -> usize
    requires { at + length (spec.move_front i x.0 y.0) ≤ length text.old }
    ensures { Appends text.old at (spec.move_front i x.0 y.0) result text.new }
{
    put_filled(
        text,
        at,
        b"        p#_# -> p#_# [label=\"",
        &[i, x.0 as usize, i, y.0 as usize],
    )
}

// The move, if there is one.
fn put_move(
    text: &mut [u8],
    at: usize,
    i: usize,
    x: ProcessState,
    mask: u8,
    next: &[u8],
    y: ProcessState,
) -> usize
    requires { at + length (spec.move_text i x.0 mask next.now y.0) ≤ length text.old }
    ensures { Appends text.old at (spec.move_text i x.0 mask next.now y.0) result text.new }
{
    let n = ways(y, next);
    if n == 0 {
        return at;
    }
    let after_front = put_move_front(text, at, i, x, y);
    let after_label = put_label(text, after_front, mask, y, next, n);
    put_all(text, after_label, b"\"];\n")
}

// All moves from state x: each number below the bound is made a process state.
fn put_moves(
    text: &mut [u8],
    start: usize,
    i: usize,
    x: ProcessState,
    mask: u8,
    next: &[u8],
    bound: u8,
) -> usize
    requires { start + length (spec.moves_text i x.0 mask next.now bound) ≤ length text.old }
    ensures { Appends text.old start (spec.moves_text i x.0 mask next.now bound) result text.new }
{
    let mut at = start;
    for y in 0..bound {
        at = put_move(text, at, i, x, mask, next, ProcessState(y));
    }
    at
}

// ---- the tables
// State x of process i with its outputs.
fn put_state_front(text: &mut [u8], at: usize, i: usize, x: ProcessState, outputs: u8) -> usize
    requires { at + length (spec.state_front i x.0 outputs) ≤ length text.old }
    ensures { Appends text.old at (spec.state_front i x.0 outputs) result text.new }
{
    let n = x.0 as usize;
    put_filled(
        text,
        at,
        b"        p#_# [label=\"#\\n@\"];\n",
        &[i, n, n, outputs as usize],
    )
}

// The row of process i for its state x.
#[tactic(auto, unfolding(crate::specs::Drawing::row_text))]
fn put_row(
    text: &mut [u8],
    at: usize,
    i: usize,
    x: ProcessState,
    mask: u8,
    bound: u8,
    row: &[u8],
) -> usize
    requires row_in_bounds { at + length (spec.row_text i mask bound x.0 row.now) ≤ length text.old }
    requires row_nonzero { 0 < length row.now }
    ensures { Appends text.old at (spec.row_text i mask bound x.0 row.now) result text.new }
{
    let after_state = put_state_front(text, at, i, x, row[0]);
    put_moves(text, after_state, i, x, mask, &row[1..], bound)
}

// The rows of process i: each number below the bound is made a process state.
fn put_rows(text: &mut [u8], start: usize, a: Architecture, i: usize, tables: &[u8]) -> usize
    requires proper { IsProper a }
    requires i_lt_processes { i < a.processes }
    requires a_in_bounds { length (entries_of (architecture_of a)) ≤ length tables.now }
    requires i_in_bounds { start + length (spec.rows_text tables.now i (process_in a i) (start_of (first_in a i))) ≤ length text.old }
    ensures { Appends text.old start (spec.rows_text tables.now i (process_in a i) (start_of (first_in a i))) result text.new }
{
    let mask = a.inputs_of(i);
    let bound = a.bound_of(i) as u8;
    let mut at = start;
    for x in 0..bound {
        let state = ProcessState(x);
        at = put_row(
            text,
            at,
            i,
            state,
            mask,
            bound,
            text::row_of(a, i, state, tables),
        );
    }
    at
}

// The front of the cluster of process i.
fn put_table_front(text: &mut [u8], at: usize, a: Architecture, i: usize) -> usize
    requires proper { IsProper a }
    requires i_lt_processes { i < a.processes }
    requires i_in_bounds { at + length (spec.table_front i (process_in a i)) ≤ length text.old }
    ensures { Appends text.old at (spec.table_front i (process_in a i)) result text.new }
{
    let inputs = a.inputs_of(i) as usize;
    let outputs = a.outputs_of(i) as usize;
    let prompts = a.prompts_of(i) as usize;
    if a.prompted_of(i) {
        return put_filled(
            text,
            at,
            b"    subgraph cluster_process_# {\n        label=\"process #: reads @, prompt @, sets @\";\n        p# [shape=point];\n        p# -> p#_0;\n",
            &[i, i, inputs, prompts, outputs, i, i, i],
        );
    }
    put_filled(
        text,
        at,
        b"    subgraph cluster_process_# {\n        label=\"process #: reads @, sets @\";\n        p# [shape=point];\n        p# -> p#_0;\n",
        &[i, i, inputs, outputs, i, i, i],
    )
}

// Its cluster.
#[tactic(auto, unfolding(crate::specs::Drawing::table_text))]
fn put_table(text: &mut [u8], at: usize, a: Architecture, i: usize, tables: &[u8]) -> usize
    requires proper { IsProper a }
    requires i_lt_processes { i < a.processes }
    requires a_in_bounds { length (entries_of (architecture_of a)) ≤ length tables.now }
    requires i_in_bounds { at + length (spec.table_text tables.now i (process_in a i) (start_of (first_in a i))) ≤ length text.old }
    ensures { Appends text.old at (spec.table_text tables.now i (process_in a i) (start_of (first_in a i))) result text.new }
{
    let after_front = put_table_front(text, at, a, i);
    let after_rows = put_rows(text, after_front, a, i, tables);
    put_all(text, after_rows, b"    }\n")
}

// The clusters of all processes.
fn put_tables(text: &mut [u8], start: usize, a: Architecture, tables: &[u8]) -> usize
    requires proper { IsProper a }
    requires a_in_bounds { length (entries_of (architecture_of a)) ≤ length tables.now }
    requires tables_in_bounds { start + length (spec.tables_text (processes_in a) tables.now) ≤ length text.old }
    ensures { Appends text.old start (spec.tables_text (processes_in a) tables.now) result text.new }
{
    let mut at = start;
    for i in 0..a.processes {
        at = put_table(text, at, a, i, tables);
    }
    at
}

// ---- the graph
// Its front, with how large the sheet is.
fn put_graph_front(text: &mut [u8], a: Architecture, states: u8) -> usize
    requires { length (spec.graph_front a.variables a.environment a.processes states) ≤ length text.old }
    ensures { Appends text.old 0 (spec.graph_front a.variables a.environment a.processes states) result text.new }
{
    put_filled(
        text,
        0,
        b"digraph sheet {\n    rankdir=LR;\n    labelloc=t;\n    label=\"variables #, of the environment #; processes #; automaton states #\";\n    node [shape=circle];\n",
        &[
            a.variables as usize,
            a.environment as usize,
            a.processes,
            states as usize,
        ],
    )
}

// The front and the automaton.
fn put_start(text: &mut [u8], sheet: Sheet) -> usize
    requires proper { Proper sheet }
    requires sheet_in_bounds { length (spec.start_text (sheet_of sheet)) ≤ length text.old }
    ensures { Appends text.old 0 (spec.start_text (sheet_of sheet)) result text.new }
{
    let a = sheet.architecture;
    let u = sheet.automaton;
    let after_front = put_graph_front(text, a, u.states);
    put_automaton(text, after_front, u)
}

// A proper sheet alone, at the front of the buffer: answers the length of the text.
pub fn sheet_text(text: &mut [u8], sheet: Sheet) -> usize
    requires in_bounds { 65536 ≤ length text.old }
    requires proper { Proper sheet }
    ensures { Holds text.new result (spec.sheet_text (sheet_of sheet)) }
{
    let after_start = put_start(text, sheet);
    put_all(text, after_start, b"}\n")
}

// A proper sheet and its tables.
pub fn book_text(text: &mut [u8], sheet: Sheet, tables: &[u8]) -> usize
    requires in_bounds { 65536 ≤ length text.old }
    requires proper { Proper sheet }
    requires architecture_in_bounds { length (entries_of (architecture_of sheet.architecture)) ≤ length tables.now }
    ensures { Holds text.new result (spec.book_text (sheet_of sheet) tables.now) }
{
    let a = sheet.architecture;
    let after_start = put_start(text, sheet);
    let after_tables = put_tables(text, after_start, a, tables);
    put_all(text, after_tables, b"}\n")
}
