// Behind the front of a sheet: AU, the ED and EX records and EN.
ghost use Rattle.std.specs.Prelude.{◌≡◌, ◌||◌, not, ◌+◌, ◌*◌, ◌<◌, ◌≤◌, eqb, length, IfOk};
ghost use Rattle.model.specs.Reading.{marked, edge_marked, AU as mark_au, edge_at, read_end, read_automaton};
ghost use Rattle.architecture.specs.Struct.{architecture_of};
ghost use Rattle.automaton.specs.Struct.{edge_of, automaton_of, Arrays};
ghost use Rattle.sheet.specs.Struct.{FrontKnown, edge_reading_of, end_reading_of, automaton_reading_of};
ghost use Rattle.sheet.specs.Steps.{edge_tested, edges_from, states_from};

use super::faults::{all_fault, au_fault, ed_fault};
use super::{AU, ED, EN, EX, FrontRead, is_marked};
use automaton::{Automaton, Edge};
use model::{AutomatonState, Refusal};

// The fields of the ED or EX at `at`, and its kind.
fn edge_at(sheet: &[u8], at: usize) -> Edge
    requires { at + 6 ≤ length sheet.now }
    ensures { edge_of result ≡ edge_at sheet.now at }
{
    Edge {
        from: AutomatonState(sheet[at + 2]),
        to: AutomatonState(sheet[at + 3]),
        on: sheet[at + 4],
        off: sheet[at + 5],
        unless: is_marked(sheet, at, &EX),
    }
}

// The ED or EX at `at`, of an automaton with so many states.
#[tactic(auto, using(crate::proofs::RefusalTests::in_order), unfolding(crate::specs::Steps::edge_tested))]
fn read_edge(sheet: &[u8], at: usize, variables: u8, states: u8) -> Result<Edge, Refusal>
    requires { (at ≤ length sheet.now) × (variables ≤ 8) }
    ensures result_value { edge_reading_of result ≡ edge_tested variables states sheet.now at }
    ensures inside { IfOk result (λ _. at + 6 ≤ length sheet.now) }
{
    if sheet.len() - at < 6 {
        return Err(Refusal::SheetTooShort);
    }
    let edge = edge_at(sheet, at);
    if ed_fault(variables, states, edge) {
        return Err(Refusal::BadEdge);
    }
    Ok(edge)
}

// EN, and nothing behind it.
#[tactic(auto, using(crate::proofs::RefusalTests::in_order), unfolding(model::specs::Reading::read_end))]
fn read_end(sheet: &[u8], at: usize) -> Result<(), Refusal>
    requires { at ≤ length sheet.now }
    ensures { end_reading_of result ≡ read_end sheet.now at }
{
    if sheet.len() - at < 2 {
        return Err(Refusal::SheetTooShort);
    }
    if !is_marked(sheet, at, &EN) || 2 < sheet.len() - at {
        return Err(Refusal::WrongMark);
    }
    Ok(())
}

// An edge of either kind opens at `at`.
#[tactic(auto, unfolding(model::specs::Reading::edge_marked))]
fn is_edge(sheet: &[u8], at: usize) -> bool
    requires { at ≤ length sheet.now }
    ensures { result ≡ edge_marked sheet.now at }
{
    is_marked(sheet, at, &ED) || is_marked(sheet, at, &EX)
}

// From `start` on: the ED and EX records, and EN.
fn read_edges(
    sheet: &[u8],
    start: usize,
    variables: u8,
    first: Automaton,
) -> Result<Automaton, Refusal>
    requires start_in_bounds { (start ≤ length sheet.now) × (variables ≤ 8) }
    requires arrays { Arrays first }
    requires edges_value { first.edges ≡ 0 }
    ensures result_value { automaton_reading_of result ≡ edges_from 64 variables (automaton_of first) sheet.now start }
    ensures result_arrays { IfOk result (λ read. Arrays read) }
{
    let mut read = first;
    let mut at = start;
    for _ in 0usize..64 {
        if !is_edge(sheet, at) {
            break;
        }
        let edge = read_edge(sheet, at, variables, read.states)?;
        read = read.with_edge(edge);
        at += 6;
    }
    read_end(sheet, at)?;
    Ok(read)
}

// The fields of the AU at `at`, the ED and EX records and EN.
#[tactic(auto, using(crate::proofs::RefusalTests::in_order), unfolding(crate::specs::Steps::states_from))]
fn read_states(sheet: &[u8], at: usize, variables: u8) -> Result<Automaton, Refusal>
    requires { (at + 6 ≤ length sheet.now) × (variables ≤ 8) }
    ensures result_value { automaton_reading_of result ≡ states_from variables sheet.now at }
    ensures result_arrays { IfOk result (λ read. Arrays read) }
{
    let states = sheet[at + 2];
    let initial = AutomatonState(sheet[at + 3]);
    let rejecting = u16::from_le_bytes([sheet[at + 4], sheet[at + 5]]);
    if au_fault(states, initial, rejecting) {
        return Err(Refusal::BadAutomaton);
    }
    let automaton = Automaton::opened(states, initial, rejecting);
    read_edges(sheet, at + 6, variables, automaton)
}

// No AU stands at `at`, or it may not: no process was read.
fn lacks_automaton(sheet: &[u8], at: usize, processes: usize) -> bool
    requires { at ≤ length sheet.now }
    ensures { result ≡ (not (marked sheet.now at mark_au) || eqb processes 0) }
{
    !is_marked(sheet, at, &AU) || processes == 0
}

// Behind this front: AU, the ED and EX records and EN.
#[tactic(auto, using(crate::proofs::RefusalTests::in_order, crate::proofs::ReadingEdges::automaton_is, architecture::proofs::ProcessesOfArrays::count_is), unfolding(architecture::specs::Struct::architecture_of))]
pub fn read_automaton(sheet: &[u8], front: FrontRead) -> Result<Automaton, Refusal>
    requires { FrontKnown sheet.now front }
    ensures result_value { automaton_reading_of result ≡ read_automaton (architecture_of front.architecture) sheet.now front.end }
    ensures result_arrays { IfOk result (λ read. Arrays read) }
{
    let at = front.end;
    let architecture = front.architecture;
    if sheet.len() - at < 2 {
        return Err(Refusal::SheetTooShort);
    }
    if lacks_automaton(sheet, at, architecture.processes) {
        return Err(Refusal::WrongMark);
    }
    if sheet.len() - at < 6 {
        return Err(Refusal::SheetTooShort);
    }
    if all_fault(architecture, front.owned, front.total) {
        return Err(Refusal::NoOwnerOrTooMany);
    }
    read_states(sheet, at, architecture.variables)
}
