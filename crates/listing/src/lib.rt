// What the showing program prints: a line for each record of a sheet, and the counts.
#![tactic(auto)]

ghost use Rattle.std.specs.Prelude.{◌≡◌, ◌+◌, ◌*◌, ◌^◌, ◌<◌, ◌≤◌, eqb, length, get_or};
ghost use Rattle.model.specs.Mask.{if, count};
ghost use Rattle.model.specs.Choice.{next, rows};
ghost use Rattle.architecture.specs.Struct.{IsProper, architecture_of, process_in, processes_in, ties_in};
ghost use Rattle.sheet.specs.Struct.{IsProper as Proper, sheet_of};
ghost use Rattle.append.specs.Appends.{Appends};
ghost use Rattle.ties.specs.Leaders.{leaders};
ghost use Rattle.template.specs.Holds.{Holds};
ghost use Rattle.listing.specs.Listing as spec;

use architecture::Architecture;
use automaton::Automaton;
use sheet::Sheet;
use template::put_filled;

// ---- the records: each function that puts something answers the index behind it
// AR.
fn put_front(text: &mut [u8], at: usize, a: Architecture) -> usize
    requires proper { IsProper a }
    requires root_in_bounds { at + length (spec.front_text a.variables a.environment a.root) ≤ length text.old }
    ensures { Appends text.old at (spec.front_text a.variables a.environment a.root) result text.new }
{
    let environment = a.directions() - 1;
    put_filled(
        text,
        at,
        b"variables #\nenvironment @\nroot @\n",
        &[a.variables as usize, environment, a.root as usize],
    )
}

// PR or PM: process i.
fn put_process(text: &mut [u8], at: usize, a: Architecture, i: usize) -> usize
    requires proper { IsProper a }
    requires i_lt_processes { i < a.processes }
    requires i_in_bounds { at + length (spec.process_text i (process_in a i)) ≤ length text.old }
    ensures { Appends text.old at (spec.process_text i (process_in a i)) result text.new }
{
    let inputs = a.inputs_of(i) as usize;
    let outputs = a.outputs_of(i) as usize;
    let bound = a.bound_of(i);
    let prompts = a.prompts_of(i) as usize;
    if a.prompted_of(i) {
        return put_filled(
            text,
            at,
            b"process # reads @ prompt @ sets @ states #\n",
            &[i, inputs, prompts, outputs, bound],
        );
    }
    put_filled(
        text,
        at,
        b"process # reads @ sets @ states #\n",
        &[i, inputs, outputs, bound],
    )
}

// Every PR and PM.
fn put_processes(text: &mut [u8], start: usize, a: Architecture) -> usize
    requires proper { IsProper a }
    requires a_in_bounds { start + length (spec.processes_text (processes_in a)) ≤ length text.old }
    ensures { Appends text.old start (spec.processes_text (processes_in a)) result text.new }
{
    let mut at = start;
    for i in 0..a.processes {
        at = put_process(text, at, a, i);
    }
    at
}

// SY: the two processes, in the order of the file.
fn put_tie(text: &mut [u8], at: usize, left: usize, right: usize) -> usize
    requires { at + length (spec.tie_text (record { left = left; right = right })) ≤ length text.old }
    ensures { Appends text.old at (spec.tie_text (record { left = left; right = right })) result text.new }
{
    put_filled(text, at, b"tie # #\n", &[left, right])
}

// Every SY.
fn put_ties(text: &mut [u8], start: usize, a: Architecture) -> usize
    requires proper { IsProper a }
    requires a_in_bounds { start + length (spec.ties_text (ties_in a)) ≤ length text.old }
    ensures { Appends text.old start (spec.ties_text (ties_in a)) result text.new }
{
    let mut at = start;
    for tie in &a.tie_list[..a.ties] {
        at = put_tie(text, at, tie.left as usize, tie.right as usize);
    }
    at
}

// AU.
fn put_states(text: &mut [u8], at: usize, u: Automaton) -> usize
    requires { at + length (spec.states_text u.states u.initial.0 u.rejecting) ≤ length text.old }
    ensures { Appends text.old at (spec.states_text u.states u.initial.0 u.rejecting) result text.new }
{
    put_filled(
        text,
        at,
        b"automaton states # initial # rejecting $\n",
        &[
            u.states as usize,
            u.initial.0 as usize,
            u.rejecting as usize,
        ],
    )
}

// ---- the counts
// A next state below the bound has 2 to this times 3 to that values.
fn next_twos(bound: usize) -> usize
    ensures { result ≡ spec.twos (next bound) }
{
    match bound {
        2 => 1,
        4 => 2,
        _ => 0,
    }
}

fn next_threes(bound: usize) -> usize
    ensures { result ≡ spec.threes (next bound) }
{
    match bound {
        3 => 1,
        _ => 0,
    }
}

// Process i leads itself.
fn leads(a: Architecture, i: usize) -> bool
    requires proper { IsProper a }
    requires i_lt_processes { i < a.processes }
    ensures { result ≡ eqb (get_or (leaders a.processes (ties_in a)) i 0) i }
{
    let own = ties::process_leaders(a);
    own[i] as usize == i
}

// The exponents of process i's entries together, from those of an output mask and of a next state: nothing, where its table is that of another.
fn rows_total(a: Architecture, i: usize, of_output: usize, of_next: usize) -> usize
    requires proper { IsProper a }
    requires i_lt_processes { i < a.processes }
    requires of_output_bound { (of_output ≤ 8) × (of_next ≤ 2) }
    ensures value { result ≡ if (eqb (get_or (leaders a.processes (ties_in a)) i 0) i) ((process_in a i).bound * (of_output + 2 ^ count (process_in a i).inputs * of_next)) 0 }
    ensures upper_bound { result ≤ 160 }
{
    if !leads(a, i) {
        return 0;
    }
    let indexes = architecture::row_length(a.inputs_of(i)) - 1;
    a.bound_of(i) * (of_output + indexes * of_next)
}

// The exponent of 2 in the number of choices.
fn twos(a: Architecture) -> usize
    requires { IsProper a }
    ensures { result ≡ spec.total spec.twos (rows (spec.once (architecture_of a))) }
{
    let mut sum: usize = 0;
    for i in 0..a.processes {
        let outputs = u8::count_ones(a.outputs_of(i)) as usize;
        sum += rows_total(a, i, outputs, next_twos(a.bound_of(i)));
    }
    sum
}

// The exponent of 3: an output mask adds nothing to it.
fn threes(a: Architecture) -> usize
    requires { IsProper a }
    ensures { result ≡ spec.total spec.threes (rows (spec.once (architecture_of a))) }
{
    let mut sum: usize = 0;
    for i in 0..a.processes {
        sum += rows_total(a, i, 0, next_threes(a.bound_of(i)));
    }
    sum
}

// The composed states, the entries of a choice, and the choices.
fn put_counts(text: &mut [u8], at: usize, a: Architecture) -> usize
    requires proper { IsProper a }
    requires a_in_bounds { at + length (spec.counts_text (architecture_of a)) ≤ length text.old }
    ensures { Appends text.old at (spec.counts_text (architecture_of a)) result text.new }
{
    let numbers = [
        a.composed_states(),
        a.start(a.processes),
        twos(a),
        threes(a),
    ];
    put_filled(
        text,
        at,
        b"composed #\nentries #\nchoices 2^# 3^#\n",
        &numbers,
    )
}

// ---- the text
// The records, and behind them the counts.
#[tactic(auto, unfolding(crate::specs::Listing::show_text, architecture::specs::Struct::architecture_of, automaton::specs::Struct::automaton_of))]
fn put_sheet(text: &mut [u8], sheet: Sheet) -> usize
    requires proper { Proper sheet }
    requires sheet_in_bounds { length (spec.show_text (sheet_of sheet)) ≤ length text.old }
    ensures { Appends text.old 0 (spec.show_text (sheet_of sheet)) result text.new }
{
    let a = sheet.architecture;
    let u = sheet.automaton;
    let after_front = put_front(text, 0, a);
    let after_processes = put_processes(text, after_front, a);
    let after_ties = put_ties(text, after_processes, a);
    let after_states = put_states(text, after_ties, u);
    let after_edges = text::put_edges(
        text,
        after_states,
        b"edge # to # on @ off @\n",
        b"edge # to # unless on @ off @\n",
        u,
    );
    put_counts(text, after_edges, a)
}

// The text of a proper sheet, at the front of the buffer: answers its length.
pub fn sheet_text(text: &mut [u8], sheet: Sheet) -> usize
    requires in_bounds { 8192 ≤ length text.old }
    requires proper { Proper sheet }
    ensures { Holds text.new result (spec.show_text (sheet_of sheet)) }
{
    put_sheet(text, sheet)
}
