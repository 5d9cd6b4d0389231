// What the annotating program prints of a run: its lengths, its start, and a line for each step with the vertex behind it. The steps are taken again.
#![tactic(auto)]

ghost use Rattle.std.specs.Prelude.{◌≡◌, ◌++◌, ◌+◌, ◌*◌, ◌^◌, ◌<◌, ◌≤◌, length, take};
ghost use Rattle.model.specs.Choice.{chosen, IsTables};
ghost use Rattle.architecture.specs.Struct.{IsProper as IsProperArchitecture, architecture_of};
ghost use Rattle.sheet.specs.Struct.{sheet_of, IsProper};
ghost use Rattle.composition.specs.Struct.{numbers as numbers_of, IsState};
ghost use Rattle.append.specs.Appends.{Appends};
ghost use Rattle.template.specs.Holds.{Holds};
ghost use Rattle.template.specs.Template.{filled};
ghost use Rattle.text.specs.Text.{fields};
ghost use Rattle.replay.specs.Run as spec;
ghost use Rattle.replay.specs.Struct.{choice_in, vertex_at, vertex_of};

use append::put_all;
use architecture::Architecture;
use composition::Composed;
use model::AutomatonState;
use sheet::Sheet;
use template::put_filled;

// Where the text ends, and the vertex that the run has come to.
#[derive(Clone, Copy)]
struct Progress {
    at: usize,
    automaton: AutomatonState,
    state: Composed,
}

// The state of each process: answers the index behind them.
fn put_states(text: &mut [u8], start: usize, processes: usize, state: Composed) -> usize
    requires processes_bound { (processes ≤ 4) × (length (numbers_of state.states) ≡ 4) }
    requires states_in_bounds { start + length (fields (take processes (numbers_of state.states))) ≤ length text.old }
    ensures { Appends text.old start (fields (take processes (numbers_of state.states))) result text.new }
{
    let mut at = start;
    for i in 0..processes {
        at = text::put_field(text, at, state.process_state(i));
    }
    at
}

// A template with its holes filled, the state of each process behind it, and the line's end: answers the index behind it.
pub fn put_with_states(
    text: &mut [u8],
    at: usize,
    template: &[u8],
    numbers: &[usize],
    processes: usize,
    state: Composed,
) -> usize
    requires processes_bound { (processes ≤ 4) × (length (numbers_of state.states) ≡ 4) }
    requires states_in_bounds { at + length (spec.with_states template.now numbers.now (take processes (numbers_of state.states))) ≤ length text.old }
    ensures { Appends text.old at (spec.with_states template.now numbers.now (take processes (numbers_of state.states))) result text.new }
{
    let after_template = put_filled(text, at, template, numbers);
    let after_states = put_states(text, after_template, processes, state);
    put_all(text, after_states, b"\n")
}

// A vertex: answers the index behind it.
fn put_vertex(
    text: &mut [u8],
    at: usize,
    a: Architecture,
    tables: &[u8],
    automaton: AutomatonState,
    state: Composed,
) -> usize
    requires proper_architecture { IsProperArchitecture a }
    requires tables { IsTables (architecture_of a) (chosen (architecture_of a) tables.now) }
    requires state { IsState a state }
    requires state_in_bounds { at + length (spec.vertex_text (architecture_of a) (chosen (architecture_of a) tables.now) (vertex_at a automaton state)) ≤ length text.old }
    ensures { Appends text.old at (spec.vertex_text (architecture_of a) (chosen (architecture_of a) tables.now) (vertex_at a automaton state)) result text.new }
{
    let label = state.label(a, tables);
    put_with_states(
        text,
        at,
        b"automaton # label % states",
        &[automaton.0 as usize, label as usize],
        a.processes,
        state,
    )
}

// A line: a template with its holes filled, and the vertex that the run has come to.
fn put_line(
    text: &mut [u8],
    template: &[u8],
    numbers: &[usize],
    a: Architecture,
    tables: &[u8],
    run: Progress,
) -> Progress
    requires proper_architecture { IsProperArchitecture a }
    requires tables { IsTables (architecture_of a) (chosen (architecture_of a) tables.now) }
    requires state { IsState a run.state }
    requires run_in_bounds { run.at + length (filled template.now numbers.now ++ spec.vertex_text (architecture_of a) (chosen (architecture_of a) tables.now) (vertex_of a run)) ≤ length text.old }
    ensures appends { Appends text.old run.at
        (filled template.now numbers.now ++ spec.vertex_text (architecture_of a) (chosen (architecture_of a) tables.now) (vertex_of a run))
        result.at text.new }
    ensures vertex_stays { (result.automaton ≡ run.automaton) × (result.state ≡ run.state) }
{
    let after_template = put_filled(text, run.at, template, numbers);
    let at = put_vertex(text, after_template, a, tables, run.automaton, run.state);
    Progress { at, ..run }
}

// A step along the edge of that number, and the vertex behind it.
fn put_step(
    text: &mut [u8],
    from: Progress,
    sheet: Sheet,
    tables: &[u8],
    direction: u8,
    edge: u8,
) -> Progress
    requires proper { IsProper sheet }
    requires tables { IsTables (architecture_of sheet.architecture) (choice_in sheet tables.now) }
    requires state { IsState sheet.architecture from.state }
    requires direction_bound { (direction < 2 ^ sheet.architecture.environment) × (edge < sheet.automaton.edges) }
    requires edge_in_bounds { from.at + length (spec.step_text (sheet_of sheet) (choice_in sheet tables.now) (vertex_of sheet.architecture from) direction edge) ≤ length text.old }
    ensures appends { Appends text.old from.at
        (spec.step_text (sheet_of sheet) (choice_in sheet tables.now) (vertex_of sheet.architecture from) direction edge)
        result.at text.new }
    ensures reaches { vertex_of sheet.architecture result ≡ spec.onward (sheet_of sheet) (choice_in sheet tables.now) (vertex_of sheet.architecture from) direction edge }
    ensures new_state { IsState sheet.architecture result.state }
{
    let a = sheet.architecture;
    let automaton = sheet.automaton;
    let along = automaton.edge(edge as usize);
    let target = along.to;
    let state = from.state;
    let next = state.step(a, tables, direction);
    put_line(
        text,
        b"direction % edge # ",
        &[direction as usize, edge as usize],
        a,
        tables,
        Progress {
            at: from.at,
            automaton: target,
            state: next,
        },
    )
}

// Steps one behind another: two bytes for each.
fn put_steps(
    text: &mut [u8],
    start: Progress,
    sheet: Sheet,
    tables: &[u8],
    steps: &[u8],
) -> Progress
    requires proper { IsProper sheet }
    requires tables { IsTables (architecture_of sheet.architecture) (choice_in sheet tables.now) }
    requires state { IsState sheet.architecture start.state }
    requires possible { spec.Possible (sheet_of sheet) steps.now }
    requires steps_in_bounds { start.at + length (spec.steps_text (sheet_of sheet) (choice_in sheet tables.now) (vertex_of sheet.architecture start) steps.now) ≤ length text.old }
    ensures appends { Appends text.old start.at
        (spec.steps_text (sheet_of sheet) (choice_in sheet tables.now) (vertex_of sheet.architecture start) steps.now)
        result.at text.new }
    ensures reaches { vertex_of sheet.architecture result ≡ spec.after (sheet_of sheet) (choice_in sheet tables.now) (vertex_of sheet.architecture start) steps.now }
    ensures new_state { IsState sheet.architecture result.state }
{
    let mut run = start;
    for step in steps.chunks_exact(2) {
        run = put_step(text, run, sheet, tables, step[0], step[1]);
    }
    run
}

// The lengths, and the start.
fn put_opening(text: &mut [u8], sheet: Sheet, tables: &[u8], stem: usize, cycle: usize) -> Progress
    requires proper { IsProper sheet }
    requires tables { IsTables (architecture_of sheet.architecture) (choice_in sheet tables.now) }
    requires cycle_in_bounds { length (spec.opening_text (sheet_of sheet) (choice_in sheet tables.now) stem cycle) ≤ length text.old }
    ensures appends { Appends text.old 0 (spec.opening_text (sheet_of sheet) (choice_in sheet tables.now) stem cycle) result.at text.new }
    ensures reaches { vertex_of sheet.architecture result ≡ spec.start_of (sheet_of sheet) }
    ensures state { IsState sheet.architecture result.state }
{
    let a = sheet.architecture;
    let automaton = sheet.automaton;
    let initial = automaton.initial;
    let state = Composed::initial(a);
    put_line(
        text,
        b"loop # #\nstart ",
        &[stem, cycle],
        a,
        tables,
        Progress {
            at: 0,
            automaton: initial,
            state,
        },
    )
}

// `round`: the vertex stays.
fn put_round(text: &mut [u8], run: Progress) -> Progress
    requires { run.at + length spec.round_text ≤ length text.old }
    ensures appends { Appends text.old run.at spec.round_text result.at text.new }
    ensures vertex_stays { (result.automaton ≡ run.automaton) × (result.state ≡ run.state) }
{
    let at = put_all(text, run.at, b"round\n");
    Progress { at, ..run }
}

// The run at the front of the path: answers the index behind its text.
fn put_run(
    text: &mut [u8],
    sheet: Sheet,
    tables: &[u8],
    path: &[u8],
    stem: usize,
    cycle: usize,
) -> usize
    requires proper { IsProper sheet }
    requires tables { IsTables (architecture_of sheet.architecture) (choice_in sheet tables.now) }
    requires has_run { spec.HasRun (sheet_of sheet) stem cycle path.now }
    requires path_in_bounds { length (spec.run_text (sheet_of sheet) (choice_in sheet tables.now) stem cycle path.now) ≤ length text.old }
    ensures { Appends text.old 0 (spec.run_text (sheet_of sheet) (choice_in sheet tables.now) stem cycle path.now) result text.new }
{
    let turn = 2 * stem;
    let end = turn + 2 * cycle;
    let opened = put_opening(text, sheet, tables, stem, cycle);
    let reached = put_steps(text, opened, sheet, tables, &path[..turn]);
    let turned = put_round(text, reached);
    let closed = put_steps(text, turned, sheet, tables, &path[turn..end]);
    closed.at
}

// The text of a run, at the front of the buffer: answers its length. A line has at most 64 bytes.
pub fn run_text(
    text: &mut [u8],
    sheet: Sheet,
    tables: &[u8],
    path: &[u8],
    stem: usize,
    cycle: usize,
) -> usize
    requires cycle_in_bounds { 64 * (stem + cycle + 2) ≤ length text.old }
    requires proper { IsProper sheet }
    requires tables { IsTables (architecture_of sheet.architecture) (chosen (architecture_of sheet.architecture) tables.now) }
    requires has_run { spec.HasRun (sheet_of sheet) stem cycle path.now }
    ensures { Holds text.new result (spec.run_text (sheet_of sheet) (chosen (architecture_of sheet.architecture) tables.now) stem cycle path.now) }
{
    put_run(text, sheet, tables, path, stem, cycle)
}
