// The front of a sheet: AR, and the PR and PM records. The SY records behind them are read by `tied`.
ghost use Rattle.std.specs.Prelude.{◌≡◌, false, List, [], ℕ, ◌+◌, ◌^◌, ◌<◌, ◌≤◌, length, IfOk};
ghost use Rattle.model.specs.Reading.{process_marked, ar_fault, prompts_at, process_at, process_size, read_processes};
ghost use Rattle.architecture.specs.Struct.{process_of, architecture_of};
ghost use Rattle.sheet.specs.Struct.{FrontKnown, front_in, front_of};
ghost use Rattle.sheet.specs.Steps.{process_from};

use super::faults::{field_fault, prompt_fault};
use super::{FrontRead, PM, PR, is_marked};
use architecture::{Architecture, Process};
use model::Refusal;

// AR, with no process and no tie yet: the record behind it begins at `end`.
pub fn opened(variables: u8, environment: u8, root: u8, end: usize) -> FrontRead
    requires { ar_fault (record { variables = variables; environment = environment; root = root; processes = []; ties = [] }) ≡ false }
    ensures result_value { front_in result ≡ record { architecture = record { variables = variables; environment = environment; root = root; processes = []; ties = [] }; end = end } }
    ensures by_index { (b : List ℕ) → end ≤ length b → FrontKnown b result }
{
    FrontRead {
        architecture: Architecture::opened(variables, environment, root),
        end,
        owned: 0,
        total: 1 << environment,
    }
}

// A process of either kind opens at `at`.
#[tactic(auto, unfolding(model::specs::Reading::process_marked))]
fn is_process(sheet: &[u8], at: usize) -> bool
    requires { at ≤ length sheet.now }
    ensures { result ≡ process_marked sheet.now at }
{
    is_marked(sheet, at, &PR) || is_marked(sheet, at, &PM)
}

// How many bytes the PR or PM at `at` has.
#[tactic(auto, unfolding(model::specs::Reading::process_size))]
fn process_size(sheet: &[u8], at: usize) -> usize
    requires { at ≤ length sheet.now }
    ensures { result ≡ process_size sheet.now at }
{
    if is_marked(sheet, at, &PM) { 6 } else { 5 }
}

// The prompt mask of the PM at `at`; a PR has none.
#[tactic(auto, unfolding(model::specs::Reading::prompts_at, model::specs::Reading::process_size))]
fn prompts_at(sheet: &[u8], at: usize) -> u8
    requires { at + process_size sheet.now at ≤ length sheet.now }
    ensures { result ≡ prompts_at sheet.now at }
{
    if is_marked(sheet, at, &PM) {
        sheet[at + 5]
    } else {
        0
    }
}

// The fields of the PR or PM at `at`, and its kind.
#[tactic(auto, unfolding(model::specs::Reading::process_size))]
fn process_at(sheet: &[u8], at: usize) -> Process
    requires { at + process_size sheet.now at ≤ length sheet.now }
    ensures { process_of result ≡ process_at sheet.now at }
{
    Process {
        inputs: sheet[at + 2],
        outputs: sheet[at + 3],
        bound: sheet[at + 4],
        prompts: prompts_at(sheet, at),
        prompted: is_marked(sheet, at, &PM),
    }
}

// One PR or PM more, behind those that were read.
#[tactic(auto, using(crate::proofs::RefusalTests::in_order, crate::proofs::ReadingOn::field_stops), unfolding(crate::specs::Steps::process_from, model::specs::Reading::read_process, architecture::specs::Struct::architecture_of))]
fn read_process(sheet: &[u8], so_far: FrontRead) -> Result<FrontRead, Refusal>
    requires front_known { FrontKnown sheet.now so_far }
    requires so_far_bound { so_far.architecture.processes < 4 }
    ensures result_value { front_of result ≡ process_from (architecture_of so_far.architecture) sheet.now so_far.end }
    ensures result_known { IfOk result (λ front. FrontKnown sheet.now front) }
    ensures one_more { IfOk result (λ front. front.architecture.processes ≡ so_far.architecture.processes + 1) }
{
    let at = so_far.end;
    let size = process_size(sheet, at);
    if sheet.len() - at < size {
        return Err(Refusal::SheetTooShort);
    }
    let process = process_at(sheet, at);
    let architecture = so_far.architecture;
    if field_fault(architecture.variables, architecture.environment, process) {
        return Err(Refusal::BadProcess);
    }
    if process.outputs & so_far.owned != 0 {
        return Err(Refusal::BadProcess);
    }
    if prompt_fault(process, so_far.owned) {
        return Err(Refusal::BadPrompt);
    }
    Ok(FrontRead {
        architecture: architecture.with_process(process),
        end: at + size,
        owned: so_far.owned | process.outputs,
        total: so_far.total * u16::from(process.bound),
    })
}

// The PR and PM records behind AR.
pub fn read_processes(sheet: &[u8], first: FrontRead) -> Result<FrontRead, Refusal>
    requires front_known { FrontKnown sheet.now first }
    requires no_process { first.architecture.processes ≡ 0 }
    ensures result_value { front_of result ≡ read_processes 4 (architecture_of first.architecture) sheet.now first.end }
    ensures result_known { IfOk result (λ front. FrontKnown sheet.now front) }
{
    let mut read = first;
    for _ in 0usize..4 {
        if !is_process(sheet, read.end) {
            break;
        }
        read = read_process(sheet, read)?;
    }
    Ok(read)
}
