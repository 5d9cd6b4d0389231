// What is wrong with the fields of a record: the conditions of the refusals 3 to 7, 15 and 21.
ghost use Rattle.std.specs.Prelude.{◌≡◌, List, [], ◌-◌, ◌^◌, ◌<◌, ◌≤◌};
ghost use Rattle.theory.specs.Lists.{all, from};
ghost use Rattle.model.specs.Mask.{bit, beyond};
ghost use Rattle.model.specs.Sheet as model;
ghost use Rattle.model.specs.Sheet.{outputs_of, composed_states};
ghost use Rattle.model.specs.Reading.{ar_fault, field_fault, prompt_fault, unlike, tie_fault, all_fault, au_fault, ed_fault};
ghost use Rattle.architecture.specs.Struct.{Arrays, process_of, architecture_of, process_in, processes_in};
ghost use Rattle.automaton.specs.Struct.{edge_of};

use architecture::{Architecture, Process};
use automaton::Edge;
use composition::pack;
use model::AutomatonState;

// The mask has a bit at or above n.
#[tactic(auto, using(crate::proofs::OwnedOutputs::shifted_out))]
fn is_beyond(mask: u16, n: u8) -> bool
    requires { n ≤ 16 }
    ensures { result ≡ beyond mask n }
{
    (mask as u32) >> n != 0
}

// The n lowest bits.
fn lowest(n: u8) -> u8
    requires { n ≤ 4 }
    ensures { result ≡ 2 ^ n - 1 }
{
    (1 << n) - 1
}

// The bits from `first` on, below `end`, are all set.
#[tactic(auto, using(crate::proofs::OwnedOutputs::all_step, crate::proofs::OwnedOutputs::all_end), unfolding(model::specs::Mask::bit))]
fn all_set(mask: u8, first: u8, end: u8) -> bool
    requires { end ≤ 8 }
    ensures { result ≡ all (bit mask) (from (end - first) first) }
{
    for i in first..end {
        if (mask >> i) % 2 != 1 {
            return false;
        }
    }
    true
}

#[tactic(auto, unfolding(model::specs::Reading::ar_fault))]
pub fn ar_fault(variables: u8, environment: u8, root: u8) -> bool
    ensures { result ≡ ar_fault (record { variables = variables; environment = environment; root = root; processes = []; ties = [] }) }
{
    8 < variables
        || 4 < environment
        || variables < environment
        || is_beyond(root as u16, environment)
}

// Of a process by itself: whether an output is already taken is another question, and what its prompt inputs are too.
#[tactic(auto, unfolding(model::specs::Reading::field_fault, model::specs::Mask::share))]
pub fn field_fault(variables: u8, environment: u8, process: Process) -> bool
    requires { (variables ≤ 8) × (environment ≤ 4) }
    ensures { result ≡ field_fault variables environment (process_of process) }
{
    let inputs = process.inputs;
    let outputs = process.outputs;
    let bound = process.bound;
    is_beyond(inputs as u16, variables)
        || is_beyond(outputs as u16, variables)
        || outputs & lowest(environment) != 0
        || 4 < u8::count_ones(inputs)
        || inputs & outputs != 0
        || bound == 0
        || 4 < bound
}

// Of a process behind those whose outputs are `owned`: a prompt input that is no input, or no output of one of them.
#[tactic(auto, unfolding(model::specs::Reading::prompt_fault, model::specs::Mask::within))]
pub fn prompt_fault(process: Process, owned: u8) -> bool
    ensures { (lower : List model.Process) → owned ≡ outputs_of lower → result ≡ prompt_fault lower (process_of process) }
{
    let prompts = process.prompts;
    prompts & process.inputs != prompts || prompts & owned != prompts
}

// Processes i and j cannot share a table.
#[tactic(auto, unfolding(model::specs::Reading::unlike, model::specs::Mask::count))]
fn is_unlike(architecture: Architecture, i: usize, j: usize) -> bool
    requires arrays { Arrays architecture }
    requires i_bound { (i < 4) × (j < 4) }
    ensures { result ≡ unlike (process_in architecture i) (process_in architecture j) }
{
    let p = architecture.process_list[i];
    let q = architecture.process_list[j];
    if p.bound != q.bound {
        return true;
    }
    if u8::count_ones(p.inputs) != u8::count_ones(q.inputs) {
        return true;
    }
    if u8::count_ones(p.outputs) != u8::count_ones(q.outputs) {
        return true;
    }
    pack(p.inputs, p.prompts) != pack(q.inputs, q.prompts)
}

#[tactic(auto, unfolding(model::specs::Reading::tie_fault))]
pub fn sy_fault(architecture: Architecture, left: u8, right: u8) -> bool
    requires { Arrays architecture }
    ensures { result ≡ tie_fault (processes_in architecture) (record { left = left; right = right }) }
{
    let n = architecture.processes;
    let i = left as usize;
    let j = right as usize;
    n <= i || n <= j || i == j || is_unlike(architecture, i, j)
}

// Of an architecture with the mask of all outputs and the count of composed states.
#[tactic(auto, using(crate::proofs::OwnedOutputs::owned_is), unfolding(model::specs::Reading::all_fault, architecture::specs::Struct::architecture_of))]
pub fn all_fault(architecture: Architecture, owned: u8, total: u16) -> bool
    requires variables_bound { architecture.variables ≤ 8 }
    requires owned_value { (owned ≡ outputs_of (processes_in architecture)) × (total ≡ composed_states architecture.environment (processes_in architecture)) }
    ensures { result ≡ all_fault (architecture_of architecture) }
{
    !all_set(owned, architecture.environment, architecture.variables) || 256 < total
}

#[tactic(auto, unfolding(model::specs::Reading::au_fault))]
pub fn au_fault(states: u8, initial: AutomatonState, rejecting: u16) -> bool
    ensures { result ≡ au_fault states initial.0 rejecting }
{
    states == 0 || 16 < states || states <= initial.0 || is_beyond(rejecting, states)
}

#[tactic(auto, unfolding(model::specs::Reading::ed_fault, model::specs::Mask::share))]
pub fn ed_fault(variables: u8, states: u8, edge: Edge) -> bool
    requires { variables ≤ 8 }
    ensures { result ≡ ed_fault variables states (edge_of edge) }
{
    states <= edge.from.0
        || states <= edge.to.0
        || is_beyond(edge.on as u16, variables)
        || is_beyond(edge.off as u16, variables)
        || edge.on & edge.off != 0
}
