// Behind the processes of a sheet: the SY records.
ghost use Rattle.std.specs.Prelude.{◌≡◌, ◌+◌, ◌<◌, ◌≤◌, length, IfOk};
ghost use Rattle.model.specs.Reading.{tie_marked, read_ties};
ghost use Rattle.architecture.specs.Struct.{architecture_of};
ghost use Rattle.sheet.specs.Struct.{FrontKnown, front_of};
ghost use Rattle.sheet.specs.Steps.{tie_from};

use super::faults::sy_fault;
use super::{FrontRead, SY, is_marked};
use architecture::Architecture;
use model::Refusal;

// The mark of an SY stands at `at`, where one may: behind a process.
#[tactic(auto, using(architecture::proofs::ProcessesOfArrays::count_is), unfolding(model::specs::Reading::tie_marked, architecture::specs::Struct::architecture_of))]
fn is_tie(sheet: &[u8], at: usize, architecture: Architecture) -> bool
    requires { at ≤ length sheet.now }
    ensures { result ≡ tie_marked (architecture_of architecture) sheet.now at }
{
    is_marked(sheet, at, &SY) && architecture.processes != 0
}

// One SY more, behind those that were read.
#[tactic(auto, using(crate::proofs::RefusalTests::in_order), unfolding(crate::specs::Steps::tie_from, model::specs::Reading::read_tie, architecture::specs::Struct::architecture_of))]
fn read_tie(sheet: &[u8], so_far: FrontRead) -> Result<FrontRead, Refusal>
    requires front_known { FrontKnown sheet.now so_far }
    requires so_far_bound { so_far.architecture.ties < 3 }
    ensures result_value { front_of result ≡ tie_from (architecture_of so_far.architecture) sheet.now so_far.end }
    ensures result_known { IfOk result (λ front. FrontKnown sheet.now front) }
    ensures one_more { IfOk result (λ front. front.architecture.ties ≡ so_far.architecture.ties + 1) }
{
    let at = so_far.end;
    if sheet.len() - at < 4 {
        return Err(Refusal::SheetTooShort);
    }
    let left = sheet[at + 2];
    let right = sheet[at + 3];
    let architecture = so_far.architecture;
    if sy_fault(architecture, left, right) {
        return Err(Refusal::BadTie);
    }
    Ok(FrontRead {
        architecture: architecture.with_tie(left, right),
        end: at + 4,
        owned: so_far.owned,
        total: so_far.total,
    })
}

// The SY records behind the last process.
pub fn read_ties(sheet: &[u8], first: FrontRead) -> Result<FrontRead, Refusal>
    requires front_known { FrontKnown sheet.now first }
    requires no_tie { first.architecture.ties ≡ 0 }
    ensures result_value { front_of result ≡ read_ties 3 (architecture_of first.architecture) sheet.now first.end }
    ensures result_known { IfOk result (λ front. FrontKnown sheet.now front) }
{
    let mut read = first;
    for _ in 0usize..3 {
        if !is_tie(sheet, read.end, read.architecture) {
            break;
        }
        read = read_tie(sheet, read)?;
    }
    Ok(read)
}
