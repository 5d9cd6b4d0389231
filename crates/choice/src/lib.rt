// What each entry of a choice may be, as words, and the test of entries against these words.
// An even word is an output's and an odd one a next state's, and no enum: `kind_of`, of which the contracts here speak, has this form.
#![tactic(auto)]

ghost use Rattle.std.specs.Prelude.{◌≡◌, false, not, ℕ, ◌+◌, ◌*◌, ◌<◌, ◌≤◌, length};
ghost use Rattle.model.specs.Choice.{entries, may, fits};
ghost use Rattle.architecture.specs.Struct.{IsProper, architecture_of};
ghost use Rattle.append.specs.Appends.{Appends};
ghost use Rattle.choice.specs.Kinds.{kind_of, kinds_of, row_codes, process_codes};

use architecture::Architecture;

// ---- what an entry may be
// Twice the mask.
fn output_word(mask: u8) -> u16
    ensures { result ≡ mask * 2 }
{
    u16::from(mask) * 2
}

// Twice the bound, and one more.
fn next_word(bound: u8) -> u16
    ensures { result ≡ bound * 2 + 1 }
{
    u16::from(bound) * 2 + 1
}

// One row: an output mask, and then the next states.
fn put_row(kinds: &mut [u16], at: usize, outputs: u8, bound: u8, states: usize) -> usize
    requires { at + (1 + states) ≤ length kinds.old }
    ensures { Appends kinds.old at (row_codes outputs bound states) result kinds.new }
{
    let after_output = append::put(kinds, at, output_word(outputs));
    append::fill(kinds, after_output, next_word(bound), states)
}

// All rows of process i.
fn put_rows(kinds: &mut [u16], start: usize, a: Architecture, i: usize) -> usize
    requires proper { IsProper a }
    requires i_lt_processes { i < a.processes }
    requires i_in_bounds { start + length (process_codes a i) ≤ length kinds.old }
    ensures { Appends kinds.old start (process_codes a i) result kinds.new }
{
    let states = architecture::row_length(a.inputs_of(i)) - 1;
    let outputs = a.outputs_of(i);
    let bound = a.bound_of(i) as u8;
    let mut at = start;
    for _ in 0..bound {
        at = put_row(kinds, at, outputs, bound, states);
    }
    at
}

// What each entry of a choice may be, and how many there are.
pub fn fill_kinds(kinds: &mut [u16], a: Architecture) -> usize
    requires proper { IsProper a }
    requires in_bounds { 272 ≤ length kinds.old }
    ensures value { (result ≡ length (entries (architecture_of a))) × (result ≤ 272) }
    ensures result_after { kinds_of kinds.new result ≡ entries (architecture_of a) }
{
    let mut at = 0;
    for i in 0..a.processes {
        at = put_rows(kinds, at, a, i);
    }
    at
}

// ---- the test of entries
// The entry may have this value.
pub fn may_be(kind: u16, value: u8) -> bool
    ensures { result ≡ may (kind_of kind) value }
{
    let most = kind / 2;
    let value = value as u16;
    if kind % 2 == 0 {
        value & most == value
    } else {
        value < most
    }
}

// From this value on an entry with this word may have none.
pub fn values_end(kind: u16) -> usize
    ensures few { result ≤ 256 }
    ensures none_behind { (v : ℕ) → result ≤ v → v < 256 → may (kind_of kind) v ≡ false }
{
    usize::min(kind as usize / 2 + 1, 256)
}

// One of the first n entries has a value that it may not have.
pub fn is_misfit(kinds: &[u16], n: usize, tables: &[u8]) -> bool
    requires { (n ≤ length kinds.now) × (n ≤ length tables.now) }
    ensures { result ≡ not (fits (kinds_of kinds.now n) tables.now) }
{
    kinds[..n]
        .iter()
        .zip(&tables[..n])
        .any(|(kind, value)| !may_be(*kind, *value))
}
