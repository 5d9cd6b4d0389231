// The search for the first choice that keeps the sheet: one group of tied entries is settled at a time. The large work arrays are lent from the top, and what no partial choice changes is one table.
#![tactic(auto)]

ghost use Rattle.std.specs.Prelude.{◌≡◌, ◌+◌, ◌<◌, ◌≤◌, length, get_or, take};
ghost use Rattle.model.specs.Choice.{entries as entries_of};
ghost use Rattle.architecture.specs.Struct.{IsProper, architecture_of};
ghost use Rattle.sheet.specs.Struct.{sheet_of};
ghost use Rattle.exploration.specs.Prepared.{Prepared};
ghost use Rattle.exploration.specs.Answers.{Work};
ghost use Rattle.ties.specs.Groups.{set_group};
ghost use Rattle.search.specs.Choices.{Chains, Grouped, group_at, Ready, opens, Witness, Led, Begun, Least};
ghost use Rattle.search.specs.Answers.{Finds, Leads};

use architecture::Architecture;
use exploration::Explored;
use model::Found;
use sheet::Sheet;

// The leader of each of n entries, and from 272 on the next entry with that leader, or n.
pub fn put_groups(groups: &mut [u16], a: Architecture, n: usize)
    requires proper { IsProper a }
    requires groups_len { (length groups.old ≡ 544) × (n ≡ length (entries_of (architecture_of a))) }
    ensures { Grouped (architecture_of a) groups.new }
{
    let mut leaders = [0u16; 272];
    ties::fill_leaders(&mut leaders, a);
    let mut followers = [0u16; 272];
    ties::fill_followers(&mut followers, &leaders, n);
    let (front, back) = groups.split_at_mut(272);
    front.copy_from_slice(&leaders);
    back.copy_from_slice(&followers);
}

// Every entry of l's group takes the value that follows from v at l, and this mark.
fn settle_group(
    values: &mut [u8; 272],
    unset: &mut [u8; 272],
    fixed: &[u16],
    groups: &[u16],
    n: usize,
    l: usize,
    v: u8,
    mark: u8,
)
    requires values_len { (length values.old ≡ 272) × (length unset.old ≡ 272) × (length fixed.now ≡ 6416) }
    requires chains { Chains n groups.now }
    requires l_lt_n { (l < n) × (get_or groups.now l 0 ≡ l) }
    ensures values_after { values.new ≡ set_group (group_at fixed.now l v) (take n groups.now) l values.old }
    ensures unset_after { unset.new ≡ set_group (λ _. mark) (take n groups.now) l unset.old }
{
    let leader = fixed[6144 + l];
    // while: along the chain, whose links are in the table, and not over a range.
    let mut k = l;
    while k < n {
        values[k] = ties::group_value(leader, fixed[6144 + k], v);
        unset[k] = mark;
        k = groups[272 + k] as usize;
    }
}

// Tables: the partial choice now has the entries of a choice that keeps the sheet. Nothing: no choice that completes it does. At most `left` entries are open.
pub fn search(
    values: &mut [u8; 272],
    unset: &mut [u8; 272],
    left: usize,
    sheet: Sheet,
    fixed: &[u16],
    groups: &[u16],
    n: usize,
    numbers: &mut [u16; 4096],
    stack: &mut [u16; 4096],
    waiting: &mut [u8; 4096],
    targets: &mut [u16; 4096],
    steps: &mut [u16; 4096],
) -> Found
    requires prepared { Prepared sheet fixed.now }
    requires grouped { Grouped (architecture_of sheet.architecture) groups.now × (n ≡ length (entries_of (architecture_of sheet.architecture))) }
    requires ready { Ready (architecture_of sheet.architecture) values.old unset.old }
    requires architecture_bound { opens unset.old (length (entries_of (architecture_of sheet.architecture))) ≤ left }
    requires work { Work numbers.old stack.old waiting.old targets.old steps.old }
    ensures finds { Finds (sheet_of sheet) values.old unset.old values.new unset.new result }
    ensures work_2 { Work numbers.new stack.new waiting.new targets.new steps.new }
{
    let explored = exploration::explore(
        numbers, stack, waiting, targets, steps, sheet, fixed, values, unset,
    );
    match explored {
        Explored::Loop => Found::Nothing,
        Explored::Keeps => Found::Tables,
        Explored::Needs(k) => {
            if left == 0 {
                return Found::Nothing;
            }
            let l = groups[k] as usize;
            let kind = fixed[6144 + l];
            let end = choice::values_end(kind);
            for v in 0..end {
                if !choice::may_be(kind, v as u8) {
                    continue;
                }
                settle_group(values, unset, fixed, groups, n, l, v as u8, 0);
                let found = search(
                    values,
                    unset,
                    left - 1,
                    sheet,
                    fixed,
                    groups,
                    n,
                    numbers,
                    stack,
                    waiting,
                    targets,
                    steps,
                );
                match found {
                    Found::Tables => return Found::Tables,
                    Found::Nothing => {}
                }
            }
            settle_group(values, unset, fixed, groups, n, l, 0, 1);
            Found::Nothing
        }
    }
}

// Entry k is open, unless its leader is before i.
fn open_led(values: &mut [u8; 272], unset: &mut [u8; 272], k: usize, leader: usize, i: usize)
    requires { k < 272 }
    ensures { Led k leader i values.old unset.old values.new unset.new }
{
    if i <= leader {
        values[k] = 0;
        unset[k] = 1;
    }
}

// Of n entries, those whose leader is before i are settled as in the tables, the others are open. No leader is behind its entry.
fn begin(
    values: &mut [u8; 272],
    unset: &mut [u8; 272],
    tables: &[u8; 272],
    groups: &[u16],
    i: usize,
    n: usize,
)
    requires chains { Chains n groups.now × (i ≤ n) }
    requires tables_len { length tables.now ≡ 272 }
    ensures { Begun n groups.now tables.now i values.new unset.new }
{
    *values = *tables;
    *unset = [0u8; 272];
    for k in i..n {
        open_led(values, unset, k, groups[k] as usize, i);
    }
}

// Entry i of the witness gets the least value with which a choice still keeps the sheet; the entries before it stay. The leader's value decides a follower's.
fn settle(
    witness: &mut [u8; 272],
    i: usize,
    n: usize,
    sheet: Sheet,
    fixed: &[u16],
    groups: &[u16],
    numbers: &mut [u16; 4096],
    stack: &mut [u16; 4096],
    waiting: &mut [u8; 4096],
    targets: &mut [u16; 4096],
    steps: &mut [u16; 4096],
)
    requires prepared { Prepared sheet fixed.now }
    requires grouped { Grouped (architecture_of sheet.architecture) groups.now }
    requires n_value { (n ≡ length (entries_of (architecture_of sheet.architecture))) × (i < n) }
    requires witness { Witness (sheet_of sheet) witness.old }
    requires work { Work numbers.old stack.old waiting.old targets.old steps.old }
    ensures least { Least (sheet_of sheet) i witness.old witness.new }
    ensures work_2 { Work numbers.new stack.new waiting.new targets.new steps.new }
{
    let leader = groups[i] as usize;
    if leader != i {
        return;
    }
    let kind = fixed[6144 + i];
    for v in 0..witness[i] {
        if !choice::may_be(kind, v) {
            continue;
        }
        let mut values = [0u8; 272];
        let mut unset = [0u8; 272];
        begin(&mut values, &mut unset, witness, groups, i, n);
        settle_group(&mut values, &mut unset, fixed, groups, n, i, v, 0);
        let found = search(
            &mut values,
            &mut unset,
            n,
            sheet,
            fixed,
            groups,
            n,
            numbers,
            stack,
            waiting,
            targets,
            steps,
        );
        match found {
            Found::Tables => {
                *witness = values;
                return;
            }
            Found::Nothing => {}
        }
    }
}

// Tables: the witness has the first choice that keeps the sheet, of n entries. Nothing: there is none.
pub fn first(
    witness: &mut [u8; 272],
    n: usize,
    sheet: Sheet,
    fixed: &[u16],
    groups: &[u16],
    numbers: &mut [u16; 4096],
    stack: &mut [u16; 4096],
    waiting: &mut [u8; 4096],
    targets: &mut [u16; 4096],
    steps: &mut [u16; 4096],
) -> Found
    requires prepared { Prepared sheet fixed.now }
    requires grouped { Grouped (architecture_of sheet.architecture) groups.now × (n ≡ length (entries_of (architecture_of sheet.architecture))) }
    requires witness_len { length witness.old ≡ 272 }
    requires work { Work numbers.old stack.old waiting.old targets.old steps.old }
    ensures { Leads (sheet_of sheet) witness.new result }
{
    let mut values = [0u8; 272];
    let mut unset = [0u8; 272];
    begin(&mut values, &mut unset, witness, groups, 0, n);
    let found = search(
        &mut values,
        &mut unset,
        n,
        sheet,
        fixed,
        groups,
        n,
        numbers,
        stack,
        waiting,
        targets,
        steps,
    );
    match found {
        Found::Nothing => return Found::Nothing,
        Found::Tables => {}
    }
    *witness = values;
    for i in 0..n {
        settle(
            witness, i, n, sheet, fixed, groups, numbers, stack, waiting, targets, steps,
        );
    }
    Found::Tables
}
