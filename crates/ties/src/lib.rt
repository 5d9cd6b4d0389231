// Ties: tied processes share one table.
#![tactic(auto)]

ghost use Rattle.std.specs.Prelude.{◌≡◌, ◌+◌, ◌/◌, ◌%◌, ◌^◌, ◌<◌, ◌≤◌, length, take};
ghost use Rattle.theory.specs.Lists.{from, same};
ghost use Rattle.model.specs.Sheet.{ProperTie};
ghost use Rattle.model.specs.Compose.{process_length};
ghost use Rattle.model.specs.Choice.{entries, packed_value, kept, keeps_ties};
ghost use Rattle.model.specs.Book.{entry_fault};
ghost use Rattle.architecture.specs.Struct.{IsProper, architecture_of, process_in, processes_in, ties_in};
ghost use Rattle.choice.specs.Kinds.{kind_of, kinds_of};
ghost use Rattle.append.specs.Appends.{Appends};
ghost use Rattle.ties.specs.Leaders as lead;
ghost use Rattle.ties.specs.Unpack as spec;
ghost use Rattle.ties.specs.Groups.{LeadersInside, FollowersAre};
ghost use Rattle.ties.specs.Tables.{packed_in, table_in};

use architecture::Architecture;

// ---- packed values
// The lowest bit.
fn lowest(mask: u8) -> usize
    ensures { result ≡ mask % 2 }
{
    (mask % 2) as usize
}

// The mask within `mask` whose bits where it has one are those of `index`, lowest first.
pub fn unpack(mask: u8, index: usize) -> u8
    ensures { result ≡ spec.unpack mask index }
{
    let mut m = mask;
    let mut w = index;
    let mut v: usize = 0;
    let mut weight: usize = 1;
    for _ in 0..u8::BITS {
        let has = lowest(m);
        v += weight * (has * (w % 2));
        weight *= 2;
        w /= 1 + has;
        m >>= 1;
    }
    v as u8
}

// The low byte of half the word: the mask of an output.
fn mask_of(kind: u16) -> u8
    ensures { result ≡ kind / 2 % 256 }
{
    (kind / 2 % 256) as u8
}

// A mask packed to the outputs that it is within; a next state as it is.
pub fn packed_value(kind: u16, value: u8) -> usize
    ensures { result ≡ packed_value (kind_of kind) value }
{
    if kind % 2 == 0 {
        return composition::pack(mask_of(kind), value);
    }
    value as usize
}

// The value of an entry whose leader, of the kind `leader`, has v.
pub fn group_value(leader: u16, kind: u16, v: u8) -> u8
    ensures { result ≡ spec.unpacked_value (kind_of kind) (packed_value (kind_of leader) v) }
{
    let packed = packed_value(leader, v);
    if kind % 2 == 0 {
        return unpack(mask_of(kind), packed);
    }
    packed as u8
}

// ---- the test of tables
// The packed value of entry k.
fn packed_at(kinds: &[u16], tables: &[u8], k: usize) -> usize
    requires { (k < length kinds.now) × (k < length tables.now) }
    ensures { result ≡ packed_in kinds.now tables.now k }
{
    packed_value(kinds[k], tables[k])
}

// The packed values of the n entries from `left` on are those of the n from `right` on.
fn are_alike(kinds: &[u16], tables: &[u8], left: usize, right: usize, n: usize) -> bool
    requires left_in_bounds { (left + n ≤ length kinds.now) × (left + n ≤ length tables.now) }
    requires right_in_bounds { (right + n ≤ length kinds.now) × (right + n ≤ length tables.now) }
    ensures { result ≡ same (table_in kinds.now tables.now n left) (table_in kinds.now tables.now n right) }
{
    (0..n).all(|j| packed_at(kinds, tables, left + j) == packed_at(kinds, tables, right + j))
}

// How many entries process i has.
fn length_of(a: Architecture, i: usize) -> usize
    requires proper { IsProper a }
    requires i_lt_processes { i < a.processes }
    ensures { result ≡ process_length (process_in a i) }
{
    a.bound_of(i) * architecture::row_length(a.inputs_of(i))
}

// The two processes have one table.
fn is_kept(kinds: &[u16], tables: &[u8], a: Architecture, left: usize, right: usize) -> bool
    requires proper { IsProper a }
    requires in_bounds { (272 ≤ length kinds.now) × (272 ≤ length tables.now) }
    requires kinds_known { kinds_of kinds.now (length (entries (architecture_of a))) ≡ entries (architecture_of a) }
    requires proper_tie { ProperTie (processes_in a) (record { left = left; right = right }) }
    ensures { result ≡ kept (architecture_of a) tables.now (record { left = left; right = right }) }
{
    are_alike(
        kinds,
        tables,
        a.start(left),
        a.start(right),
        length_of(a, left),
    )
}

// All ties are kept.
fn keeps_ties(kinds: &[u16], tables: &[u8], a: Architecture) -> bool
    requires proper { IsProper a }
    requires in_bounds { (272 ≤ length kinds.now) × (272 ≤ length tables.now) }
    requires kinds_known { kinds_of kinds.now (length (entries (architecture_of a))) ≡ entries (architecture_of a) }
    ensures { result ≡ keeps_ties (architecture_of a) tables.now }
{
    for tie in &a.tie_list[..a.ties] {
        if !is_kept(kinds, tables, a, tie.left as usize, tie.right as usize) {
            return false;
        }
    }
    true
}

// 11: an entry has a value that it may not have, or a tie is broken.
pub fn entry_fault(a: Architecture, tables: &[u8; 272]) -> bool
    requires { IsProper a }
    ensures { result ≡ entry_fault (architecture_of a) tables.now }
{
    let mut kinds = [0u16; 272];
    let n = choice::fill_kinds(&mut kinds, a);
    choice::is_misfit(&kinds, n, tables) || !keeps_ties(&kinds, tables, a)
}

// ---- leaders of processes
// In place of `old`, `new`.
fn instead(old: u8, new: u8, x: u8) -> u8
    ensures { result ≡ lead.instead old new x }
{
    if x == old { new } else { x }
}

// At a tie every process of the higher leader takes the lower.
fn join(old: [u8; 4], left: usize, right: usize) -> [u8; 4]
    requires { (left < 4) × (right < 4) }
    ensures { result ≡ lead.join old (record { left = left; right = right }) }
{
    let a = old[left];
    let b = old[right];
    let low = a.min(b);
    let high = a.max(b);
    old.map(|x| instead(high, low, x))
}

// The leader of each process: at first its own, then one tie after the other.
pub fn process_leaders(a: Architecture) -> [u8; 4]
    requires { IsProper a }
    ensures { result ≡ lead.leaders 4 (ties_in a) }
{
    let mut leaders = [0, 1, 2, 3];
    for tie in &a.tie_list[..a.ties] {
        // A result is not laid in an array that stands already.
        let joined = join(leaders, tie.left as usize, tie.right as usize);
        leaders = joined;
    }
    leaders
}

// ---- leaders of entries
// The numbers from `first` on, `count` of them.
fn put_from(words: &mut [u16], start: usize, first: usize, count: usize) -> usize
    requires { (start + count ≤ length words.old) × (first + count ≤ 2 ^ 16) }
    ensures { Appends words.old start (from count first) result words.new }
{
    let mut at = start;
    for number in first..first + count {
        at = append::put(words, at, number as u16);
    }
    at
}

// The leader of each entry: that at the same place of the table of its process's leader.
pub fn fill_leaders(leaders: &mut [u16; 272], a: Architecture)
    requires proper { IsProper a }
    requires leaders_len { length leaders.old ≡ 272 }
    ensures leaders_after { take (length (entries (architecture_of a))) leaders.new ≡ lead.entry_leaders (architecture_of a) }
    ensures leaders_len_2 { length leaders.new ≡ 272 }
{
    let own = process_leaders(a);
    let mut at = 0;
    for i in 0..a.processes {
        at = put_from(leaders, at, a.start(own[i] as usize), length_of(a, i));
    }
}

// ---- the next entry of a group
// For each of the first n entries, the next one with its leader, or n, and no Option: `NextInGroup`, of which the contract speaks, has this form.
// From the last to the first, with the last place seen of each leader.
pub fn fill_followers(followers: &mut [u16; 272], leaders: &[u16; 272], n: usize)
    requires followers_len { (length followers.old ≡ 272) × (length leaders.now ≡ 272) × (n ≤ 272) }
    requires leaders_inside { LeadersInside n leaders.now }
    ensures followers_are { FollowersAre n leaders.now followers.new }
    ensures followers_len_2 { length followers.new ≡ 272 }
{
    let mut last = [n as u16; 272];
    for k in (0..n).rev() {
        let l = leaders[k] as usize;
        followers[k] = last[l];
        last[l] = k as u16;
    }
}
