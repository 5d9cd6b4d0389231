// The records before AU: how long they are, and whether those of two sheets differ.
ghost use Rattle.std.specs.Prelude.{◌≡◌, ◌≤◌, length};
ghost use Rattle.model.specs.Mask.{if};
ghost use Rattle.model.specs.SheetFile.{front_bytes, sheet_bytes};
ghost use Rattle.model.specs.Join.{fronts_differ};
ghost use Rattle.architecture.specs.Struct as architecture;
ghost use Rattle.architecture.specs.Struct.{architecture_of};
ghost use Rattle.sheet.specs.Struct.{sheet_of, IsProper};

use architecture::Architecture;
use sheet::Sheet;

// A PM has one byte more than a PR.
fn process_length(prompted: bool) -> usize
    ensures { result ≡ if prompted 6 5 }
{
    if prompted { 6 } else { 5 }
}

// How many bytes they have.
pub fn front_length(a: Architecture) -> usize
    requires { architecture.IsProper a }
    ensures value { result ≡ length (front_bytes (architecture_of a)) }
    ensures upper_bound { result ≤ 41 }
{
    let mut bytes = 5 + 4 * a.ties;
    for process in &a.process_list[..a.processes] {
        bytes += process_length(process.prompted);
    }
    bytes
}

// 19: those of two proper sheets differ in some byte.
pub fn differ(first: &[u8], s: Sheet, second: &[u8], t: Sheet) -> bool
    requires proper { IsProper s × IsProper t }
    requires first_value { (first.now ≡ sheet_bytes (sheet_of s)) × (second.now ≡ sheet_bytes (sheet_of t)) }
    ensures { result ≡ fronts_differ (architecture_of s.architecture) (architecture_of t.architecture) }
{
    let n = front_length(s.architecture);
    let m = front_length(t.architecture);
    !check::same(&first[..n], &second[..m])
}
