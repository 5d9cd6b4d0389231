// Joining two sheets that were read: what cannot be joined, and the sheet that is written.
#![tactic(auto)]

ghost use Rattle.std.specs.Prelude.{◌≡◌};
ghost use Rattle.model.specs.Reading.{◌then◌};
ghost use Rattle.model.specs.SheetFile.{sheet_bytes};
ghost use Rattle.model.specs.Join.{join_for};
ghost use Rattle.model.specs.Calls.{room_for_sheet, wrote_sheet};
ghost use Rattle.sheet.specs.Struct.{sheet_of, IsProper};

mod automata;
mod fronts;

use automata::{are_too_large, join_automata};
use fronts::{differ, front_length};
use model::Refusal;
use sheet::Sheet;

// Of two proper sheets and their bytes: both as one go to the front of the buffer.
pub fn join_for(
    first: &[u8],
    s: Sheet,
    second: &[u8],
    t: Sheet,
    sheet: &mut [u8],
) -> Result<u16, Refusal>
    requires proper { IsProper s × IsProper t }
    requires first_value { (first.now ≡ sheet_bytes (sheet_of s)) × (second.now ≡ sheet_bytes (sheet_of t)) }
    ensures value { result ≡ (wrote_sheet (join_for (sheet_of s) (sheet_of t) then λ new. room_for_sheet new sheet.old) sheet.old).answer }
    ensures sheet_after { sheet.new ≡ (wrote_sheet (join_for (sheet_of s) (sheet_of t) then λ new. room_for_sheet new sheet.old) sheet.old).sheet }
{
    if differ(first, s, second, t) {
        return Err(Refusal::FrontsDiffer);
    }
    let u = s.automaton;
    let w = t.automaton;
    if are_too_large(u, w) {
        return Err(Refusal::JoinTooLarge);
    }
    let joined = join_automata(u, w);
    let front = front_length(s.architecture);
    if sheet.len() < front + 8 + 6 * joined.edges {
        return Err(Refusal::BufferTooShort);
    }
    let length = writing::put_sheet(sheet, &first[..front], joined);
    Ok(length as u16)
}
