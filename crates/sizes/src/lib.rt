// How long the books and the annotations of a proper sheet are.
#![tactic(auto)]

ghost use Rattle.std.specs.Prelude.{◌≡◌, ◌≤◌};
ghost use Rattle.model.specs.Book.{book_length};
ghost use Rattle.model.specs.RunGraph.{vertices as vertices_of};
ghost use Rattle.architecture.specs.Struct.{IsProper as IsProperArchitecture, architecture_of};
ghost use Rattle.sheet.specs.Struct.{sheet_of, IsProper};

use architecture::Architecture;
use sheet::Sheet;

// The bytes of a book.
pub fn book_length(a: Architecture) -> usize
    requires { IsProperArchitecture a }
    ensures { (result ≡ book_length (architecture_of a)) × (result ≤ 338) }
{
    let mut slots = [0u16; 338];
    layout::fill_slots(&mut slots, a)
}

// The numbers of an annotation: T times the automaton states.
pub fn vertices(sheet: Sheet) -> usize
    requires { IsProper sheet }
    ensures { (result ≡ vertices_of (sheet_of sheet)) × (result ≤ 4096) }
{
    sheet.automaton.states as usize * sheet.architecture.composed_states()
}
