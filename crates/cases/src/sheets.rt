// The sheets of the bench cases, and books for some. Case A's sheet is the library's own.
ghost use Rattle.std.specs.Prelude.{◌≡◌, ◌+◌, ◌≤◌, length};

use sheet::CASE_A;

// ---- where the cases differ: bytes of a sheet
// The bound of process 0, in every sheet here.
pub const BOUND: usize = 9;

// The bound of process 1, where there is one.
const SECOND_BOUND: usize = 14;

// The rejecting mask, where there is one process.
pub const REJECTING: usize = 14;

// The off mask of A's edge from 0 to 1, whose on mask is 01.
pub const OFF: usize = 33;

// The second byte of that edge's mark, and of the mark of F's edge.
pub const KIND: usize = 29;

pub const KIND_F: usize = 17;

// A's two waiting edges.
const WAITING_1: usize = 40;

const WAITING_2: usize = 46;

// ---- the sheets and books
// A's book.
pub const BOOK_A: [u8; 20] = *b"\
    TB\x00\x00\x04\x01\x01\x01\x01TB\x00\x01\x08\x00\x00\x00\x00EN";

// The edge at `at` says unless, and on and off are turned round: `while not granted` becomes `unless granted`.
fn say_unless(sheet: &mut [u8; 60], at: usize)
    requires sheet_len { length sheet.old ≡ 60 }
    requires at_bound { at + 6 ≤ 60 }
    ensures { length sheet.new ≡ 60 }
{
    sheet[at + 1] = b'X';
    sheet.swap(at + 4, at + 5);
}

// A, whose waiting edges say unless.
pub fn waiting_unless() -> [u8; 60]
    ensures { 60 ≡ length result }
{
    let mut sheet = CASE_A;
    say_unless(&mut sheet, WAITING_1);
    say_unless(&mut sheet, WAITING_2);
    sheet
}

// The second byte of the mark of edge k: each other edge says unless.
fn kind(k: usize) -> u8 {
    if k % 2 == 0 { b'D' } else { b'X' }
}

// E with 64 edges, ED and EX by turns, and a mark with this second byte. Four fields follow that one too.
pub fn edges_then(mark: u8) -> [u8; 408]
    ensures { 408 ≡ length result }
{
    let mut sheet = [0u8; 408];
    sheet[..CASE_E.len()].copy_from_slice(&CASE_E);
    for k in 0..65 {
        let at = 16 + 6 * k;
        sheet[at] = b'E';
        sheet[at + 1] = kind(k);
    }
    sheet[401] = mark;
    sheet
}

// A's automaton over two processes. Their bounds are set by `bounded`.
const CASE_C: [u8; 65] = *b"\
    AR\x04\x02\x00PR\x01\x04\x00PR\x02\x08\x00AU\x04\x00\x0E\x00\
    ED\x00\x00\x00\x00ED\x00\x03\x0C\x00ED\x00\x01\x01\x00\
    ED\x00\x02\x02\x00ED\x01\x01\x00\x04ED\x02\x02\x00\x08\
    ED\x03\x03\x00\x00EN";

// C, or D, with these bounds.
pub fn bounded(first: u8, second: u8) -> [u8; 65]
    ensures { 65 ≡ length result }
{
    let mut sheet = CASE_C;
    sheet[BOUND] = first;
    sheet[SECOND_BOUND] = second;
    sheet
}

// Tables for D that alternate: process 0 grants in state 0, process 1 in state 1.
pub const BOOK_D: [u8; 30] = *b"\
    TB\x00\x00\x04\x01\x01TB\x00\x01\x00\x00\x00\
    TB\x01\x00\x00\x01\x01TB\x01\x01\x08\x00\x00EN";

// No variables, bound 1, one automaton state, no edges.
pub const CASE_E: [u8; 18] = *b"AR\x00\x00\x00PR\x00\x00\x01AU\x01\x00\x00\x00EN";

// The only book of E, F and H: bound 1 and no outputs leave no choice.
pub const BOOK_E: [u8; 8] = *b"TB\x00\x00\x00\x00EN";

// E with state 0 rejecting, and an edge from it to itself.
pub const CASE_F: [u8; 24] = *b"AR\x00\x00\x00PR\x00\x00\x01AU\x01\x00\x01\x00ED\x00\x00\x00\x00EN";

// One environment variable, and a process with nothing to read or set. Out of state 0 unless the variable is 1, into the rejecting state 2 where it is,
// and round there while it is not; an edge that is not met comes first.
pub const CASE_L: [u8; 42] = *b"\
    AR\x01\x01\x00PR\x00\x00\x01AU\x03\x00\x04\x00\
    ED\x00\x01\x01\x00EX\x00\x01\x01\x00ED\x01\x02\x01\x00ED\x02\x02\x00\x01EN";

// E with states 0 and 1, of which 0 is rejecting, and an edge from 0 to 1.
pub const CASE_H: [u8; 24] = *b"AR\x00\x00\x00PR\x00\x00\x01AU\x02\x00\x01\x00ED\x00\x01\x00\x00EN";

// Four environment variables, bounds 4 and 4.
pub const CASE_J: [u8; 23] = *b"AR\x04\x04\x00PR\x00\x00\x04PR\x00\x00\x04AU\x01\x00\x00\x00EN";

// J with a third process, of bound 2.
pub const CASE_J_THIRD: [u8; 28] = *b"\
    AR\x04\x04\x00PR\x00\x00\x04PR\x00\x00\x04PR\x00\x00\x02\
    AU\x01\x00\x00\x00EN";

// A book of J: every row is zeros.
pub const BOOK_J: [u8; 50] = *b"\
    TB\x00\x00\x00\x00TB\x00\x01\x00\x00TB\x00\x02\x00\x00TB\x00\x03\x00\x00\
    TB\x01\x00\x00\x00TB\x01\x01\x00\x00TB\x01\x02\x00\x00TB\x01\x03\x00\x00EN";

// ---- ties
// Two tied processes with the outputs 05 and 0A: variables 0 and 3 are to be on.
pub const CASE_S: [u8; 51] = *b"\
    AR\x04\x00\x00PR\x00\x05\x01PR\x00\x0A\x01SY\x01\x00AU\x02\x00\x02\x00\
    ED\x00\x00\x00\x00ED\x00\x01\x00\x01ED\x00\x01\x00\x08ED\x01\x01\x00\x00EN";

// S without its tie.
pub const CASE_S_UNTIED: [u8; 47] = *b"\
    AR\x04\x00\x00PR\x00\x05\x01PR\x00\x0A\x01AU\x02\x00\x02\x00\
    ED\x00\x00\x00\x00ED\x00\x01\x00\x01ED\x00\x01\x00\x08ED\x01\x01\x00\x00EN";

// S, and variable 2 is to be off: with 0 on and 2 off, the other mask has 1 on and 3 off.
pub const CASE_S_NONE: [u8; 57] = *b"\
    AR\x04\x00\x00PR\x00\x05\x01PR\x00\x0A\x01SY\x01\x00AU\x02\x00\x02\x00\
    ED\x00\x00\x00\x00ED\x00\x01\x00\x01ED\x00\x01\x00\x08ED\x00\x01\x04\x00ED\x01\x01\x00\x00EN";

// The two process numbers of S's tie; the inputs, outputs and bound of its process 1.
pub const LEFT: usize = 17;

pub const RIGHT: usize = 18;

pub const SECOND_INPUTS: usize = 12;

pub const SECOND_OUTPUTS: usize = 13;

pub const SECOND_BOUND_S: usize = 14;

// A book of S with one table, and one with two.
pub const BOOK_S: [u8; 14] = *b"TB\x00\x00\x01\x00TB\x01\x00\x02\x00EN";

pub const BOOK_S_BROKEN: [u8; 14] = *b"TB\x00\x00\x01\x00TB\x01\x00\x08\x00EN";

// The last byte of S's books.
pub const LAST: usize = 13;

// Two pairs of tied processes: variable 0 is to be on at some time, and never variables 0 and 2 at once.
pub const CASE_U: [u8; 71] = *b"\
    AR\x04\x00\x00PR\x00\x01\x02PR\x00\x02\x02PR\x00\x04\x02PR\x00\x08\x02SY\x02\x03SY\x00\x01AU\x03\x00\x06\x00\
    ED\x00\x00\x00\x00ED\x00\x01\x00\x01ED\x01\x01\x00\x01ED\x00\x02\x05\x00ED\x02\x02\x00\x00EN";

// U, and a third tie joins the pairs.
pub const CASE_U_JOINED: [u8; 75] = *b"\
    AR\x04\x00\x00PR\x00\x01\x02PR\x00\x02\x02PR\x00\x04\x02PR\x00\x08\x02SY\x02\x03SY\x00\x01SY\x03\x01AU\x03\x00\x06\x00\
    ED\x00\x00\x00\x00ED\x00\x01\x00\x01ED\x01\x01\x00\x01ED\x00\x02\x05\x00ED\x02\x02\x00\x00EN";

// An SY before any PR, a PR behind an SY, and a fourth SY: each ends with the mark. And an SY of a process that there is not, cut off.
pub const TIE_FIRST: [u8; 7] = *b"AR\x00\x00\x00SY";

pub const TIE_THEN_PROCESS: [u8; 21] = *b"AR\x04\x00\x00PR\x00\x05\x01PR\x00\x0A\x01SY\x01\x00PR";

pub const FOURTH_TIE: [u8; 29] =
    *b"AR\x04\x00\x00PR\x00\x05\x01PR\x00\x0A\x01SY\x01\x00SY\x01\x00SY\x00\x01SY";

pub const TIE_CUT_OFF: [u8; 18] = *b"AR\x04\x00\x00PR\x00\x05\x01PR\x00\x0A\x01SY\x07";
