// Runs every bench case through the public calls, and prints what each call answers and writes.
#![tactic(auto)]

ghost use Rattle.std.specs.Prelude.{◌<◌};

mod calls;
mod desks;
mod joins;
mod print;
mod prompts;
mod sheets;

use calls::{annotate, annotate_with, check, check_front, find, judge, part, reread};
use desks::desks;
use joins::joins;
use prompts::prompts;
use sheet::CASE_A;
use sheets::{
    BOOK_A, BOOK_D, BOOK_E, BOOK_J, BOOK_S, BOOK_S_BROKEN, BOUND, CASE_E, CASE_F, CASE_H, CASE_J,
    CASE_J_THIRD, CASE_L, CASE_S, CASE_S_NONE, CASE_S_UNTIED, CASE_U, CASE_U_JOINED, FOURTH_TIE,
    KIND, KIND_F, LAST, LEFT, OFF, REJECTING, RIGHT, SECOND_BOUND_S, SECOND_INPUTS, SECOND_OUTPUTS,
    TIE_CUT_OFF, TIE_FIRST, TIE_THEN_PROCESS, bounded, edges_then, waiting_unless,
};

// The arbiter: found, and its book annotated, read, written again and parted. There is no process 1.
fn case_a(rt: &impl Print) {
    let sheet = sheet::sheet_a();
    let book = BOOK_A;
    check(rt, b"A", &sheet);
    find(rt, b"A", &sheet, 20, 32);
    annotate(rt, b"A", &sheet, &book, 32);
    reread(rt, b"A", &sheet, &book);
    part(rt, b"A", &sheet, &book, 0);
    part(rt, b"A", &sheet, &book, 1);
}

// A whose waiting edges say unless: the same tables, and the same annotation.
fn case_a_unless(rt: &impl Print) {
    let sheet = waiting_unless();
    check(rt, b"A unless", &sheet);
    find(rt, b"A unless", &sheet, 20, 32);
    annotate(rt, b"A unless", &sheet, &BOOK_A, 32);
}

// A with one state, which cannot grant to each in turn.
fn case_b(rt: &impl Print) {
    let mut sheet = CASE_A;
    sheet[BOUND] = 1;
    find(rt, b"B", &sheet, 11, 16);
}

// Two processes, of which one has no second state.
fn case_c(rt: &impl Print) {
    find(rt, b"C 1,1", &bounded(1, 1), 16, 16);
    find(rt, b"C 2,1", &bounded(2, 1), 23, 32);
    find(rt, b"C 1,2", &bounded(1, 2), 23, 32);
}

// Two states each. In the first tables process 1 grants in state 0; in the alternating ones process 0 does.
fn case_d(rt: &impl Print) {
    let sheet = bounded(2, 2);
    let book = BOOK_D;
    find(rt, b"D", &sheet, 30, 64);
    annotate(rt, b"D alternating", &sheet, &book, 64);
    part(rt, b"D alternating", &sheet, &book, 0);
    part(rt, b"D alternating", &sheet, &book, 1);
}

// No variables: one row, and nothing to keep.
fn case_e(rt: &impl Print) {
    find(rt, b"E", &CASE_E, 8, 1);
}

// A rejecting loop that no table avoids, with the bounds 1 and 4. As an EX its edge is never met.
fn case_f(rt: &impl Print) {
    let mut sheet = CASE_F;
    find(rt, b"F 1", &sheet, 8, 1);
    annotate(rt, b"F 1", &sheet, &BOOK_E, 1);
    sheet[BOUND] = 4;
    find(rt, b"F 4", &sheet, 26, 4);
    sheet[BOUND] = 1;
    sheet[KIND_F] = b'X';
    find(rt, b"F unless", &sheet, 8, 1);
}

// E with state 0 rejecting: no step enters it, but the start is an entry.
fn case_g(rt: &impl Print) {
    let mut sheet = CASE_E;
    sheet[REJECTING] = 0x01;
    find(rt, b"G", &sheet, 8, 1);
}

// Numbers rise where the state entered is rejecting, and not where the state left is. A rejecting start is counted, and need not be.
fn case_h(rt: &impl Print) {
    let mut sheet = CASE_H;
    let book = BOOK_E;
    annotate(rt, b"H rejecting 0", &sheet, &book, 2);
    judge(rt, b"H rejecting 0 numbers 0 0", &sheet, &book, &[0, 0]);
    sheet[REJECTING] = 0x02;
    annotate(rt, b"H rejecting 1", &sheet, &book, 2);
    judge(rt, b"H rejecting 1 numbers 0 0", &sheet, &book, &[0, 0]);
    judge(rt, b"H rejecting 1 numbers 0 1", &sheet, &book, &[0, 1]);
}

// Too few bytes, and one too many.
fn case_i(rt: &impl Print) {
    check(rt, b"I empty", &[]);
    check(rt, b"I 41", &[0x41]);
    let mut longer = [0u8; 61];
    longer[..CASE_A.len()].copy_from_slice(&CASE_A);
    check(rt, b"I A and one more", &longer);
}

// T is 256: so many numbers are enough for the one automaton state, and one fewer is not. A third process makes T too large.
fn case_j(rt: &impl Print) {
    let sheet = CASE_J;
    let book = BOOK_J;
    check(rt, b"J 4,4", &sheet);
    judge(rt, b"J 4,4 numbers 255", &sheet, &book, &[0; 255]);
    judge(rt, b"J 4,4 numbers 256", &sheet, &book, &[0; 256]);
    check(rt, b"J 4,4,2", &CASE_J_THIRD);
}

// A with one field outside the rules.
fn case_k(rt: &impl Print) {
    let mut sheet = CASE_A;
    sheet[BOUND] = 0;
    check(rt, b"K bound 0", &sheet);
    sheet[BOUND] = 5;
    check(rt, b"K bound 5", &sheet);
    sheet[BOUND] = 2;
    sheet[OFF] = 0x01;
    check(rt, b"K on 01 off 01", &sheet);
    sheet[KIND] = b'X';
    check(rt, b"K unless on 01 off 01", &sheet);
}

// 64 edges of both kinds are proper. A 65th of either is a mark that may not stand there, however few bytes follow it.
fn edges(rt: &impl Print) {
    let end = edges_then(b'N');
    check_front(rt, b"64 edges", &end, 402);
    check_front(rt, b"64 edges, the last cut off", &end, 399);
    check(rt, b"65 edges, the last ED", &edges_then(b'D'));
    let ex = edges_then(b'X');
    check(rt, b"65 edges, the last EX", &ex);
    check_front(rt, b"65 edges, the last cut off", &ex, 402);
}

// Tied masks are one when packed: 05 and 0A. Without the tie there are lower ones, and with one edge more none that are tied.
fn case_s(rt: &impl Print) {
    let sheet = CASE_S;
    find(rt, b"S", &sheet, 14, 2);
    find(rt, b"S untied", &CASE_S_UNTIED, 14, 2);
    find(rt, b"S off 04", &CASE_S_NONE, 14, 2);
    annotate(rt, b"S 01, 02", &sheet, &BOOK_S, 2);
    let mut broken = BOOK_S_BROKEN;
    annotate(rt, b"S 01, 08", &sheet, &broken, 2);
    judge(rt, b"S 01, 08", &sheet, &broken, &[]);
    part(rt, b"S 01, 08", &sheet, &broken, 0);
    part(rt, b"S 01, 08", &sheet, &broken, 2);
    broken[LAST] = b'O';
    annotate(rt, b"S 01, 08, last byte 4F", &sheet, &broken, 2);
}

// The only run: out of state 0 along an EX, by direction 1, on by direction 0, and round.
fn case_l(rt: &impl Print) {
    annotate(rt, b"L", &CASE_L, &BOOK_E, 6);
}

// A path buffer that is too short is refused whether or not there is a loop, and before a short annotation.
fn paths(rt: &impl Print) {
    annotate_with(rt, b"F 1, path of 3", &CASE_F, &BOOK_E, 1, 3);
    annotate_with(rt, b"E, path of 3", &CASE_E, &BOOK_E, 1, 3);
    annotate_with(rt, b"E, path of 3, annotation of 0", &CASE_E, &BOOK_E, 0, 3);
    annotate_with(rt, b"E, path of 4, annotation of 0", &CASE_E, &BOOK_E, 0, 4);
    annotate_with(rt, b"L, path of 23", &CASE_L, &BOOK_E, 6, 23);
}

// Two pairs of tied processes, and all four in one.
fn case_u(rt: &impl Print) {
    find(rt, b"U", &CASE_U, 50, 48);
    find(rt, b"U joined", &CASE_U_JOINED, 50, 48);
}

// S with one byte changed. Where process 1 sets one variable, another has no owner: the tie comes first.
fn check_tie(rt: &impl Print, case: &[u8], at: usize, byte: u8)
    requires { at < 51 }
{
    let mut sheet = CASE_S;
    sheet[at] = byte;
    check(rt, case, &sheet);
}

// What is no tie, and where none may stand.
fn ties(rt: &impl Print) {
    check(rt, b"SY", &CASE_S);
    check_tie(rt, b"SY 2 0", LEFT, 2);
    check_tie(rt, b"SY 1 2", RIGHT, 2);
    check_tie(rt, b"SY 1 1", RIGHT, 1);
    check_tie(rt, b"SY of bounds 1, 2", SECOND_BOUND_S, 2);
    check_tie(rt, b"SY of inputs 0, 1", SECOND_INPUTS, 0x01);
    check_tie(rt, b"SY of outputs 2, 1", SECOND_OUTPUTS, 0x02);
    check(rt, b"SY before any PR", &TIE_FIRST);
    check(rt, b"PR behind an SY", &TIE_THEN_PROCESS);
    check(rt, b"fourth SY", &FOURTH_TIE);
    check(rt, b"SY cut off", &TIE_CUT_OFF);
}

fn main(rt: HostRuntime) {
    case_a(&rt);
    case_a_unless(&rt);
    case_b(&rt);
    case_c(&rt);
    case_d(&rt);
    case_e(&rt);
    case_f(&rt);
    case_g(&rt);
    case_h(&rt);
    case_i(&rt);
    case_j(&rt);
    case_k(&rt);
    edges(&rt);
    case_s(&rt);
    case_u(&rt);
    ties(&rt);
    prompts(&rt);
    case_l(&rt);
    paths(&rt);
    desks(&rt);
    joins(&rt);
}
