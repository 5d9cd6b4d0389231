// Desks that are made fresh and stepped, and what is refused with 14 or before it. Each place that a sheet has no process for holds FF.
use super::calls::{fresh, step};
use super::prompts::{BOOK_P, CASE_P};
use super::sheets::{BOOK_A, BOOK_D, BOOK_E, BOOK_S_BROKEN, CASE_E, CASE_S, bounded};
use model::{Desk, ProcessState};
use sheet::CASE_A;

// The states of processes 0 and 1, and the mask.
fn desk(first: u8, second: u8, mask: u8) -> Desk {
    let states = [
        ProcessState(first),
        ProcessState(second),
        ProcessState(255),
        ProcessState(255),
    ];
    Desk {
        states,
        environment: mask,
    }
}

// A fresh desk, and four directions. A refused one leaves the desk where it was.
fn four_steps(rt: &impl Print, case: &[u8], sheet: &[u8], book: &[u8], directions: [u8; 4]) {
    let start = fresh(rt, case, sheet, desk(255, 255, 255));
    let once = step(rt, case, sheet, book, start, directions[0]);
    let twice = step(rt, case, sheet, book, once, directions[1]);
    let thrice = step(rt, case, sheet, book, twice, directions[2]);
    step(rt, case, sheet, book, thrice, directions[3]);
}

// A's tables alternate. The third direction is refused.
fn desk_a(rt: &impl Print) {
    four_steps(rt, b"A", &CASE_A, &BOOK_A, [1, 2, 4, 3]);
}

// The mask is out, a state is at its bound, or above it; and neither.
fn touched(rt: &impl Print) {
    let sheet = CASE_A;
    let book = BOOK_A;
    step(rt, b"A, mask 04", &sheet, &book, desk(0, 255, 4), 0);
    step(rt, b"A, state 2", &sheet, &book, desk(2, 255, 0), 0);
    step(rt, b"A, state 255", &sheet, &book, desk(255, 255, 0), 0);
    step(
        rt,
        b"A, state 1, mask 03",
        &sheet,
        &book,
        desk(1, 255, 3),
        3,
    );
}

// Both processes step. No step of the tables leads to states 1 and 0, but they may be stepped.
fn desk_d(rt: &impl Print) {
    let sheet = bounded(2, 2);
    four_steps(rt, b"D", &sheet, &BOOK_D, [1, 2, 8, 0]);
    step(rt, b"D, states 1, 0", &sheet, &BOOK_D, desk(1, 0, 0), 0);
}

// Without environment variables only direction 0 will do.
fn desk_e(rt: &impl Print) {
    let start = fresh(rt, b"E", &CASE_E, desk(255, 255, 255));
    let once = step(rt, b"E", &CASE_E, &BOOK_E, start, 0);
    step(rt, b"E", &CASE_E, &BOOK_E, once, 1);
}

// Process 1 reads promptly what process 0 puts out in the same step.
fn desk_p(rt: &impl Print) {
    let start = fresh(rt, b"P", &CASE_P, desk(255, 255, 255));
    let once = step(rt, b"P", &CASE_P, &BOOK_P, start, 1);
    step(rt, b"P", &CASE_P, &BOOK_P, once, 0);
}

// The sheet's refusals come first, then 10 and 11, and 14 last.
fn before_14(rt: &impl Print) {
    let start = desk(0, 255, 0);
    fresh(rt, b"A, 59 bytes", &CASE_A[0..59], start);
    step(rt, b"A, 59 bytes", &CASE_A[0..59], &BOOK_E, start, 4);
    step(rt, b"A, E's book", &CASE_A, &BOOK_E, start, 4);
    step(rt, b"S 01, 08", &CASE_S, &BOOK_S_BROKEN, start, 4);
}

pub fn desks(rt: &impl Print) {
    desk_a(rt);
    touched(rt);
    desk_d(rt);
    desk_e(rt);
    desk_p(rt);
    before_14(rt);
}
