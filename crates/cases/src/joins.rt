// Two sheets as one: A with itself, joined again and again; sheets that do not belong together; and a buffer that is too short, or longer.
use super::calls::{find, join};
use super::sheets::{CASE_E, CASE_F};
use sheet::CASE_A;

// A with A is kept by A's tables. Joined with A on either side it has room still, and with itself none.
fn case_a(rt: &impl Print) {
    let mut twice = [7u8; 150];
    join(rt, b"A with A", &CASE_A, &CASE_A, &mut twice);
    find(rt, b"A with A", &twice, 20, 72);
    let mut thrice = [7u8; 264];
    join(rt, b"A with A, with A", &twice, &CASE_A, &mut thrice);
    find(rt, b"A with A, with A", &thrice, 20, 112);
    join(rt, b"A, with A with A", &CASE_A, &twice, &mut thrice);
    find(rt, b"A, with A with A", &thrice, 20, 112);
    join(rt, b"A with A, with A with A", &twice, &twice, &mut thrice);
}

// F is kept by no tables, and so neither is E with it.
fn case_f(rt: &impl Print) {
    let mut sheet = [7u8; 30];
    join(rt, b"E with F", &CASE_E, &CASE_F, &mut sheet);
    find(rt, b"E with F", &sheet, 8, 3);
    join(rt, b"F with E", &CASE_F, &CASE_E, &mut sheet);
    find(rt, b"F with E", &sheet, 8, 3);
}

// E has no edge: E with E has a byte more than the first buffer, and one fewer than the last.
fn case_e(rt: &impl Print) {
    join(rt, b"E with A", &CASE_E, &CASE_A, &mut []);
    join(
        rt,
        b"E with E, buffer of 17",
        &CASE_E,
        &CASE_E,
        &mut [7u8; 17],
    );
    join(rt, b"E with E", &CASE_E, &CASE_E, &mut [7u8; 18]);
    join(
        rt,
        b"E with E, buffer of 19",
        &CASE_E,
        &CASE_E,
        &mut [7u8; 19],
    );
}

pub fn joins(rt: &impl Print) {
    case_a(rt);
    case_f(rt);
    case_e(rt);
}
