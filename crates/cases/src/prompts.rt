// Cases P and Q, a chain of prompt inputs, and what is no PM, or may not stand there.
use super::calls::{annotate, check, check_front, find};

// Variable 1 is always to be as variable 0, and variable 2 as 1: process 1 reads variable 1, which process 0 sets, promptly.
pub const CASE_P: [u8; 60] = *b"\
    AR\x03\x01\x00PR\x01\x02\x02PM\x02\x04\x02\x02AU\x02\x00\x02\x00\
    ED\x00\x00\x00\x00ED\x00\x01\x01\x02ED\x00\x01\x02\x01ED\x00\x01\x02\x04ED\x00\x01\x04\x02ED\x01\x01\x00\x00EN";

// The inputs and the prompt mask of its process 1.
const INPUTS_P: usize = 12;

const PROMPTS_P: usize = 15;

// Process 1 is a PR.
const CASE_P_DELAYED: [u8; 59] = *b"\
    AR\x03\x01\x00PR\x01\x02\x02PR\x02\x04\x02AU\x02\x00\x02\x00\
    ED\x00\x00\x00\x00ED\x00\x01\x01\x02ED\x00\x01\x02\x01ED\x00\x01\x02\x04ED\x00\x01\x04\x02ED\x01\x01\x00\x00EN";

pub const BOOK_P: [u8; 30] =
    *b"TB\x00\x00\x00\x00\x01TB\x00\x01\x02\x00\x01TB\x01\x00\x00\x00\x01TB\x01\x01\x04\x00\x01EN";

// Variable 3 is to be on exactly in the first step of each time that variable 0 is on. Process 2 reads variable 1 promptly, and variable 2 one step later.
const CASE_Q: [u8; 77] = *b"\
    AR\x04\x01\x00PR\x01\x02\x02PR\x01\x04\x02PM\x06\x08\x02\x02AU\x03\x00\x02\x00\
    ED\x00\x01\x01\x08ED\x00\x01\x08\x01ED\x00\x00\x00\x01ED\x00\x02\x01\x00\
    ED\x02\x01\x08\x00ED\x02\x00\x00\x01ED\x02\x02\x01\x00ED\x01\x01\x00\x00EN";

const PROMPTS_Q: usize = 20;

const BOOK_Q: [u8; 48] = *b"\
    TB\x00\x00\x00\x00\x01TB\x00\x01\x02\x00\x00TB\x01\x00\x00\x00\x01TB\x01\x01\x04\x00\x01\
    TB\x02\x00\x00\x00\x01\x00\x00TB\x02\x01\x08\x00\x00\x00\x00EN";

// Variable 3 is always to be as variable 0, three processes further on. The same with a tie; and with one PM or the other as a PR.
const CHAIN: [u8; 54] = *b"\
    AR\x04\x01\x00PR\x01\x02\x02PM\x02\x04\x02\x02PM\x04\x08\x02\x04AU\x02\x00\x02\x00\
    ED\x00\x00\x00\x00ED\x00\x01\x01\x08ED\x00\x01\x08\x01ED\x01\x01\x00\x00EN";

const CHAIN_TIED: [u8; 58] = *b"\
    AR\x04\x01\x00PR\x01\x02\x02PM\x02\x04\x02\x02PM\x04\x08\x02\x04SY\x02\x01AU\x02\x00\x02\x00\
    ED\x00\x00\x00\x00ED\x00\x01\x01\x08ED\x00\x01\x08\x01ED\x01\x01\x00\x00EN";

const CHAIN_FIRST: [u8; 53] = *b"\
    AR\x04\x01\x00PR\x01\x02\x02PR\x02\x04\x02PM\x04\x08\x02\x04AU\x02\x00\x02\x00\
    ED\x00\x00\x00\x00ED\x00\x01\x01\x08ED\x00\x01\x08\x01ED\x01\x01\x00\x00EN";

const CHAIN_SECOND: [u8; 53] = *b"\
    AR\x04\x01\x00PR\x01\x02\x02PM\x02\x04\x02\x02PR\x04\x08\x02AU\x02\x00\x02\x00\
    ED\x00\x00\x00\x00ED\x00\x01\x01\x08ED\x00\x01\x08\x01ED\x01\x01\x00\x00EN";

const CHAIN_FIRST_TIED: [u8; 25] =
    *b"AR\x04\x01\x00PR\x01\x02\x02PR\x02\x04\x02PM\x04\x08\x02\x04SY\x02\x01";

const CHAIN_SECOND_TIED: [u8; 25] =
    *b"AR\x04\x01\x00PR\x01\x02\x02PM\x02\x04\x02\x02PR\x04\x08\x02SY\x02\x01";

// The prompt input of both is variable 1: at place 0 of process 2, and at place 1 of process 1. With inputs 03 in both the places are equal.
const TIED_PLACES: [u8; 34] = *b"\
    AR\x04\x01\x00PR\x01\x02\x02PM\x03\x04\x02\x02PM\x06\x08\x02\x02SY\x02\x01AU\x01\x00\x00\x00EN";

const THIRD_INPUTS: usize = 18;

// A PM without prompt inputs, as process 0, and tied to a PR.
const NO_PROMPTS: [u8; 28] =
    *b"AR\x02\x00\x00PM\x00\x01\x01\x00PR\x00\x02\x01SY\x01\x00AU\x01\x00\x00\x00EN";

// Process 0 reads promptly what process 1 sets.
const OF_A_HIGHER: [u8; 11] = *b"AR\x03\x01\x00PM\x04\x02\x02\x04";

// The output of process 1 is taken, and its prompt input is the environment's.
const TAKEN_TOO: [u8; 16] = *b"AR\x03\x01\x00PR\x01\x02\x02PM\x01\x02\x02\x01";

// Behind the prompt input of the environment a tie of one process, and a variable without an owner.
const BEFORE_LATER: [u8; 28] =
    *b"AR\x04\x01\x00PR\x01\x02\x02PM\x01\x04\x02\x01SY\x00\x00AU\x01\x00\x00\x00EN";

// A PM whose fields are wrong already, cut off.
const CUT_OFF: [u8; 15] = *b"AR\x03\x01\x00PR\x01\x02\x02PM\xFF\xFF\x09";

// The fifth of PR and PM together, and a PM behind an SY: each ends with the mark.
const FIFTH: [u8; 29] =
    *b"AR\x00\x00\x00PR\x00\x00\x01PM\x00\x00\x01\x00PR\x00\x00\x01PM\x00\x00\x01\x00PM";

const BEHIND_TIE: [u8; 21] = *b"AR\x04\x00\x00PR\x00\x05\x01PR\x00\x0A\x01SY\x01\x00PM";

// Tables only where process 1 reads promptly.
fn case_p(rt: &impl Print) {
    let mut sheet = CASE_P;
    find(rt, b"P", &sheet, 30, 16);
    annotate(rt, b"P", &sheet, &BOOK_P, 16);
    sheet[PROMPTS_P] = 0x00;
    find(rt, b"P prompt 00", &sheet, 30, 16);
    annotate(rt, b"P prompt 00", &sheet, &BOOK_P, 16);
    find(rt, b"P delayed", &CASE_P_DELAYED, 30, 16);
}

// Q with this prompt mask: its tables, and what its own book then is.
fn try_q(rt: &impl Print, case: &[u8], prompts: u8) {
    let mut sheet = CASE_Q;
    sheet[PROMPTS_Q] = prompts;
    find(rt, case, &sheet, 48, 48);
    annotate(rt, case, &sheet, &BOOK_Q, 48);
}

// Each prompt mask has tables of its own, or none.
fn case_q(rt: &impl Print) {
    try_q(rt, b"Q", 0x02);
    try_q(rt, b"Q prompt 00", 0x00);
    try_q(rt, b"Q prompt 04", 0x04);
    try_q(rt, b"Q prompt 06", 0x06);
}

// One step through three processes, which two could share a table.
fn chain(rt: &impl Print) {
    find(rt, b"chain", &CHAIN, 44, 32);
    find(rt, b"chain tied", &CHAIN_TIED, 44, 32);
    find(rt, b"chain, the first delayed", &CHAIN_FIRST, 44, 32);
    find(rt, b"chain, the second delayed", &CHAIN_SECOND, 44, 32);
    check(rt, b"chain tied, the first delayed", &CHAIN_FIRST_TIED);
    check(rt, b"chain tied, the second delayed", &CHAIN_SECOND_TIED);
}

// P with these inputs and prompt inputs of process 1.
fn check_prompt(rt: &impl Print, case: &[u8], inputs: u8, prompts: u8) {
    let mut sheet = CASE_P;
    sheet[INPUTS_P] = inputs;
    sheet[PROMPTS_P] = prompts;
    check(rt, case, &sheet);
}

// What is no prompt input, and which fault comes first.
fn faults(rt: &impl Print) {
    check_prompt(rt, b"PM 02", 0x02, 0x02);
    check_prompt(rt, b"PM of no input", 0x01, 0x02);
    check_prompt(rt, b"PM of the environment", 0x03, 0x01);
    check_prompt(rt, b"PM of its own output", 0x02, 0x04);
    check_prompt(rt, b"PM of its own output as an input", 0x06, 0x04);
    check_prompt(rt, b"PM of no variable", 0x02, 0x0A);
    check(rt, b"PM of a higher process", &OF_A_HIGHER);
    check(rt, b"PM of a taken output", &TAKEN_TOO);
    check(
        rt,
        b"PM before a bad SY and a variable without an owner",
        &BEFORE_LATER,
    );
}

// Where a PM may stand, and of how many bytes; and what it may be tied to.
fn places(rt: &impl Print) {
    check(rt, b"PM 00", &NO_PROMPTS);
    let mut tied = TIED_PLACES;
    check(rt, b"SY of prompts at other places", &tied);
    tied[THIRD_INPUTS] = 0x03;
    check(rt, b"SY of prompts at equal places", &tied);
    check(rt, b"PM cut off", &CUT_OFF);
    check_front(rt, b"PM cut off behind its mark", &CUT_OFF, 12);
    check(rt, b"fifth of PR and PM", &FIFTH);
    check(rt, b"PM behind an SY", &BEHIND_TIE);
}

pub fn prompts(rt: &impl Print) {
    case_p(rt);
    case_q(rt);
    chain(rt);
    faults(rt);
    places(rt);
}
