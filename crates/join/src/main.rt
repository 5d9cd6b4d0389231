// Joins the sheets in two files: writes both as one on standard output; or `refused` and the number, with the cause on standard error.
#![tactic(auto)]

ghost use Rattle.std.specs.Prelude.{◌≡◌};
ghost use Rattle.model.specs.Reading.{refused};
ghost use Rattle.model.specs.Join.{join_bytes};
ghost use Rattle.join.specs.Printed.{printed};

use model::Refusal;
use std::env::Env;

// One byte more than the longest proper sheet, so that a byte after EN is seen.
const ROOM: usize = 434;

// Puts out what is due for the bytes of two sheet files: this is all that the program writes on standard output.
fn put_out(rt: &impl Print, first: &[u8], second: &[u8], bytes: &[u8])
    requires { bytes.now ≡ printed first.now second.now }
{
    input::put(rt, bytes);
}

// The text of a refusal, and its cause.
fn refuse<R: Env + Print + Eprint>(rt: &R, first: &[u8], second: &[u8], refusal: Refusal)
    requires { join_bytes first.now second.now ≡ refused refusal }
{
    let mut text = [0u8; 32];
    let end = text::refused_text(&mut text, refusal);
    put_out(rt, first, second, &text[..end]);
    cause::explain_joining(rt, refusal, first, second);
}

// The answer for the bytes of two sheet files. The buffer has room for every sheet.
fn answer<R: Env + Print + Eprint>(rt: &R, first: &[u8], second: &[u8]) {
    let mut sheet = [0u8; 433];
    match planner::join(first, second, &mut sheet) {
        Ok(length) => put_out(rt, first, second, &sheet[..length as usize]),
        Err(refusal) => refuse(rt, first, second, refusal),
    }
}

fn main(rt: HostRuntime) {
    if input::argument_count(&rt) != 3 {
        input::usage(&rt, b"join FIRST SECOND");
        return;
    }
    let first_file = input::open(&rt, 1);
    let second_file = input::open(&rt, 2);
    let (Some(mut first_file), Some(mut second_file)) = (first_file, second_file) else {
        return;
    };
    let mut first = [0u8; ROOM];
    let first_end = input::read_full(&mut first_file, &mut first);
    let mut second = [0u8; ROOM];
    let second_end = input::read_full(&mut second_file, &mut second);
    answer(&rt, &first[..first_end], &second[..second_end]);
}
