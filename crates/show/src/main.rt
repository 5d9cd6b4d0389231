// Shows what the sheet in a file or on standard input says, a line for each record and then the counts; or `refused` and the number, with the cause on
// standard error.
#![tactic(auto)]

ghost use Rattle.std.specs.Prelude.{◌≡◌, ◌≤◌, length};
ghost use Rattle.template.specs.Holds.{Holds};
ghost use Rattle.show.specs.Shown.{shown};

use std::env::Env;

// One byte more than the longest proper sheet, so that a byte after EN is seen.
const ROOM: usize = 434;

// The text for the bytes of a sheet file, at the front of the buffer: answers its length.
fn answer_text(text: &mut [u8], sheet: &[u8]) -> usize
    requires { 8192 ≤ length text.old }
    ensures { Holds text.new result (shown sheet.now) }
{
    match sheet::read(sheet) {
        Ok(read) => listing::sheet_text(text, read),
        Err(refusal) => text::refused_text(text, refusal),
    }
}

// Puts out the text that is due for the bytes of a sheet file: this is all that the program writes on standard output.
fn put_out(rt: &impl Print, sheet: &[u8], text: &[u8])
    requires { text.now ≡ shown sheet.now }
{
    input::put(rt, text);
}

// The answer for the bytes of a sheet file, and the cause of a refusal.
fn answer<R: Env + Print + Eprint>(rt: &R, sheet: &[u8]) {
    let mut text = [0u8; 8192];
    let end = answer_text(&mut text, sheet);
    put_out(rt, sheet, &text[..end]);
    cause::explain_sheet(rt, sheet);
}

fn main(rt: HostRuntime) {
    if input::argument_count(&rt) > 2 {
        input::usage(&rt, b"show [SHEET]");
        return;
    }
    let Some(mut file) = input::open(&rt, 1) else {
        return;
    };
    let mut sheet = [0u8; ROOM];
    let length = input::read_full(&mut file, &mut sheet);
    answer(&rt, &sheet[..length]);
}
