// Checks the sheet in a file or on standard input: prints `proper`, or `refused` and the number, with the cause on standard error.
#![tactic(auto)]

ghost use Rattle.std.specs.Prelude.{◌≡◌, ◌≤◌, length};
ghost use Rattle.template.specs.Holds.{Holds};
ghost use Rattle.checksheet.specs.Printed.{reply_text, printed};

use model::Refusal;
use std::env::Env;

// One byte more than the longest proper sheet, so that a byte after EN is seen.
const ROOM: usize = 434;

// The text of a reply, at the front of the buffer: answers its length.
fn reply_text(text: &mut [u8], reply: Result<(), Refusal>) -> usize
    requires { 32 ≤ length text.old }
    ensures { Holds text.new result (reply_text reply) }
{
    match reply {
        Ok(()) => text::answer_text(text, b"proper\n"),
        Err(refusal) => text::refused_text(text, refusal),
    }
}

// Puts out the text that is due for the bytes of a sheet file: this is all that the program writes on standard output.
fn put_out(rt: &impl Print, sheet: &[u8], text: &[u8])
    requires { text.now ≡ printed sheet.now }
{
    input::put(rt, text);
}

// The answer for the bytes of a sheet file, and the cause of a refusal.
fn answer<R: Env + Print + Eprint>(rt: &R, sheet: &[u8]) {
    let reply = planner::check(sheet);
    let mut text = [0u8; 32];
    let end = reply_text(&mut text, reply);
    put_out(rt, sheet, &text[..end]);
    if let Err(refusal) = reply {
        cause::explain(rt, refusal, sheet);
    }
}

fn main(rt: HostRuntime) {
    if input::argument_count(&rt) > 2 {
        input::usage(&rt, b"check [SHEET]");
        return;
    }
    let Some(mut file) = input::open(&rt, 1) else {
        return;
    };
    let mut sheet = [0u8; ROOM];
    let length = input::read_full(&mut file, &mut sheet);
    answer(&rt, &sheet[..length]);
}
