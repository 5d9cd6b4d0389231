// What the desk program reads and prints: words of hexadecimal digits, a line for the start, and one for each direction.
#![tactic(auto)]

ghost use Rattle.std.specs.Prelude.{◌≡◌, ◌^◌, ◌<◌, ◌≤◌, length, IfSome};
ghost use Rattle.std.specs.Option.{unwrap_or};
ghost use Rattle.model.specs.Choice.{chosen, IsTables};
ghost use Rattle.model.specs.Desk.{on_desk};
ghost use Rattle.model.proofs.ComposedNumbers.{IsState};
ghost use Rattle.architecture.specs.Struct.{IsProper, architecture_of};
ghost use Rattle.template.specs.Holds.{Holds};
ghost use Rattle.stepping.specs.Lines as lines;
ghost use Rattle.stepping.specs.Words as words;

use architecture::Architecture;
use composition::Composed;
use model::{Desk, Refusal};
use replay::put_with_states;
use template::put_filled;

// ---- words
// A word that is being read: how many digits it has, and their value. Three digits stand for a word that is no direction, as in the
// definitions.
#[derive(Clone, Copy)]
pub struct Word {
    pub digits: u8,
    pub value: u8,
}

// A byte between two words.
#[tactic(auto, unfolding(crate::specs::Words::is_blank))]
pub fn is_blank(byte: u8) -> bool
    ensures { result ≡ words.is_blank byte }
{
    matches!(byte, b' ' | b'\t' | b'\n' | b'\r')
}

// The value of a digit; None, where the definition has 16, for any other byte.
fn digit_of(byte: u8) -> Option<u8>
    ensures value { unwrap_or result 16 ≡ words.digit_of byte }
    ensures upper_bound { IfSome result (λ digit. digit < 16) }
{
    match byte {
        b'0'..=b'9' => Some(byte - b'0'),
        b'A'..=b'F' => Some(byte - b'A' + 10),
        b'a'..=b'f' => Some(byte - b'a' + 10),
        _ => None,
    }
}

// No byte of a word yet.
pub fn no_word() -> Word
    ensures { result ≡ words.no_word }
{
    Word {
        digits: 0,
        value: 0,
    }
}

// A word that is no direction.
fn no_direction() -> Word
    ensures { result ≡ words.no_direction }
{
    Word {
        digits: 3,
        value: 0,
    }
}

// One digit more.
fn longer(word: Word, digit: u8) -> Word
    requires { (word.value < 16 ^ word.digits) × (digit < 16) }
    ensures value { result ≡ words.longer word digit }
    ensures value_bound { result.value < 16 ^ result.digits }
{
    if 1 < word.digits {
        return no_direction();
    }
    Word {
        digits: word.digits + 1,
        value: 16 * word.value + digit,
    }
}

// One byte more, which is no blank.
pub fn extended(word: Word, byte: u8) -> Word
    requires { word.value < 16 ^ word.digits }
    ensures value { result ≡ words.extended word byte }
    ensures value_bound { result.value < 16 ^ result.digits }
{
    match digit_of(byte) {
        Some(digit) => longer(word, digit),
        None => no_direction(),
    }
}

// ---- lines, each at the front of the buffer: the functions answer its length
// The start of the tables.
pub fn start_text(text: &mut [u8], a: Architecture, tables: &[u8]) -> usize
    requires in_bounds { 64 ≤ length text.old }
    requires proper { IsProper a }
    requires tables { IsTables (architecture_of a) (chosen (architecture_of a) tables.now) }
    ensures { Holds text.new result (lines.start_text (architecture_of a) (chosen (architecture_of a) tables.now)) }
{
    let t = Composed::initial(a);
    let label = t.label(a, tables);
    put_with_states(
        text,
        0,
        b"start label % states",
        &[label as usize],
        a.processes,
        t,
    )
}

// A step by a direction: what it answered, and the desk behind it.
pub fn step_text(
    text: &mut [u8],
    a: Architecture,
    direction: u8,
    answer: Result<u8, Refusal>,
    desk: Desk,
) -> usize
    requires in_bounds { 64 ≤ length text.old }
    requires proper { IsProper a }
    requires state { IsState (architecture_of a) (on_desk (architecture_of a) desk) }
    ensures { Holds text.new result (lines.line_of (architecture_of a) direction answer desk) }
{
    match answer {
        Ok(label) => {
            let states = desk.states;
            let t = Composed {
                states,
                environment: desk.environment,
            };
            put_with_states(
                text,
                0,
                b"direction % label % states",
                &[direction as usize, label as usize],
                a.processes,
                t,
            )
        }
        Err(refusal) => put_filled(
            text,
            0,
            b"direction % refused #\n",
            &[direction as usize, refusal.number() as usize],
        ),
    }
}
