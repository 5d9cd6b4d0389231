// An annotation in a file: words of 16 bits, the low byte first. Each function answers how many elements it put at the front of the buffer.
#![tactic(auto)]

ghost use Rattle.std.specs.Prelude.{◌≡◌, ◌∷◌, [], ◌+◌, ◌≤◌, length};
ghost use Rattle.append.specs.Appends.{Appends};
ghost use Rattle.words.specs.Words.{words_of, bytes_of};

// The words that these bytes make. A last byte without its pair makes none.
pub fn from_bytes(words: &mut [u16; 4096], bytes: &[u8]) -> usize
    requires { length bytes.now ≤ 8192 }
    ensures { Appends words.old 0 (words_of bytes.now) result words.new }
{
    let n = bytes.len() / 2;
    for k in 0..n {
        words[k] = u16::from_le_bytes([bytes[2 * k], bytes[2 * k + 1]]);
    }
    n
}

// One word behind what was written.
fn put_word(bytes: &mut [u8], at: usize, word: u16) -> usize
    requires { at + 2 ≤ length bytes.old }
    ensures { Appends bytes.old at (bytes_of (word ∷ [])) result bytes.new }
{
    bytes[at..at + 2].copy_from_slice(&word.to_le_bytes());
    at + 2
}

// The bytes of these words.
pub fn to_bytes(bytes: &mut [u8; 8192], words: &[u16]) -> usize
    requires { length words.now ≤ 4096 }
    ensures { Appends bytes.old 0 (bytes_of words.now) result bytes.new }
{
    let mut at = 0;
    for word in words {
        at = put_word(bytes, at, *word);
    }
    at
}
