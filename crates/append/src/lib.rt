// Elements written behind what was written: each function answers the index behind what it wrote.
#![tactic(auto)]

ghost use Rattle.std.specs.Prelude.{◌∷◌, [], ◌+◌, ◌<◌, ◌≤◌, length, replicate};
ghost use Rattle.append.specs.Appends.{Appends};

// One element: a word or a byte.
pub fn put<T: Copy>(list: &mut [T], at: usize, element: T) -> usize
    requires { at < length list.old }
    ensures { Appends list.old at (element ∷ []) result list.new }
{
    list[at] = element;
    at + 1
}

// The same word, `count` times.
pub fn fill(words: &mut [u16], at: usize, word: u16, count: usize) -> usize
    requires { at + count ≤ length words.old }
    ensures { Appends words.old at (replicate count word) result words.new }
{
    let end = at + count;
    words[at..end].fill(word);
    end
}

// All elements of a slice.
pub fn put_all<T: Copy>(list: &mut [T], at: usize, copied: &[T]) -> usize
    requires { at + length copied.now ≤ length list.old }
    ensures { Appends list.old at copied.now result list.new }
{
    let end = at + copied.len();
    list[at..end].copy_from_slice(copied);
    end
}
