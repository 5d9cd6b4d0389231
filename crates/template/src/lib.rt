// Texts written behind what was written: bytes, numbers, and templates with holes that numbers fill. Each function answers the index behind what it
// wrote.
#![tactic(auto)]

ghost use Rattle.std.specs.Prelude.{◌≡◌, ◌∷◌, [], ◌+◌, ◌/◌, ◌%◌, ◌<◌, ◌≤◌, length, get_or};
ghost use Rattle.model.specs.Mask.{if};
ghost use Rattle.append.specs.Appends.{Appends};
ghost use Rattle.template.specs.Template as spec;

use append::{put, put_all};

// ---- bytes and numbers
// These bytes, unless the test holds.
fn put_unless(text: &mut [u8], at: usize, test: bool, bytes: &[u8]) -> usize
    requires { at + length (if test [] bytes.now) ≤ length text.old }
    ensures { Appends text.old at (if test [] bytes.now) result text.new }
{
    if test {
        return at;
    }
    put_all(text, at, bytes)
}

// 0 to 9, then A to F.
fn digit(d: u8) -> u8
    requires { d < 16 }
    ensures { result ≡ spec.digit d }
{
    if d < 10 {
        return b'0' + d;
    }
    b'A' + (d - 10)
}

// A mask of eight bits, in two hexadecimal digits.
fn put_hex(text: &mut [u8], at: usize, mask: usize) -> usize
    requires { at + 2 ≤ length text.old }
    ensures { Appends text.old at (spec.hex mask) result text.new }
{
    let next = put(text, at, digit((mask / 16 % 16) as u8));
    put(text, next, digit((mask % 16) as u8))
}

// A number, in decimal.
fn put_decimal(text: &mut [u8], at: usize, n: usize) -> usize
    requires { at + length (spec.decimal n) ≤ length text.old }
    ensures { Appends text.old at (spec.decimal n) result text.new }
{
    if n < 10 {
        return put(text, at, digit(n as u8));
    }
    let next = put_decimal(text, at, n / 10);
    put(text, next, digit((n % 10) as u8))
}

// ---- words for the bits of masks
// The word for number i, behind a space unless it is the first.
#[tactic(auto, unfolding(crate::specs::Template::next, crate::specs::Template::literal))]
fn put_literal(
    text: &mut [u8],
    at: usize,
    is_first: bool,
    sign: &[u8],
    is_on: bool,
    i: usize,
) -> usize
    requires { at + length (spec.next is_first (spec.literal sign.now is_on i)) ≤ length text.old }
    ensures { Appends text.old at (spec.next is_first (spec.literal sign.now is_on i)) result text.new }
{
    let after_space = put_unless(text, at, is_first, b" ");
    let after_not = put_unless(text, after_space, is_on, b"!");
    let after_sign = put_all(text, after_not, sign);
    put_decimal(text, after_sign, i)
}

// The word for number i, by the lowest bits of two masks.
fn put_bit(
    text: &mut [u8],
    at: usize,
    is_first: bool,
    sign: &[u8],
    on: usize,
    off: usize,
    i: usize,
) -> usize
    requires { at + length (spec.bit_text is_first sign.now on off i) ≤ length text.old }
    ensures { Appends text.old at (spec.bit_text is_first sign.now on off i) result text.new }
{
    if on % 2 == 1 {
        return put_literal(text, at, is_first, sign, true, i);
    }
    if off % 2 == 1 {
        return put_literal(text, at, is_first, sign, false, i);
    }
    at
}

// The words for the lowest bits of two masks, on and off, or `none` where there is no word.
fn put_literals(
    text: &mut [u8],
    start: usize,
    none: &[u8],
    sign: &[u8],
    bits: usize,
    on: usize,
    off: usize,
) -> usize
    requires { start + length (spec.spaced none.now (spec.literals sign.now bits on off 0)) ≤ length text.old }
    ensures { Appends text.old start (spec.spaced none.now (spec.literals sign.now bits on off 0)) result text.new }
{
    let mut on_left = on;
    let mut off_left = off;
    let mut at = start;
    for i in 0..bits {
        at = put_bit(text, at, at == start, sign, on_left, off_left, i);
        on_left /= 2;
        off_left /= 2;
    }
    if at == start {
        return put_all(text, at, none);
    }
    at
}

// ---- templates
// Number k, or 0 behind the last.
fn nth(numbers: &[usize], k: usize) -> usize
    ensures { result ≡ get_or numbers.now k 0 }
{
    numbers.get(k).copied().unwrap_or(0)
}

// The text for one byte of a template, where n and m are the next numbers: `#` is a number, `%` a mask in hexadecimal, `@` its variables, `$` its
// automaton states, `?` a condition, and any other byte itself.
fn put_part(text: &mut [u8], at: usize, byte: u8, n: usize, m: usize) -> usize
    requires { at + length (spec.part byte n m) ≤ length text.old }
    ensures { Appends text.old at (spec.part byte n m) result text.new }
{
    match byte {
        b'#' => put_decimal(text, at, n),
        b'%' => put_hex(text, at, n),
        b'@' => put_literals(text, at, b"nothing", b"v", 8, n, 0),
        b'$' => put_literals(text, at, b"nothing", b"", 16, n, 0),
        b'?' => put_literals(text, at, b"true", b"v", 8, n, m),
        _ => put(text, at, byte),
    }
}

// How many numbers it takes.
fn taken(byte: u8) -> usize
    ensures { result ≡ spec.taken byte }
{
    match byte {
        b'#' | b'%' | b'@' | b'$' => 1,
        b'?' => 2,
        _ => 0,
    }
}

// The template with its holes filled.
pub fn put_filled(text: &mut [u8], start: usize, template: &[u8], numbers: &[usize]) -> usize
    requires { start + length (spec.filled template.now numbers.now) ≤ length text.old }
    ensures { Appends text.old start (spec.filled template.now numbers.now) result text.new }
{
    let mut at = start;
    let mut used: usize = 0;
    for &byte in template {
        at = put_part(text, at, byte, nth(numbers, used), nth(numbers, used + 1));
        used += taken(byte);
    }
    at
}
