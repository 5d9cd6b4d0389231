// Words, bytes and numbers on standard output.
// These bytes as they are.
pub fn text(rt: &impl Print, words: &[u8]) {
    let _ = rt.write_all(words);
}

// A number, in decimal.
pub fn number(rt: &impl Print, n: u64) {
    let _ = print!(rt; "{n}");
}

// A space and two hexadecimal digits.
pub fn hex(rt: &impl Print, byte: u8) {
    let _ = print!(rt; " {byte:02X}");
}

// A line of bytes, each in hexadecimal.
pub fn bytes(rt: &impl Print, list: &[u8]) {
    for byte in list {
        hex(rt, *byte);
    }
    text(rt, b"\n");
}

// A space, and a number of an annotation.
fn annotated(rt: &impl Print, n: u16) {
    if n == u16::MAX {
        text(rt, b" blank");
    } else {
        let _ = print!(rt; " {n}");
    }
}

// A line of an annotation's numbers.
pub fn annotation(rt: &impl Print, list: &[u16]) {
    for n in list {
        annotated(rt, *n);
    }
    text(rt, b"\n");
}
