//! Lines that a zero byte ends, and not a newline. A program of lines that exchanges these two bytes in its input and in its
//! output works on such lines.

/// Puts a zero byte in the place of each newline, and a newline in the place of each zero byte.
pub fn exchange_ends(bytes: &mut [u8]) {
    for byte in bytes {
        *byte = match *byte {
            0 => b'\n',
            b'\n' => 0,
            other => other,
        };
    }
}
