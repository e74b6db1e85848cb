// Words and numbers of a line, as bytes.

fn is_blank(byte: u8) -> bool {
    matches!(byte, b' ' | b'\t' | b'\r' | b'\n')
}

// The text from its first byte that is not blank on.
pub fn trimmed(text: &[u8]) -> &[u8] {
    match text.iter().position(|byte| !is_blank(*byte)) {
        Some(first) => &text[first..],
        None => b"",
    }
}

// The text up to its last byte that is not blank.
pub fn without_tail(text: &[u8]) -> &[u8] {
    match text.iter().rposition(|byte| !is_blank(*byte)) {
        Some(last) => &text[..=last],
        None => b"",
    }
}

// The first word and what follows it. There is no word where the text is blank.
pub fn first_word(text: &[u8]) -> (&[u8], &[u8]) {
    let text = trimmed(text);
    match text.iter().position(|byte| is_blank(*byte)) {
        Some(end) => text.split_at(end),
        None => (text, b""),
    }
}

// What a number that does not fit becomes. It is out of every range.
pub const DOES_NOT_FIT: i32 = i32::MAX;

// The number of decimal digits.
fn magnitude(digits: &[u8]) -> Option<i32> {
    if digits.is_empty() {
        return None;
    }
    digits.iter().try_fold(0i32, |value, digit| {
        if !digit.is_ascii_digit() {
            return None;
        }
        let digit = i32::from(digit.wrapping_sub(b'0'));
        Some(value.saturating_mul(10).saturating_add(digit))
    })
}

// A decimal number, with a minus sign in front where it is below zero.
pub fn decimal(text: &[u8]) -> Option<i32> {
    match text.strip_prefix(b"-") {
        Some(digits) => Some(magnitude(digits)?.saturating_neg()),
        None => magnitude(text),
    }
}
