// The list's text. A word ends at a space, at a line's end or at a byte 0, and what is left of a text is the end of it:
// a word may stand on the line after.
use table::number;

// The word that a text begins with.
pub fn word(text: &[u8]) -> &[u8] {
    text.split(|b| matches!(*b, 0 | b' ' | b'\n'))
        .next()
        .unwrap_or_default()
}

// The line that a text begins with.
pub fn line(text: &[u8]) -> &[u8] {
    text.split(|b| *b == b'\n').next().unwrap_or_default()
}

// A text cut before its first space or line's end.
pub fn cut(text: &[u8]) -> (&[u8], &[u8]) {
    let end = text
        .iter()
        .position(|b| matches!(*b, b' ' | b'\n'))
        .unwrap_or(text.len());
    text.split_at(end)
}

// Whether a text begins with a line's end.
pub fn is_end(text: &[u8]) -> bool {
    text.first() == Some(&b'\n')
}

// What is left of a text after a number, where that is the next word.
pub fn past(text: &[u8], n: u64) -> Option<&[u8]> {
    let text = text.strip_prefix(b" ")?;
    if number(word(text)) == Some(n) {
        Some(cut(text).1)
    } else {
        None
    }
}
