//! The line and the column of a place in a text.

ghost use Rattle.std.specs.Prelude.{◌≡◌};
ghost use Rattle.stark_text_faults.specs.Places.{begins_character, column_after, line_after};

/// A line, and a column in it, both from 1.
#[derive(Clone, Copy, Debug)]
pub struct Place {
    pub line: usize,
    pub column: usize,
}

/// Whether a byte of a text in UTF-8 is the first of a character.
fn begins_character(byte: u8) -> bool
    ensures { result ≡ begins_character byte }
{
    byte < 0x80 || byte >= 0xc0
}

/// The place after a front of a text in UTF-8: its line, and its column in characters.
pub fn place_after(front: &[u8]) -> Place
    ensures line { result.line ≡ line_after front.now }
    ensures column { result.column ≡ column_after front.now }
{
    let mut line = 1;
    let mut column = 1;
    for at in 0..front.len() {
        if front[at] == b'\n' {
            line += 1;
            column = 1;
        } else if begins_character(front[at]) {
            column += 1;
        }
    }
    Place { line, column }
}
