// Walks over a file's lines, as parts of the caller's bytes.
ghost use Rattle.std.specs.Prelude.{◌≡◌, ◌+◌, ◌≤◌, [], ◌∷◌, length, MatchOption};
ghost use Rattle.reader.specs.Pieces.{pieces};

use crate::fields::Line;

const NEWLINE: u8 = 10;

// A file has at most so many bytes.
pub const LIMIT: usize = 60000;

// What stands before the first `mark`, and what stands after it.
pub(crate) fn cut(text: &[u8], mark: u8) -> Option<(&[u8], &[u8])>
    ensures { MatchOption result
        (pieces mark text.now ≡ text.now ∷ [])
        (λ p. (pieces mark text.now ≡ p.0.now ∷ pieces mark p.1.now) × (length p.0.now + length p.1.now + 1 ≤ length text.now)) }
{
    let n = text.iter().position(|b| *b == mark)?;
    Some((&text[..n], &text[n + 1..]))
}

// What was not handed out yet of a file, and how many lines were.
#[derive(Drop)]
pub(crate) struct Cursor<'a> {
    pub(crate) rest: &'a [u8],
    pub(crate) line: usize,

    // Each line that was handed out had a byte 10, and a file is not too long.
    ghost counted: { line + length rest.now ≤ 60000 },
}

impl<'a> Cursor<'a> {
    pub(crate) fn new(bytes: &'a [u8]) -> Cursor<'a>
        requires { length bytes.now ≤ 60000 }
        ensures rest { result.rest.now ≡ bytes.now }
        ensures line { result.line ≡ 0 }
    {
        Cursor {
            rest: bytes,
            line: 0,
        }
    }

    // The next line; nothing where no byte 10 is left.
    pub(crate) fn next_line(&mut self) -> Option<Line<'a>>
        ensures { MatchOption result
            ((pieces 10 self.old.rest.now ≡ self.old.rest.now ∷ []) × (self.new.rest.now ≡ self.old.rest.now) × (self.new.line ≡ self.old.line))
            (λ l. (pieces 10 self.old.rest.now ≡ l.text.now ∷ pieces 10 self.new.rest.now) × (self.new.line ≡ self.old.line + 1)) }
    {
        let (text, rest) = cut(self.rest, NEWLINE)?;
        self.rest = rest;
        self.line += 1;
        Some(Line { text })
    }
}
