ghost use Rattle.std.specs.Prelude.{◌≡◌, ◌+◌, ◌-◌, ◌<◌, ◌^◌, length};
ghost use Rattle.java_lexer.specs.Cut.{place_behind};

use rlc_base::Pos;

/// A place in a text that is read from its start: line and column from 1, and whether a carriage return stands before it.
#[derive(Clone, Copy)]
pub struct Cursor {
    pub line: u32,
    pub col: u32,
    pub after_return: bool,
}

impl Cursor {
    ghost use Rattle.java_lexer.specs.Reading.{moved, moved_past};

    /// The start of a text.
    pub const START: Cursor = Cursor {
        line: 1,
        col: 1,
        after_return: false,
    };

    /// The place behind one more byte. A line feed behind a carriage return ends no line of its own.
    fn moved(self, byte: u8) -> Cursor
        requires { (self.line < 2 ^ 32 - 1) × (self.col < 2 ^ 32 - 1) }
        ensures { result ≡ moved self byte }
    {
        if byte == b'\n' {
            let line = if self.after_return {
                self.line
            } else {
                self.line + 1
            };
            Cursor {
                line,
                col: 1,
                after_return: false,
            }
        } else if byte == b'\r' {
            Cursor {
                line: self.line + 1,
                col: 1,
                after_return: true,
            }
        } else {
            Cursor {
                line: self.line,
                col: self.col + 1,
                after_return: false,
            }
        }
    }

    /// The place behind these bytes.
    pub fn moved_past(self, bytes: &[u8]) -> Cursor
        requires { (self.line + length bytes.now < 2 ^ 32) × (self.col + length bytes.now < 2 ^ 32) }
        ensures { result ≡ moved_past self bytes.now }
    {
        let mut cursor = self;
        for byte in bytes {
            cursor = cursor.moved(*byte);
        }
        cursor
    }
}

/// The place in the file behind this front of its text. Lines and columns count from 1, columns in bytes; a line ends at a line
/// feed, at a carriage return, or at both together (JLS 3.4).
pub fn place_behind(file: u32, text: &[u8]) -> Pos
    requires { length text.now < 2 ^ 32 - 1 }
    ensures { result ≡ place_behind file text.now }
{
    let cursor = Cursor::START.moved_past(text);
    Pos {
        file,
        line: cursor.line,
        col: cursor.col,
    }
}
