//! A word of a line, and what is left of the line.
ghost use Rattle.std.specs.Prelude.{◌≡◌, ◌+◌, ◌≤◌, length, drop};

/// The words of a line don't fit from this column on.
#[derive(Clone, Copy)]
pub struct Misfit {
    pub column: u32,
}

/// A word and the column at which it begins.
#[derive(Clone, Copy)]
pub struct Word<'a> {
    pub column: u32,
    pub bytes: &'a [u8],
}

/// What is left of a line, and the column at which it begins.
#[derive(Clone, Copy)]
pub struct Rest<'a> {
    pub column: u32,
    pub bytes: &'a [u8],
    ghost short: { column + length bytes.now ≤ 4097 },
}

impl<'a> Rest<'a> {
    /// A whole line.
    pub fn of_line(line: &'a [u8]) -> Rest<'a>
        requires { length line.now ≤ 4096 }
        ensures column { result.column ≡ 1 }
        ensures bytes { result.bytes.now ≡ line.now }
    {
        Rest {
            column: 1,
            bytes: line,
        }
    }

    /// Without so many bytes in front.
    pub fn skip(self, count: usize) -> Rest<'a>
        requires { count ≤ length self.bytes.now }
        ensures column { result.column ≡ self.entry.column + count }
        ensures bytes { result.bytes.now ≡ drop count self.entry.bytes.now }
    {
        Rest {
            column: self.column + count as u32,
            bytes: self.bytes.split_at(count).1,
        }
    }

    /// The column behind its last byte.
    pub fn end(self) -> u32
        ensures { result ≡ self.entry.column + length self.entry.bytes.now }
    {
        self.column + self.bytes.len() as u32
    }
}
