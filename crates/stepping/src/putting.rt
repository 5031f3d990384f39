//! Writing texts one after another into a lent buffer.
ghost use Rattle.std.specs.Prelude.{◌≡◌, ◌+◌, ◌≤◌, length, decimal};
ghost use Rattle.stepping.specs.Buffers.{HasRoom, Wrote};

/// A buffer, and the place where the next text goes.
// kept: a lent buffer and a place, since no act allocates. Its own methods and not `write!`, which answers a failure that cannot happen here.
#[derive(Drop)]
pub(crate) struct LineWriter<'a> {
    line: &'a mut [u8],
    at: usize,
}

impl<'a> LineWriter<'a> {
    /// Writes from the start of the buffer on.
    pub(crate) fn new(line: &'a mut [u8]) -> LineWriter<'a>
        ensures same_reference { result.line.ghost_name ≡ line.entry.ghost_name }
        ensures line { result.line.now ≡ line.old }
        ensures start { result.at ≡ 0 }
    {
        LineWriter { line, at: 0 }
    }

    /// How many bytes were written.
    pub(crate) fn len(&self) -> usize
        ensures { result ≡ self.now.at }
    {
        self.at
    }

    /// Writes a text.
    pub(crate) fn text(&mut self, text: &[u8])
        requires { HasRoom self.old (length text.now) }
        ensures { Wrote self.old text.now self.new }
    {
        let end = self.at + text.len();
        let line = &mut *self.line;
        line[self.at..end].copy_from_slice(text);
        self.at = end;
    }

    /// Writes the decimal digits of a number.
    pub(crate) fn number(&mut self, number: u64)
        requires { HasRoom self.old (length (decimal number)) }
        ensures { Wrote self.old (decimal number) self.new }
    {
        self.text(itoa::Buffer::new().format(number).as_bytes());
    }
}
