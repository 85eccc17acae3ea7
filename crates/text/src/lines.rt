// The lines of a text, one after another.
ghost use Rattle.std.specs.Prelude.{◌≡◌, ◌<◌, ◌^◌, length};
ghost use Rattle.text.specs.Lines.{lines, first_line, after_line};

// The byte that ends a line.
const LINE_END: u8 = b'\n';

// What is left of a text that is read line by line.
#[derive(Drop)]
pub struct LineReader<'a> {
    rest: &'a [u8],
    // So that a count of the lines fits.
    ghost fits: { length (lines rest.now) < 2 ^ 64 },
}

// The first line of `text`, and what follows its end.
fn split_line(text: &[u8]) -> (&[u8], &[u8])
    ensures line { result.0.now ≡ first_line text.now }
    ensures rest { result.1.now ≡ after_line text.now }
{
    match text.iter().position(|b| *b == LINE_END) {
        Some(end) => (&text[..end], &text[end + 1..]),
        // The end of `text` itself: with `&[]` the compiled search keeps a second count.
        None => (text, &text[text.len()..]),
    }
}

impl<'a> LineReader<'a> {
    // All of `text` is still to read.
    pub fn new(text: &'a [u8]) -> Self
        ensures { result.rest.now ≡ text.now }
    {
        LineReader { rest: text }
    }
}

impl<'a> Iterator for LineReader<'a> {
    ghost use Rattle.std.specs.Iterator.{item_count};
    ghost use Rattle.text.specs.Readers.{ReadsLine, lines_left};

    type Item = &'a [u8];

    ghost next_gives = { ReadsLine };

    ghost remaining = { item_count lines_left };

    // The next line without its end, or none where no text is left.
    fn next(&mut self) -> Option<&'a [u8]> {
        if self.rest.is_empty() {
            return None;
        }
        let (line, rest) = split_line(self.rest);
        self.rest = rest;
        Some(line)
    }
}
