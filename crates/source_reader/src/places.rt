// Places in a text.
ghost use Rattle.std.specs.Prelude.{◌≡◌, ◌≤◌, ◌+◌, ◌<◌, ◌^◌, length, take};
ghost use Rattle.source_reader.specs.Places.{place_from, place_of};

/// A place in a text: a line and a column in bytes, both from 1.
#[derive(Clone, Copy, Debug, PartialEq, Eq)]
pub struct Place {
    pub line: usize,
    pub column: usize,
}

/// The place behind a text that begins there.
fn place_from(line: usize, column: usize, text: &[u8]) -> Place
    requires first { 1 ≤ column }
    requires room { line + column + length text.now < 2 ^ 64 }
    ensures { result ≡ place_from line column text.now }
{
    let mut place = Place { line, column };
    let mut left = text;
    while let Some((first, others)) = left.split_first() {
        if *first == 10 {
            place.line += 1;
            place.column = 1;
        } else {
            place.column += 1;
        }
        left = others;
    }
    place
}

/// The place behind so many bytes of a text.
pub(crate) fn place_of(text: &[u8], at: usize) -> Place
    ensures { result ≡ place_of text.now at }
{
    if at < text.len() {
        place_from(1, 1, text.split_at(at).0)
    } else {
        place_from(1, 1, text)
    }
}
