// Bytes of a source.
ghost use Rattle.std.specs.Prelude.{◌≡◌, ◌==◌, not, position};
ghost use Rattle.source_tokens.specs.Bytes.{is_space, is_digit, is_letter, is_word, word_len, line_len};

/// A space, a tab or a carriage return.
pub(crate) fn is_space(byte: u8) -> bool
    ensures { result ≡ is_space byte }
{
    byte == 32 || byte == 9 || byte == 13
}

pub(crate) fn is_digit(byte: u8) -> bool
    ensures { result ≡ is_digit byte }
{
    48 <= byte && byte <= 57
}

/// A letter of ASCII, or `_`.
pub(crate) fn is_letter(byte: u8) -> bool
    ensures { result ≡ is_letter byte }
{
    65 <= byte && byte <= 90 || 97 <= byte && byte <= 122 || byte == 95
}

pub(crate) fn is_word(byte: u8) -> bool
    ensures { result ≡ is_word byte }
{
    is_letter(byte) || is_digit(byte)
}

/// How many letters and digits there are at the front.
pub(crate) fn word_len(text: &[u8]) -> usize
    ensures { result ≡ word_len text.now }
{
    match word_end(text) {
        Some(len) => len,
        None => text.len(),
    }
}

fn word_end(text: &[u8]) -> Option<usize>
    ensures { result ≡ position (λ b. not (is_word b)) text.now }
{
    text.iter().position(|byte| !is_word(*byte))
}

/// How many bytes there are before the end of the line.
pub(crate) fn line_len(text: &[u8]) -> usize
    ensures { result ≡ line_len text.now }
{
    match line_end(text) {
        Some(len) => len,
        None => text.len(),
    }
}

fn line_end(text: &[u8]) -> Option<usize>
    ensures { result ≡ position (λ b. b == 10) text.now }
{
    text.iter().position(|byte| *byte == 10)
}
