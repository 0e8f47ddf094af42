// Short texts in fixed buffers.
ghost use Rattle.std.specs.Prelude.{◌≡◌, ◌≤◌, ◌+◌, ◌<◌, [], ◌∷◌, ◌++◌, length, decimal};
ghost use Rattle.std.specs.Fmt.{signed_decimal};
ghost use Rattle.arrayvec.specs.ArrayString.{array_string_len};

use arrayvec::ArrayString;
use itoa::Buffer;
use std::marker::Model;

/// How long the line of a reply may be, with its newline: fewer than 128 bytes.
pub const MAX_LINE: usize = 127;

const _: () = prove!(MAX_LINE < 128);

/// The text of a reply, on a line of its own. It takes no memory.
#[derive(Drop)]
pub struct ReplyBuf {
    line: ArrayString<MAX_LINE>,
}

impl Model for ReplyBuf {
    ghost use Rattle.std.specs.Prelude.{◌≡◌, ◌-◌, ℕ, List, [], ◌∷◌, ◌++◌, length, take};

    ghost Value = { List ℕ };

    ghost view = { λ b. take (length b.line.bytes - 1) b.line.bytes };

    ghost invariant = { λ b. take (length b.line.bytes - 1) b.line.bytes ++ 10 ∷ []
        ≡ b.line.bytes };
}

impl ReplyBuf {
    /// The line of a text.
    pub(crate) fn of(text: ArrayString<MAX_LINE>) -> ReplyBuf
        requires { array_string_len text < MAX_LINE }
        ensures { result ≡ text.bytes }
    {
        let mut line = text;
        line.push_str("\n");
        ReplyBuf { line }
    }

    /// The text without its newline.
    pub fn text(&self) -> &[u8]
        ensures value { result.now ≡ self.now }
        ensures short { length result.now < MAX_LINE }
    {
        let line = self.line.as_str().as_bytes();
        &line[..line.len() - 1]
    }

    /// The text and its newline.
    pub fn line(&self) -> &[u8]
        ensures value { result.now ≡ self.now ++ 10 ∷ [] }
        ensures short { length result.now ≤ MAX_LINE }
    {
        self.line.as_str().as_bytes()
    }
}

/// Appends a number in decimal.
pub(crate) fn push_number(text: &mut ArrayString<MAX_LINE>, number: u64)
    requires { array_string_len text.old + 20 ≤ MAX_LINE }
    ensures bytes { text.new.bytes ≡ text.old.bytes ++ decimal number }
    ensures len { array_string_len text.new ≤ array_string_len text.old + 20 }
{
    text.push_str(Buffer::new().format(number));
}

/// Appends a number in decimal, with its sign if it is below 0.
pub(crate) fn push_signed(text: &mut ArrayString<MAX_LINE>, number: i64)
    requires { array_string_len text.old + 20 ≤ MAX_LINE }
    ensures bytes { text.new.bytes ≡ text.old.bytes ++ signed_decimal number }
    ensures len { array_string_len text.new ≤ array_string_len text.old + 20 }
{
    text.push_str(Buffer::new().format(number));
}
