// Reading numbers that are spelled as they are written. What a number may be is guessed from its
// digits, and then its text is compared.
ghost use Rattle.std.specs.Prelude.{◌≡◌, ◌++◌, ◌<◌, ◌≤◌, [], ◌∷◌, decimal, IfSome, IsTrue, false, FitsSigned, pos};
ghost use Rattle.std.specs.Int.{w64};
ghost use Rattle.std.specs.Fmt.{signed_decimal};

use itoa::Buffer;
use job_language::{Group, Key, Register};

/// What is left of a text that is read from its front. Where something isn't there, what is left is
/// of no use any more.
#[derive(Drop)]
pub(super) struct Rest<'b> {
    pub bytes: &'b [u8],
}

impl<'b> Rest<'b> {
    /// Goes over a text that stands at the front.
    pub(super) fn skip(&mut self, text: &str) -> Option<()>
        ensures { IfSome result (λ _. self.old.bytes.now ≡ text.now ++ self.new.bytes.now) }
    {
        self.bytes = self.bytes.strip_prefix(text.as_bytes())?;
        Some(())
    }

    /// Goes over a byte, if it stands at the front, and says whether it did.
    pub(super) fn takes(&mut self, byte: u8) -> bool
        ensures taken { IsTrue result → self.old.bytes.now ≡ byte ∷ self.new.bytes.now }
        ensures left { result ≡ false → self.new.bytes.now ≡ self.old.bytes.now }
    {
        match self.bytes {
            [first, rest @ ..] if *first == byte => {
                self.bytes = rest;
                true
            }
            _ => false,
        }
    }

    /// Goes over a number that isn't negative.
    pub(super) fn whole_number(&mut self) -> Option<u64>
        ensures { IfSome result (λ n. self.old.bytes.now ≡ decimal n ++ self.new.bytes.now) }
    {
        match self.bytes {
            [digit, rest @ ..] if is_alone(*digit, rest) => {
                self.bytes = rest;
                Some(u64::from(*digit - b'0'))
            }
            _ => self.long_number(),
        }
    }

    fn long_number(&mut self) -> Option<u64>
        ensures { IfSome result (λ n. self.old.bytes.now ≡ decimal n ++ self.new.bytes.now) }
    {
        let number = guessed(self.bytes);
        self.skip(Buffer::new().format(number))?;
        Some(number)
    }

    /// Goes over a number, with its sign if it is negative.
    pub(super) fn number(&mut self) -> Option<i64>
        ensures { IfSome result (λ z. self.old.bytes.now ≡ signed_decimal z ++ self.new.bytes.now) }
    {
        if let [b'-', digits @ ..] = self.bytes {
            return self.negative_number(guessed(digits));
        }
        let number = self.whole_number()?;
        i64::try_from(number).ok()
    }

    fn negative_number(&mut self, guess: u64) -> Option<i64>
        ensures { IfSome result (λ z. self.old.bytes.now ≡ signed_decimal z ++ self.new.bytes.now) }
    {
        let number = i64::try_from(guess).ok()?.wrapping_neg();
        self.skip(Buffer::new().format(number))?;
        Some(number)
    }

    /// Goes over a comma and a number that isn't negative.
    fn operand(&mut self) -> Option<u64>
        ensures { IfSome result (λ n. self.old.bytes.now ≡ 44 ∷ (decimal n ++ self.new.bytes.now)) }
    {
        if self.takes(b',') {
            self.whole_number()
        } else {
            None
        }
    }

    /// Goes over a comma and a register.
    pub(super) fn register(&mut self) -> Option<Register>
        ensures text { IfSome result (λ r. self.old.bytes.now ≡ 44 ∷ (decimal r ++ self.new.bytes.now)) }
        ensures in_range { IfSome result (λ r. r < 8) }
    {
        Register::new(self.operand()?)
    }

    /// Goes over a comma and a group.
    pub(super) fn group(&mut self) -> Option<Group>
        ensures text { IfSome result (λ g. self.old.bytes.now ≡ 44 ∷ (decimal g ++ self.new.bytes.now)) }
        ensures in_range { IfSome result (λ g. g < 4) }
    {
        Group::new(self.operand()?)
    }

    /// Goes over a comma and a key.
    pub(super) fn key(&mut self) -> Option<Key>
        ensures text { IfSome result (λ k. self.old.bytes.now ≡ 44 ∷ (decimal k ++ self.new.bytes.now)) }
        ensures in_range { IfSome result (λ k. k < 8) }
    {
        Key::new(self.operand()?)
    }

    /// Goes over a comma and the number of a place or of a procedure.
    pub(super) fn place(&mut self) -> Option<u8>
        ensures { IfSome result (λ n. self.old.bytes.now ≡ 44 ∷ (decimal n ++ self.new.bytes.now)) }
    {
        u8::try_from(self.operand()?).ok()
    }
}

/// Whether a byte is a digit that stands alone.
fn is_alone(byte: u8, rest: &[u8]) -> bool
    ensures { IsTrue result → (48 ≤ byte) × (byte ≤ 57) }
{
    byte.is_ascii_digit() && !matches!(rest, [b'0'..=b'9', ..])
}

/// The number that the digits at the front may spell.
fn guessed(bytes: &[u8]) -> u64 {
    let mut number = 0u64;
    for byte in bytes {
        if !byte.is_ascii_digit() {
            break;
        }
        number = number.wrapping_mul(10).wrapping_add(u64::from(*byte & 15));
    }
    number
}
