// The words and numbers of the texts that a host wrote.
ghost use Rattle.std.specs.Prelude.{◌≡◌, ◌≢◌, ◌↔◌, ◌<◌, true, option_map, length, slice_index};
ghost use Rattle.host_folder.specs.Reading.{Follows, IsNumberOf, ReadsNumber};

/// What follows a word in a text. None if the text doesn't begin with it.
pub(crate) fn after<'a>(text: &'a str, word: &str) -> Option<&'a str>
    ensures { Follows word.now text.now (option_map (λ rest. rest.now) result) }
{
    text.strip_prefix(word)
}

/// The number with which a text begins, and what follows the character behind it. A number that no host writes, as one
/// with a sign or with zeros before it, is none.
pub(crate) fn number_before(text: &str, end: char) -> Option<(u64, &str)>
    requires { end < 48 }
    ensures { ReadsNumber end text.now (option_map (λ read. (read.0, read.1.now)) result) }
{
    let (digits, rest) = text.split_once(end)?;
    let number = digits.parse::<u64>().ok()?;
    if is_plain(digits) {
        Some((number, rest))
    } else {
        None
    }
}

/// The number that a text is, as a host writes it: without a sign, and without zeros before it.
pub(crate) fn number_in(text: &str) -> Option<u64>
    ensures { IsNumberOf text.now result }
{
    let number = text.parse::<u64>().ok()?;
    if is_plain(text) { Some(number) } else { None }
}

/// Whether a number has neither a sign nor a zero before it.
fn is_plain(digits: &str) -> bool
    ensures { (result ≡ true) ↔ ((slice_index digits.now 0 ≢ 43)
        × (slice_index digits.now 0 ≡ 48 → length digits.now ≡ 1)) }
{
    !digits.starts_with('+') && (digits.len() == 1 || !digits.starts_with('0'))
}
