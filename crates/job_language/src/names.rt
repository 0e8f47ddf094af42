// Names of tenants.
ghost use Rattle.std.specs.Prelude.{◌≡◌, if◌then◌else◌, Some, None, true};
ghost use Rattle.std.specs.List.{list_all};
ghost use Rattle.job_language.specs.Name.{is_name, is_name_byte};

use std::marker::Model;

/// How many bytes a tenant's name may have; it has at least one.
pub const MAX_NAME: usize = 32;

/// The name of a tenant: 1 to 32 bytes of `a` to `z`, `0` to `9` and `-`. It takes no memory.
#[derive(Clone, Copy, Debug, PartialEq, Eq)]
pub struct TenantName {
    bytes: [u8; MAX_NAME],
    len: u8,
}

impl Model for TenantName {
    ghost use Rattle.std.specs.Prelude.{ℕ, List};

    ghost Value = { List ℕ };

    ghost use Rattle.job_language.specs.PaddedName.{text_of, IsPadded, padded, padded-text_of};

    ghost view = { text_of };

    ghost invariant = { IsPadded };

    ghost inverse = { padded };

    ghost inverse_ok = { padded-text_of };
}

impl TenantName {
    /// The name that a text is, if it may name a tenant.
    pub fn new(text: &str) -> Option<TenantName>
        ensures { result ≡ (if is_name text.now then Some text.now else None) }
    {
        if !is_name(text.as_bytes()) {
            return None;
        }
        let mut bytes = [0; MAX_NAME];
        bytes[..text.len()].copy_from_slice(text.as_bytes());
        let len = text.len() as u8;
        Some(TenantName { bytes, len })
    }

    /// Its bytes, which are ASCII.
    pub fn as_bytes(&self) -> &[u8]
        ensures value { result.now ≡ self.now }
        ensures name { is_name self.now ≡ true }
    {
        &self.bytes[..usize::from(self.len)]
    }

    /// Its text.
    pub fn as_str(&self) -> &str
        ensures value { result.now ≡ self.now }
        ensures name { is_name self.now ≡ true }
    {
        str::from_utf8(self.as_bytes()).unwrap()
    }
}

fn is_name(text: &[u8]) -> bool
    ensures { result ≡ is_name text.now }
{
    !text.is_empty() && text.len() <= MAX_NAME && are_name_bytes(text)
}

fn are_name_bytes(text: &[u8]) -> bool
    ensures { result ≡ list_all is_name_byte text.now }
{
    text.iter().all(|b| is_name_byte(*b))
}

fn is_name_byte(b: u8) -> bool
    ensures { result ≡ is_name_byte b }
{
    b.is_ascii_lowercase() || b.is_ascii_digit() || b == b'-'
}
