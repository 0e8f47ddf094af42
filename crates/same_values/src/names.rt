// Whether two names of tenants are the same.
ghost use Rattle.std.specs.Prelude.{◌≡◌, ◌↔◌, IsTrue};

use job_language::TenantName;

pub(crate) fn is_same_name(name: &TenantName, other: &TenantName) -> bool
    ensures { IsTrue result ↔ (name.now ≡ other.now) }
{
    name.as_bytes() == other.as_bytes()
}
