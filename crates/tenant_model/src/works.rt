// Jobs: their programs, fuel and outcomes.
ghost use Rattle.std.specs.Prelude.{◌≡◌};
ghost use Rattle.tenant_model.specs.Walks.{is_job_cancelled};

use job_language::{JobFault, Program};

/// How many jobs a tenant may have that are neither retired nor released.
pub const MAX_JOBS: usize = 256;

const _: () = prove!(MAX_JOBS == 256);

/// A job of a tenant.
#[derive(Drop)]
pub struct Work {
    pub program: Program,
    /// How much fuel is left.
    pub fuel: u64,
    /// The number of its root row.
    pub root: u64,
    /// It was cancelled by request.
    pub cancelled: bool,
    /// Its first fault.
    pub fault: Option<JobFault>,
    /// It is retired or released: no request knows it any more.
    pub retired: bool,
}

impl Work {
    /// Whether it was cancelled by request or has a fault.
    pub fn is_cancelled(&self) -> bool
        ensures { result ≡ is_job_cancelled self.now }
    {
        self.cancelled || self.fault.is_some()
    }
}
