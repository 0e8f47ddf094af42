// One session's ways to the arenas of all tenants.
ghost use Rattle.std.specs.Prelude.{◌≡◌};

use crate::arenas::ask_arena;
use arena_core::Arena;
use job_language::{Error, Moved, Reply, Request, TenantName};
use job_step::{Segment, View};
use nested_wait::Door;
use session_core::{Answered, Doors};

/// The arenas of all tenants, which nobody else acts on while this session does. A pause says to
/// stop: what can't go on now never will.
#[derive(Drop)]
pub struct ArenaDoors {
    /// The tenants' arenas, numbered from 0.
    pub arenas: Vec<Arena>,
    /// The tenant that the session is bound to. While there is none of that number, each request is
    /// error 11.
    pub tenant: usize,
    /// The slot of that tenant that the session attends, numbered from 0.
    pub slot: u8,
}

impl ArenaDoors {
    /// The doors to some arenas, for a session that is not bound yet.
    pub fn new(arenas: Vec<Arena>) -> ArenaDoors
        ensures { result ≡ record { arenas = arenas; tenant = 0; slot = 0 } }
    {
        ArenaDoors {
            arenas,
            tenant: 0,
            slot: 0,
        }
    }
}

impl Door for ArenaDoors {
    ghost use Rattle.session_law.specs.Doors.{Sees, Commits, Advances, IsAsHigh, Pauses};

    ghost views = { Sees };

    ghost commits = { Commits };

    ghost advances = { Advances };

    ghost heights = { IsAsHigh };

    ghost pauses = { Pauses };

    fn view(&self) -> View {
        if self.tenant >= self.arenas.len() {
            return View::Bare;
        }
        self.arenas[self.tenant].view(self.slot)
    }

    fn commit(&mut self, segment: Segment) -> Moved {
        if self.tenant >= self.arenas.len() {
            return Moved::Stale;
        }
        self.arenas[self.tenant].commit(self.slot, &segment)
    }

    fn advance(&mut self) -> Moved {
        if self.tenant >= self.arenas.len() {
            return Moved::Idle;
        }
        self.arenas[self.tenant].advance(self.slot)
    }

    fn height(&self) -> usize {
        if self.tenant >= self.arenas.len() {
            return 0;
        }
        let arena = &self.arenas[self.tenant];
        // Proof hint: the tenant is valid.
        let _ = arena.config();
        arena.height(self.slot)
    }

    fn pause(&mut self) -> bool {
        true
    }
}

impl Doors for ArenaDoors {
    ghost use Rattle.session_law.specs.Doors.{Finds, Binds, Asks, Waits};

    ghost finds = { Finds };

    ghost binds = { Binds };

    ghost asks = { Asks };

    ghost waits = { Waits };

    fn find(&self, name: TenantName) -> Option<usize> {
        for (number, arena) in self.arenas.iter().enumerate() {
            if arena.config().name.as_bytes() == name.as_bytes() {
                return Some(number);
            }
        }
        None
    }

    fn bind(&mut self, tenant: usize, _name: TenantName) -> Result<(), Error> {
        self.tenant = tenant;
        Ok(())
    }

    fn ask(&mut self, request: Request) -> Answered {
        if self.tenant >= self.arenas.len() {
            return Answered {
                reply: Reply::Refused(Error::NoTenant),
                placed: false,
            };
        }
        let reply = ask_arena(&mut self.arenas[self.tenant], request);
        let Reply::Placed(_, slot) = reply else {
            return Answered {
                reply,
                placed: false,
            };
        };
        self.slot = slot;
        Answered {
            reply,
            placed: true,
        }
    }

    fn pause_for(&mut self, _job: u64) -> bool {
        true
    }
}
