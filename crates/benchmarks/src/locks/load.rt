// How much is to be done.
ghost use Rattle.std.specs.Prelude.{◌≡◌, ◌*◌, IfSome};

/// The most threads that share the tenants.
pub(crate) const MAX_THREADS: usize = 16;

/// Events that threads make over tenants. Each thread has a seat of its own, and each tenant as many seats
/// as the others.
#[derive(Clone, Copy)]
pub(crate) struct Load {
    /// How many events each thread makes.
    pub(crate) events: usize,
    pub(crate) tenants: usize,
    /// How many seats each tenant has.
    pub(crate) seats: usize,
    /// How many entries each tenant's history gets.
    pub(crate) steps: usize,
}

impl Load {
    /// None if there is no tenant or no thread, if there are more than 16 threads, if the tenants can't have
    /// as many seats as each other, or if a history's length would not fit.
    pub(crate) fn new(events: usize, threads: usize, tenants: usize) -> Option<Load>
        ensures seats { IfSome result (λ load. load.seats * load.tenants ≡ threads) }
        ensures steps { IfSome result (λ load. load.steps ≡ events * load.seats) }
    {
        if tenants == 0 || threads == 0 || threads > MAX_THREADS || threads % tenants != 0 {
            return None;
        }
        let seats = threads / tenants;
        Some(Load {
            events,
            tenants,
            seats,
            steps: events.checked_mul(seats)?,
        })
    }
}
