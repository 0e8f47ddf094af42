// The lives that tenants have in a process.
ghost use Rattle.std.specs.Prelude.{◌≡◌, ◌+◌, ◌<◌, ◌^◌, [], ◌∷◌, ◌++◌, length, true};
ghost use Rattle.tenant_book.specs.Rules.{book_of, head_of, life_at, life_of};

use crate::steps::{Add, Law, Look, Nothing};
use job_language::TenantConfig;
use logbook::{Offer, Plain, Seen, Start, Word};
use std::marker::{Brand, Model, PhantomData};
use std::sync::Wait;
use tenant_record::TenantCell;

/// What a registry knows of a life: its book, and what its tenant is given. No value of it is made.
pub struct Life {
    pub number: u64,
    pub log_name: u64,
    pub cells_name: u64,
    pub config: TenantConfig,
}

/// Which registry it is. One call of a program picks it.
pub trait Naming {
    ghost use Rattle.logbook.specs.Pages.{Book};

    ghost registry: { Book };
}

impl Naming for Brand {
    ghost registry = { record { number = 0; log_name = 0; cells_name = 0 } };
}

/// A registry without lives, which has no name yet.
#[derive(Drop)]
pub struct OpenedRegistry {
    head: Word<Life, u64, Law>,
    seen: Seen<Life, u64, Law>,
}

impl Model for OpenedRegistry {
    ghost use Rattle.std.specs.Prelude.{◌≡◌};
    ghost use Rattle.logbook.specs.Pages.{Book};
    ghost use Rattle.tenant_book.specs.Rules.{head_of};

    ghost Value = { Book };

    ghost view = { λ r. r.seen.book };

    ghost invariant = { λ r. r.head ≡ head_of r.seen.book };
}

impl OpenedRegistry {
    /// A registry without a life and without a name: a program picks one when it opens it.
    pub fn new() -> OpenedRegistry {
        let (seen, mut first, _second) = Seen::open(Start::alone(), 0, 0);
        OpenedRegistry {
            head: Word::tracked(0, &mut first),
            seen,
        }
    }

    /// The registry by its name.
    pub fn named<J: Naming>(self) -> Registry<J>
        requires { self ≡ J.registry }
    {
        let OpenedRegistry { head, seen } = self;
        Registry {
            head,
            seen,
            of: PhantomData,
        }
    }
}

/// The lives that tenants have had so far in a process.
#[derive(Drop)]
pub struct Registry<J: Naming> {
    head: Word<Life, u64, Law>,
    seen: Seen<Life, u64, Law>,
    of: PhantomData<J>,
}

impl<J: Naming> Model for Registry<J> {
    ghost use Rattle.std.specs.Prelude.{◌≡◌};
    ghost use Rattle.tenant_book.specs.Rules.{head_of};

    ghost Value = { Unit {0} };

    ghost view = { λ r. tt };

    ghost invariant = { λ r. (r.head ≡ head_of J.registry) × (r.seen.book ≡ J.registry) };
}

/// What a life begins with: its book, and what its tenant is given.
pub(crate) struct Beginning {
    pub(crate) seen: Seen<TenantCell, u64, Law>,
    pub(crate) config: TenantConfig,
}

/// The life that begins is added to the registry.
impl Plain<Beginning, Life, u64> for Add {
    ghost use Rattle.std.specs.Prelude.{None};
    ghost use Rattle.tenant_book.specs.Rules.{life_of};

    ghost ask = { λ b. life_of b.seen.book b.config };

    ghost state = { λ b. None };
}

/// The number of a life, and that the registry has it under that number.
pub(crate) struct Entered {
    pub(crate) number: usize,
    pub(crate) place: Seen<Life, u64, Law>,
}

impl<J: Naming> Registry<J> {
    /// Enters a life under the next number.
    #[tactic(auto, using(crate::proofs::Entering::last_life, crate::proofs::Entering::last_within))]
    pub(crate) fn enter<R: Wait>(&self, rt: &R, beginning: &Beginning) -> Entered
        ensures book { result.place.book ≡ J.registry }
        ensures there { result.number < length result.place.log }
        ensures is { life_at result.place.log result.number
            ≡ life_of beginning.now.seen.book beginning.now.config }
    {
        let mut seen = self.seen.again();
        let mut lives = self.look(&mut seen, beginning);
        for _ in rt.forever() {
            if lives < u64::MAX {
                let found = self.add(&mut seen, beginning, lives);
                if found == lives {
                    return Entered {
                        number: lives as usize,
                        place: seen,
                    };
                }
                lives = found;
            }
        }
        unreachable!()
    }

    /// How many lives there are, all of which are seen.
    fn look(&self, seen: &mut Seen<Life, u64, Law>, beginning: &Beginning) -> u64
        requires { seen.old.book ≡ J.registry }
        ensures book { seen.new.book ≡ J.registry }
        ensures all { result ≡ length seen.new.log }
    {
        let mut offer: Offer<Life, u64, Law, Nothing> = seen.plain::<Nothing, Beginning, Add>(
            beginning,
        );
        self.head.load::<Look, Nothing>(seen, &mut offer)
    }

    /// Adds the life if all lives were seen, and gives how many there were. Else all of them are seen.
    fn add(&self, seen: &mut Seen<Life, u64, Law>, beginning: &Beginning, lives: u64) -> u64
        requires book { seen.old.book ≡ J.registry }
        requires all { lives ≡ length seen.old.log }
        requires room { lives + 1 < 2 ^ 64 }
        ensures book { seen.new.book ≡ J.registry }
        ensures added { result ≡ lives → seen.new.log ≡ seen.old.log
            ++ life_of beginning.now.seen.book beginning.now.config ∷ [] }
        ensures more { (result ≡ lives → ⊥) → result ≡ length seen.new.log }
    {
        let mut offer: Offer<Life, u64, Law, Nothing> = seen.plain::<Nothing, Beginning, Add>(
            beginning,
        );
        let mut pen = seen.no_pen();
        self.head
            .compare_exchange::<Add, Nothing>(lives, lives + 1, seen, &mut offer, &mut pen)
    }
}
