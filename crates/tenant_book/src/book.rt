// A life's history in the book that all threads share.
ghost use Rattle.std.specs.Prelude.{◌≡◌, ◌+◌, ◌<◌, ◌^◌, ◌++◌, ◌∷◌, [], length, true};
ghost use mathlib.Core.List.{IsPrefix};
ghost use Rattle.tenant_record.specs.Cell.{CellData, IsRight};
ghost use Rattle.tenant_book.specs.Fronts.{AreMoments, Finds, Follows, GoesFrom, IsLast, IsMoment};
ghost use Rattle.tenant_book.specs.Rules.{book_of, head_of, life_at};

use crate::lives::{Beginning, Entered, Life, Naming, Registry};
use crate::steps::{Add, Law, Look, Nothing};
use job_language::TenantConfig;
use logbook::{Offer, Seen, Start, Word};
use std::marker::{Model, PhantomData};
use std::sync::Wait;
use tenant_record::TenantCell;

/// A beginning of a life's one history, which was seen. It is right by its type: each moment in it is of a cell whose
/// history is what the evaluator gives on its steps, and goes on from the one before.
#[derive(Drop)]
pub struct Front<J: Naming> {
    life: usize,
    len: u64,
    place: Seen<Life, u64, Law>,
    seen: Seen<TenantCell, u64, Law>,
    of: PhantomData<J>,
}

impl<J: Naming> Model for Front<J> {
    ghost use Rattle.std.specs.Prelude.{◌≡◌, ◌<◌, length};
    ghost use Rattle.tenant_book.specs.Fronts.{AreMoments, FrontData};
    ghost use Rattle.tenant_book.specs.Rules.{book_of, life_at};

    ghost Value = { FrontData };

    ghost view = { λ f. record {
      life = f.life;
      book = f.seen.book;
      config = (life_at f.place.log f.life).config;
      log = f.seen.log;
    } };

    ghost invariant = { λ f. (f.len ≡ length f.seen.log) × (f.place.book ≡ J.registry)
        × (f.life < length f.place.log)
        × (book_of (life_at f.place.log f.life) ≡ f.seen.book)
        × AreMoments (life_at f.place.log f.life).config f.seen.log };
}

impl<J: Naming> Front<J> {
    /// The number of its life.
    pub fn life(&self) -> usize
        ensures life { result ≡ self.now.life }
        ensures right { AreMoments self.now.config self.now.log }
    {
        self.life
    }

    /// A copy.
    pub fn again(&self) -> Front<J>
        ensures { result ≡ self.now }
    {
        Front {
            life: self.life,
            len: self.len,
            place: self.place.again(),
            seen: self.seen.again(),
            of: PhantomData,
        }
    }

    /// Adds a moment to all that was seen, and says whether it did. It did not if the history is longer.
    fn add(&mut self, head: &Word<TenantCell, u64, Law>, cell: &TenantCell) -> bool
        requires head { head.now ≡ head_of self.old.book }
        requires moment { IsMoment self.old.config cell.now }
        requires goes_on { GoesFrom self.old.log cell.now }
        ensures { result ≡ true
            → self.new ≡ record self.old { log = self.old.log ++ cell.now ∷ [] } }
    {
        let len = self.len;
        if len == u64::MAX {
            return false;
        }
        let mut seen = self.seen.again();
        if exchange(head, &mut seen, cell, len) != len {
            return false;
        }
        self.len = len + 1;
        self.seen = seen;
        true
    }
}

/// Adds a moment if all moments were seen, and gives how many there were.
fn exchange(
    head: &Word<TenantCell, u64, Law>,
    seen: &mut Seen<TenantCell, u64, Law>,
    cell: &TenantCell,
    len: u64,
) -> u64
    requires head { head.now ≡ head_of seen.old.book }
    requires all { len ≡ length seen.old.log }
    requires room { len + 1 < 2 ^ 64 }
    ensures book { seen.new.book ≡ seen.old.book }
    ensures added { result ≡ len → seen.new.log ≡ seen.old.log ++ cell.now ∷ [] }
{
    let mut offer: Offer<TenantCell, u64, Law, Nothing> = seen.plain::<Nothing, TenantCell, Add>(
        cell,
    );
    let mut pen = seen.no_pen();
    head.compare_exchange::<Add, Nothing>(len, len + 1, seen, &mut offer, &mut pen)
}

/// A life's whole history, as it lies under its tenant's lock.
#[derive(Drop)]
pub struct Whole<J: Naming> {
    head: Word<TenantCell, u64, Law>,
    front: Front<J>,
}

impl<J: Naming> Model for Whole<J> {
    ghost use Rattle.std.specs.Prelude.{◌≡◌};
    ghost use Rattle.tenant_book.specs.Fronts.{FrontData};
    ghost use Rattle.tenant_book.specs.Rules.{head_of};

    ghost Value = { FrontData };

    ghost view = { λ w. w.front };

    ghost invariant = { λ w. w.head ≡ head_of w.front.book };
}

impl<J: Naming> Registry<J> {
    /// Begins the life of a tenant that is given that: nothing was done in it yet.
    pub fn begin<R: Wait>(&self, rt: &R, config: TenantConfig) -> Whole<J>
        ensures config { result.config ≡ config }
        ensures empty { result.log ≡ [] }
    {
        let (seen, mut first, _second) = Seen::open(Start::alone(), 0, 0);
        let head = Word::tracked(0, &mut first);
        let beginning = Beginning { seen, config };
        let Entered { number, place } = self.enter(rt, &beginning);
        let Beginning {
            seen,
            config: _config,
        } = beginning;
        Whole {
            head,
            front: Front {
                life: number,
                len: 0,
                place,
                seen,
                of: PhantomData,
            },
        }
    }
}

impl<J: Naming> Whole<J> {
    /// The front of all of it.
    pub fn front(&self) -> &Front<J>
        ensures { result.now ≡ self.now }
    {
        &self.front
    }

    /// Shows all of it to the holder of a front of the same life, which begins it.
    #[tactic(auto, using(crate::proofs::Following::finds_last))]
    pub fn show<R: Wait>(&self, rt: &R, me: &mut Front<J>)
        requires { me.old.life ≡ self.now.life }
        ensures met { me.new ≡ self.now }
        ensures finds { (c : CellData) → IsLast self.now.log c → Finds me.old me.new c }
    {
        self.meet(rt, me);
    }

    /// Adds the moment of a cell, and shows all of it to the holder of a front of the same life.
    #[tactic(auto, using(crate::proofs::Following::follows_last))]
    pub fn follow<R: Wait>(&mut self, rt: &R, me: &mut Front<J>, cell: &TenantCell)
        requires life { me.old.life ≡ self.old.life }
        requires config { cell.now.config ≡ self.old.config }
        requires goes_on { GoesFrom self.old.log cell.now }
        ensures whole { self.new ≡ record self.old { log = self.old.log ++ cell.now ∷ [] } }
        ensures follows { (c : CellData) → IsLast self.old.log c → Follows me.old me.new c cell.now }
    {
        self.meet(rt, me);
        self.note(rt, cell);
        *me = self.front.again();
    }

    fn meet<R: Wait>(&self, rt: &R, me: &mut Front<J>)
        requires { me.old.life ≡ self.now.life }
        ensures met { me.new ≡ self.now }
        ensures book { me.old.book ≡ self.now.book }
        ensures config { me.old.config ≡ self.now.config }
        ensures seen { IsPrefix me.old.log self.now.log }
        ensures right { AreMoments self.now.config self.now.log }
    {
        let mut place = self.front.place.again();
        place.learn(&me.place);
        let mut seen = self.front.seen.again();
        seen.learn(&me.seen);
        if look(&self.head, &mut seen) != self.front.len {
            never(rt);
        }
        *me = self.front.again();
    }

    /// Adds the moment of a cell.
    pub fn note<R: Wait>(&mut self, rt: &R, cell: &TenantCell)
        requires config { cell.now.config ≡ self.old.config }
        requires goes_on { GoesFrom self.old.log cell.now }
        ensures { self.new ≡ record self.old { log = self.old.log ++ cell.now ∷ [] } }
    {
        // Proof hint: the cell is right.
        let _ = cell.history();
        if !self.front.add(&self.head, cell) {
            never(rt);
        }
    }
}

/// How many moments there are, all of which are seen.
fn look(head: &Word<TenantCell, u64, Law>, seen: &mut Seen<TenantCell, u64, Law>) -> u64
    requires { head.now ≡ head_of seen.old.book }
    ensures book { seen.new.book ≡ seen.old.book }
    ensures more { IsPrefix seen.old.log seen.new.log }
    ensures all { result ≡ length seen.new.log }
{
    let mut offer: Offer<TenantCell, u64, Law, Nothing> = seen.plain::<Nothing, u64, Look>(&0);
    head.load::<Look, Nothing>(seen, &mut offer)
}

/// Does not return. The word of a history lies beside its whole, where nobody else can have moved it.
fn never<R: Wait>(rt: &R)
    ensures { ⊥ }
{
    for _ in rt.forever() {}
    unreachable!()
}
