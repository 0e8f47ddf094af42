// The rule of a book, and the steps on its one word.
use logbook::{Gain, Plain, Play, Rule};
use tenant_record::TenantCell;

/// The rule of a book: its first word is the length of its log.
pub struct Law;

impl<E> Rule<E, u64> for Law {
    ghost use Rattle.std.specs.Prelude.{[]};
    ghost use base.Fml.{ftrue};
    ghost use Rattle.tenant_book.specs.Rules.{IsKept};

    ghost holds = { λ cells log. IsKept cells log };

    ghost first = { [] };

    ghost hinted = { λ n log. Unit {0} };

    ghost shows = { λ log. [] };

    ghost keeps = { λ names log. ftrue };

    ghost moves = { λ ask before after answer. Unit {0} };
}

/// Callers trade nothing.
pub(crate) struct Nothing;

impl<E> Gain<E, u64> for Nothing {
    ghost use base.Fml.{ftrue};

    ghost after = { λ names about answer. ftrue };
}

/// A step that looks.
pub(crate) struct Look;

impl<E> Play<E, u64> for Look {
    ghost use Rattle.tenant_book.specs.Rules.{Looks};

    ghost then = { Looks };
}

/// A step that looks asks for nothing, so any moment will do.
impl Plain<u64, TenantCell, u64> for Look {
    ghost use Rattle.std.specs.Prelude.{None};
    ghost use Rattle.tenant_record.specs.Cell.{first_cell};
    ghost use Rattle.tenant_book.specs.Fronts.{no_config};

    ghost ask = { λ n. first_cell 0 no_config };

    ghost state = { λ n. None };
}

/// A step that adds what it is given.
pub(crate) struct Add;

impl<E> Play<E, u64> for Add {
    ghost use Rattle.tenant_book.specs.Rules.{Adds};

    ghost then = { Adds };
}

impl<E> Plain<E, E, u64> for Add {
    ghost use Rattle.std.specs.Prelude.{None};

    ghost ask = { λ entry. entry };

    ghost state = { λ entry. None };
}
