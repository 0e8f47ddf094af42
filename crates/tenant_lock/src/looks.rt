// What a slot is to be moved by.
ghost use Rattle.std.specs.Prelude.{◌≡◌, length, nat_lt};
ghost use Rattle.std.specs.List.{sum_by};
ghost use Rattle.tenant_lock.specs.Looks.{by_length, is_long};

use job_language::{Proc, Program};
use job_step::View;

/// How many instructions a program may have for its frames to be run away from the lock. A commit
/// compares the programs by content, under the lock. From some 300 instructions on that takes longer
/// than an advance there, which runs 1,000 at most.
pub const MOST_COMPARED: usize = 300;

/// The view, or an advance in its place if the program is long.
pub(crate) fn by_length(view: View) -> View
    ensures { result ≡ by_length view }
{
    match view {
        View::Top(top) => {
            if is_long(&top.program) {
                View::Unshared
            } else {
                View::Top(top)
            }
        }
        view => view,
    }
}

/// Whether a program has more instructions than are compared.
fn is_long(program: &Program) -> bool
    ensures { result ≡ is_long program.now }
{
    have_more(program.procs(), MOST_COMPARED)
}

/// Whether procedures have more instructions than that, all together.
fn have_more(procs: &[Proc], most: usize) -> bool
    ensures { result ≡ nat_lt most (sum_by length procs.now) }
{
    let [first, rest @ ..] = procs else {
        return false;
    };
    let instrs = first.instrs().len();
    most < instrs || have_more(rest, most - instrs)
}
