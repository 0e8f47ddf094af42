// Which place of a filing comes first. An allocation of `new` may be refused, and then the next call succeeds.
ghost use Rattle.std.specs.Prelude.{◌≡◌, IfOk, None, replicate};

use crate::tests::assert_same;
use place_lists::Filing;
use std::alloc::{AllocError, Global};
use std::test::Fail;

/// Two lists over five places that are filed in none. If an allocation failed they are made once more.
fn unfiled(alloc: Global) -> Result<Filing, AllocError>
    ensures { IfOk result (λ filing. filing ≡ record { lists = 2; by_place = replicate 5 None }) }
{
    match Filing::new(alloc, 2, 5) {
        Ok(filing) => Ok(filing),
        Err(_) => Filing::new(alloc, 2, 5),
    }
}

/// The first places of both lists, and of a third one that is not there.
fn firsts(filing: &Filing) -> [Option<usize>; 3] {
    [filing.first(0), filing.first(1), filing.first(2)]
}

/// Files the places 3 and 1 in list 0, and 3 there once more, at its end; then 3 in list 1; files all of list 1 in
/// list 0; unfiles 1; and unfiles 4, which is filed in none, and 3. The first places before all that and after each
/// part of it.
fn file_and_unfile(filing: &mut Filing) -> [[Option<usize>; 3]; 6]
    requires { filing.old ≡ record { lists = 2; by_place = replicate 5 None } }
{
    let unfiled = firsts(filing);
    filing.file(3, 0);
    filing.file(1, 0);
    filing.file(3, 0);
    let again = firsts(filing);
    filing.file(3, 1);
    let apart = firsts(filing);
    filing.file_all(1, 0);
    let together = firsts(filing);
    filing.unfile(1);
    let one = firsts(filing);
    filing.unfile(4);
    filing.unfile(3);
    [unfiled, again, apart, together, one, firsts(filing)]
}

#[test]
fn a_place_is_filed_in_one_list(rt: HostRuntime) -> Result<(), Fail> {
    let mut filing = unfiled(rt.alloc())?;
    let seen = file_and_unfile(&mut filing);
    let wanted = [
        [None, None, None],
        [Some(1), None, None],
        [Some(1), Some(3), None],
        [Some(1), None, None],
        [Some(3), None, None],
        [None, None, None],
    ];
    assert_same(&rt, &seen, &wanted);
    Ok(())
}
