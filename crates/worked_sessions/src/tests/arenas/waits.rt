// A door in memory whose answers are given by a table.
ghost use Rattle.std.specs.Prelude.{◌≤◌};

use crate::tests::assert_same;
use job_language::{Moved, Program};
use job_step::{Frame, Segment, Stop, Top, View};
use nested_wait::{Attended, Door, MAX_HEIGHT, attend};
use std::alloc::Global;
use std::test::Fail;
use worked_jobs::job_of;

/// What is seen of the slot.
#[derive(Clone, Copy)]
enum Seen {
    Top,
    Bare,
    Unshared,
}

/// How high the slot is before a turn, what is seen of it, what the turn is answered, and whether a
/// pause after it says to stop.
type Row = (usize, Seen, Moved, bool);

/// A slot that goes through the rows of a table, and is empty then.
#[derive(Drop)]
struct Table<'t> {
    program: Program,
    rows: &'t [Row],
    place: usize,
    commits: u32,
    advances: u32,
    pauses: u32,
}

/// The slot of every frame of a table.
const SLOT: u8 = 3;

impl Table<'_> {
    fn answer(&mut self) -> Moved {
        let answer = self.rows.get(self.place).map_or(Moved::Idle, |row| row.2);
        self.place = self.place.wrapping_add(1);
        answer
    }
}

impl Door for Table<'_> {
    ghost views = { λ _ _. Unit {0} };

    ghost commits = { λ _ _ _ _. Unit {0} };

    ghost advances = { λ _ _ _. Unit {0} };

    ghost heights = { λ _ _. Unit {0} };

    ghost pauses = { λ _ _ _. Unit {0} };

    fn view(&self) -> View {
        match self.rows.get(self.place).map_or(Seen::Bare, |row| row.1) {
            Seen::Top => match self.program.try_clone() {
                Ok(program) => View::Top(Top {
                    program,
                    frame: Frame::new(0, 7, 9),
                    slot: SLOT,
                    width: 4,
                }),
                Err(_) => View::Unshared,
            },
            Seen::Bare => View::Bare,
            Seen::Unshared => View::Unshared,
        }
    }

    fn commit(&mut self, segment: Segment) -> Moved {
        let run = segment.run();
        let is_whole = !matches!(run.stop, Stop::Yield) && run.count == 1;
        if is_whole && run.end.registers[0] == i64::from(segment.top().slot) {
            self.commits = self.commits.wrapping_add(1);
        }
        self.answer()
    }

    fn advance(&mut self) -> Moved {
        self.advances = self.advances.wrapping_add(1);
        self.answer()
    }

    fn height(&self) -> usize {
        let height = self.rows.get(self.place).map_or(0, |row| row.0);
        height.min(MAX_HEIGHT)
    }

    fn pause(&mut self) -> bool {
        self.pauses = self.pauses.wrapping_add(1);
        let last = self.place.wrapping_sub(1);
        self.rows.get(last).map_or(true, |row| row.3)
    }
}

/// A job that sets register 0 to its slot and then returns.
const SETS_SLOT: &str = r#"{"args":[0,0],"fuel":1,"procs":[[["slot",0],["ret",0]]]}"#;

/// A door over a table. Each of its frames runs that job's program.
fn door_over(alloc: Global, rows: &[Row]) -> Result<Table<'_>, Fail> {
    let job = job_of(alloc, SETS_SLOT)?;
    Ok(Table {
        program: job.program,
        rows,
        place: 0,
        commits: 0,
        advances: 0,
        pauses: 0,
    })
}

/// How attending ends, how many rows the slot went through by then, and how many commits, advances and
/// pauses there were.
fn attended(door: &mut Table<'_>, floor: usize) -> (Attended, usize, [u32; 3])
    requires { 1 ≤ floor }
{
    let end = attend(door, floor);
    (end, door.place, [door.commits, door.advances, door.pauses])
}

/// The same of a door over these rows.
fn attended_over(
    alloc: Global,
    rows: &[Row],
    floor: usize,
) -> Result<(Attended, usize, [u32; 3]), Fail>
    requires { 1 ≤ floor }
{
    let mut door = door_over(alloc, rows)?;
    Ok(attended(&mut door, floor))
}

/// The same of a door that is attended to the floors 2, 1 and 1, one after the other.
fn attended_thrice(alloc: Global, rows: &[Row]) -> Result<[(Attended, usize, [u32; 3]); 3], Fail> {
    let mut door = door_over(alloc, rows)?;
    Ok([
        attended(&mut door, 2),
        attended(&mut door, 1),
        attended(&mut door, 1),
    ])
}

#[test]
fn nested_rows_are_left_before_the_slot_is(rt: HostRuntime) -> Result<(), Fail> {
    let rows = [
        (2, Seen::Top, Moved::Ran, false),
        (2, Seen::Top, Moved::Nested(5), false),
        (3, Seen::Top, Moved::Nested(6), false),
        (4, Seen::Top, Moved::Ran, false),
        (3, Seen::Top, Moved::Ran, false),
        (2, Seen::Top, Moved::Ran, false),
        (1, Seen::Top, Moved::Freed, false),
    ];
    let ends = attended_thrice(rt.alloc(), &rows)?;
    let empty = (Attended::Below, 7, [7, 0, 0]);
    assert_same(&rt, &ends, &[(Attended::Below, 6, [6, 0, 0]), empty, empty]);
    Ok(())
}

#[test]
fn a_stale_segment_is_made_again(rt: HostRuntime) -> Result<(), Fail> {
    let rows = [
        (1, Seen::Top, Moved::Stale, false),
        (1, Seen::Top, Moved::Stale, false),
        (1, Seen::Unshared, Moved::Ran, false),
        (1, Seen::Bare, Moved::Ran, false),
        (1, Seen::Top, Moved::Freed, false),
    ];
    let end = attended_over(rt.alloc(), &rows, 1)?;
    assert_same(&rt, &end, &(Attended::Below, 5, [3, 2, 0]));
    Ok(())
}

#[test]
fn a_full_history_ends_every_level(rt: HostRuntime) -> Result<(), Fail> {
    let rows = [
        (1, Seen::Top, Moved::Nested(2), false),
        (2, Seen::Top, Moved::Nested(3), false),
        (3, Seen::Top, Moved::Full, false),
        (3, Seen::Top, Moved::Ran, false),
    ];
    let end = attended_over(rt.alloc(), &rows, 1)?;
    assert_same(&rt, &end, &(Attended::Full, 3, [3, 0, 0]));
    Ok(())
}

#[test]
fn only_a_pause_that_says_so_stops(rt: HostRuntime) -> Result<(), Fail> {
    let rows = [
        (1, Seen::Top, Moved::Idle, false),
        (1, Seen::Top, Moved::Idle, false),
        (1, Seen::Top, Moved::Nested(2), true),
        (2, Seen::Top, Moved::Idle, true),
        (2, Seen::Top, Moved::Ran, true),
    ];
    let end = attended_over(rt.alloc(), &rows, 1)?;
    assert_same(&rt, &end, &(Attended::Stopped, 4, [4, 0, 3]));
    Ok(())
}
