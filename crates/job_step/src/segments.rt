// Segments: private runs that are made from a copy of a slot's topmost frame, away from its arena.
ghost use Rattle.std.specs.Prelude.{◌≡◌, ◌<◌, false};
ghost use Rattle.job_language.specs.declared.instructions.Instr.{Instr};
ghost use Rattle.job_language.specs.Program.{is_last};
ghost use Rattle.job_step.specs.declared.frames.TheConstants.{LAST_PLACE};
ghost use Rattle.job_step.specs.Segment.{run_of_top};

use crate::frames::Frame;
use crate::runs::{Run, Stop, run_private};
use job_language::Program;
use std::marker::Model;

/// The topmost frame of a slot with what its private run depends on: the program of its job, the
/// number of the slot, from 0, and how many slots the arena has.
#[derive(Drop)]
pub struct Top {
    pub program: Program,
    pub frame: Frame,
    pub slot: u8,
    pub width: u8,
}

/// What is seen of a slot.
#[derive(Drop)]
pub enum View {
    Top(Top),
    /// No row is on the slot.
    Bare,
    /// There is a topmost frame, but another handle on its program was refused.
    Unshared,
}

/// The private run of a topmost frame. A contract sees the frame that it is the run of.
#[derive(Drop)]
pub struct Segment {
    top: Top,
    /// Where the run ends.
    end: Frame,
    count: u32,
    stop: Stop,
}

impl Model for Segment {
    ghost use Rattle.job_step.specs.declared.segments.Top.{Top};

    ghost Value = { Top };

    ghost view = { λ s. s.top };

    ghost use Rattle.job_step.specs.SegmentFields.{IsSegment};

    ghost invariant = { IsSegment };
}

/// The segment of a topmost frame. It takes no memory.
pub fn segment_of(top: Top) -> Segment
    ensures { result ≡ top }
{
    let run = run_private(&top.program, top.frame, top.slot, top.width);
    Segment {
        top,
        end: run.end,
        count: run.count,
        stop: run.stop,
    }
}

impl Segment {
    /// What the frame does by itself.
    pub fn run(&self) -> Run
        ensures run { result ≡ run_of_top self.now }
        // Only a `ret` or a `jmp` ends a procedure, so another shared instruction has one after it.
        ensures next { (i : Instr) → result.stop ≡ Stop.Shared i → is_last i ≡ false
            → result.end.place < LAST_PLACE }
    {
        Run {
            start: self.top.frame,
            end: self.end,
            count: self.count,
            stop: self.stop,
        }
    }

    /// The frame that it is the run of.
    pub fn top(&self) -> &Top
        ensures { result.now ≡ self.now }
    {
        &self.top
    }
}
