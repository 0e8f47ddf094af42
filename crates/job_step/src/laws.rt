// Laws over the definitions.
ghost use Rattle.std.specs.Prelude.{ℕ, List};
ghost use Rattle.job_language.specs.declared.instructions.Instr.{Instr};
ghost use Rattle.job_step.specs.declared.frames.Frame.{Frame};
ghost use Rattle.job_step.specs.Least.{IsLeastRun};
ghost use Rattle.job_step.specs.Run.{run_of};

/// A private run is the least number of instructions after which the frame stops, and at most
/// 1,000. It does nothing: its contract is the law.
pub fn runs_are_least()
    ensures least { (procs : List (List Instr)) (slot width : ℕ) (f : Frame)
        → IsLeastRun procs slot width f (run_of procs slot width f) }
{}
