// Reading jobs from their canonical text.
ghost use Rattle.std.specs.Prelude.{◌≡◌, ◌≤◌, All, IfSome, FitsSigned, Ok, Some, map};
ghost use Rattle.std.specs.List.{AllByRecursion};
ghost use Rattle.std.specs.Int.{w64};
ghost use Rattle.serde_json.specs.Written.{compact_text};
ghost use Rattle.job_json.specs.Canonical.{IsCanonical};
ghost use Rattle.job_json.specs.Job.{args_of, job_of};
ghost use Rattle.job_json.specs.JobData.{array_of, job_data, number_data};
ghost use Rattle.job_language.specs.Program.{IsInRange, IsValidProc};
ghost use Rattle.job_json.specs.CanonicalText.{job_then, proc_then, program_then};

use super::numbers::Rest;
use super::valid::{are_program, is_proc};
use job_language::{Fuel, Instr, Job, MAX_INSTRS, MAX_PROCS, Proc, Program};
use std::alloc::Global;

/// For how many instructions of a procedure there is room at first.
const SOME_INSTRS: usize = 16;

/// The job whose canonical text this is: its JSON with no space, with its members in order and its
/// numbers as they are written. `None` says only that the text was not read here: it may be another
/// job's text, the text of none, or memory ran out.
pub fn read_canonical_job(alloc: Global, text: &[u8]) -> Option<Job>
    ensures text { IfSome result (λ job. text.now ≡ compact_text (job_data job)) }
    ensures canonical { IfSome result (λ job. IsCanonical 4 (job_data job)) }
{
    let mut rest = Rest { bytes: text };
    let job = rest.job(alloc)?;
    reads_back(&job);
    if rest.bytes.is_empty() {
        Some(job)
    } else {
        None
    }
}

/// A law of jobs, which does nothing: the JSON of a job reads back as the job, and from its canonical
/// text.
pub fn reads_back(job: &Job)
    ensures job { job_of (job_data job.now) ≡ Ok job.now }
    ensures canonical { IsCanonical 4 (job_data job.now) }
{
    args_fit(&job.args);
    let _ = job.fuel.instructions();
    let _ = job.program.procs();
}

#[tactic(auto, using(crate::proofs::CanonicalJobs::two_fit))]
fn args_fit(args: &[i64; 2])
    ensures spelled { args_of (array_of (map number_data args.now)) ≡ Some args.now }
    ensures fit { AllByRecursion (FitsSigned w64) args.now }
{
    let [x, y] = *args;
    fits(x);
    fits(y);
}

fn fits(number: i64)
    ensures { FitsSigned w64 number }
{}

impl<'b> Rest<'b> {
    /// Goes over a job.
    #[tactic(auto, unfolding(crate::specs::CanonicalText::more_then, crate::specs::CanonicalText::listed))]
    fn job(&mut self, alloc: Global) -> Option<Job>
        ensures { IfSome result (λ job. self.old.bytes.now ≡ job_then job self.new.bytes.now) }
    {
        self.skip("{\"args\":[")?;
        let x = self.number()?;
        self.skip(",")?;
        let y = self.number()?;
        self.skip("],\"fuel\":")?;
        let fuel = Fuel::new(self.whole_number()?)?;
        self.skip(",\"procs\":")?;
        let program = self.program(alloc)?;
        self.skip("}")?;
        Some(Job {
            program,
            args: [x, y],
            fuel,
        })
    }

    fn program(&mut self, alloc: Global) -> Option<Program>
        ensures { IfSome result (λ p. self.old.bytes.now ≡ program_then p self.new.bytes.now) }
    {
        let procs = self.procs(alloc)?;
        if are_program(procs.as_slice()) {
            Program::new(alloc, procs).ok()
        } else {
            None
        }
    }

    fn procs(&mut self, alloc: Global) -> Option<Vec<Proc>>
        ensures text { IfSome result
            (λ v. self.old.bytes.now ≡ program_then v.items self.new.bytes.now) }
        ensures valid { IfSome result (λ v. All IsValidProc v.items) }
    {
        self.skip("[")?;
        let mut procs = Vec::new(alloc);
        for _ in 0..MAX_PROCS {
            let proc = self.proc(alloc)?;
            let Ok(()) = procs.push(proc) else {
                return None
            };
            if self.takes(b']') {
                return Some(procs);
            }
            self.skip(",")?;
        }
        None
    }

    fn proc(&mut self, alloc: Global) -> Option<Proc>
        ensures text { IfSome result (λ p. self.old.bytes.now ≡ proc_then p self.new.bytes.now) }
        ensures valid { IfSome result IsValidProc }
    {
        let instrs = self.instrs(alloc)?;
        if is_proc(instrs.as_slice()) {
            Some(Proc::new(instrs))
        } else {
            None
        }
    }

    fn instrs(&mut self, alloc: Global) -> Option<Vec<Instr>>
        ensures text { IfSome result
            (λ v. self.old.bytes.now ≡ proc_then v.items self.new.bytes.now) }
        ensures in_range { IfSome result (λ v. All (IsInRange MAX_INSTRS) v.items) }
    {
        self.skip("[")?;
        let Ok(mut instrs) = Vec::with_capacity(alloc, SOME_INSTRS) else {
            return None;
        };
        for _ in 0..MAX_INSTRS {
            let instr = self.instr()?;
            let Ok(()) = instrs.push(instr) else {
                return None
            };
            if self.takes(b']') {
                instrs.shrink_to_fit();
                return Some(instrs);
            }
            self.skip(",")?;
        }
        None
    }
}
