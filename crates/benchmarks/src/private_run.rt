// The private run of a job's root, from the job's JSON on standard input to its first shared instruction.
use crate::stops::Stop;
use crate::tenants::job_of;
use job_language::Job;
use job_step::{Frame, Stop as RunStop, run_private};

/// Runs the job, and prints how many instructions were executed and the first register.
pub(crate) fn run<R: Input + Print + AllocGlobal>(rt: &R, words: &[&str]) -> Result<(), Stop> {
    if !words.is_empty() {
        return Err(Stop::Words);
    }
    let mut line = String::new(rt.alloc());
    rt.read_line(&mut line)?;
    let job = job_of(rt.alloc(), line.as_str())?;
    let (executed, end) = executed_by(&job);
    println!(rt; "{executed} {}", end.registers[0])?;
    Ok(())
}

/// How many private instructions the root of a job executes before its first shared instruction,
/// and its frame there.
fn executed_by(job: &Job) -> (u64, Frame) {
    let mut frame = Frame::new(0, job.args[0], job.args[1]);
    let mut executed = 0u64;
    for _turn in 0..u64::MAX {
        let run = run_private(&job.program, frame, 0, 1);
        executed = executed.wrapping_add(u64::from(run.count));
        frame = run.end;
        if !matches!(run.stop, RunStop::Yield) {
            break;
        }
    }
    (executed, frame)
}
