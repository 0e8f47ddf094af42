// Writing jobs.
ghost use Rattle.std.specs.Prelude.{◌≡◌, map, Some, IfOk, Ok};
ghost use Rattle.serde_json.specs.View.{view};
ghost use Rattle.job_json.specs.Job.{args_of, job_of};
ghost use Rattle.job_json.specs.Json.{integer};
ghost use Rattle.job_json.specs.JobData.{array_of, number_data, job_data, job_object, program_data, proc_data};

use super::instructions::write_instr;
use job_language::{Instr, Job, Proc};
use serde_json::{Value, json};
use std::alloc::{AllocError, Global};

/// The job as JSON.
pub fn write_job(alloc: Global, job: &Job) -> Result<Value, AllocError>
    ensures value { IfOk result (λ v. view v ≡ job_data job.now) }
    ensures reads_back { IfOk result (λ v. job_of (view v) ≡ Ok job.now) }
{
    let fuel = job.fuel.instructions();
    let args = write_args(alloc, &job.args)?;
    let procs = write_procs(alloc, job.program.procs())?;
    let value = write_members(alloc, args, fuel, procs)?;
    Ok(value)
}

fn write_members(alloc: Global, args: Value, fuel: u64, procs: Value) -> Result<Value, AllocError>
    ensures { IfOk result (λ v. view v ≡ job_object (view args) fuel (view procs)) }
{
    json!(in alloc; {"args": args, "fuel": fuel, "procs": procs})
}

#[tactic(auto, unfolding(crate::specs::Instruction::one, crate::specs::Instruction::two))]
fn write_args(alloc: Global, args: &[i64; 2]) -> Result<Value, AllocError>
    ensures value { IfOk result (λ v. view v ≡ array_of (map number_data args.now)) }
    ensures reads_back { IfOk result (λ v. args_of (view v) ≡ Some args.now) }
{
    let [x, y] = *args;
    json!(in alloc; [number(x), number(y)])
}

fn number(number: i64) -> Value
    ensures value { view result ≡ number_data number }
    ensures reads_back { integer (view result) ≡ Some number }
{
    Value::from(number)
}

fn write_procs(alloc: Global, procs: &[Proc]) -> Result<Value, AllocError>
    ensures { IfOk result (λ v. view v ≡ program_data procs.now) }
{
    let mut list = Vec::with_capacity(alloc, procs.len())?;
    for proc in procs {
        list.push(write_instrs(alloc, proc.instrs())?)?;
    }
    Ok(Value::Array(list))
}

fn write_instrs(alloc: Global, instrs: &[Instr]) -> Result<Value, AllocError>
    ensures { IfOk result (λ v. view v ≡ proc_data instrs.now) }
{
    let mut list = Vec::with_capacity(alloc, instrs.len())?;
    for instr in instrs {
        list.push(write_instr(alloc, instr)?)?;
    }
    Ok(Value::Array(list))
}
