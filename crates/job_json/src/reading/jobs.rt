// Reading jobs.
ghost use Rattle.std.specs.Prelude.{◌≡◌, ◌≤◌, ◌<◌, map, option_map, length, true, All, IfErr, IfOk, IfSome, IsSome, ◌+◌, IsTrue};
ghost use Rattle.std.specs.List.{list_all};
ghost use Rattle.serde_json.specs.View.{view};
ghost use Rattle.job_language.specs.declared.jobs.TheConstants.{MAX_FUEL};
ghost use Rattle.job_json.specs.Json.{number_in};
ghost use Rattle.job_json.specs.Outline.{shape};
ghost use Rattle.job_language.specs.Program.{Calls, IsInRange, is_last, IsValidProc, IsValidProgram};
ghost use Rattle.job_json.specs.Reads.{Reads};
ghost use Rattle.job_json.specs.Refused.{IsMemory};
ghost use Rattle.job_json.specs.Job.{args_of, is_proc, are_procs, procs_of, outline_of, outline_of_members, instr_at, instrs_from, proc_of, proc_at, procs_from, job_of};

use super::instructions::instr_of;
use crate::errors::{Place, Refused};
use crate::values::{has_members, items_of};
use job_language::{Fuel, Instr, Job, MAX_INSTRS, MAX_PROCS, Proc, Program};
use serde_json::Value;
use std::alloc::Global;

/// A job before any instruction is looked at.
#[derive(Drop)]
struct Outline<'v> {
    args: [i64; 2],
    fuel: Fuel,
    procs: &'v [Value],
}

/// Reads a job. `Refused::Memory` comes only if an allocation failed; otherwise a value that
/// is no job is refused with the first place where it breaks the rules. What is no outline of a job is
/// refused before any memory is asked for.
pub fn read_job(alloc: Global, value: &Value) -> Result<Job, Refused>
    ensures reads { Reads (λ job. job) result (job_of (view value.now)) }
    ensures memory { IfErr result (λ fault. IsMemory fault → IsSome (outline_of (view value.now))) }
{
    let Some(outline) = outline_of(value) else {
        return Err(Refused::Bad { place: Place::Head });
    };
    let procs = read_procs(alloc, outline.procs)?;
    Ok(Job {
        program: Program::new(alloc, procs)?,
        args: outline.args,
        fuel: outline.fuel,
    })
}

fn outline_of(value: &Value) -> Option<Outline<'_>>
    ensures { option_map shape result ≡ outline_of (view value.now) }
{
    if has_members(3, value) {
        outline_of_members(value)
    } else {
        None
    }
}

fn outline_of_members(value: &Value) -> Option<Outline<'_>>
    ensures { option_map shape result ≡ outline_of_members (view value.now) }
{
    Some(Outline {
        args: args_of(value.get("args")?)?,
        fuel: fuel_of(value.get("fuel")?)?,
        procs: procs_of(value.get("procs")?)?,
    })
}

#[tactic(auto, unfolding(crate::specs::Instruction::one, crate::specs::Instruction::two))]
fn args_of(value: &Value) -> Option<[i64; 2]>
    ensures { result ≡ args_of (view value.now) }
{
    let [x, y] = items_of(value)? else {
        return None
    };
    Some([x.as_i64()?, y.as_i64()?])
}

fn fuel_of(value: &Value) -> Option<Fuel>
    ensures { result ≡ number_in 1 MAX_FUEL (view value.now) }
{
    Fuel::new(value.as_u64()?)
}

fn is_proc(value: &Value) -> bool
    ensures { result ≡ is_proc (view value.now) }
{
    match items_of(value) {
        Some(instrs) => 1 <= instrs.len() && instrs.len() <= MAX_INSTRS,
        None => false,
    }
}

fn procs_of(value: &Value) -> Option<&[Value]>
    ensures value { option_map (λ procs. map view procs.now) result ≡ procs_of (view value.now) }
{
    let procs = items_of(value)?;
    if are_procs(procs) { Some(procs) } else { None }
}

/// Whether they are 1 to 16 procedures, each a list of 1 to 256 things.
fn are_procs(values: &[Value]) -> bool
    ensures { result ≡ are_procs (map view values.now) }
{
    if values.is_empty() || values.len() > MAX_PROCS {
        return false;
    }
    all_procs(values)
}

fn all_procs(values: &[Value]) -> bool
    ensures { result ≡ list_all is_proc (map view values.now) }
{
    for value in values {
        if !is_proc(value) {
            return false;
        }
    }
    true
}

/// The instruction at a place of a procedure. The last one is a `ret` or a `jmp`.
fn instr_at(procs: usize, instrs: usize, place: usize, value: &Value) -> Option<Instr>
    requires procs { procs ≤ MAX_PROCS }
    requires instrs { instrs ≤ MAX_INSTRS }
    requires place { place < instrs }
    ensures value { result ≡ instr_at procs instrs place (view value.now) }
    ensures in_range { IfSome result (IsInRange instrs) }
    ensures calls { IfSome result (Calls procs) }
    ensures ends { IfSome result (λ i. place + 1 ≡ instrs → IsTrue (is_last i)) }
{
    let instr = instr_of(procs, instrs, value)?;
    if instr.is_last() || place + 1 < instrs {
        Some(instr)
    } else {
        None
    }
}

fn read_instrs(
    alloc: Global,
    procs: usize,
    number: usize,
    values: &[Value],
) -> Result<Vec<Instr>, Refused>
    requires procs { procs ≤ MAX_PROCS }
    requires some { 0 < length values.now }
    requires most { length values.now ≤ MAX_INSTRS }
    ensures read { Reads (λ v. v.items) result (proc_of procs number (map view values.now)) }
    ensures valid { IfOk result (λ v. IsValidProc v.items) }
    ensures calls { IfOk result (λ v. All (Calls procs) v.items) }
{
    let mut instrs = Vec::with_capacity(alloc, values.len())?;
    for (place, value) in values.iter().enumerate() {
        let Some(instr) = instr_at(procs, values.len(), place, value) else {
            return Err(Refused::Bad {
                place: Place::At(number, place),
            });
        };
        instrs.push(instr)?;
    }
    Ok(instrs)
}

fn read_proc(alloc: Global, procs: usize, number: usize, value: &Value) -> Result<Proc, Refused>
    requires procs { procs ≤ MAX_PROCS }
    requires list { is_proc (view value.now) ≡ true }
    ensures read { Reads (λ p. p) result (proc_at procs number (view value.now)) }
    ensures valid { IfOk result IsValidProc }
    ensures calls { IfOk result (All (Calls procs)) }
{
    match items_of(value) {
        Some(values) => Ok(Proc::new(read_instrs(alloc, procs, number, values)?)),
        None => unreachable!(),
    }
}

fn read_procs(alloc: Global, values: &[Value]) -> Result<Vec<Proc>, Refused>
    requires { are_procs (map view values.now) ≡ true }
    ensures read { Reads (λ v. v.items) result
        (procs_from (length values.now) 0 (map view values.now)) }
    ensures valid { IfOk result (λ v. IsValidProgram v.items) }
{
    let mut procs = Vec::with_capacity(alloc, values.len())?;
    for (number, value) in values.iter().enumerate() {
        procs.push(read_proc(alloc, values.len(), number, value)?)?;
    }
    Ok(procs)
}
