// The text of a job, which a request brings.
ghost use Rattle.std.specs.Prelude.{OnOk, ◌∷◌};
ghost use Rattle.job_json.specs.CanonicalText.{job_then, listed, number_then, proc_then, program_then};
ghost use Rattle.part_writer.specs.Added.{Adds};

use crate::adding::{add_bytes, add_comma, add_number, add_signed};
use crate::instructions::add_instr;
use job_language::{Instr, Job, Proc};
use std::alloc::AllocError;

/// Adds the text of a job.
pub(crate) fn add_job(text: &mut Vec<u8>, job: &Job) -> Result<(), AllocError>
    ensures { OnOk result (Adds text.old.items text.new.items (job_then job.now)) }
{
    add_bytes(text, b"{\"args\":")?;
    add_args(text, &job.args)?;
    add_number(text, b",\"fuel\":", job.fuel.instructions())?;
    add_bytes(text, b",\"procs\":")?;
    add_procs(text, job.program.procs())?;
    add_bytes(text, b"}")?;
    Ok(())
}

fn add_args(text: &mut Vec<u8>, args: &[i64; 2]) -> Result<(), AllocError>
    ensures { OnOk result (Adds text.old.items text.new.items (λ rest. 91 ∷ listed number_then args.now rest)) }
{
    let [x, y] = *args;
    add_signed(text, b"[", x)?;
    add_signed(text, b",", y)?;
    add_bytes(text, b"]")?;
    Ok(())
}

fn add_procs(text: &mut Vec<u8>, procs: &[Proc]) -> Result<(), AllocError>
    ensures { OnOk result (Adds text.old.items text.new.items (program_then procs.now)) }
{
    let mut is_later = false;
    add_bytes(text, b"[")?;
    for proc in procs {
        add_comma(text, is_later)?;
        add_instrs(text, proc.instrs())?;
        is_later = true;
    }
    add_bytes(text, b"]")?;
    Ok(())
}

fn add_instrs(text: &mut Vec<u8>, instrs: &[Instr]) -> Result<(), AllocError>
    ensures { OnOk result (Adds text.old.items text.new.items (proc_then instrs.now)) }
{
    let mut is_later = false;
    add_bytes(text, b"[")?;
    for instr in instrs {
        add_comma(text, is_later)?;
        add_instr(text, *instr)?;
        is_later = true;
    }
    add_bytes(text, b"]")?;
    Ok(())
}
