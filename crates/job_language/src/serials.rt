// Programs whose value does not depend on how their tasks are run.
ghost use Rattle.std.specs.Prelude.{◌≡◌};
ghost use Rattle.std.specs.List.{list_all};
ghost use Rattle.job_language.specs.Serial.{is_serial, is_serial_instr};

use crate::instructions::Instr;
use crate::programs::{Proc, Program};

impl Program {
    /// Whether it has no `slot`, `width`, `post`, `cancel`, `ask`, `load`, `store`, `sum` or `count`:
    /// its value is the same then, whichever slots run its tasks, and when.
    pub fn is_serial(&self) -> bool
        ensures { result ≡ is_serial self.now }
    {
        self.procs().iter().all(is_serial_proc)
    }
}

fn is_serial_proc(proc: &Proc) -> bool
    ensures { result ≡ list_all is_serial_instr proc.now }
{
    proc.instrs().iter().all(is_serial_instr)
}

fn is_serial_instr(instr: &Instr) -> bool
    ensures { result ≡ is_serial_instr instr.now }
{
    !matches!(
        instr,
        Instr::Slot(_)
            | Instr::Width(_)
            | Instr::Post(_, _, _)
            | Instr::Cancel(_)
            | Instr::Ask(_)
            | Instr::Load(_, _)
            | Instr::Store(_, _)
            | Instr::Sum(_, _)
            | Instr::Count(_, _)
    )
}
