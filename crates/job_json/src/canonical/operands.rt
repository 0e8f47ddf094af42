// Reading the operands of an instruction from their canonical text, with the bracket behind them.
ghost use Rattle.std.specs.Prelude.{◌≡◌, ◌<◌, ◌≤◌, pos, [], ◌∷◌, IfSome};
ghost use Rattle.job_language.specs.Program.{IsInRange};
ghost use Rattle.job_json.specs.CanonicalText.{operands_then};
ghost use Rattle.job_json.specs.JobData.{operation_of, operands_of};

use super::numbers::Rest;
use crate::operations::Operation;
use job_language::{Instr, MAX_INSTRS, Register};

impl<'b> Rest<'b> {
    /// Goes over the operands of an operation and the bracket behind them. A jump may lead to any place
    /// that a procedure can have.
    pub(super) fn operands_of(&mut self, operation: Operation) -> Option<Instr>
        ensures operation { IfSome result (λ i. operation_of i ≡ operation) }
        ensures text { IfSome result (λ i. self.old.bytes.now ≡ operands_then (operands_of i) self.new.bytes.now) }
        ensures in_range { IfSome result (IsInRange MAX_INSTRS) }
    {
        match operation {
            Operation::Set => self.set(),
            Operation::Jz => self.jz(),
            Operation::Jmp => self.jmp(),
            Operation::Spawn => self.spawn(),
            Operation::Post => self.post(),
            Operation::Wait => self.wait(),
            Operation::Cancel => self.cancel(),
            Operation::Isolate => self.isolate(),
            Operation::Store => self.store(),
            Operation::Load | Operation::Sum | Operation::Count => self.with_key(operation),
            Operation::Slot | Operation::Width | Operation::Ask | Operation::Ret => self.with_one(
                operation,
            ),
            _ => self.with_three(operation),
        }
    }

    /// Goes over a closing bracket.
    fn closes(&mut self) -> Option<()>
        ensures { IfSome result (λ _. self.old.bytes.now ≡ 93 ∷ self.new.bytes.now) }
    {
        if self.takes(b']') { Some(()) } else { None }
    }

    #[tactic(auto, unfolding(crate::specs::CanonicalText::more_then))]
    fn with_three(&mut self, operation: Operation) -> Option<Instr>
        ensures operation { IfSome result (λ i. operation_of i ≡ operation) }
        ensures text { IfSome result (λ i. self.old.bytes.now ≡ operands_then (operands_of i) self.new.bytes.now) }
        ensures in_range { IfSome result (IsInRange MAX_INSTRS) }
    {
        let d = self.register()?;
        let a = self.register()?;
        let b = self.register()?;
        self.closes()?;
        of_three(operation, d, a, b)
    }

    #[tactic(auto, unfolding(crate::specs::CanonicalText::more_then))]
    fn with_one(&mut self, operation: Operation) -> Option<Instr>
        ensures operation { IfSome result (λ i. operation_of i ≡ operation) }
        ensures text { IfSome result (λ i. self.old.bytes.now ≡ operands_then (operands_of i) self.new.bytes.now) }
        ensures in_range { IfSome result (IsInRange MAX_INSTRS) }
    {
        let d = self.register()?;
        self.closes()?;
        match operation {
            Operation::Slot => Some(Instr::Slot(d)),
            Operation::Width => Some(Instr::Width(d)),
            Operation::Ask => Some(Instr::Ask(d)),
            Operation::Ret => Some(Instr::Ret(d)),
            _ => None,
        }
    }

    #[tactic(auto, unfolding(crate::specs::CanonicalText::more_then))]
    fn with_key(&mut self, operation: Operation) -> Option<Instr>
        ensures operation { IfSome result (λ i. operation_of i ≡ operation) }
        ensures text { IfSome result (λ i. self.old.bytes.now ≡ operands_then (operands_of i) self.new.bytes.now) }
        ensures in_range { IfSome result (IsInRange MAX_INSTRS) }
    {
        let d = self.register()?;
        let k = self.key()?;
        self.closes()?;
        match operation {
            Operation::Load => Some(Instr::Load(d, k)),
            Operation::Sum => Some(Instr::Sum(d, k)),
            Operation::Count => Some(Instr::Count(d, k)),
            _ => None,
        }
    }

    #[tactic(auto, unfolding(crate::specs::CanonicalText::more_then))]
    fn set(&mut self) -> Option<Instr>
        ensures operation { IfSome result (λ i. operation_of i ≡ Operation.Set) }
        ensures text { IfSome result (λ i. self.old.bytes.now ≡ operands_then (operands_of i) self.new.bytes.now) }
        ensures in_range { IfSome result (IsInRange MAX_INSTRS) }
    {
        let d = self.register()?;
        self.skip(",")?;
        let n = self.number()?;
        self.closes()?;
        Some(Instr::Set(d, n))
    }

    #[tactic(auto, unfolding(crate::specs::CanonicalText::more_then))]
    fn jz(&mut self) -> Option<Instr>
        ensures operation { IfSome result (λ i. operation_of i ≡ Operation.Jz) }
        ensures text { IfSome result (λ i. self.old.bytes.now ≡ operands_then (operands_of i) self.new.bytes.now) }
        ensures in_range { IfSome result (IsInRange MAX_INSTRS) }
    {
        let a = self.register()?;
        let t = self.place()?;
        self.closes()?;
        Some(Instr::Jz(a, t))
    }

    #[tactic(auto, unfolding(crate::specs::CanonicalText::more_then))]
    fn jmp(&mut self) -> Option<Instr>
        ensures operation { IfSome result (λ i. operation_of i ≡ Operation.Jmp) }
        ensures text { IfSome result (λ i. self.old.bytes.now ≡ operands_then (operands_of i) self.new.bytes.now) }
        ensures in_range { IfSome result (IsInRange MAX_INSTRS) }
    {
        let t = self.place()?;
        self.closes()?;
        Some(Instr::Jmp(t))
    }

    #[tactic(auto, unfolding(crate::specs::CanonicalText::more_then))]
    fn spawn(&mut self) -> Option<Instr>
        ensures operation { IfSome result (λ i. operation_of i ≡ Operation.Spawn) }
        ensures text { IfSome result (λ i. self.old.bytes.now ≡ operands_then (operands_of i) self.new.bytes.now) }
        ensures in_range { IfSome result (IsInRange MAX_INSTRS) }
    {
        let g = self.group()?;
        let p = self.place()?;
        let a = self.register()?;
        let b = self.register()?;
        self.closes()?;
        Some(Instr::Spawn(g, p, a, b))
    }

    #[tactic(auto, unfolding(crate::specs::CanonicalText::more_then))]
    fn post(&mut self) -> Option<Instr>
        ensures operation { IfSome result (λ i. operation_of i ≡ Operation.Post) }
        ensures text { IfSome result (λ i. self.old.bytes.now ≡ operands_then (operands_of i) self.new.bytes.now) }
        ensures in_range { IfSome result (IsInRange MAX_INSTRS) }
    {
        let p = self.place()?;
        let a = self.register()?;
        let b = self.register()?;
        self.closes()?;
        Some(Instr::Post(p, a, b))
    }

    #[tactic(auto, unfolding(crate::specs::CanonicalText::more_then))]
    fn wait(&mut self) -> Option<Instr>
        ensures operation { IfSome result (λ i. operation_of i ≡ Operation.Wait) }
        ensures text { IfSome result (λ i. self.old.bytes.now ≡ operands_then (operands_of i) self.new.bytes.now) }
        ensures in_range { IfSome result (IsInRange MAX_INSTRS) }
    {
        let d = self.register()?;
        let e = self.register()?;
        let g = self.group()?;
        self.closes()?;
        Some(Instr::Wait(d, e, g))
    }

    #[tactic(auto, unfolding(crate::specs::CanonicalText::more_then))]
    fn cancel(&mut self) -> Option<Instr>
        ensures operation { IfSome result (λ i. operation_of i ≡ Operation.Cancel) }
        ensures text { IfSome result (λ i. self.old.bytes.now ≡ operands_then (operands_of i) self.new.bytes.now) }
        ensures in_range { IfSome result (IsInRange MAX_INSTRS) }
    {
        let g = self.group()?;
        self.closes()?;
        Some(Instr::Cancel(g))
    }

    #[tactic(auto, unfolding(crate::specs::CanonicalText::more_then))]
    fn isolate(&mut self) -> Option<Instr>
        ensures operation { IfSome result (λ i. operation_of i ≡ Operation.Isolate) }
        ensures text { IfSome result (λ i. self.old.bytes.now ≡ operands_then (operands_of i) self.new.bytes.now) }
        ensures in_range { IfSome result (IsInRange MAX_INSTRS) }
    {
        let d = self.register()?;
        let p = self.place()?;
        let a = self.register()?;
        let b = self.register()?;
        self.closes()?;
        Some(Instr::Isolate(d, p, a, b))
    }

    #[tactic(auto, unfolding(crate::specs::CanonicalText::more_then))]
    fn store(&mut self) -> Option<Instr>
        ensures operation { IfSome result (λ i. operation_of i ≡ Operation.Store) }
        ensures text { IfSome result (λ i. self.old.bytes.now ≡ operands_then (operands_of i) self.new.bytes.now) }
        ensures in_range { IfSome result (IsInRange MAX_INSTRS) }
    {
        let k = self.key()?;
        let a = self.register()?;
        self.closes()?;
        Some(Instr::Store(k, a))
    }
}

/// The instruction of that operation with these three registers.
fn of_three(operation: Operation, d: Register, a: Register, b: Register) -> Option<Instr>
    requires d { d < 8 }
    requires a { a < 8 }
    requires b { b < 8 }
    ensures operation { IfSome result (λ i. operation_of i ≡ operation) }
    ensures operands { IfSome result (λ i. operands_of i ≡ pos d ∷ pos a ∷ pos b ∷ []) }
    ensures in_range { IfSome result (IsInRange MAX_INSTRS) }
{
    match operation {
        Operation::Add => Some(Instr::Add(d, a, b)),
        Operation::Sub => Some(Instr::Sub(d, a, b)),
        Operation::Mul => Some(Instr::Mul(d, a, b)),
        Operation::Div => Some(Instr::Div(d, a, b)),
        Operation::Lt => Some(Instr::Lt(d, a, b)),
        Operation::Rem => Some(Instr::Rem(d, a, b)),
        Operation::And => Some(Instr::And(d, a, b)),
        Operation::Or => Some(Instr::Or(d, a, b)),
        Operation::Xor => Some(Instr::Xor(d, a, b)),
        Operation::Shl => Some(Instr::Shl(d, a, b)),
        Operation::Shr => Some(Instr::Shr(d, a, b)),
        Operation::Eq => Some(Instr::Eq(d, a, b)),
        Operation::Le => Some(Instr::Le(d, a, b)),
        _ => None,
    }
}
