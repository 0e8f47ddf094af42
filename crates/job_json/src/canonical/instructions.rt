// Reading instructions from their canonical text.
ghost use Rattle.std.specs.Prelude.{◌≡◌, ◌≤◌, IfSome};
ghost use Rattle.job_language.specs.Program.{IsInRange};
ghost use Rattle.job_json.specs.CanonicalText.{instr_then};

use super::numbers::Rest;
use crate::operations::Operation;
use job_language::{Instr, MAX_INSTRS};

impl<'b> Rest<'b> {
    /// Goes over an instruction. A jump may lead to any place that a procedure can have.
    pub(super) fn instr(&mut self) -> Option<Instr>
        ensures text { IfSome result (λ i. self.old.bytes.now ≡ instr_then i self.new.bytes.now) }
        ensures in_range { IfSome result (IsInRange MAX_INSTRS) }
    {
        self.skip("[\"")?;
        let operation = guessed(self.bytes)?;
        self.skip(operation.name())?;
        self.skip("\"")?;
        self.operands_of(operation)
    }
}

/// The operation whose name the bytes may begin with.
fn guessed(bytes: &[u8]) -> Option<Operation> {
    match bytes {
        [b'a', b'd', ..] => Some(Operation::Add),
        [b'a', b'n', ..] => Some(Operation::And),
        [b'a', b's', ..] => Some(Operation::Ask),
        [b'c', b'a', ..] => Some(Operation::Cancel),
        [b'c', b'o', ..] => Some(Operation::Count),
        [b'd', ..] => Some(Operation::Div),
        [b'e', ..] => Some(Operation::Eq),
        [b'i', ..] => Some(Operation::Isolate),
        [b'j', b'z', ..] => Some(Operation::Jz),
        [b'j', b'm', ..] => Some(Operation::Jmp),
        [b'l', b't', ..] => Some(Operation::Lt),
        [b'l', b'e', ..] => Some(Operation::Le),
        [b'l', b'o', ..] => Some(Operation::Load),
        [b'm', ..] => Some(Operation::Mul),
        [b'o', ..] => Some(Operation::Or),
        [b'p', ..] => Some(Operation::Post),
        [b'r', b'e', b't', ..] => Some(Operation::Ret),
        [b'r', b'e', b'm', ..] => Some(Operation::Rem),
        [b's', second, third, ..] => guessed_after_s(*second, *third),
        [b'w', b'a', ..] => Some(Operation::Wait),
        [b'w', b'i', ..] => Some(Operation::Width),
        [b'x', ..] => Some(Operation::Xor),
        _ => None,
    }
}

fn guessed_after_s(second: u8, third: u8) -> Option<Operation> {
    match (second, third) {
        (b'e', _) => Some(Operation::Set),
        (b'u', b'b') => Some(Operation::Sub),
        (b'u', b'm') => Some(Operation::Sum),
        (b'p', _) => Some(Operation::Spawn),
        (b'h', b'l') => Some(Operation::Shl),
        (b'h', b'r') => Some(Operation::Shr),
        (b'l', _) => Some(Operation::Slot),
        (b't', _) => Some(Operation::Store),
        _ => None,
    }
}
