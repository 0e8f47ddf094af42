// The names of instructions in a job's text.
ghost use Rattle.std.specs.Prelude.{◌≡◌};
ghost use Rattle.job_json.specs.InsideOperation.{operation_named};
ghost use Rattle.job_json.specs.Operation.{name_of};

/// What an instruction does, without its operands.
#[derive(Clone, Copy, Debug, PartialEq, Eq)]
pub(crate) enum Operation {
    Set,
    Add,
    Sub,
    Mul,
    Div,
    Lt,
    Rem,
    And,
    Or,
    Xor,
    Shl,
    Shr,
    Eq,
    Le,
    Jz,
    Jmp,
    Slot,
    Width,
    Spawn,
    Post,
    Wait,
    Cancel,
    Ask,
    Isolate,
    Load,
    Store,
    Sum,
    Count,
    Ret,
}

impl Operation {
    /// The operation of that name.
    pub(crate) fn named(name: &str) -> Option<Operation>
        ensures { result ≡ operation_named name.now }
    {
        match name {
            "set" => Some(Operation::Set),
            "add" => Some(Operation::Add),
            "sub" => Some(Operation::Sub),
            "mul" => Some(Operation::Mul),
            "div" => Some(Operation::Div),
            "lt" => Some(Operation::Lt),
            "rem" => Some(Operation::Rem),
            "and" => Some(Operation::And),
            "or" => Some(Operation::Or),
            "xor" => Some(Operation::Xor),
            "shl" => Some(Operation::Shl),
            "shr" => Some(Operation::Shr),
            "eq" => Some(Operation::Eq),
            "le" => Some(Operation::Le),
            "jz" => Some(Operation::Jz),
            "jmp" => Some(Operation::Jmp),
            "slot" => Some(Operation::Slot),
            "width" => Some(Operation::Width),
            "spawn" => Some(Operation::Spawn),
            "post" => Some(Operation::Post),
            "wait" => Some(Operation::Wait),
            "cancel" => Some(Operation::Cancel),
            "ask" => Some(Operation::Ask),
            "isolate" => Some(Operation::Isolate),
            "load" => Some(Operation::Load),
            "store" => Some(Operation::Store),
            "sum" => Some(Operation::Sum),
            "count" => Some(Operation::Count),
            "ret" => Some(Operation::Ret),
            _ => None,
        }
    }

    /// Its name.
    pub(crate) fn name(self) -> &'static str
        ensures { result.now ≡ name_of self }
    {
        match self {
            Operation::Set => "set",
            Operation::Add => "add",
            Operation::Sub => "sub",
            Operation::Mul => "mul",
            Operation::Div => "div",
            Operation::Lt => "lt",
            Operation::Rem => "rem",
            Operation::And => "and",
            Operation::Or => "or",
            Operation::Xor => "xor",
            Operation::Shl => "shl",
            Operation::Shr => "shr",
            Operation::Eq => "eq",
            Operation::Le => "le",
            Operation::Jz => "jz",
            Operation::Jmp => "jmp",
            Operation::Slot => "slot",
            Operation::Width => "width",
            Operation::Spawn => "spawn",
            Operation::Post => "post",
            Operation::Wait => "wait",
            Operation::Cancel => "cancel",
            Operation::Ask => "ask",
            Operation::Isolate => "isolate",
            Operation::Load => "load",
            Operation::Store => "store",
            Operation::Sum => "sum",
            Operation::Count => "count",
            Operation::Ret => "ret",
        }
    }
}
