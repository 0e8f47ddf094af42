// The jobs themselves, and their text.
use std::alloc::AllocError;

/// The text of a job, in its three parts.
#[derive(Clone, Copy, Drop)]
pub struct JobText {
    pub args: [i64; 2],
    pub fuel: u64,
    pub procs: &'static str,
}

impl JobText {
    /// Writes the job as one JSON object.
    pub fn write(self, text: &mut String) -> Result<(), AllocError> {
        let ([first, second], fuel, procs) = (self.args, self.fuel, self.procs);
        write!(
            text,
            "{{\"args\":[{first},{second}],\"fuel\":{fuel},\"procs\":{procs}}}"
        )
    }
}

/// Returns its first argument, 7.
pub const FIRST: JobText = JobText {
    args: [7, 0],
    fuel: 10,
    procs: r#"[[["ret",0]]]"#,
};

/// The sixth Fibonacci number, a task for each smaller one.
pub const FIB: JobText = JobText {
    args: [6, 0],
    fuel: 1_000,
    procs: r#"[[["set",2,2],["lt",3,0,2],["jz",3,4],["ret",0],["set",2,1],["sub",3,0,2],["spawn",0,0,3,1],["sub",3,3,2],["spawn",0,0,3,1],["wait",4,5,0],["ret",4]]]"#,
};

/// Waits for a group that never had a task: ten times its total, and its status.
pub const UNUSED: JobText = JobText {
    args: [0, 0],
    fuel: 1_000,
    procs: r#"[[["wait",2,3,0],["set",4,10],["mul",2,2,4],["add",2,2,3],["ret",2]]]"#,
};

/// Cancels a group, spawns into it and waits twice: ten times the first status, and the second.
pub const CANCEL_THEN_WAIT: JobText = JobText {
    args: [7, 0],
    fuel: 1_000,
    procs: r#"[[["cancel",0],["spawn",0,1,0,1],["wait",2,3,0],["wait",4,5,0],["set",6,10],["mul",3,3,6],["add",3,3,5],["add",3,3,2],["add",3,3,4],["ret",3]],[["ret",0]]]"#,
};

/// Stores 5 in its cell, and waits for one group while a task of another, which stores 9, is ready.
pub const CLASSIC: JobText = JobText {
    args: [0, 0],
    fuel: 1_000,
    procs: r#"[[["set",2,5],["store",0,2],["spawn",1,1,0,1],["spawn",0,2,0,1],["wait",3,4,1],["load",5,0],["wait",3,4,0],["ret",5]],[["ret",0]],[["set",2,9],["store",0,2],["ret",2]]]"#,
};

/// Stores 9 in its cell.
pub const NINE: JobText = JobText {
    args: [0, 0],
    fuel: 1_000,
    procs: r#"[[["set",2,9],["store",0,2],["ret",2]]]"#,
};

/// Stores 5 in its cell, waits for a task inside a region, and gives the cell.
pub const ISOLATED: JobText = JobText {
    args: [0, 0],
    fuel: 1_000,
    procs: r#"[[["set",2,5],["store",0,2],["isolate",3,1,0,1],["load",5,0],["ret",5]],[["spawn",0,2,0,1],["wait",2,3,0],["ret",2]],[["ret",0]]]"#,
};

/// The same without the region.
pub const PLAIN: JobText = JobText {
    args: [0, 0],
    fuel: 1_000,
    procs: r#"[[["set",2,5],["store",0,2],["spawn",0,1,0,1],["wait",2,3,0],["load",5,0],["ret",5]],[["ret",0]]]"#,
};

/// As ISOLATED, with a post inside the region that stores 9.
pub const POSTED: JobText = JobText {
    args: [0, 0],
    fuel: 1_000,
    procs: r#"[[["set",2,5],["store",0,2],["isolate",3,1,0,1],["load",5,0],["ret",5]],[["spawn",0,2,0,1],["post",3,0,1],["wait",2,3,0],["ret",2]],[["ret",0]],[["set",2,9],["store",0,2],["ret",2]]]"#,
};

/// As ISOLATED, but the task of the region itself stores 9.
pub const STOLEN: JobText = JobText {
    args: [0, 0],
    fuel: 1_000,
    procs: r#"[[["set",2,5],["store",0,2],["isolate",3,1,0,1],["load",5,0],["ret",5]],[["spawn",0,2,0,1],["wait",2,3,0],["ret",2]],[["set",2,9],["store",0,2],["ret",2]]]"#,
};

/// Returns while a group of its own is used.
pub const UNWAITED: JobText = JobText {
    args: [0, 0],
    fuel: 1_000,
    procs: r#"[[["spawn",0,1,0,1],["ret",0]],[["ret",0]]]"#,
};

/// As many tasks as its first argument, each below the one before.
pub const CHAIN: JobText = JobText {
    args: [127, 7],
    fuel: 1_000,
    procs: r#"[[["jz",0,6],["set",2,1],["sub",3,0,2],["spawn",0,0,3,1],["wait",4,5,0],["ret",4],["ret",1]]]"#,
};

/// The greatest number, and one more.
pub const WRAP: JobText = JobText {
    args: [0, 0],
    fuel: 1_000,
    procs: r#"[[["set",2,9223372036854775807],["set",3,1],["add",2,2,3],["ret",2]]]"#,
};

/// The least number divided by minus one.
pub const LEAST_BY_MINUS_ONE: JobText = JobText {
    args: [0, 0],
    fuel: 1_000,
    procs: r#"[[["set",2,-9223372036854775808],["set",3,-1],["div",2,2,3],["ret",2]]]"#,
};

/// Divides by zero.
pub const ZERO_DIVISOR: JobText = JobText {
    args: [0, 0],
    fuel: 1_000,
    procs: r#"[[["set",2,1],["div",2,2,3],["ret",2]]]"#,
};

/// Minus seven divided by two.
pub const HALF: JobText = JobText {
    args: [-7, 2],
    fuel: 1_000,
    procs: r#"[[["div",2,0,1],["ret",2]]]"#,
};

/// Returns the index of the slot that runs it.
pub const SLOT: JobText = JobText {
    args: [0, 0],
    fuel: 1_000,
    procs: r#"[[["slot",2],["ret",2]]]"#,
};

/// Never returns.
pub const SPIN: JobText = JobText {
    args: [0, 0],
    fuel: 1_500,
    procs: r#"[[["jmp",0]]]"#,
};

/// A region, whose task on another slot makes a region of its own.
pub const NESTED: JobText = JobText {
    args: [0, 0],
    fuel: 1_000,
    procs: r#"[[["isolate",2,1,0,1],["ret",2]],[["spawn",0,2,0,1],["wait",2,3,0],["ret",2]],[["isolate",2,3,0,1],["ret",2]],[["spawn",0,4,0,1],["wait",2,3,0],["ret",2]],[["set",2,9],["ret",2]]]"#,
};

/// Jumps to a place that has no instruction.
pub const NOT_VALID: JobText = JobText {
    args: [0, 0],
    fuel: 1_000,
    procs: r#"[[["jmp",1]]]"#,
};
