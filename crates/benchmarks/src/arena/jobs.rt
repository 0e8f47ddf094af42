// The jobs, as text.
use std::alloc::{AllocError, Global};

/// Four rows, each with four groups: 60 tasks are made in each group, which is then cancelled and waited
/// for. Its value is the sum of the 16 statuses.
pub(crate) fn cancels(alloc: Global) -> Result<String, AllocError> {
    let mut text = String::new(alloc);
    text.push_str(
        r#"{"args":[0,0],"fuel":1000000,"procs":[[["spawn",0,1,0,1],["spawn",0,1,0,1],"#,
    )?;
    text.push_str(r#"["spawn",0,1,0,1],["spawn",0,1,0,1],["wait",2,3,0],["ret",2]],"#)?;
    text.push_str(r#"[["set",2,60],["set",3,1],["spawn",0,2,0,1],["spawn",1,2,0,1],"#)?;
    text.push_str(r#"["spawn",2,2,0,1],["spawn",3,2,0,1],["sub",2,2,3],["jz",2,9],["jmp",2],"#)?;
    text.push_str(r#"["cancel",0],["cancel",1],["cancel",2],["cancel",3],["wait",4,5,0],"#)?;
    text.push_str(r#"["wait",4,6,1],["add",5,5,6],["wait",4,6,2],["add",5,5,6],"#)?;
    text.push_str(r#"["wait",4,6,3],["add",5,5,6],["ret",5]],[["ret",0]]]}"#)?;
    Ok(text)
}

/// A Fibonacci number, with a task for each smaller one.
pub(crate) fn fibonacci(alloc: Global, number: usize) -> Result<String, AllocError> {
    let mut text = String::new(alloc);
    write!(
        text,
        "{{\"args\":[{number},0],\"fuel\":1000000,\"procs\":[["
    )?;
    text.push_str(r#"["set",2,2],["lt",3,0,2],["jz",3,4],["ret",0],["set",2,1],["sub",3,0,2],"#)?;
    text.push_str(
        r#"["spawn",0,0,3,1],["sub",3,3,2],["spawn",0,0,3,1],["wait",4,5,0],["ret",4]]]}"#,
    )?;
    Ok(text)
}

/// Posts this number of rows, which wait: a slot takes the rows that were made on it before them.
pub(crate) fn posts(alloc: Global, rows: usize) -> Result<String, AllocError> {
    let mut text = String::new(alloc);
    write!(text, "{{\"args\":[{rows},0],\"fuel\":1000000,\"procs\":[[")?;
    text.push_str(r#"["set",3,1],["jz",0,5],["post",1,0,1],["sub",0,0,3],["jmp",1],["ret",0]],"#)?;
    text.push_str(r#"[["ret",0]]]}"#)?;
    Ok(text)
}
