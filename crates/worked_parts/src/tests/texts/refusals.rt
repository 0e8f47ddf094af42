// The places of the faults of jobs that are refused.
use crate::tests::assert_same;
use job_json::{Place, Refused, read_job};
use serde_json::Value;
use std::alloc::Global;
use std::test::Fail;

/// The text of a job with this fuel and these procedures, and arguments 0 and 0.
fn job_text(alloc: Global, fuel: u64, procs: &str) -> Result<String, Fail> {
    Ok(format!(in alloc; "{{\"args\":[0,0],\"fuel\":{fuel},\"procs\":{procs}}}")?)
}

/// Where such a job breaks the rules; `None` if it does not.
fn place_of(alloc: Global, fuel: u64, procs: &str) -> Result<Option<Place>, Fail> {
    let text = job_text(alloc, fuel, procs)?;
    match read_job(alloc, &Value::from_str(alloc, text.as_str())?) {
        Ok(_) => Ok(None),
        Err(Refused::Bad { place }) => Ok(Some(place)),
        Err(refused) => Err(refused)?,
    }
}

/// Fuel and procedures, and the place of their first fault.
const TABLE: [(u64, &str, Option<Place>); 9] = [
    (10, "[]", Some(Place::Head)),
    (0, r#"[[["ret",0]]]"#, Some(Place::Head)),
    (10, r#"[[["ret",9]],5]"#, Some(Place::Head)),
    (10, r#"[[["ret",7]]]"#, None),
    (10, r#"[[["ret",8]]]"#, Some(Place::At(0, 0))),
    (10, r#"[[["set",2,1]]]"#, Some(Place::At(0, 0))),
    (10, r#"[[["set",2,1.0],["ret",0]]]"#, Some(Place::At(0, 0))),
    (10, r#"[[["jmp",1],["ret",9]]]"#, Some(Place::At(0, 1))),
    (
        10,
        r#"[[["ret",0]],[["spawn",0,2,0,0],["ret",0]]]"#,
        Some(Place::At(1, 0)),
    ),
];

#[test]
fn a_job_is_refused_at_its_first_fault(rt: HostRuntime) -> Result<(), Fail> {
    for (fuel, procs, place) in TABLE {
        let found = place_of(rt.alloc(), fuel, procs)?;
        assert_same(&rt, &(fuel, procs, found), &(fuel, procs, place));
    }
    Ok(())
}
