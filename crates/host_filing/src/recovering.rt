// The journals that a host left are finished before anybody is served.

use crate::clocks::millis;
use crate::office::Office;
use crate::system::System;
use host_folder::{LeftJournal, Recovery, Shelves, recover};
use host_status::{Event, Fault};
use server_io::ServerFault;
use std::alloc::Global;
use std::sync::Wait;
use std::time::Clock;

/// Finishes each journal that a host left, and reports what became of it.
pub fn recover_all<R: System>(
    rt: &R,
    alloc: Global,
    office: Office<'_>,
    shelves: &mut Shelves,
) -> Result<(), ServerFault> {
    let (folder, keep) = (office.folder, office.words.keep);
    for journal in &folder.left_journals(rt)? {
        let began = millis(rt);
        let recovery = recover(rt, alloc, folder, shelves, journal, keep)?;
        say_recovery(rt, alloc, office, journal, recovery, began);
    }
    Ok(())
}

/// Reports what became of a journal. Its recovery began at that time of the monotonic clock, in milliseconds.
fn say_recovery<R: Wait + Clock>(
    rt: &R,
    alloc: Global,
    office: Office<'_>,
    journal: &LeftJournal,
    recovery: Recovery,
    began: u64,
) {
    let (tenant, term) = (journal.name.as_str(), journal.term);
    let is_fault = match recovery {
        Recovery::Empty => false,
        Recovery::Unread => true,
        Recovery::Finished { is_torn_wrong, .. } => is_torn_wrong,
    };
    if is_fault {
        office.say_fault(rt, alloc, Fault::Journal, Some(tenant), Some(term));
    }
    if let Recovery::Finished { jobs, lost, .. } = recovery {
        let ms = millis(rt).saturating_sub(began);
        office.say(
            rt,
            alloc,
            Event::Recovered {
                tenant,
                term,
                jobs,
                lost,
                ms,
            },
        );
    }
}
