// The histories and outcomes of closed terms become files.
ghost use Rattle.std.specs.Prelude.{◌≡◌, ◌||◌, ◌&&◌, not, IfSome};
ghost use Rattle.host_filing.specs.Fates.{filed, is_lost};

mod files;

use crate::clocks::{millis, seconds};
use crate::ends::{Faults, event_dump_fault};
use crate::fates::{Fate, Filed};
use crate::office::Office;
use crate::writing::{Done, UnfiledTerm, Work, Writer};
use dump_files::make_part;
use dump_lines::DumpFault;
use files::{closed_term, dump_path, keep_part, put_outcomes, remove_journal, tell_end};
use host_folder::Shelves;
use host_records::TermEnd;
use host_status::{ClosedTerm, Event, Fault};
use std::alloc::{AllocError, Global};
use std::fs::{File, Files};
use std::sync::Wait;
use std::time::Clock;

/// How long to wait before files are tried once more, in milliseconds.
const REST: u64 = 1000;

/// How long the files of a term are tried again, once one could not be written, in milliseconds.
const PATIENCE: u64 = 30_000;

/// How many terms that are closed are shown.
const SHOWN: usize = 64;

/// The terms whose files are to be written, and what was closed so far.
#[derive(Drop)]
pub struct Filing {
    /// The oldest first.
    waiting: Vec<UnfiledTerm>,
    /// The dumps that are there.
    shelves: Shelves,
    /// What went wrong with histories so far.
    faults: Faults,
    /// The last terms that were closed, the newest last.
    closed: Vec<ClosedTerm>,
}

impl Filing {
    /// Nothing was closed yet.
    pub fn new(alloc: Global, shelves: Shelves) -> Filing {
        Filing {
            waiting: Vec::new(alloc),
            shelves,
            faults: Faults::default(),
            closed: Vec::new(alloc),
        }
    }

    /// What went wrong with histories so far.
    pub fn faults(&self) -> Faults
        ensures { result ≡ self.now.faults }
    {
        self.faults
    }

    /// The dumps that are there.
    pub fn shelves(&self) -> &Shelves {
        &self.shelves
    }

    /// The last terms that were closed, the newest last.
    pub fn closed(&self) -> &[ClosedTerm] {
        self.closed.as_slice()
    }

    /// Whether all files are written.
    pub fn is_empty<R: Wait>(&self, rt: &R, writer: &Writer) -> bool {
        self.waiting.is_empty() && !writer.is_busy(rt)
    }

    /// Makes room for one more term, beside the one that is being written.
    pub fn make_room(&mut self) -> Result<(), AllocError> {
        self.waiting.reserve(2)
    }

    /// Takes a term whose files are to be written. Without memory for it, it is left to its journal, and done with.
    pub fn add<R: Wait + Clock>(
        &mut self,
        rt: &R,
        alloc: Global,
        office: Office<'_>,
        unfiled: UnfiledTerm,
    ) -> Option<Filed>
        ensures { IfSome result (λ f. f ≡ filed unfiled) }
    {
        match self.waiting.push(unfiled) {
            Ok(()) => None,
            Err(refused) => {
                let fate = Fate::unwritten(&refused.value.end);
                Some(self.finish(rt, alloc, office, refused.value, fate))
            }
        }
    }

    /// Takes back the history that was written, or could not be, if there is one. Its term may be done with.
    pub fn take_written<R>(
        &mut self,
        rt: &R,
        alloc: Global,
        office: Office<'_>,
        writer: &Writer,
    ) -> Option<Filed>
    where
        R: Files<File = File> + Wait + Clock,
    {
        let done = writer.take(rt)?;
        self.keep(rt, alloc, office, done)
    }

    /// Begins with the next term, unless a history is being written. It may be done with at once.
    pub fn begin_next<R>(
        &mut self,
        rt: &R,
        alloc: Global,
        office: Office<'_>,
        writer: &Writer,
    ) -> Option<Filed>
    where
        R: Files<File = File> + Wait + Clock,
    {
        if writer.is_busy(rt) {
            return None;
        }
        let now = millis(rt);
        let place = self
            .waiting
            .iter()
            .position(|unfiled| unfiled.trial.is_due(now))?;
        let unfiled = self.waiting.remove(place);
        self.begin(rt, alloc, office, writer, unfiled)
    }

    /// Begins with the files of a term.
    fn begin<R>(
        &mut self,
        rt: &R,
        alloc: Global,
        office: Office<'_>,
        writer: &Writer,
        unfiled: UnfiledTerm,
    ) -> Option<Filed>
    where
        R: Files<File = File> + Wait + Clock,
        ensures { IfSome result (λ f. f ≡ filed unfiled) }
    {
        let mut unfiled = unfiled;
        if !unfiled.is_told {
            tell_end(rt, alloc, office, &unfiled.end);
            unfiled.is_told = true;
        }
        if unfiled.end.is_left_over() || !matches!(unfiled.end.end, Some(Ok(_))) {
            let fate = Fate::unwritten(&unfiled.end);
            return Some(self.finish(rt, alloc, office, unfiled, fate));
        }
        let made = match dump_path(alloc, office, &unfiled.end) {
            Ok(path) => make_part(rt, alloc, path.as_str()),
            Err(_) => Err(DumpFault::Memory),
        };
        match made {
            Ok(part) => {
                writer.give(rt, Work { unfiled, part });
                None
            }
            Err(fault) => self.fail(rt, alloc, office, unfiled, event_dump_fault(fault)),
        }
    }

    /// Lets a history that was written take its place, and then the outcomes. If that fails, both are tried again for a
    /// while.
    fn keep<R>(&mut self, rt: &R, alloc: Global, office: Office<'_>, done: Done) -> Option<Filed>
    where
        R: Files<File = File> + Wait + Clock,
        ensures { IfSome result (λ f. f ≡ filed done.unfiled) }
    {
        let Done { unfiled, written } = done;
        if let Err(fault) = keep_part(rt, alloc, office, &unfiled.end, written) {
            return self.fail(rt, alloc, office, unfiled, event_dump_fault(fault));
        }
        if put_outcomes(rt, alloc, office, &unfiled.end).is_err() {
            return self.fail(rt, alloc, office, unfiled, Fault::Results);
        }
        let named = unfiled.end.tenant.tenant().name;
        // What is not known of now is found at the next start.
        let _ = office.folder.shelve(
            rt,
            alloc,
            &mut self.shelves,
            named.as_str(),
            unfiled.end.span.number,
            office.words.keep,
        );
        remove_journal(rt, alloc, office, &unfiled.end);
        Some(self.finish(rt, alloc, office, unfiled, Fate::Dumped))
    }

    /// A file could not be written. It is tried again each second, for a while from the first time on.
    fn fail<R: Wait + Clock>(
        &mut self,
        rt: &R,
        alloc: Global,
        office: Office<'_>,
        unfiled: UnfiledTerm,
        what: Fault,
    ) -> Option<Filed>
        ensures { IfSome result (λ f. f ≡ filed unfiled) }
    {
        let mut unfiled = unfiled;
        let named = unfiled.end.tenant.tenant().name;
        office.say_fault(
            rt,
            alloc,
            what,
            Some(named.as_str()),
            Some(unfiled.end.span.number),
        );
        if !unfiled.trial.fail(millis(rt), PATIENCE, REST) {
            let fate = Fate::unwritten(&unfiled.end);
            return Some(self.finish(rt, alloc, office, unfiled, fate));
        }
        self.add(rt, alloc, office, unfiled)
    }

    /// A term is done with.
    fn finish<R: Wait + Clock>(
        &mut self,
        rt: &R,
        alloc: Global,
        office: Office<'_>,
        unfiled: UnfiledTerm,
        fate: Fate,
    ) -> Filed
        ensures { result ≡ filed unfiled }
    {
        let has_fault = matches!(unfiled.end.end, Some(Err(_)));
        self.note(has_fault, fate);
        let number = unfiled.end.span.number;
        let named = unfiled.end.tenant.tenant().name;
        if has_fault {
            office.say_fault(rt, alloc, Fault::Close, Some(named.as_str()), Some(number));
        }
        let ms = millis(rt).saturating_sub(unfiled.since);
        office.say(
            rt,
            alloc,
            Event::Closed {
                tenant: named.as_str(),
                term: number,
                why: unfiled.end.why,
                lost: unfiled.end.lost(),
                left: unfiled.end.left_over(),
                ms,
            },
        );
        let is_dumped = fate == Fate::Dumped;
        // Without memory it is missing among those that are shown, and nowhere else.
        if let Ok(shown) = closed_term(alloc, &unfiled.end, seconds(rt), ms, is_dumped) {
            let _ = self.show(shown);
        }
        Filed {
            tenant: unfiled.tenant,
            term: number,
        }
    }

    /// Notes what went wrong with a term's history.
    fn note(&mut self, has_fault: bool, fate: Fate)
        ensures close { self.new.faults.has_close_fault
            ≡ (self.old.faults.has_close_fault || has_fault) }
        ensures lost { self.new.faults.has_lost_history
            ≡ (self.old.faults.has_lost_history || (not has_fault && is_lost fate)) }
    {
        self.faults.has_close_fault |= has_fault;
        self.faults.has_lost_history |= !has_fault && fate == Fate::Lost;
    }

    /// Shows a term among the last ones that were closed.
    fn show(&mut self, shown: ClosedTerm) -> Result<(), AllocError> {
        if self.closed.len() >= SHOWN {
            self.closed.remove(0);
        }
        self.closed.push(shown)?;
        Ok(())
    }
}
