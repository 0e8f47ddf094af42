// Writers over memory that take few bytes at a call, and then none.
use crate::tests::assert_same;
use reply_writer::{WriteFault, write_all_of};
use std::alloc::Global;
use std::io;
use std::io::{ErrorKind, Write};

/// What a writer does at a call once it takes no more.
#[derive(Clone, Copy)]
enum Ending {
    TakesNone,
    Fails,
    IsInterrupted,
}

/// A writer that takes some bytes at each of its first calls.
#[derive(Drop)]
struct Few {
    taken: Vec<u8>,
    at_a_call: usize,
    calls: usize,
    ending: Ending,
}

impl Few {
    fn new(alloc: Global, at_a_call: usize, calls: usize, ending: Ending) -> Few {
        Few {
            taken: Vec::new(alloc),
            at_a_call,
            calls,
            ending,
        }
    }
}

impl Write for Few {
    fn write(&mut self, bytes: &[u8]) -> io::Result<usize> {
        if self.calls > 0 {
            self.calls -= 1;
            let count = bytes.len().min(self.at_a_call);
            self.taken.extend_from_slice(&bytes[..count])?;
            return Ok(count);
        }
        // A call after this one would take all.
        self.calls = 1;
        self.at_a_call = usize::MAX;
        match self.ending {
            Ending::TakesNone => Ok(0),
            Ending::Fails => Err(io::Error::from(ErrorKind::BrokenPipe)),
            Ending::IsInterrupted => Err(io::Error::from(ErrorKind::Interrupted)),
        }
    }

    fn flush(&mut self) -> io::Result<()> {
        Ok(())
    }
}

/// The line that is written, of ten bytes.
const LINE: &str = "{\"job\":1}\n";

/// What writing the line answers, and how many bytes went out if they are its first ones.
fn write_line(mut writer: Few) -> (Result<(), WriteFault>, Option<usize>) {
    let written = write_all_of(&mut writer, LINE.as_bytes());
    (written, count_of(writer.taken.as_slice()))
}

fn count_of(taken: &[u8]) -> Option<usize> {
    if LINE.as_bytes().starts_with(taken) {
        Some(taken.len())
    } else {
        None
    }
}

#[test]
fn all_bytes_go_out_a_few_at_a_time(rt: HostRuntime) {
    for at_a_call in [1, 3, 10, 11] {
        let writer = Few::new(rt.alloc(), at_a_call, 10, Ending::Fails);
        assert_same(&rt, &write_line(writer), &(Ok(()), Some(10)));
    }
}

#[test]
fn no_bytes_need_no_call(rt: HostRuntime) {
    let mut failing = Few::new(rt.alloc(), 0, 0, Ending::Fails);
    assert_same(&rt, &write_all_of(&mut failing, &[]), &Ok(()));
}

/// How many bytes a writer takes at a call, and how many such calls there are.
const TAKEN: [(usize, usize); 14] = [
    (1, 0),
    (1, 1),
    (1, 2),
    (1, 3),
    (1, 4),
    (1, 5),
    (1, 6),
    (1, 7),
    (1, 8),
    (1, 9),
    (3, 1),
    (3, 2),
    (3, 3),
    (9, 1),
];

#[test]
fn a_fault_tells_what_went_out(rt: HostRuntime) {
    for ending in [Ending::TakesNone, Ending::Fails, Ending::IsInterrupted] {
        for (at_a_call, calls) in TAKEN {
            let writer = Few::new(rt.alloc(), at_a_call, calls, ending);
            let sent = at_a_call.saturating_mul(calls);
            assert_same(
                &rt,
                &write_line(writer),
                &(Err(WriteFault { sent }), Some(sent)),
            );
        }
    }
}
