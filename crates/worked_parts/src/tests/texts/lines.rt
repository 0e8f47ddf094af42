// Lines of bytes, however they come.
use super::readers::{Few, told};
use crate::tests::assert_same;
use request_reader::{LineRead, LineReader, is_blank};
use std::alloc::{AllocError, Global};
use std::io::{ErrorKind, Read};
use std::test::Fail;

/// The last text of the table. A reader that gives a byte at a call is called 29 times for it.
const LAST: (&str, &str) = ("abcdefghijkl\nx\nabcdefghi\n\ny\n", "#(x)#()(y)$");

/// Texts, and what their lines of at most four bytes are.
const TABLE: [(&str, &str); 13] = [
    ("", "$"),
    ("\n", "()$"),
    ("\n\n", "()()$"),
    ("a\n", "(a)$"),
    ("a", "(a)$"),
    ("a\n\nb", "(a)()(b)$"),
    ("abcd\n", "(abcd)$"),
    ("abcd", "(abcd)$"),
    ("abcde\n", "#$"),
    ("abcde", "#$"),
    ("abc\r\nab\r\n", "(abc\r)(ab\r)$"),
    ("abcd\r\nx", "#(x)$"),
    LAST,
];

/// Whether reading to the end gives what is wanted.
fn is_told<R: Read>(alloc: Global, reader: &mut R, want: &str) -> Result<bool, AllocError> {
    let told = told(alloc, 4, reader)?;
    Ok(told.as_slice() == want.as_bytes())
}

/// The first text of the table whose lines are others, by a slice or by a reader that gives `at_a_call`
/// bytes at a call.
fn first_wrong(alloc: Global, at_a_call: usize) -> Result<Option<&'static str>, AllocError> {
    for (text, want) in TABLE {
        let mut slice = text.as_bytes();
        let mut few = Few::new(slice, at_a_call);
        if !is_told(alloc, &mut slice, want)? || !is_told(alloc, &mut few, want)? {
            return Ok(Some(text));
        }
    }
    Ok(None)
}

#[test]
fn lines_are_told_however_they_come(rt: HostRuntime) -> Result<(), Fail> {
    for at_a_call in [1, 2, 3, 100] {
        assert_same(&rt, &first_wrong(rt.alloc(), at_a_call)?, &None);
    }
    Ok(())
}

/// How many faults there are, and whether all else is as wanted.
fn faults_in(told: &[u8], want: &str) -> (usize, bool) {
    let faults = told.iter().filter(|b| **b == b'!').count();
    let others = told.iter().copied().filter(|b| *b != b'!');
    (faults, others.eq(want.bytes()))
}

/// The same of the last text, if that call of the reader fails.
fn faults_at(alloc: Global, call: u64) -> Result<(usize, bool), AllocError> {
    let (text, want) = LAST;
    let mut reader = Few::new(text.as_bytes(), 1).failing(ErrorKind::TimedOut, call, call);
    let told = told(alloc, 4, &mut reader)?;
    Ok(faults_in(told.as_slice(), want))
}

#[test]
fn a_fault_is_told_once_and_loses_nothing(rt: HostRuntime) -> Result<(), Fail> {
    for call in 1..=29 {
        assert_same(&rt, &faults_at(rt.alloc(), call)?, &(1, true));
    }
    Ok(())
}

/// Whether reading the last text gives what is wanted if three calls of the reader are interrupted, from that
/// one on; and how often it is called.
fn interrupted_at(alloc: Global, call: u64) -> Result<(bool, u64), AllocError> {
    let (text, want) = LAST;
    let kind = ErrorKind::Interrupted;
    let mut reader = Few::new(text.as_bytes(), 1).failing(kind, call, call.saturating_add(2));
    let is_told = is_told(alloc, &mut reader, want)?;
    Ok((is_told, reader.calls))
}

#[test]
fn an_interrupted_read_is_tried_again(rt: HostRuntime) -> Result<(), Fail> {
    for call in 1..=29 {
        assert_same(&rt, &interrupted_at(rt.alloc(), call)?, &(true, 32));
    }
    Ok(())
}

/// What a read tells, how long its line is, and how often the reader was called by then.
fn read(lines: &mut LineReader, reader: &mut Few<'_>) -> (LineRead, usize, u64) {
    let told = lines.read_line(reader);
    (told, lines.line().len(), reader.calls)
}

#[test]
fn a_reader_that_is_always_interrupted_is_left(rt: HostRuntime) -> Result<(), Fail> {
    let kind = ErrorKind::Interrupted;
    let mut reader = Few::new(b"ab\ncd\n".as_slice(), 1).failing(kind, 5, u64::MAX);
    let mut lines = LineReader::new(rt.alloc(), 4)?;
    let told = [
        read(&mut lines, &mut reader),
        read(&mut lines, &mut reader),
        read(&mut lines, &mut reader),
    ];
    let left = (LineRead::TurnLimit, 0, 1_048_576);
    assert_same(&rt, &told, &[(LineRead::Line, 2, 3), left, left]);
    Ok(())
}

#[test]
fn the_reader_is_not_called_after_its_end(rt: HostRuntime) -> Result<(), Fail> {
    let mut reader = Few::new(b"ab".as_slice(), 100);
    let mut lines = LineReader::new(rt.alloc(), 4)?;
    let first = read(&mut lines, &mut reader);
    let second = read(&mut lines, &mut reader);
    reader.bytes = b"cd\n".as_slice();
    let later = read(&mut lines, &mut reader);
    let end = (LineRead::End, 0, 2);
    assert_same(
        &rt,
        &[first, second, later],
        &[(LineRead::Line, 2, 2), end, end],
    );
    Ok(())
}

/// Lines, and whether they are blank.
const BLANKS: [(&str, bool); 6] = [
    ("", true),
    (" ", true),
    (" \t\r", true),
    ("\x0b", false),
    ("  .", false),
    ("\u{a0}", false),
];

#[test]
fn spaces_alone_are_blank(rt: HostRuntime) {
    for (line, want) in BLANKS {
        assert_same(&rt, &(line, is_blank(line.as_bytes())), &(line, want));
    }
}
