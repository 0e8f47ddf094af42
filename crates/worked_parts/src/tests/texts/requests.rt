// Lines of the greatest length.
use crate::tests::assert_same;
use job_language::{Error, Request};
use request_reader::{Asked, read_request, value_in};
use std::alloc::Global;
use std::test::Fail;

/// A request with spaces before its end, so that it has that length.
fn padded(alloc: Global, length: usize) -> Result<Vec<u8>, Fail> {
    let mut line = b"{\"op\":\"arena\"".to_vec(alloc)?;
    for _blank in line.len() + 1..length {
        line.push(b' ')?;
    }
    line.push(b'}')?;
    Ok(line)
}

/// Whether a padded line asks for the arena's limits; the error if it is refused.
fn asks_for_arena(alloc: Global, length: usize) -> Result<Result<bool, Error>, Fail> {
    let line = padded(alloc, length)?;
    let asked = read_request(alloc, line.as_slice());
    Ok(asked.map(|it| matches!(it, Asked::Plain(Request::Arena))))
}

#[test]
fn the_longest_line_is_read(rt: HostRuntime) -> Result<(), Fail> {
    let asked = [
        asks_for_arena(rt.alloc(), 65_536)?,
        asks_for_arena(rt.alloc(), 65_537)?,
    ];
    assert_same(&rt, &asked, &[Ok(true), Err(Error::LineTooLong)]);
    Ok(())
}

/// A list of so many zeros.
fn zeros(alloc: Global, count: u16) -> Result<Vec<u8>, Fail> {
    let mut line = b"[0".to_vec(alloc)?;
    for _zero in 1..count {
        line.extend_from_slice(b",0")?;
    }
    line.push(b']')?;
    Ok(line)
}

#[test]
fn a_line_of_as_many_values_as_it_may_have_is_read(rt: HostRuntime) -> Result<(), Fail> {
    let line = zeros(rt.alloc(), 32_767)?;
    let count = match value_in(rt.alloc(), line.as_slice())? {
        Some(value) => value.as_array().map(|items| items.len()),
        None => None,
    };
    assert_same(&rt, &(line.len(), count), &(65_535, Some(32_767)));
    Ok(())
}
