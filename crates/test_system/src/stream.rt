//! Lines of a reader and texts to a writer, also where these fail in mid-stream.

use crate::broken_streams::{Closing, Failing};
use nv_stream::{Next, ScriptError, read_line, write_text};
use std::io::Read;
use std::process::Abort;

/// The next line of a reader has these bytes, where there is one.
fn assert_line<R: Read>(
    rt: &impl Abort,
    reader: &mut R,
    line: &mut Vec<u8>,
    next: Result<Next, ScriptError>,
    bytes: &[u8],
) {
    assert!(rt; read_line(reader, line) == next);
    if next == Ok(Next::Line) {
        assert!(rt; line.as_slice() == bytes);
    }
}

#[test]
fn lines_are_cut_at_byte_10(rt: HostRuntime) {
    let mut reader = b"a\n\nb c".as_slice();
    let mut line = Vec::new(rt.alloc());
    assert_line(&rt, &mut reader, &mut line, Ok(Next::Line), b"a");
    assert_line(&rt, &mut reader, &mut line, Ok(Next::Line), b"");
    assert_line(&rt, &mut reader, &mut line, Ok(Next::Line), b"b c");
    assert_line(&rt, &mut reader, &mut line, Ok(Next::End), b"");
    assert_line(&rt, &mut reader, &mut line, Ok(Next::End), b"");
}

#[test]
fn a_reader_that_fails_loses_the_line_and_none_before(rt: HostRuntime) {
    let mut reader = Failing::new(b"ab\n\nc");
    let mut line = Vec::new(rt.alloc());
    assert_line(&rt, &mut reader, &mut line, Ok(Next::Line), b"ab");
    assert_line(&rt, &mut reader, &mut line, Ok(Next::Line), b"");
    assert_line(&rt, &mut reader, &mut line, Err(ScriptError::Read), b"");
    assert_line(&rt, &mut reader, &mut line, Err(ScriptError::Read), b"");
}

/// A text is written, or refused, and then these bytes are there.
fn assert_written(
    rt: &impl Abort,
    writer: &mut Closing,
    text: &[u8],
    answer: Result<(), ScriptError>,
    taken: &[u8],
) {
    assert!(rt; write_text(writer, text) == answer);
    assert!(rt; writer.taken() == taken);
}

#[test]
fn a_closed_writer_has_the_front(rt: HostRuntime) {
    let mut writer = Closing::new(rt.alloc(), 9);
    assert_written(&rt, &mut writer, b"", Ok(()), b"");
    assert_written(&rt, &mut writer, b"abcde", Ok(()), b"abcde");
    let closed = Err(ScriptError::Write);
    assert_written(&rt, &mut writer, b"fghij", closed, b"abcdefghi");
}
