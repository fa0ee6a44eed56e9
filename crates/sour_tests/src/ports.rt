//! Sources and sinks, and how all is read and written through them.

ghost use Rattle.std.specs.Prelude.{◌≤◌, IfOk};

use sour_ports::{
    Failed, MemorySink, MemorySource, ReadStop, ReaderSource, Sink, Source, SureSink, SureSource,
    WriterSink, read_all, write_all,
};
use std::alloc::{AllocError, Global};
use std::io;
use std::io::{ErrorKind, Read, Write};
use std::process::Abort;
use std::test::Fail;

/// Reads a source to its end within a limit, and once more where that stopped: why it stopped, if it
/// did, and the bytes that were given.
fn read_on<S: Source>(
    alloc: Global,
    source: &mut S,
    limit: u8,
) -> Result<(Option<ReadStop>, Vec<u8>), ReadStop> {
    match read_all(alloc, source, usize::from(limit)) {
        Ok(bytes) => Ok((None, bytes)),
        Err(stop) => Ok((Some(stop), read_all(alloc, source, 9)?)),
    }
}

/// The same of three bytes that are given one by one, where a call fails.
fn read_where_one_fails(
    alloc: Global,
    failing: u64,
    limit: u8,
) -> Result<(Option<ReadStop>, Vec<u8>), Fail> {
    let fails = vec![in alloc; failing]?;
    let mut source = MemorySource::new(b"abc".to_vec(alloc)?, 1, fails);
    Ok(read_on(alloc, &mut source, limit)?)
}

#[test]
fn reading_stops_at_a_listed_call_and_past_its_limit(rt: HostRuntime) -> Result<(), Fail> {
    for (failing, limit, stop, bytes) in [
        // Three bytes one by one are four calls, the last of which finds the end.
        (1, 9, Some(ReadStop::Fault), "abc"),
        (2, 9, Some(ReadStop::Fault), "bc"),
        (3, 9, Some(ReadStop::Fault), "c"),
        (4, 9, Some(ReadStop::Fault), ""),
        (5, 9, None, "abc"),
        // One byte more than the limit is read.
        (9, 0, Some(ReadStop::TooLong), "bc"),
        (9, 2, Some(ReadStop::TooLong), ""),
        (9, 3, None, "abc"),
        (9, 4, None, "abc"),
    ] {
        let (found, given) = read_where_one_fails(rt.alloc(), failing, limit)?;
        assert!(rt; found == stop, "call {failing}, limit {limit}");
        assert!(rt;
            given.as_slice() == bytes.as_bytes(),
            "call {failing}, limit {limit}"
        );
    }
    Ok(())
}

/// Hands pieces to a sink, one a call, and compares its answers.
fn expect_answers<K: Sink>(
    rt: &impl Abort,
    sink: &mut K,
    calls: &[(&[u8], Result<usize, Failed>)],
) {
    for (piece, answer) in calls {
        assert!(rt; sink.write(piece) == *answer, "of {piece:?}");
    }
}

/// What comes of writing three bytes one by one where a call fails, and what was taken.
fn write_where_one_fails(
    alloc: Global,
    failing: u64,
    room: usize,
) -> Result<(Result<(), Failed>, Vec<u8>), AllocError> {
    let mut sink = MemorySink::new(alloc, room, 1, vec![in alloc; failing]?)?;
    let answer = write_all(&mut sink, b"abc");
    Ok((answer, sink.taken().to_vec(alloc)?))
}

#[test]
fn writing_stops_at_a_listed_call_and_where_the_room_is_taken(rt: HostRuntime) -> Result<(), Fail> {
    for (failing, room, answer, taken) in [
        (1, 3, Err(Failed), ""),
        (2, 3, Err(Failed), "a"),
        (3, 3, Err(Failed), "ab"),
        (4, 3, Ok(()), "abc"),
        (4, 2, Err(Failed), "ab"),
        (4, 0, Err(Failed), ""),
    ] {
        let (found, bytes) = write_where_one_fails(rt.alloc(), failing, room)?;
        assert!(rt; found == answer, "call {failing}, room {room}");
        assert!(rt;
            bytes.as_slice() == taken.as_bytes(),
            "call {failing}, room {room}"
        );
    }
    Ok(())
}

#[test]
fn an_empty_piece_fails_at_a_listed_call_alone(rt: HostRuntime) -> Result<(), Fail> {
    let alloc = rt.alloc();
    let mut sink = MemorySink::new(alloc, 0, 1, vec![in alloc; 2]?)?;
    // No call is made for nothing.
    assert!(rt; write_all(&mut sink, b"").is_ok());
    expect_answers(
        &rt,
        &mut sink,
        &[
            (b"", Ok(0)),
            (b"", Err(Failed)),
            (b"", Ok(0)),
            (b"a", Err(Failed)),
        ],
    );
    Ok(())
}

#[test]
fn sure_ports_give_and_take_all(rt: HostRuntime) -> Result<(), Fail> {
    let alloc = rt.alloc();
    let mut source = SureSource::new(b"abc".to_vec(alloc)?);
    let bytes = read_all(alloc, &mut source, 3)?;
    let mut sink = SureSink::new();
    expect_answers(
        &rt,
        &mut sink,
        &[(&bytes, Ok(3)), (b"", Ok(0)), (b"de", Ok(2))],
    );
    assert!(rt; bytes.as_slice() == b"abc".as_slice() && sink.count() == 5);
    Ok(())
}

// A reader and a writer of one byte a call, whose second call is an error, and which has no more
// from the fourth call on.
#[derive(Drop)]
struct Halting {
    calls: u8,
}

impl Halting {
    fn answer(&mut self, room: usize) -> io::Result<usize>
        ensures { IfOk result (λ n. n ≤ room) }
    {
        self.calls = self.calls.saturating_add(1);
        match self.calls {
            2 => Err(io::Error::from(ErrorKind::Other)),
            1 | 3 => Ok(room.min(1)),
            _ => Ok(0),
        }
    }
}

impl Read for Halting {
    fn read(&mut self, buf: &mut [u8]) -> io::Result<usize> {
        if let [first, ..] = buf {
            *first = b'a' + self.calls % 26;
        }
        self.answer(buf.len())
    }
}

impl Write for Halting {
    fn write(&mut self, buf: &[u8]) -> io::Result<usize> {
        self.answer(buf.len())
    }

    fn flush(&mut self) -> io::Result<()> {
        Ok(())
    }
}

#[test]
fn an_error_of_a_reader_is_a_fault(rt: HostRuntime) -> Result<(), Fail> {
    let mut source = ReaderSource::new(Halting { calls: 0 });
    let (stop, bytes) = read_on(rt.alloc(), &mut source, 9)?;
    assert!(rt; stop == Some(ReadStop::Fault) && bytes.as_slice() == b"c".as_slice());
    Ok(())
}

#[test]
fn an_error_of_a_writer_is_a_fault_and_so_is_a_write_of_nothing(rt: HostRuntime) {
    let mut sink = WriterSink::new(Halting { calls: 0 });
    expect_answers(
        &rt,
        &mut sink,
        &[
            (b"abc", Ok(1)),
            (b"abc", Err(Failed)),
            (b"abc", Ok(1)),
            (b"abc", Err(Failed)),
            (b"", Ok(0)),
        ],
    );
}
