//! Each stream once over bytes in memory, with the answers of its calls.
use law_io::{
    Failed, MemSink, MemSource, Sink, Source, StdSink, StdSource, SureSink, SureSource, push_all,
};
use std::io;
use std::io::{ErrorKind, Read, Write};
use std::test::Fail;

// A device that is never ready.
#[derive(Drop)]
struct Broken;

impl Read for Broken {
    fn read(&mut self, _buf: &mut [u8]) -> io::Result<usize> {
        Err(io::Error::from(ErrorKind::Interrupted))
    }
}

impl Write for Broken {
    fn write(&mut self, _buf: &[u8]) -> io::Result<usize> {
        Err(io::Error::from(ErrorKind::Interrupted))
    }

    fn flush(&mut self) -> io::Result<()> {
        Ok(())
    }
}

/// Whether a source gives these answers in turn.
fn pulls<S: Source>(source: &mut S, room: &mut [u8], answers: &[Result<usize, Failed>]) -> bool {
    for answer in answers {
        if source.pull(room) != *answer {
            return false;
        }
    }
    true
}

/// Whether a sink gives these answers in turn to one piece.
fn pushes<K: Sink>(sink: &mut K, piece: &[u8], answers: &[Result<usize, Failed>]) -> bool {
    for answer in answers {
        if sink.push(piece) != *answer {
            return false;
        }
    }
    true
}

#[test]
fn a_reader_gives_its_bytes_and_its_errors(rt: HostRuntime) {
    let text: &[u8] = b"hello";
    let mut room = [0u8; 4];
    assert!(rt; pulls(&mut StdSource::new(text), &mut room, &[Ok(4), Ok(1), Ok(0)]));
    // the second call wrote over the first byte
    assert!(rt; room.as_slice() == b"oell".as_slice());
    assert!(rt; pulls(&mut StdSource::new(Broken), &mut room, &[Err(Failed)]));
}

#[test]
fn a_writer_takes_bytes_until_it_cannot(rt: HostRuntime) -> Result<(), Fail> {
    let mut text = Vec::new(rt.alloc());
    push_all(&mut StdSink::new(&mut text), b"hello")?;
    assert!(rt; text.as_slice() == b"hello".as_slice());

    let mut places = [0u8; 3];
    let mut full = StdSink::new(places.as_mut_slice());
    assert!(rt; pushes(&mut full, b"hello", &[Ok(3), Err(Failed)]));
    assert!(rt; pushes(&mut full, b"", &[Ok(0)]));
    assert!(rt; pushes(&mut StdSink::new(Broken), b"hello", &[Err(Failed)]));
    Ok(())
}

/// What the calls of a source in memory give, of which two fail.
const PULLED: &[Result<usize, Failed>] = &[Ok(3), Err(Failed), Ok(3), Err(Failed), Ok(1), Ok(0)];

#[test]
fn a_source_in_memory_fails_at_its_calls(rt: HostRuntime) -> Result<(), Fail> {
    let bytes = b"abcdefg".to_vec(rt.alloc())?;
    let fail_calls = [1, 3].to_vec(rt.alloc())?;
    let mut source = MemSource::new(bytes, 3, fail_calls);
    let mut room = [0u8; 8];
    assert!(rt; pulls(&mut source, &mut room, PULLED));
    assert!(rt; room[0] == b'g' && source.count == 2);
    Ok(())
}

/// What the calls of a sink in memory give, of which one fails and one finds no room.
const PUSHED: &[Result<usize, Failed>] = &[Ok(2), Err(Failed), Ok(2), Ok(1), Err(Failed)];

#[test]
fn a_sink_in_memory_fails_at_its_calls_and_when_full(rt: HostRuntime) -> Result<(), Fail> {
    let fail_calls = [1].to_vec(rt.alloc())?;
    let mut sink = MemSink::new(rt.alloc(), 2, 5, fail_calls)?;
    assert!(rt; pushes(&mut sink, b"abc", PUSHED));
    assert!(rt; sink.bytes.as_slice() == b"ababa".as_slice() && sink.count == 2);
    Ok(())
}

#[test]
fn sure_streams_give_and_take_by_steps(rt: HostRuntime) -> Result<(), Fail> {
    let mut source = SureSource::new(b"abc".to_vec(rt.alloc())?, 2);
    assert!(rt; pulls(&mut source, &mut [0u8; 8], &[Ok(2), Ok(1), Ok(0)]));

    let mut sink = SureSink::new(rt.alloc(), 3, 11)?;
    push_all(&mut sink, b"hello world")?;
    assert!(rt; sink.bytes.as_slice() == b"hello world".as_slice() && sink.more == 0);
    push_all(&mut sink, b" again")?;
    assert!(rt; sink.bytes.as_slice() == b"hello world".as_slice() && sink.more == 6);
    Ok(())
}
