// Sources and sinks in memory.
use std::alloc::Global;
use std::test::Fail;
use swarm_objects::{
    Failed, FailedPut, MemorySink, MemorySource, PlainSink, PlainSource, Sink, Source,
};

// What five calls are answered. Each gets the four places of the buffer behind the bytes that came before it.
fn takes(mut source: MemorySource, buf: &mut [u8; 9]) -> [Result<usize, Failed>; 5] {
    let answers = [
        source.take(&mut buf[..4]),
        source.take(&mut buf[2..6]),
        source.take(&mut buf[2..6]),
        source.take(&mut buf[4..8]),
        source.take(&mut buf[5..]),
    ];
    drop(source);
    answers
}

#[test]
fn source_fails_where_it_is_told(rt: HostRuntime) -> Result<(), Fail> {
    let alloc = rt.alloc();
    let failing = [2].to_vec(alloc)?;
    let source = MemorySource::new(b"abcde".to_vec(alloc)?, 2, failing);
    let mut buf = [0u8; 9];
    let answers = takes(source, &mut buf);
    assert_eq!(rt; answers, [Ok(2), Err(Failed), Ok(2), Ok(1), Ok(0)]);
    assert_eq!(rt; &buf, b"abcde\0\0\0\0");
    Ok(())
}

fn puts(sink: &mut MemorySink) -> [Result<(), Failed>; 4] {
    [
        sink.put(b"piece "),
        sink.put(b"piece "),
        sink.put(b"piece "),
        sink.put(b"piece "),
    ]
}

// What four calls are answered, and whether this is written then. The second call fails with three bytes taken, and the
// third one with all.
fn puts_and_writes(alloc: Global, wanted: &[u8]) -> Result<([Result<(), Failed>; 4], bool), Fail> {
    let failing = [
        FailedPut { call: 2, taken: 3 },
        FailedPut { call: 3, taken: 99 },
    ];
    let mut sink = MemorySink::new(alloc, failing.to_vec(alloc)?);
    let answers = puts(&mut sink);
    let is_written = sink.bytes() == wanted;
    drop(sink);
    Ok((answers, is_written))
}

#[test]
fn sink_fails_where_it_is_told(rt: HostRuntime) -> Result<(), Fail> {
    let (answers, is_written) = puts_and_writes(rt.alloc(), b"piece piepiece piece ")?;
    assert_eq!(rt; answers, [Ok(()), Err(Failed), Err(Failed), Ok(())]);
    assert!(rt; is_written);
    Ok(())
}

fn plain_takes(mut source: PlainSource, buf: &mut [u8; 12]) -> [Result<usize, Failed>; 3] {
    let answers = [
        source.take(&mut buf[..4]),
        source.take(&mut buf[4..8]),
        source.take(&mut buf[8..]),
    ];
    drop(source);
    answers
}

#[test]
fn plain_source_ends(rt: HostRuntime) -> Result<(), Fail> {
    let source = PlainSource::new(b"abcde".to_vec(rt.alloc())?);
    let mut buf = [0u8; 12];
    let answers = plain_takes(source, &mut buf);
    assert_eq!(rt; answers, [Ok(4), Ok(1), Ok(0)]);
    assert_eq!(rt; &buf, b"abcde\0\0\0\0\0\0\0");
    Ok(())
}

fn plain_put() -> (Result<(), Failed>, u64) {
    let mut sink = PlainSink::new();
    let answer = sink.put(b"piece");
    let count = sink.count();
    drop(sink);
    (answer, count)
}

#[test]
fn plain_sink_counts(rt: HostRuntime) -> Result<(), Fail> {
    assert_eq!(rt; plain_put(), (Ok(()), 5));
    Ok(())
}
