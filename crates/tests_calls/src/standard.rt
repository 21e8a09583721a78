// Sources and sinks over readers, writers and files that fail.
use std::alloc::Global;
use std::io::{ErrorKind, Read, Write};
use std::rt::Files;
use std::test::Fail;
use std::{fs, io, process};
use swarm_objects::{Failed, FileSink, Sink, Source, StdSink, StdSource};

/// What a reader or a writer does at one call.
#[derive(Clone, Copy, Debug, PartialEq, Eq)]
enum Step {
    Moves(usize),
    Fails(ErrorKind),
}

const INTERRUPTED: Step = Step::Fails(ErrorKind::Interrupted);

const BROKEN: Step = Step::Fails(ErrorKind::BrokenPipe);

/// Is interrupted so often, does these steps, and moves nothing after them. Its next flush fails where that is said.
#[derive(Drop)]
struct Scripted<'a> {
    interrupted: u32,
    steps: &'a [Step],
    moved: Vec<u8>,
    flush_fails: bool,
}

impl<'a> Scripted<'a> {
    fn new(alloc: Global, steps: &'a [Step]) -> Scripted<'a> {
        Scripted {
            interrupted: 0,
            steps,
            moved: Vec::new(alloc),
            flush_fails: false,
        }
    }

    // Moves two bytes after so many interruptions.
    fn interrupted(alloc: Global, times: u32) -> Scripted<'a> {
        Scripted {
            interrupted: times,
            steps: &[Step::Moves(2)],
            moved: Vec::new(alloc),
            flush_fails: false,
        }
    }

    fn next_step(&mut self) -> Step {
        if self.interrupted > 0 {
            self.interrupted -= 1;
            return INTERRUPTED;
        }
        match self.steps {
            [step, rest @ ..] => {
                self.steps = rest;
                *step
            }
            [] => Step::Moves(0),
        }
    }

    fn next_move(&mut self) -> io::Result<usize> {
        match self.next_step() {
            Step::Moves(count) => Ok(count),
            Step::Fails(kind) => Err(io::Error::from(kind)),
        }
    }
}

impl<'a> Read for Scripted<'a> {
    fn read(&mut self, buf: &mut [u8]) -> io::Result<usize> {
        let count = self.next_move()?.min(buf.len());
        buf[..count].fill(b'x');
        Ok(count)
    }
}

impl<'a> Write for Scripted<'a> {
    fn write(&mut self, buf: &[u8]) -> io::Result<usize> {
        let count = self.next_move()?.min(buf.len());
        self.moved.extend_from_slice(&buf[..count])?;
        Ok(count)
    }

    fn flush(&mut self) -> io::Result<()> {
        if self.flush_fails {
            self.flush_fails = false;
            return Err(io::Error::from(ErrorKind::BrokenPipe));
        }
        Ok(())
    }
}

// What four calls are answered, each of which gets four places of the buffer.
fn takes(reader: Scripted<'_>, buf: &mut [u8; 16]) -> [Result<usize, Failed>; 4] {
    let mut source = StdSource::new(reader);
    let answers = [
        source.take(&mut buf[..4]),
        source.take(&mut buf[4..8]),
        source.take(&mut buf[8..12]),
        source.take(&mut buf[12..]),
    ];
    drop(source);
    answers
}

#[test]
fn source_fails_in_mid_stream(rt: HostRuntime) -> Result<(), Fail> {
    let steps = [INTERRUPTED, Step::Moves(2), BROKEN, Step::Moves(1)];
    let mut buf = [0u8; 16];
    let answers = takes(Scripted::new(rt.alloc(), &steps), &mut buf);
    assert_eq!(rt; answers, [Ok(2), Err(Failed), Ok(1), Ok(0)]);
    assert_eq!(rt; &buf, b"xx\0\0\0\0\0\0x\0\0\0\0\0\0\0");
    Ok(())
}

// What is answered where these pieces are put.
fn puts(writer: &mut Scripted<'_>, pieces: [&[u8]; 3]) -> [Result<(), Failed>; 3] {
    let mut sink = StdSink::new(writer);
    let answers = [
        sink.put(pieces[0]),
        sink.put(pieces[1]),
        sink.put(pieces[2]),
    ];
    drop(sink);
    answers
}

// The same by a writer of one's own, and whether it moved these bytes.
fn puts_and_moves(
    mut writer: Scripted<'_>,
    pieces: [&[u8]; 3],
    wanted: &[u8],
) -> ([Result<(), Failed>; 3], bool) {
    let answers = puts(&mut writer, pieces);
    let is_moved = writer.moved.as_slice() == wanted;
    drop(writer);
    (answers, is_moved)
}

#[test]
fn sink_fails_in_mid_stream(rt: HostRuntime) {
    let steps = [
        Step::Moves(2),
        INTERRUPTED,
        Step::Moves(9),
        Step::Moves(1),
        BROKEN,
        Step::Moves(1),
    ];
    let writer = Scripted::new(rt.alloc(), &steps);
    let (answers, is_moved) = puts_and_moves(
        writer,
        [b"first\n", b"second\n", b"third\n"],
        b"first\nst",
    );
    assert_eq!(rt;
        answers,
        [Ok(()), Err(Failed), Err(Failed)],
        "broken, and nothing is taken"
    );
    assert!(rt; is_moved);
}

#[test]
fn failed_flush_is_a_fault(rt: HostRuntime) {
    let steps = [Step::Moves(2), Step::Moves(2), Step::Moves(2)];
    let mut writer = Scripted::new(rt.alloc(), &steps);
    writer.flush_fails = true;
    let (answers, is_moved) = puts_and_moves(writer, [b"ab", b"cd", b"ef"], b"abcdef");
    assert_eq!(rt; answers, [Err(Failed), Ok(()), Ok(())]);
    assert!(rt; is_moved);
}

#[test]
fn reads_are_tried_a_thousand_times(rt: HostRuntime) {
    let mut buf = [0u8; 16];
    let answers = takes(Scripted::interrupted(rt.alloc(), 999), &mut buf);
    assert_eq!(rt; answers[0], Ok(2));
    let answers = takes(Scripted::interrupted(rt.alloc(), 1_000), &mut buf);
    assert_eq!(rt; (answers[0], answers[1]), (Err(Failed), Ok(2)));
}

// What is answered where two bytes are put three times.
fn pairs_put(mut writer: Scripted<'_>) -> [Result<(), Failed>; 3] {
    puts(&mut writer, [b"ab", b"ab", b"ab"])
}

#[test]
fn writes_are_tried_a_thousand_times(rt: HostRuntime) {
    let answers = pairs_put(Scripted::interrupted(rt.alloc(), 999));
    assert_eq!(rt; answers[0], Ok(()));
    let answers = pairs_put(Scripted::interrupted(rt.alloc(), 1_000));
    assert_eq!(rt; (answers[0], answers[1]), (Err(Failed), Ok(())));
}

// Whether the file has this text.
fn has_text<F: Files + AllocGlobal>(rt: &F, path: &str, text: &str) -> bool {
    let read = fs::read_to_string(rt, path);
    let is_text = match &read {
        Ok(found) => found.as_str() == text,
        Err(_) => false,
    };
    drop(read);
    is_text
}

fn puts_both<F: Files>(sink: &mut FileSink<'_, F>) -> bool {
    sink.put(b"one\n").is_ok() && sink.put(b"two\n").is_ok()
}

// Whether an old journal stays until the first piece and goes then.
fn is_made_anew<F: Files + AllocGlobal>(rt: &F, path: &str) -> bool {
    let mut sink = FileSink::new(rt, path);
    let is_kept = has_text(rt, path, "an old journal\n");
    let is_put = puts_both(&mut sink);
    let is_new = has_text(rt, path, "one\ntwo\n");
    drop(sink);
    is_kept && is_put && is_new
}

fn put_one<F: Files>(rt: &F, path: &str) -> Result<(), Failed> {
    let mut sink = FileSink::new(rt, path);
    let answer = sink.put(b"one\n");
    drop(sink);
    answer
}

fn put_inside<F: Files + AllocGlobal>(rt: &F, path: &str) -> Result<Result<(), Failed>, Fail> {
    let inside = format!(in rt.alloc(); "{path}/inside")?;
    let answer = put_one(rt, inside.as_str());
    drop(inside);
    Ok(answer)
}

// Whether a file is made anew at the path, and what is answered inside of it once it is gone.
fn asked_at<F: Files + AllocGlobal>(
    rt: &F,
    path: &str,
) -> Result<(bool, Result<(), Failed>), Fail> {
    fs::write(rt, path, "an old journal\n")?;
    let is_new = is_made_anew(rt, path);
    fs::remove_file(rt, path)?;
    Ok((is_new, put_inside(rt, path)?))
}

#[test]
fn file_is_made_empty_at_the_first_piece(rt: HostRuntime) -> Result<(), Fail> {
    let path = format!(in rt.alloc(); "/tmp/swarm-file-sink-{}", process::id(rt.process()))?;
    let asked = asked_at(&rt, path.as_str());
    drop(path);
    let (is_new, inside) = asked?;
    assert!(rt; is_new);
    assert_eq!(rt; inside, Err(Failed), "there is no such folder");
    Ok(())
}
