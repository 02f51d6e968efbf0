//! Each public call once, and each fault once.

ghost use Rattle.std.specs.Prelude.{OnOk};
ghost use Rattle.std.specs.Io.KnownBytes.{Appends};

use crate::{
    Link, MemLink, MemSink, MemSource, ReadFault, Reader, Sink, Source, Writer, read_all, write_all,
};
use fam_base::{Bytes, Failed, NoMemory, Places};
use std::alloc::Global;
use std::io;
use std::io::{ErrorKind, Read};
use std::process::Abort;
use std::test::Fail;

/// Asks by the one way and reads by the other. What is read adds nothing to what was written.
fn exchange<L: Link>(link: &mut L, request: &[u8], into: &mut [u8]) -> Result<usize, Failed>
    ensures { OnOk result
        (Appends (L.sink link.old).written (L.sink link.new).written request.now) }
{
    write_all(link, request)?;
    link.read(into)
}

fn make_link(
    alloc: Global,
    input: &[u8],
    pieces: &[u64],
    failing_reads: &[u64],
    failing_writes: &[u64],
) -> Result<MemLink, NoMemory> {
    Ok(MemLink::new(
        alloc,
        Bytes::of(alloc, input)?,
        Places::of(alloc, pieces)?,
        Places::of(alloc, failing_reads)?,
        Places::of(alloc, failing_writes)?,
    ))
}

/// A reader that a signal interrupts once, that then gives a byte, and then fails.
#[derive(Drop)]
struct Broken {
    calls: u8,
}

impl Read for Broken {
    fn read(&mut self, buf: &mut [u8]) -> io::Result<usize> {
        self.calls = self.calls.saturating_add(1);
        match self.calls {
            1 => Err(ErrorKind::Interrupted.into()),
            2 if !buf.is_empty() => {
                buf[0] = 7;
                Ok(1)
            }
            _ => Err(ErrorKind::BrokenPipe.into()),
        }
    }
}

/// Reads an input whole. At `Ok` the bytes are the input, and else at most one too many was read.
fn check_whole(
    rt: &impl Abort,
    alloc: Global,
    link: &mut MemLink,
    limit: usize,
    input: &[u8],
    wanted: Result<(), ReadFault>,
) {
    assert!(rt; limit < 1000);
    match read_all(alloc, link, limit) {
        Ok(bytes) => assert!(rt; bytes.as_slice() == input && wanted.is_ok()),
        Err(fault) => assert!(rt; Err(fault) == wanted),
    }
    assert!(rt; link.input.taken().len() <= limit + 1);
    let failed = wanted == Err(ReadFault::Failed);
    assert!(rt; link.read_faults() == failed as u64);
}

#[test]
fn reads_whole_inputs(rt: HostRuntime) -> Result<(), Fail> {
    // The input, the limit, the pieces, the reads that fail, and what is wanted.
    let table: [(&[u8], usize, &[u64], &[u64], Result<(), ReadFault>); 9] = [
        (b"", 0, &[], &[], Ok(())),
        (b"a", 0, &[], &[], Err(ReadFault::TooLong)),
        (b"abcdefghij", 10, &[], &[], Ok(())),
        (b"abcdefghijk", 10, &[], &[], Err(ReadFault::TooLong)),
        (b"abcdefghij", 100, &[3, 0, 4], &[], Ok(())),
        (b"abcdefghij", 9, &[0], &[], Err(ReadFault::TooLong)),
        (b"abcdefghij", 10, &[4], &[1], Err(ReadFault::Failed)),
        (b"abcdefghij", 10, &[4], &[3], Err(ReadFault::Failed)),
        (b"abcdefghij", 10, &[4], &[5], Ok(())),
    ];
    for (input, limit, pieces, failing, wanted) in table {
        let mut link = make_link(rt.alloc(), input, pieces, failing, &[])?;
        check_whole(&rt, rt.alloc(), &mut link, limit, input, wanted);
    }
    Ok(())
}

#[test]
fn fails_the_reads_that_are_listed(rt: HostRuntime) -> Result<(), Fail> {
    let bytes = Bytes::of(rt.alloc(), b"abcdef")?;
    let mut source = MemSource::new(bytes, Places::of(rt.alloc(), &[2, 4])?);
    let mut room = [0u8; 4];
    let wanted = [Ok(4), Err(Failed), Ok(2), Err(Failed), Ok(0)];
    for answer in wanted {
        assert_eq!(rt; source.read(&mut room), answer);
    }
    assert_eq!(rt; &room, b"efcd");
    assert_eq!(rt; source.taken(), b"abcdef".as_slice());
    assert!(rt; source.left().is_empty());
    assert_eq!(rt; source.calls(), 5);
    assert_eq!(rt; source.read_faults(), 2);
    Ok(())
}

#[test]
fn fails_the_writes_that_are_listed(rt: HostRuntime) -> Result<(), Fail> {
    let mut sink = MemSink::new(rt.alloc(), Places::of(rt.alloc(), &[2])?);
    let wanted = [Ok(()), Err(Failed), Ok(())];
    for answer in wanted {
        assert_eq!(rt; write_all(&mut sink, b"ab"), answer);
    }
    assert_eq!(rt; sink.written(), b"abab".as_slice());
    assert_eq!(rt; sink.write_faults(), 1);
    assert_eq!(rt; sink.into_written().len(), 4);
    Ok(())
}

#[test]
fn keeps_both_ways_apart(rt: HostRuntime) -> Result<(), Fail> {
    let mut link = make_link(rt.alloc(), b"answer", &[2], &[2], &[3])?;
    let mut room = [0u8; 8];
    assert_eq!(rt; exchange(&mut link, b"one", &mut room), Ok(2));
    assert_eq!(rt; exchange(&mut link, b"two", &mut room), Err(Failed));
    assert_eq!(rt; exchange(&mut link, b"three", &mut room), Err(Failed));
    assert_eq!(rt; link.input.left(), b"swer".as_slice());
    assert_eq!(rt; link.output.written(), b"onetwo".as_slice());
    assert_eq!(rt; link.read_faults(), 1);
    assert_eq!(rt; link.write_faults(), 1);
    Ok(())
}

#[test]
fn counts_the_faults_of_readers(rt: HostRuntime) -> Result<(), Fail> {
    let mut reader = Reader::new(Broken { calls: 0 });
    let result = read_all(rt.alloc(), &mut reader, 10);
    assert!(rt; matches!(result, Err(ReadFault::Failed)));
    assert_eq!(rt; reader.read_faults(), 1);
    assert_eq!(rt; reader.inner.calls, 3);
    let mut reader = Reader::new(b"abc".as_slice());
    let bytes = read_all(rt.alloc(), &mut reader, 3)?;
    assert_eq!(rt; bytes.as_slice(), b"abc".as_slice());
    assert_eq!(rt; reader.read_faults(), 0);
    Ok(())
}

#[test]
fn counts_the_faults_of_writers(rt: HostRuntime) -> Result<(), Fail> {
    let mut buffer = [0u8; 4];
    let mut writer = Writer::new(buffer.as_mut_slice());
    assert_eq!(rt; write_all(&mut writer, b"abcdef"), Err(Failed));
    assert_eq!(rt; writer.write_faults(), 1);
    assert_eq!(rt; &buffer, b"abcd");
    let mut writer = Writer::new(Vec::new(rt.alloc()));
    assert_eq!(rt; write_all(&mut writer, b"abcdef"), Ok(()));
    assert_eq!(rt; writer.flush(), Ok(()));
    assert_eq!(rt; writer.inner.as_slice(), b"abcdef".as_slice());
    assert_eq!(rt; writer.write_faults(), 0);
    Ok(())
}
