// The real outside, of which no clause tells what it holds or takes.
use saber_io::{
    Failed, Files, HostFiles, HostOuts, OpenFault, Outs, Sink, Source, StdSink, WriteFault,
};
use std::alloc::{AllocError, Global};
use std::io::{BufWriter, Read, Write};
use std::process::Abort;
use std::test::Fail;
use std::{fs, io};

fn assert_told<R: Abort>(rt: &R, told: &[u8], wanted: &[u8]) {
    assert!(rt; told == wanted);
}

// What a read into four bytes gives, with a bar behind it, and ! if it fails. False where it gives
// nothing.
fn tell_read<S: Source>(told: &mut Vec<u8>, source: &mut S) -> Result<bool, AllocError> {
    let mut buf = [7; 4];
    match source.read(&mut buf) {
        Ok(0) => return Ok(false),
        Ok(n) => told.extend_from_slice(&buf[..n])?,
        Err(Failed) => told.push(b'!')?,
    }
    told.push(b'|')?;
    Ok(true)
}

// The same until a read gives nothing, or 9 were made.
fn tell_reads<S: Source>(told: &mut Vec<u8>, source: &mut S) -> Result<(), AllocError> {
    for _ in 0..9 {
        if !tell_read(told, source)? {
            return Ok(());
        }
    }
    Ok(())
}

// Whether a write succeeded, failed, or had no memory.
fn mark(written: Result<(), WriteFault>) -> u8 {
    match written {
        Ok(()) => b'+',
        Err(WriteFault::Failed) => b'!',
        Err(WriteFault::NoMemory) => b'?',
    }
}

// Writes three pieces, through the bound.
fn write_three<K: Sink>(sink: &mut K) -> [u8; 3] {
    let first = mark(sink.write_all(b"0,2\n"));
    let second = mark(sink.write_all(b"1,2\n2,2\n"));
    let third = mark(sink.write_all(b"3,2\n"));
    [first, second, third]
}

fn fault_mark(fault: OpenFault) -> u8 {
    match fault {
        OpenFault::Failed => b'!',
        OpenFault::NoMemory => b'?',
    }
}

// Opens a file through the bound, reads it to its end, and gives it back; ! where it is not opened.
fn tell_file<F: Files>(
    alloc: Global,
    told: &mut Vec<u8>,
    files: &mut F,
    name: &str,
) -> Result<(), AllocError> {
    match files.open_file(alloc, name) {
        Ok(mut source) => {
            let read = tell_reads(told, &mut source);
            files.close_file(source);
            read
        }
        Err(fault) => Ok(told.push(fault_mark(fault))?),
    }
}

// The files of these names, a line each.
fn tell_files<F: Files>(
    alloc: Global,
    told: &mut Vec<u8>,
    files: &mut F,
    names: &str,
) -> Result<(), AllocError> {
    for name in names.lines() {
        tell_file(alloc, told, files, name)?;
        told.push(b'\n')?;
    }
    Ok(())
}

// The real outside: a name that is not there, a device that ends at once, one that never ends, and
// a folder, whose reads fail.
#[test]
fn opens_of_the_system(rt: HostRuntime) -> Result<(), Fail> {
    let alloc = rt.alloc();
    let mut told = Vec::new(alloc);
    let mut files = HostFiles::new(rt);
    tell_files(alloc, &mut told, &mut files, "/no/such/file\n/dev/null\n")?;
    assert_told(&rt, &told, b"!\n\n");
    tell_files(alloc, &mut told, &mut files, "/dev/zero")?;
    assert!(rt; told.ends_with(b"\0\0\0\0|\0\0\0\0|\n"));
    tell_files(alloc, &mut told, &mut files, "/")?;
    assert!(rt; told.ends_with(b"!|!|\n"));
    Ok(())
}

// A writer that takes two bytes at a time until it has so many, and then nothing. What it took is
// out once it is flushed.
#[derive(Drop)]
struct Narrow {
    bytes: Vec<u8>,
    most: usize,
    // how many bytes were there at the last flush
    out: usize,
}

impl Write for Narrow {
    fn write(&mut self, buf: &[u8]) -> io::Result<usize> {
        let n = buf
            .len()
            .min(2)
            .min(self.most.saturating_sub(self.bytes.len()));
        self.bytes.extend_from_slice(&buf[..n])?;
        Ok(n)
    }

    fn flush(&mut self) -> io::Result<()> {
        self.out = self.bytes.len();
        Ok(())
    }
}

// A sink over such a writer: how the three writes end, and what it had, and had at its last flush.
fn write_narrow<R: Abort>(
    rt: &R,
    alloc: Global,
    most: usize,
    ends: &[u8; 3],
    bytes: &[u8],
    out: usize,
) {
    let mut narrow = Narrow {
        bytes: Vec::new(alloc),
        most,
        out: 0,
    };
    assert!(rt; write_three(&mut StdSink::new(&mut narrow)) == *ends);
    assert!(rt; narrow.bytes.as_slice() == bytes);
    assert!(rt; narrow.out == out);
}

// A sink over a writer writes the whole piece, and fails where the writer takes nothing. A piece
// that is told as good is flushed.
#[test]
fn writes_to_a_writer(rt: HostRuntime) {
    let alloc = rt.alloc();
    write_narrow(&rt, alloc, 99, b"+++", b"0,2\n1,2\n2,2\n3,2\n", 16);
    write_narrow(&rt, alloc, 9, b"+!!", b"0,2\n1,2\n2", 4);
    let mut out = StdSink::new(rt.stdout());
    assert!(rt; out.write_all(b"") == Ok(()));
}

// A piece that is told as good has left the program: the other end of a pipe has it, while the sink
// is there.
#[test]
fn writes_through_a_pipe(rt: HostRuntime) -> Result<(), Fail> {
    let (mut other_end, pipe) = io::pipe(&rt)?;
    let mut sink = StdSink::new(BufWriter::new(rt.alloc(), pipe)?);
    assert!(rt; sink.write_all(b"0,2\n") == Ok(()));
    let mut buf = [0; 8];
    let count = other_end.read(&mut buf)?;
    assert!(rt; count == 4);
    assert_told(&rt, &buf[..4], b"0,2\n");
    Ok(())
}

// How three writes to a file of this name end, through the bound; ? where it can't be created.
fn write_created<U: Outs>(alloc: Global, outs: &mut U, name: &str) -> [u8; 3]
where
    U::Out: Drop,
{
    match outs.create_file(alloc, name) {
        Ok(mut out) => write_three(&mut out),
        Err(_) => *b"???",
    }
}

// The real outside: a file in a folder that is not there can't be created, a device takes what is
// written, and one that is full takes nothing.
#[test]
fn creates_of_the_system(rt: HostRuntime) {
    let alloc = rt.alloc();
    let mut outs = HostOuts::new(rt);
    assert!(rt; write_created(alloc, &mut outs, "/no/such/folder/a") == *b"???");
    assert!(rt; write_created(alloc, &mut outs, "/dev/null") == *b"+++");
    assert!(rt; write_created(alloc, &mut outs, "/dev/full") == *b"!!!");
}

// Creates a file of this name through the bound, and writes one piece.
fn write_one<U: Outs>(alloc: Global, outs: &mut U, name: &str, piece: &[u8]) -> u8
where
    U::Out: Drop,
{
    match outs.create_file(alloc, name) {
        Ok(mut out) => mark(out.write_all(piece)),
        Err(_) => b'?',
    }
}

// Two files beside each other, in the folder that the tests run in, one with a space in its name:
// each is read back as what was written last, by reads that don't give all at once.
#[test]
fn created_files_are_read_back(rt: HostRuntime) -> Result<(), Fail> {
    let alloc = rt.alloc();
    let mut outs = HostOuts::new(rt);
    let mut files = HostFiles::new(rt);
    let mut told = Vec::new(alloc);
    let long = write_created(alloc, &mut outs, "edge tests");
    let gone = write_created(alloc, &mut outs, "edge");
    let short = write_one(alloc, &mut outs, "edge", b"4,256\n");
    tell_files(alloc, &mut told, &mut files, "edge tests\nedge\n")?;
    let _long = fs::remove_file(&rt, "edge tests");
    let _short = fs::remove_file(&rt, "edge");
    assert!(rt; long == *b"+++" && gone == *b"+++" && short == b'+');
    assert_told(&rt, &told, b"0,2\n|1,2\n|2,2\n|3,2\n|\n4,25|6\n|\n");
    Ok(())
}
