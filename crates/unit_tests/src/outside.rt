//! The adapters over real files and standard output.

use lk_outside::{Files, OsFiles, OutFault, Sink, StdSink};
use std::alloc::Global;
use std::fmt::Display;
use std::io::ErrorKind;
use std::test::Fail;
use std::{fs, io};

/// Whether this is what is read of a file, of which so many bytes are asked for.
fn reads(
    alloc: Global,
    files: &mut impl Files,
    name: &str,
    max: u64,
    want: &[u8],
) -> Result<bool, OutFault> {
    let bytes = files.read(alloc, name, max)?;
    Ok(bytes.as_slice() == want)
}

#[test]
fn files_of_the_system(rt: HostRuntime) -> Result<(), Fail> {
    let alloc = rt.alloc();
    fs::write(&rt, "letters", "abc")?;
    let mut files = OsFiles::new(&rt);
    assert!(rt; reads(alloc, &mut files, "letters", 2, b"ab")?);
    assert!(rt; reads(alloc, &mut files, "letters", 9, b"abc")?);
    assert_eq!(rt; (files.failed(), files.faults()), ("", 0));
    fs::remove_file(&rt, "letters")?;
    let refused = reads(alloc, &mut files, "letters", 9, b"abc");
    assert_eq!(rt; refused.err(), Some(OutFault::Failed));
    assert_eq!(rt; (files.failed(), files.faults()), ("letters", 1));
    Ok(())
}

/// 1,100,000 times `x`, and then `y`.
fn letters(alloc: Global) -> Result<Vec<u8>, Fail> {
    let mut content = Vec::new(alloc);
    content.resize(1_100_000, b'x')?;
    content.push(b'y')?;
    Ok(content)
}

// More bytes than a program's text may have, as a tables file may, under a name with spaces at both ends.
#[test]
fn large_file_of_the_system(rt: HostRuntime) -> Result<(), Fail> {
    let alloc = rt.alloc();
    let content = letters(alloc)?;
    fs::write(&rt, " letters ", content.as_slice())?;
    let mut files = OsFiles::new(&rt);
    assert!(rt; reads(alloc, &mut files, " letters ", 16_777_217, &content)?);
    fs::remove_file(&rt, " letters ")?;
    Ok(())
}

const LINE: &[u8] = b"one line\n";

// An output that takes this piece, written whole and at once, and refuses all else.
#[derive(Drop)]
struct OnlyWhole<'p> {
    piece: &'p [u8],
}

impl Print for OnlyWhole<'_> {
    fn print<D: Display + Drop>(&self, _value: D) -> io::Result<()> {
        Err(io::Error::from(ErrorKind::BrokenPipe))
    }

    fn println<D: Display + Drop>(&self, _value: D) -> io::Result<()> {
        Err(io::Error::from(ErrorKind::BrokenPipe))
    }

    fn write_all(&self, bytes: &[u8]) -> io::Result<()> {
        if bytes == self.piece {
            Ok(())
        } else {
            Err(io::Error::from(ErrorKind::BrokenPipe))
        }
    }

    fn write_some(&self, _bytes: &[u8]) -> io::Result<usize> {
        Err(io::Error::from(ErrorKind::BrokenPipe))
    }
}

#[test]
fn standard_output(rt: HostRuntime) -> Result<(), Fail> {
    StdSink::new(&rt).write(LINE)?;
    let line = OnlyWhole { piece: LINE };
    let mut out = StdSink::new(&line);
    out.write(LINE)?;
    assert_eq!(rt; out.faults(), 0);
    let refused = out.write(b"another line\n").err();
    assert_eq!(rt; refused, Some(OutFault::Failed));
    assert_eq!(rt; out.faults(), 1);
    Ok(())
}

#[test]
fn long_piece_for_standard_output(rt: HostRuntime) -> Result<(), Fail> {
    let mut piece = Vec::new(rt.alloc());
    piece.resize(1_100_000, b'x')?;
    let whole = OnlyWhole { piece: &piece };
    StdSink::new(&whole).write(&piece)?;
    Ok(())
}
