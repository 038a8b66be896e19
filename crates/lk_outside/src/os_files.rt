ghost use Rattle.std.specs.Prelude.{◌≡◌, ◌≤◌, [], None, Ok, Err, IfErr, IfOk, IfSome, IsErr, length, take};
ghost use Rattle.lk_outside.specs.Causes.{HasCause};
ghost use Rattle.lk_outside.specs.Failures.{failures_after};

use crate::failures::FailedReads;
use crate::{Files, OutFault};
use lk_ast::Bytes;
use std::alloc::Global;
use std::io::{ErrorKind, Read};
use std::rt::Files as SystemFiles;
use std::{fs, io};

/// The system's files. What they contain isn't told: what is made of the system's answers is told by private functions.
#[derive(Drop)]
pub struct OsFiles<'a, R> {
    rt: &'a R,
    failures: FailedReads,
}

impl<'a, R: SystemFiles> OsFiles<'a, R> {
    /// The files of this runtime. No read has failed yet.
    pub fn new(rt: &'a R) -> OsFiles<'a, R>
        ensures failed { ⟦<OsFiles<'a, R> as Files>⟧.failed result ≡ [] }
        ensures faults { ⟦<OsFiles<'a, R> as Files>⟧.faults result ≡ 0 }
    {
        OsFiles {
            rt,
            failures: FailedReads::new(),
        }
    }

    // What a read of this name comes to where the system gave these bytes, or none for this kind of reason.
    fn told(
        &mut self,
        alloc: Global,
        name: &str,
        answer: Result<Bytes, ErrorKind>,
    ) -> Result<Bytes, OutFault>
        ensures given { IfOk answer (λ bytes. result ≡ Ok bytes) }
        ensures refused { IsErr answer → IsErr result }
        ensures memory { answer ≡ Err ErrorKind.OutOfMemory → result ≡ Err OutFault.NoMemory }
        ensures after { self.new.failures ≡ failures_after result name.now self.old.failures }
        ensures cause { HasCause self.old.failures.faults self.new.failures.faults result }
    {
        match answer {
            Ok(bytes) => Ok(bytes),
            Err(ErrorKind::OutOfMemory) => Err(OutFault::NoMemory),
            Err(_) => self.failures.refuse(alloc, name),
        }
    }
}

impl<'a, R: SystemFiles> Files for OsFiles<'a, R> {
    ghost contents = { λ _. None };

    ghost failed = { λ files. files.failures.failed };

    ghost faults = { λ files. files.failures.faults };

    fn read(&mut self, alloc: Global, name: &str, max: u64) -> Result<Bytes, OutFault> {
        let answer = front_of_opened(fs::open(self.rt, name), alloc, max);
        self.told(alloc, name, answer.map_err(|error| error.kind()))
    }

    fn failed(&self) -> &str {
        self.failures.last()
    }

    fn faults(&self) -> u64 {
        self.failures.count()
    }
}

// The first `max` bytes of a file that was to be opened, or all where it has fewer.
fn front_of_opened<F: Read + Drop>(
    opened: io::Result<F>,
    alloc: Global,
    max: u64,
) -> io::Result<Bytes>
    ensures length { IfOk result (λ bytes. length bytes ≤ max) }
    ensures front { IfOk opened (λ reader. IfOk result (λ bytes. IfSome (F.remaining reader) (λ given.
        bytes ≡ take max given))) }
    ensures unopened { IfErr opened (λ error. result ≡ Err error) }
{
    match opened {
        Ok(reader) => front_of(reader, alloc, max),
        Err(error) => Err(error),
    }
}

// The first `max` bytes that a reader gives, or all where it gives fewer.
fn front_of<F: Read + Drop>(reader: F, alloc: Global, max: u64) -> io::Result<Bytes>
    ensures length { IfOk result (λ bytes. length bytes ≤ max) }
    ensures front { IfOk result (λ bytes. IfSome (F.remaining reader) (λ given.
        bytes ≡ take max given)) }
{
    let mut bytes = Vec::new(alloc);
    reader.take(max).read_to_end(&mut bytes)?;
    // No more than `max` were read, but `read_to_end` says so only of a reader whose bytes are known.
    bytes.truncate(max as usize);
    Ok(Bytes::from_vec(bytes))
}
