ghost use Rattle.std.specs.Prelude.{◌≡◌, [], Some, IsOk, IfOk, IsErrOf, find, take, bytes_eq};
ghost use Rattle.std.specs.FinMap.{get};
ghost use Rattle.std.specs.Option.{option_copied};
ghost use Rattle.lk_outside.specs.Causes.{HasCause};
ghost use Rattle.lk_outside.specs.Files.{IsFront};
ghost use Rattle.lk_outside.specs.MemFiles.{contents_of, ReadFails, state_after};

use crate::calls::NumberedCalls;
use crate::failures::FailedReads;
use crate::{FileEntry, Files, OutFault};
use lk_ast::{Bytes, List, NoMemory};
use std::alloc::Global;
use std::marker::Model;

/// Files in memory. The reads of given numbers fail, and those of a name that no file has.
#[derive(Drop)]
pub struct MemFiles {
    files: List<FileEntry>,
    calls: NumberedCalls,
    failures: FailedReads,
}

impl Model for MemFiles {
    ghost use Rattle.lk_outside.specs.MemFiles.{FilesState};

    ghost Value = { FilesState };

    ghost view = { λ memory.
        record { files = memory.files; calls = memory.calls; failures = memory.failures } };
}

impl MemFiles {
    /// These files; of two with one name the first counts. The reads whose numbers, from 0, are in `failing`
    /// fail.
    pub fn new(files: List<FileEntry>, failing: List<u64>) -> MemFiles
        ensures files { result.files ≡ files }
        ensures calls { result.calls ≡ record { failing = failing; made = 0 } }
        ensures failures { result.failures ≡ record { failed = []; faults = 0 } }
    {
        MemFiles {
            files,
            calls: NumberedCalls::new(failing),
            failures: FailedReads::new(),
        }
    }
}

impl Files for MemFiles {
    ghost contents = { λ memory. Some (contents_of memory.files) };

    ghost failed = { λ memory. memory.failures.failed };

    ghost faults = { λ memory. memory.failures.faults };

    fn read(&mut self, alloc: Global, name: &str, max: u64) -> Result<Bytes, OutFault>
        ensures passes { IsOk result → ¬ ReadFails self.old name.now }
        ensures fails { IsErrOf result OutFault.Failed → ReadFails self.old name.now }
        ensures front { IfOk result (IsFront (contents_of self.old.files) name.now max) }
        ensures after { self.new ≡ state_after result name.now self.old }
        ensures cause { HasCause self.old.failures.faults self.new.failures.faults result }
    {
        if self.calls.next_fails() {
            return self.failures.refuse(alloc, name);
        }
        match content_of(self.files.as_slice(), name) {
            Some(content) => Ok(first_bytes(alloc, content.as_slice(), max)?),
            None => self.failures.refuse(alloc, name),
        }
    }

    fn failed(&self) -> &str {
        self.failures.last()
    }

    fn faults(&self) -> u64 {
        self.failures.count()
    }
}

// The content of the first file of that name.
#[tactic(auto, using(crate::proofs::FileContents::get_contents_of))]
fn content_of<'a>(files: &'a [FileEntry], name: &str) -> Option<&'a Bytes>
    ensures { option_copied result ≡ get (contents_of files.now) name.now }
{
    let file = find_file(files, name)?;
    Some(&file.content)
}

// The first file of that name.
fn find_file<'a>(files: &'a [FileEntry], name: &str) -> Option<&'a FileEntry>
    ensures { option_copied result ≡ find (λ file. bytes_eq name.now file.name) files.now }
{
    files.iter().find(|file| name == file.name.as_str())
}

// The first `max` bytes, or all where there are fewer.
fn first_bytes(alloc: Global, content: &[u8], max: u64) -> Result<Bytes, NoMemory>
    ensures { IfOk result (λ bytes. bytes ≡ take max content.now) }
{
    let end = content.len().min(max as usize);
    Bytes::from_slice(alloc, &content[..end])
}
