ghost use Rattle.std.specs.Prelude.{◌≡◌, ◌≢◌, ◌++◌, ◌∷◌, [], ◌<◌, ◌≤◌, IfOk, OnOk, OnErr, length, vec_len};
ghost use Rattle.std.specs.Option.{option_copied};
ghost use Rattle.obj_edges.specs.Memory.{contents_in};

use crate::edges::{FileError, Files, MAX_FILE_LEN};
use obj_kinds::{NoMemory, Text};
use sqlite_items::Items;
use std::alloc::Global;

/// Files in memory, which tell their contents and the names asked.
#[derive(Debug, Drop)]
pub struct MemFiles {
    files: Items<(Text, Text)>,
    failing: Items<u64>,
    asked: Items<Text>,
    calls: u64,
    faults: u64,
}

fn file_in<'a>(files: &'a [(Text, Text)], name: &[u8]) -> Option<&'a Text>
    ensures { option_copied result ≡ contents_in files.now name.now }
{
    for file in files {
        if file.0.as_slice() == name {
            return Some(&file.1);
        }
    }
    None
}

fn note(alloc: Global, asked: &mut Items<Text>, name: &str) -> Result<(), NoMemory>
    ensures ok { OnOk result (asked.new ≡ asked.old ++ name.now ∷ []) }
    ensures err { OnErr result (asked.new ≡ asked.old) }
{
    asked.push(Text::from_slice(alloc, name.as_bytes())?)?;
    Ok(())
}

impl MemFiles {
    ghost use Rattle.obj_edges.specs.MemoryViews.{IsFreshFiles, files_of, with_files, read_faults, names_asked};

    /// No files, of which the reads with these numbers, counted from 1, will fail.
    pub fn new(alloc: Global, failing: Items<u64>) -> MemFiles
        ensures { IsFreshFiles result failing }
    {
        MemFiles {
            files: Items::new(alloc),
            failing,
            asked: Items::new(alloc),
            calls: 0,
            faults: 0,
        }
    }

    /// Adds a file behind the others; of two with one name the earlier is read.
    pub fn add(&mut self, alloc: Global, name: &str, bytes: &[u8]) -> Result<(), NoMemory>
        ensures ok { OnOk result (self.new ≡ with_files self.old (files_of self.old ++ (name.now, bytes.now) ∷ [])) }
        ensures err { OnErr result (self.new ≡ self.old) }
    {
        let name = Text::from_slice(alloc, name.as_bytes())?;
        let bytes = Text::from_slice(alloc, bytes)?;
        self.files.push((name, bytes))?;
        Ok(())
    }

    /// How many reads failed.
    pub fn faults(&self) -> u64
        ensures { result ≡ read_faults self.now }
    {
        self.faults
    }

    /// The names asked so far, in order.
    pub fn asked(&self) -> &[Text]
        ensures { result.now ≡ names_asked self.now }
    {
        self.asked.as_slice()
    }

    fn is_failing(&self) -> bool {
        self.failing.as_slice().contains(&self.calls)
    }
}

fn read_whole(alloc: Global, bytes: &[u8]) -> Result<Vec<u8>, FileError>
    ensures ok { IfOk result (λ copy. copy.items ≡ bytes.now) }
    ensures short { IfOk result (λ copy. vec_len copy ≤ MAX_FILE_LEN) }
    ensures too_long { result ≡ Err FileError.TooLong → MAX_FILE_LEN < length bytes.now }
    ensures readable { result ≢ Err FileError.Failed }
{
    if bytes.len() > MAX_FILE_LEN {
        return Err(FileError::TooLong);
    }
    match Vec::from_slice(alloc, bytes) {
        Ok(copy) => Ok(copy),
        Err(_) => Err(FileError::NoMemory),
    }
}

impl Files for MemFiles {
    ghost use Rattle.std.specs.Prelude.{Some};
    ghost use Rattle.obj_edges.specs.Memory.{contents_in};

    ghost contents = { λ f name. Some (contents_in f.files name) };

    ghost asked = { λ f. Some f.asked };

    ghost faults = { λ f. f.faults };

    fn read(&mut self, alloc: Global, name: &str) -> Result<Vec<u8>, FileError> {
        let found = match file_in(self.files.as_slice(), name.as_bytes()) {
            Some(bytes) => read_whole(alloc, bytes.as_slice()),
            None => Err(FileError::Failed),
        };
        if matches!(found, Err(FileError::NoMemory)) {
            return Err(FileError::NoMemory);
        }
        if note(alloc, &mut self.asked, name).is_err() {
            return Err(FileError::NoMemory);
        }
        self.calls = self.calls.saturating_add(1);
        if self.is_failing() || matches!(found, Err(FileError::Failed)) {
            self.faults = self.faults.saturating_add(1);
            return Err(FileError::Failed);
        }
        found
    }
}
