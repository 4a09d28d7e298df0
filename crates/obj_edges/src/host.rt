ghost use Rattle.std.specs.Prelude.{◌≡◌, ◌≤◌, ◌++◌, ℕ, IfOk, codes, string_bytes, vec_len};
ghost use Rattle.std.specs.Fmt.{decimal};

use crate::edges::{Device, FileError, Files, MAX_FILE_LEN, Put, Sink};
use obj_kinds::NoMemory;
use std::alloc::Global;
use std::io::{self, Read, Write};
use std::{fs, rt};

/// The files of the system. It tells nothing.
#[derive(Drop)]
pub struct HostFiles<R: rt::Files + Drop> {
    rt: R,
    faults: u64,
}

impl<R: rt::Files + Drop> HostFiles<R> {
    /// The files that the runtime reaches.
    pub fn new(rt: R) -> HostFiles<R>
        ensures { result.faults ≡ 0 }
    {
        HostFiles { rt, faults: 0 }
    }
}

fn read_whole<R: rt::Files>(rt: &R, alloc: Global, name: &str) -> Result<Vec<u8>, FileError>
    ensures { IfOk result (λ bytes. vec_len bytes ≤ MAX_FILE_LEN) }
{
    let Ok(mut file) = fs::open(rt, name) else {
        return Err(FileError::Failed);
    };
    let mut bytes = Vec::new(alloc);
    let mut piece = [0u8; 4096];
    for _ in 0..u64::MAX {
        let Ok(count) = file.read(&mut piece) else {
            return Err(FileError::Failed);
        };
        if count == 0 {
            break;
        }
        if count > MAX_FILE_LEN - bytes.len() {
            return Err(FileError::TooLong);
        }
        if bytes.extend_from_slice(&piece[..count]).is_err() {
            return Err(FileError::NoMemory);
        }
    }
    Ok(bytes)
}

impl<R: rt::Files + Drop> Files for HostFiles<R> {
    ghost use Rattle.std.specs.Prelude.{None};

    ghost contents = { λ f name. None };

    ghost asked = { λ f. None };

    ghost faults = { λ f. f.faults };

    fn read(&mut self, alloc: Global, name: &str) -> Result<Vec<u8>, FileError> {
        let read = read_whole(&self.rt, alloc, name);
        if matches!(read, Err(FileError::Failed)) {
            self.faults = self.faults.saturating_add(1);
        }
        read
    }
}

/// Standard output. It tells nothing.
#[derive(Drop)]
pub struct StdSink<R: Print + Drop> {
    rt: R,
    faults: u64,
}

impl<R: Print + Drop> StdSink<R> {
    /// The standard output of the runtime.
    pub fn new(rt: R) -> StdSink<R>
        ensures { result.faults ≡ 0 }
    {
        StdSink { rt, faults: 0 }
    }
}

impl<R: Print + Drop> Sink for StdSink<R> {
    ghost use Rattle.std.specs.Prelude.{None};

    ghost told = { λ s. None };

    ghost faults = { λ s. s.faults };

    fn put(&mut self, piece: &[u8]) -> Put {
        if piece.is_empty() || io::writer(&self.rt).write_all(piece).is_ok() {
            return Put::Done;
        }
        self.faults = self.faults.saturating_add(1);
        Put::Failed
    }
}

/// The file `n.out` of process n, which its first put creates. It tells nothing.
#[derive(Drop)]
pub struct FileDevice<R: rt::Files + Drop> {
    rt: R,
    name: String,
    file: Option<R::File>,
    faults: u64,
}

impl<R: rt::Files + Drop> FileDevice<R> {
    /// The device of the process with this number. The file's name is made here, so that a put takes
    /// memory at most where it opens the file, and a want of it there counts as a fault.
    pub fn new(alloc: Global, rt: R, process: usize) -> Result<FileDevice<R>, NoMemory>
        ensures name { IfOk result (λ device. string_bytes device.name ≡ decimal process ++ codes ".out") }
        ensures faults { IfOk result (λ device. device.faults ≡ 0) }
    {
        let name = format!(in alloc; "{process}.out")?;
        Ok(FileDevice {
            rt,
            name,
            file: None,
            faults: 0,
        })
    }

    fn write(&mut self, piece: &[u8]) -> bool
        ensures { self.new.faults ≡ self.old.faults }
    {
        if self.file.is_none() {
            let Ok(file) = fs::create(&self.rt, self.name.as_str()) else {
                return false;
            };
            self.file = Some(file);
        }
        match &mut self.file {
            None => false,
            Some(file) => file.write_all(piece).is_ok(),
        }
    }
}

impl<R: rt::Files + Drop> Device for FileDevice<R> {
    ghost use Rattle.std.specs.Prelude.{None};

    ghost bytes = { λ d. None };

    ghost faults = { λ d. d.faults };

    fn put(&mut self, piece: &[u8]) -> Put {
        if piece.is_empty() || self.write(piece) {
            return Put::Done;
        }
        self.faults = self.faults.saturating_add(1);
        Put::Failed
    }

    fn told(&self) -> Option<&[u8]> {
        None
    }
}
