//! One row: the words, the files, what is to fail, and what is seen of the run.

ghost use Rattle.std.specs.Prelude.{◌≡◌, IfOk, vec_len};

use crate::line::Call;
use anyhow::Result;
use host_top::{MemDevice, MemFiles, MemSink, Outcome, step_main};
use obj_edges::Device;
use obj_kinds::NoMemory;
use sqlite_items::Items;
use std::alloc::Global;

/// Room that no device and no sink of a row fills.
const ROOM: usize = 4_000_000;

/// Which call is to fail, each counted from 1; 0 is none.
#[derive(Clone, Copy)]
struct Faults {
    read: u64,
    put: u64,
    report: u64,
}

const NONE: Faults = Faults {
    read: 0,
    put: 0,
    report: 0,
};

/// A file of the run.
#[derive(Drop)]
struct File {
    name: String,
    text: String,
}

/// A row as it is being read.
#[derive(Drop)]
pub struct Row {
    title: String,
    words: Vec<String>,
    files: Vec<File>,
    /// Whether lines go to the last file.
    is_open: bool,
    faults: Faults,
}

fn call(alloc: Global, number: u64) -> Result<Items<u64>, NoMemory> {
    let mut calls = Items::new(alloc);
    calls.push(number)?;
    Ok(calls)
}

fn devices(alloc: Global, count: usize, failing: u64) -> Result<Vec<MemDevice>, NoMemory>
    ensures { IfOk result (λ devices. vec_len devices ≡ count) }
{
    let mut devices = Vec::new(alloc);
    for _ in 0..count {
        devices.push(MemDevice::new(alloc, ROOM, call(alloc, failing)?)?)?;
    }
    Ok(devices)
}

/// A line of a long file: its number stands where `@` does.
fn push_numbered(alloc: Global, text: &mut String, line: &str, number: u64) -> Result<()> {
    match line.split_once('@') {
        None => text.push_str(line)?,
        Some((before, behind)) => {
            text.push_str(before)?;
            text.push_str(number.to_string(alloc)?.as_str())?;
            text.push_str(behind)?;
        }
    }
    text.push('\n')?;
    Ok(())
}

impl Row {
    /// A row without a title: it doesn't run.
    pub fn new(alloc: Global) -> Row {
        Row {
            title: String::new(alloc),
            words: Vec::new(alloc),
            files: Vec::new(alloc),
            is_open: false,
            faults: NONE,
        }
    }

    /// Begins a row: its words and its files are those of the row before until they are given.
    pub fn begin(&mut self, alloc: Global, title: &str) -> Result<()> {
        self.title = title.to_string(alloc)?;
        self.is_open = false;
        self.faults = NONE;
        Ok(())
    }

    /// Gives the words, with one blank between two.
    pub fn set_words(&mut self, alloc: Global, words: &str) -> Result<()> {
        let mut list = Vec::new(alloc);
        for word in words.split(' ') {
            if !word.is_empty() {
                list.push(word.to_string(alloc)?)?;
            }
        }
        self.words = list;
        Ok(())
    }

    /// Lets one call fail.
    pub fn fail(&mut self, what: Call, number: u64) {
        match what {
            Call::Read => self.faults.read = number,
            Call::Put => self.faults.put = number,
            Call::Report => self.faults.report = number,
            Call::Other => {}
        }
    }

    /// Gives a file its text; one of this name is given anew.
    pub fn set_file(&mut self, alloc: Global, name: &str, text: &str) -> Result<()> {
        self.files.retain(|file| file.name.as_str() != name);
        let file = File {
            name: name.to_string(alloc)?,
            text: text.to_string(alloc)?,
        };
        self.files.push(file)?;
        self.is_open = false;
        Ok(())
    }

    /// Begins a file of lines.
    pub fn open(&mut self, alloc: Global, name: &str) -> Result<()> {
        self.set_file(alloc, name, "")?;
        self.is_open = true;
        Ok(())
    }

    /// Puts a line into the open file; without one it is a remark.
    pub fn push(&mut self, line: &str) -> Result<()> {
        if !self.is_open {
            return Ok(());
        }
        if let Some(file) = self.files.last_mut() {
            file.text.push_str(line)?;
            file.text.push('\n')?;
        }
        Ok(())
    }

    /// Puts so many lines into the open file, counted from 0.
    pub fn push_many(&mut self, alloc: Global, count: u64, line: &str) -> Result<()> {
        if let Some(file) = self.files.last_mut() {
            for number in 0..count {
                push_numbered(alloc, &mut file.text, line, number)?;
            }
        }
        Ok(())
    }

    /// Takes the last line feed of the open file.
    pub fn cut(&mut self) {
        if let Some(file) = self.files.last_mut() {
            file.text.pop();
        }
    }

    fn mem_files(&self, alloc: Global) -> Result<MemFiles, NoMemory> {
        let mut files = MemFiles::new(alloc, call(alloc, self.faults.read)?);
        for file in &self.files {
            files.add(alloc, file.name.as_str(), file.text.as_bytes())?;
        }
        Ok(files)
    }

    /// Runs the row and prints what is seen of it; a row without a title is none.
    pub fn run(&self, rt: &HostRuntime) -> Result<()> {
        if self.title.is_empty() {
            return Ok(());
        }
        let title = self.title.as_str();
        println!(rt; "==== {title}")?;
        let alloc = rt.alloc();
        let mut files = self.mem_files(alloc)?;
        let mut sink = MemSink::new(alloc, ROOM, call(alloc, self.faults.report)?)?;
        let Some(count) = self.words.len().checked_add(4) else {
            return Err(NoMemory.into());
        };
        let devices = devices(alloc, count, self.faults.put)?;
        let outcome = step_main(alloc, self.words.as_slice(), &mut files, devices, &mut sink);
        show(rt, &files, &sink, &outcome)
    }
}

fn text_of(bytes: &[u8]) -> &str {
    str::from_utf8(bytes).unwrap_or("no text")
}

/// Prints the status, the files that were asked, what the sink and each device were told, and what failed.
fn show(
    rt: &HostRuntime,
    files: &MemFiles,
    sink: &MemSink,
    outcome: &Outcome<MemDevice>,
) -> Result<()> {
    let status = outcome.status;
    let asked = files.asked().len();
    let faults = files.faults().saturating_add(sink.faults());
    println!(rt; "status {status}, files asked {asked}, failed calls of files and sink {faults}")?;
    let report = text_of(sink.bytes());
    print!(rt; "{report}")?;
    for device in &outcome.devices {
        let faults = device.faults();
        println!(rt; "device, failed puts {faults}:")?;
        let told = text_of(device.told().unwrap_or(&[]));
        print!(rt; "{told}")?;
    }
    Ok(())
}
