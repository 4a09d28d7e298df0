ghost use Rattle.std.specs.Prelude.{◌≡◌, IfOk, OnErr, vec_len};
ghost use Rattle.std.specs.Process.{exit_status};

use crate::streams::hold_closed_streams;
use host_top::step_main;
use obj_edges::{FileDevice, HostFiles, StdSink};
use obj_kinds::NoMemory;
use std::env;
use std::process::ExitCode;

/// The status of want of memory.
const NO_MEMORY: u8 = 3;

/// The words behind the program's name.
pub fn words(rt: &HostRuntime) -> Result<Vec<String>, NoMemory> {
    let mut words = Vec::new(rt.alloc());
    let Ok(all) = env::args(rt) else {
        return Err(NoMemory);
    };
    for word in all.skip(1) {
        words.push(word)?;
    }
    Ok(words)
}

// The devices of so many processes.
fn devices(rt: &HostRuntime, count: usize) -> Result<Vec<FileDevice<HostRuntime>>, NoMemory>
    ensures { IfOk result (λ devices. vec_len devices ≡ count) }
{
    let mut devices = Vec::new(rt.alloc());
    for index in 0..count {
        devices.push(FileDevice::new(rt.alloc(), rt.clone()?, index + 1)?)?;
    }
    Ok(devices)
}

/// Runs what the words say over the system's files, with standard output as the sink and the file `n.out` as the device
/// of process n, and answers the status. The standard streams are seen to before any file is opened.
pub fn run_on(rt: &HostRuntime, words: &[String]) -> Result<u8, NoMemory> {
    let _streams = hold_closed_streams(rt);
    let Some(count) = words.len().checked_add(4) else {
        return Err(NoMemory);
    };
    let devices = devices(rt, count)?;
    let mut files = HostFiles::new(rt.clone()?);
    let mut sink = StdSink::new(rt.clone()?);
    let outcome = step_main(rt.alloc(), words, &mut files, devices, &mut sink);
    Ok(outcome.status)
}

/// What the program ends with: the status of the run, or 3 where memory ran out around it.
pub fn exit_code(ended: Result<u8, NoMemory>) -> ExitCode
    ensures ran { IfOk ended (λ status. exit_status result ≡ status) }
    ensures no_memory { OnErr ended (exit_status result ≡ 3) }
{
    match ended {
        Ok(status) => ExitCode::from(status),
        Err(NoMemory) => ExitCode::from(NO_MEMORY),
    }
}
