ghost use Rattle.std.specs.Prelude.{◌≡◌, ◌≤◌, ◌+◌, ◌<◌, [], IfOk, IfErr, map, string_bytes, vec_len, length};
ghost use Rattle.first_path.specs.World.{AreKnown};
ghost use Rattle.host_top.specs.Refusals.{IsRefused};
ghost use Rattle.host_top.specs.Run.{HasInput};
ghost use Rattle.host_top.specs.Verdict.{Holds, TellsOf, Runs};
ghost use Rattle.host_top.specs.Answer.{Says, Comes};

use crate::job::{Job, understand};
use crate::refusal::Refusal;
use crate::run::run;
use crate::texts::read_texts;
use crate::verdict::Verdict;
use first_path::{Ending, MAX_LINES};
use obj_edges::{Device, Files, Put, Sink};
use std::alloc::Global;

/// What a run answers.
#[derive(Drop)]
pub struct Outcome<D: Device> {
    /// The exit status.
    pub status: u8,
    /// The device of the process, also one whose put failed; empty where no process was started or
    /// memory was wanting outside it.
    pub devices: Vec<D>,
}

// The class and the acts of the words' files.
fn prepare<'a, F: Files>(
    alloc: Global,
    words: &'a [String],
    files: &mut F,
) -> Result<Job, Refusal<'a>>
    ensures input { IfOk result (λ job. HasInput (map string_bytes words.now) (F.contents files.old) (F.asked files.old) (F.asked files.new) job.class job.acts) }
    ensures few { IfOk result (λ job. length job.acts ≤ MAX_LINES) }
    ensures known { IfOk result (λ job. AreKnown (length job.class.props) [] job.acts) }
    ensures refused { IfErr result (IsRefused (map string_bytes words.now) (F.contents files.old) (F.asked files.old) (F.asked files.new) (F.faults files.old) (F.faults files.new)) }
{
    let texts = read_texts(alloc, words, files)?;
    let job = understand(alloc, &texts)?;
    Ok(job)
}

// Puts the message of a refusal.
fn tell<'a, S: Sink>(alloc: Global, refusal: Refusal<'a>, sink: &mut S) -> Verdict<'a>
    ensures { TellsOf refusal.entry (S.told sink.old) (S.told sink.new) (S.faults sink.old) (S.faults sink.new) result }
{
    if matches!(&refusal, Refusal::Memory) {
        return Verdict::NoMemory;
    }
    let Ok(message) = refusal.message(alloc) else {
        return Verdict::NoMemory;
    };
    match sink.put(message.as_slice()) {
        Put::Done => Verdict::Refused(refusal),
        Put::Failed => Verdict::NotPut,
    }
}

// Runs the process on the first device, and puts the report.
fn run_and_report<S: Sink, D: Device>(
    alloc: Global,
    job: &Job,
    devices: &mut Vec<D>,
    sink: &mut S,
) -> Verdict<'static>
    requires few { length job.now.acts ≤ MAX_LINES }
    requires known { AreKnown (length job.now.class.props) [] job.now.acts }
    requires device { 0 < vec_len devices.old }
    ensures { Runs D D.bytes D.faults job.now.class job.now.acts devices.old.items devices.new.items (S.told sink.old) (S.told sink.new) (S.faults sink.old) (S.faults sink.new) result }
{
    devices.truncate(1);
    let Ok(report) = run(alloc, job, &mut devices[0]) else {
        devices.clear();
        return Verdict::NoMemory;
    };
    match sink.put(report.text.as_slice()) {
        Put::Failed => Verdict::NotPut,
        Put::Done => match report.ending {
            Ending::Done => Verdict::Done,
            Ending::DeviceFault => Verdict::Stopped,
        },
    }
}

fn conduct<'a, F: Files, S: Sink, D: Device>(
    alloc: Global,
    words: &'a [String],
    files: &mut F,
    devices: &mut Vec<D>,
    sink: &mut S,
) -> Verdict<'a>
    requires { 0 < vec_len devices.old }
    ensures { Holds D D.bytes D.faults (record { words = map string_bytes words.now; contents = F.contents files.old; asked = F.asked files.old; asked' = F.asked files.new; file_faults = F.faults files.old; file_faults' = F.faults files.new; told = S.told sink.old; told' = S.told sink.new; sink_faults = S.faults sink.old; sink_faults' = S.faults sink.new }) devices.old.items devices.new.items result }
{
    match prepare(alloc, words, files) {
        Ok(job) => run_and_report(alloc, &job, devices, sink),
        Err(refusal) => {
            devices.clear();
            tell(alloc, refusal, sink)
        }
    }
}

/// Runs the script that the words name over the class that they name.
///
/// The words don't hold the program's name: `run`, the name of a class file, which ends in `.cls`,
/// and that of a script. The work goes in this order: words, reading both files, the classes, linking,
/// the forms that are built, the process, the report; the first refusal ends it. Device 1 is the
/// process's, the others are spare.
///
/// Each status has its cause, which the clauses tell: 0 and 1 where the process ran, 2 for a file of
/// more than 16 MiB, a class file that isn't in its grammar or classes that can't be linked, 3 for want
/// of memory, 4 and 5 where a read of the files or a put of the sink failed, 7 for other words, and 8
/// for classes and scripts that aren't in the forms that are built.
pub fn step_main<F: Files, S: Sink, D: Device>(
    alloc: Global,
    words: &[String],
    files: &mut F,
    devices: Vec<D>,
    sink: &mut S,
) -> Outcome<D>
    requires { length words.now + 4 ≤ vec_len devices }
    ensures says { Says D D.bytes D.faults (record { words = map string_bytes words.now; contents = F.contents files.old; asked = F.asked files.old; asked' = F.asked files.new; file_faults = F.faults files.old; file_faults' = F.faults files.new; told = S.told sink.old; told' = S.told sink.new; sink_faults = S.faults sink.old; sink_faults' = S.faults sink.new }) devices.items result.devices.items result.status }
    ensures comes { Comes (record { words = map string_bytes words.now; contents = F.contents files.old; asked = F.asked files.old; asked' = F.asked files.new; file_faults = F.faults files.old; file_faults' = F.faults files.new; told = S.told sink.old; told' = S.told sink.new; sink_faults = S.faults sink.old; sink_faults' = S.faults sink.new }) result.status }
{
    let mut devices = devices;
    let status = conduct(alloc, words, files, &mut devices, sink).status();
    Outcome { status, devices }
}
