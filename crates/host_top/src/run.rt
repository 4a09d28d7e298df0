ghost use Rattle.std.specs.Prelude.{◌≡◌, ◌≤◌, ◌<◌, ◌^◌, [], IfOk, length};
ghost use Rattle.first_path.specs.World.{AreKnown};
ghost use Rattle.host_top.specs.Report.{report_of, ending_line as line_of};
ghost use Rattle.host_top.specs.Run.{HasRun};

use crate::job::Job;
use first_path::{Ending, Fields, MAX_LINES, image, play};
use global_dump::dump;
use obj_edges::Device;
use obj_kinds::{ClassName, NoMemory, Text};
use std::alloc::Global;

fn ending_line(ending: Ending) -> &'static [u8]
    ensures { result.now ≡ line_of ending }
{
    match ending {
        Ending::Done => b"1 Done\n",
        Ending::DeviceFault => b"1 DeviceFault\n",
    }
}

// The report of a run that ended so.
#[tactic(auto, unfolding(crate::specs::Report::report_of))]
fn report_text(
    alloc: Global,
    ending: Ending,
    class: &ClassName,
    saved: &[Fields],
) -> Result<Text, NoMemory>
    requires { length saved.now < 2 ^ 32 }
    ensures { IfOk result (λ text. text ≡ report_of ending class.now.0 saved.now) }
{
    let nodes = image(alloc, class, saved)?;
    let lines = dump(alloc, nodes.as_slice())?;
    let mut text = Text::from_slice(alloc, ending_line(ending))?;
    text.push_slice(lines.as_slice())?;
    Ok(text)
}

/// The report of a run, and how its process ended.
#[derive(Debug, Drop)]
pub(crate) struct Report {
    pub text: Text,
    pub ending: Ending,
}

/// Runs the process, which prints to the device.
pub(crate) fn run<D: Device>(alloc: Global, job: &Job, device: &mut D) -> Result<Report, NoMemory>
    requires few { length job.now.acts ≤ MAX_LINES }
    requires known { AreKnown (length job.now.class.props) [] job.now.acts }
    ensures { IfOk result (λ report. HasRun job.now.class job.now.acts (D.bytes device.old) (D.bytes device.new) (D.faults device.old) (D.faults device.new) report.text report.ending) }
{
    let properties = job.class.props.len();
    let played = play(alloc, properties, job.acts.as_slice(), device)?;
    let text = report_text(
        alloc,
        played.ending,
        &job.class.name,
        played.saved.as_slice(),
    )?;
    Ok(Report {
        text,
        ending: played.ending,
    })
}
