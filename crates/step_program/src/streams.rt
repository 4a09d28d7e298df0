use std::fs::{self, File};

/// How many standard streams there are: input, output, errors.
const STREAMS: usize = 3;

/// The descriptors of standard streams that were closed, taken so that no file of a run gets one of them.
#[derive(Drop)]
pub struct Held {
    files: Vec<File>,
}

/// Takes the descriptors of the standard streams that are closed, by files that can't be written to: a put to a stream
/// that was closed then fails, in place of landing in a file of the run. Where the system has no null device, or memory
/// runs out, nothing is taken.
pub fn hold_closed_streams(rt: &HostRuntime) -> Held {
    let mut files = Vec::new(rt.alloc());
    for _ in 0..STREAMS {
        if let Ok(file) = fs::open(rt, "/dev/null") {
            if files.push(file).is_err() {
                return Held { files };
            }
        }
    }
    Held { files }
}
