ghost use Rattle.std.specs.Prelude.{◌≡◌, ◌≤◌, ℕ, [], IfOk, length};
ghost use Rattle.first_path.specs.declared.act.Act.TheVariants as act;
ghost use Rattle.first_path.specs.World.{AreKnown};
ghost use Rattle.first_path.specs.Play.{IsPlayed, print_of};
ghost use Rattle.obj_edges.specs.Told.{Adds, AddsFront, Rises};

use crate::act::Act;
use crate::session::{Fields, Session};
use obj_edges::{Device, Put};
use obj_kinds::NoMemory;
use sqlite_items::Items;
use std::alloc::Global;

/// How a process ended.
#[derive(Clone, Copy, Debug, PartialEq, Eq)]
pub enum Ending {
    /// All lines were done.
    Done,
    /// A put of its device failed.
    DeviceFault,
}

/// The fields of the saved objects, in the order of first saves, and how the process ended.
#[derive(Debug, Drop)]
pub struct Played {
    pub saved: Items<Fields>,
    pub ending: Ending,
}

// Prints what the act prints.
fn print<D: Device>(device: &mut D, step: &Act) -> Put
    ensures done { result ≡ Put.Done → Adds (D.bytes device.old) (D.bytes device.new) (print_of step.now) }
    ensures failed { result ≡ Put.Failed → (object : ℕ) × (step.now ≡ act.Save object) × AddsFront (D.bytes device.old) (D.bytes device.new) (print_of step.now) }
    ensures rises { result ≡ Put.Failed → Rises (D.faults device.old) (D.faults device.new) }
    ensures never_falls { D.faults device.old ≤ D.faults device.new }
{
    match step {
        Act::Save(_) => device.put(b"1\n"),
        Act::Make | Act::Fill(..) => Put::Done,
    }
}

/// Does the acts one after the other, each save printing `1` and a line feed. It ends at the first
/// put that fails.
pub fn play<D: Device>(
    alloc: Global,
    properties: usize,
    acts: &[Act],
    device: &mut D,
) -> Result<Played, NoMemory>
    requires { AreKnown properties [] acts.now }
    ensures few { IfOk result (λ played. length played.saved ≤ length acts.now) }
    ensures played { IfOk result (λ played. IsPlayed properties acts.now (D.bytes device.old) (D.bytes device.new) (D.faults device.old) (D.faults device.new) played.saved played.ending) }
{
    let mut session = Session::new(alloc, properties);
    for act in acts {
        session.step(alloc, act)?;
        match print(device, act) {
            Put::Done => {}
            Put::Failed => {
                return Ok(Played {
                    saved: session.into_saved(),
                    ending: Ending::DeviceFault,
                });
            }
        }
    }
    Ok(Played {
        saved: session.into_saved(),
        ending: Ending::Done,
    })
}
