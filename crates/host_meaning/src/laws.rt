//! Laws of what processes mean.

ghost use Rattle.std.specs.Prelude.{ℕ};
ghost use Rattle.os_meaning.specs.Syntax.{Block};
ghost use Rattle.host_meaning.specs.Methods.{Program};
ghost use Rattle.host_meaning.specs.Objects.{Objects};
ghost use Rattle.host_meaning.specs.Process.{process};
ghost use Rattle.host_meaning.specs.Fuel.{AsksAtMost};
ghost use Rattle.host_meaning.specs.Samples.{samples, AreSeen};

/// Small processes mean what they are worked out to show: prints, operations of the store, and how they end.
#[tactic(auto, using(crate::proofs::Sampled::all_seen))]
pub fn small_processes_mean_what_they_show()
    ensures { AreSeen samples }
{}

/// The law of fuel: whatever its objects do, and whatever the store replies, no process asks more operations than it has units.
#[tactic(auto, using(crate::proofs::FuelLaws::process_fits))]
pub fn no_process_asks_more_than_its_fuel<M>(_memory: &M)
    ensures { (objects : Objects M) (program : Program) (fuel : ℕ) (script : Block) → AsksAtMost fuel (process objects program fuel script) }
{}
