ghost use Rattle.std.specs.Prelude.{◌≡◌, ◌≤◌, false};
ghost use Rattle.load_plan.specs.Loads.{is_told};
ghost use Rattle.load_plan.specs.Raises.{is_told as is_raise_told};

use crate::show::{print_asked, print_cause, print_record};
use crate::store::Store;
use anyhow::Result;
use load_plan::{LoadCall, LoadPlan, LoadStep, RaiseCall, RaisePlan, RaiseStep};
use obj_kinds::{NoMemory, Op, Reply};
use schema_kinds::Schema;
use std::alloc::Global;

/// The most operations of a call that are played.
const MOST: u32 = 1_000;

/// What is replied, and how many tries of a lock are still refused.
#[derive(Drop)]
pub struct Replies<'a> {
    pub store: &'a Store,
    pub refusals: u32,
}

impl Replies<'_> {
    // The reply to an operation.
    fn reply(&mut self, alloc: Global, op: &Op) -> Result<Reply, NoMemory> {
        let is_refused = matches!(op, Op::Lock(_, _, _, _)) && self.refusals > 0;
        let reply = self.store.reply(alloc, op, is_refused)?;
        self.refusals = self.refusals.saturating_sub(u32::from(is_refused));
        Ok(reply)
    }
}

fn load_on(rt: &HostRuntime, replies: &mut Replies<'_>, plan: &mut LoadPlan<'_>) -> Result<()>
    requires { is_told plan.old.phase ≡ false }
{
    for _ in 0..MOST {
        match plan.next()? {
            LoadStep::Ask(op) => {
                let reply = replies.reply(rt.alloc(), &op)?;
                print_asked(rt, &op, &reply)?;
                plan.take(reply)?;
            }
            LoadStep::Load(Ok(record)) => {
                return print_record(rt, plan.schema, &plan.call.key, &record);
            }
            LoadStep::Load(Err(cause)) => return print_cause(rt, &cause),
        }
    }
    println!(rt; "  it asks more")?;
    Ok(())
}

/// Plays a load.
pub fn play_load(
    rt: &HostRuntime,
    schema: &Schema,
    replies: &mut Replies<'_>,
    call: LoadCall,
) -> Result<()>
    requires { 1 ≤ call.tries }
{
    let mut plan = LoadPlan::new(rt.alloc(), schema, call)?;
    load_on(rt, replies, &mut plan)
}

fn raise_on(rt: &HostRuntime, replies: &mut Replies<'_>, plan: &mut RaisePlan) -> Result<()>
    requires { is_raise_told plan.old.phase ≡ false }
{
    for _ in 0..MOST {
        match plan.next()? {
            RaiseStep::Ask(op) => {
                let reply = replies.reply(rt.alloc(), &op)?;
                print_asked(rt, &op, &reply)?;
                plan.take(reply);
            }
            RaiseStep::Raise(Ok(())) => {
                println!(rt; "  raised")?;
                return Ok(());
            }
            RaiseStep::Raise(Err(cause)) => return print_cause(rt, &cause),
        }
    }
    println!(rt; "  it asks more")?;
    Ok(())
}

/// Plays a raise.
pub fn play_raise(rt: &HostRuntime, replies: &mut Replies<'_>, call: RaiseCall) -> Result<()>
    requires { 1 ≤ call.tries }
{
    let mut plan = RaisePlan::new(rt.alloc(), call);
    raise_on(rt, replies, &mut plan)
}
