ghost use Rattle.std.specs.Prelude.{◌≡◌, Bool, true, false, IfOk, OnOk, OnErr};
ghost use Rattle.obj_kinds.specs.Limits.{is_legal_reply};
ghost use Rattle.schema_kinds.specs.declared.key.Key.{Key as KeyOf};
ghost use Rattle.save_draws.specs.declared.drawing.Phase.TheVariants.{Drawing as AtCounter};
ghost use Rattle.save_draws.specs.Draws.{is_asking, is_judging, is_live_in, is_over, is_placed, is_told, seen, Awaits, GoesBehind, GoesOn, IsBegun, IsNext, IsTaken, Stays};

use crate::drawing::{DrawStep, Drawing, Newcomer, Phase};
use crate::judging::{counter_node, judge};
use obj_kinds::{NoMemory, Op, Reply};
use oref_table::Table;
use sqlite_items::{Items, at};
use std::alloc::Global;
use std::collections::BTreeSet;
use std::mem;

/// The draws of a save on their way.
#[derive(Drop)]
pub struct DrawPlan {
    alloc: Global,
    /// What was drawn so far.
    pub drawing: Drawing,
    /// How far they are.
    pub phase: Phase,
}

impl DrawPlan {
    /// The draws for these objects, at their begin. It takes no memory.
    #[tactic(auto, using(crate::proofs::DrawLaws::begun))]
    pub fn new(alloc: Global, news: Items<Newcomer>) -> DrawPlan
        ensures begun { (is_live : KeyOf → Bool) → IsBegun is_live (seen result.drawing) result.phase }
        ensures news { result.drawing.news ≡ news }
        ensures placed { is_placed (seen result.drawing) result.phase ≡ true }
        ensures told { is_told result.phase ≡ false }
    {
        DrawPlan {
            alloc,
            drawing: Drawing {
                news,
                at: 0,
                keys: BTreeSet::new(alloc),
                ids: Items::new(alloc),
            },
            phase: Phase::Drawing,
        }
    }

    /// What comes next: it asks an operation of the store, or tells that all ids were drawn, or why not. It may be asked again until
    /// it was told. The table stays as it is: it tells which ids live objects have. It fails only for want of memory, and then has
    /// the same to do.
    #[tactic(auto, using(crate::proofs::DrawLaws::next_ok, crate::proofs::DrawLaws::goes_ok, crate::proofs::DrawLaws::stays_same, crate::proofs::DrawLaws::stays_err))]
    pub fn next(&mut self, table: &Table) -> Result<DrawStep, NoMemory>
        requires placed { is_placed (seen self.old.drawing) self.old.phase ≡ true }
        requires told { is_told self.old.phase ≡ false }
        ensures says { IfOk result (λ step. IsNext (is_live_in table.now) step (seen self.old.drawing) self.old.phase (seen self.new.drawing)) }
        ensures goes { IfOk result (λ step. GoesOn (is_live_in table.now) step (seen self.old.drawing) self.old.phase (seen self.new.drawing) self.new.phase) }
        ensures asks { IfOk result (λ step. Awaits step (seen self.new.drawing) self.new.phase) }
        ensures news { self.new.drawing.news ≡ self.old.drawing.news }
        ensures err { OnErr result (Stays (is_live_in table.now) (seen self.old.drawing) self.old.phase (seen self.new.drawing) self.new.phase) }
    {
        self.judge_reply(table)?;
        self.ask_or_tell()
    }

    /// Takes the reply to what it asked. It takes no memory.
    #[tactic(auto, using(crate::proofs::DrawLaws::taken, crate::proofs::DrawLaws::taken_placed))]
    pub fn take(&mut self, reply: Reply)
        requires asked { is_asking (seen self.old.drawing) self.old.phase ≡ true }
        requires legal { is_legal_reply reply ≡ true }
        ensures taken { (is_live : KeyOf → Bool) → IsTaken is_live reply (seen self.old.drawing) self.old.phase (seen self.new.drawing) self.new.phase }
        ensures placed { is_placed (seen self.new.drawing) self.new.phase ≡ true }
        ensures told { is_told self.new.phase ≡ false }
        ensures news { self.new.drawing.news ≡ self.old.drawing.news }
    {
        self.phase = Phase::Judging(reply);
    }

    // Judges the reply, where there is one.
    #[tactic(auto, using(crate::proofs::DrawLaws::judged_on, crate::proofs::DrawLaws::judged_off, crate::proofs::DrawLaws::placed_there, crate::proofs::DrawLaws::placed_legal))]
    fn judge_reply(&mut self, table: &Table) -> Result<(), NoMemory>
        requires placed { is_placed (seen self.old.drawing) self.old.phase ≡ true }
        requires told { is_told self.old.phase ≡ false }
        ensures on { OnOk result (GoesBehind (is_live_in table.now) (seen self.old.drawing) self.old.phase (seen self.new.drawing) self.new.phase) }
        ensures news { self.new.drawing.news ≡ self.old.drawing.news }
        ensures err { OnErr result ((seen self.new.drawing ≡ seen self.old.drawing) × (self.new.phase ≡ self.old.phase)) }
    {
        let Phase::Judging(reply) = &self.phase else {
            return Ok(());
        };
        match judge(self.alloc, table, &mut self.drawing, reply)? {
            None => {
                self.phase = Phase::Drawing;
                Ok(())
            }
            Some(cause) => {
                self.phase = Phase::Over(cause);
                Ok(())
            }
        }
    }

    fn ask_or_tell(&mut self) -> Result<DrawStep, NoMemory>
        requires judged { is_judging self.old.phase ≡ false }
        requires told { is_told self.old.phase ≡ false }
        ensures says { IfOk result (λ step. (is_live : KeyOf → Bool) → IsNext is_live step (seen self.old.drawing) self.old.phase (seen self.new.drawing)) }
        ensures goes { IfOk result (λ step. (is_live : KeyOf → Bool) → GoesOn is_live step (seen self.old.drawing) self.old.phase (seen self.new.drawing) self.new.phase) }
        ensures asks { IfOk result (λ step. Awaits step (seen self.new.drawing) self.new.phase) }
        ensures same { self.new.drawing ≡ self.old.drawing }
        ensures err { OnErr result (self.new.phase ≡ self.old.phase) }
    {
        match &self.phase {
            Phase::Drawing => self.draw_next(),
            _ => Ok(self.refuse()),
        }
    }

    // Asks the counter of the next object, where there is one.
    #[tactic(auto, using(crate::proofs::DrawLaws::asks_next, crate::proofs::DrawLaws::all_drawn), unfolding(crate::specs::Draws::to_come))]
    fn draw_next(&mut self) -> Result<DrawStep, NoMemory>
        requires { self.old.phase ≡ AtCounter }
        ensures says { IfOk result (λ step. (is_live : KeyOf → Bool) → IsNext is_live step (seen self.old.drawing) self.old.phase (seen self.new.drawing)) }
        ensures goes { IfOk result (λ step. (is_live : KeyOf → Bool) → GoesOn is_live step (seen self.old.drawing) self.old.phase (seen self.new.drawing) self.new.phase) }
        ensures asks { IfOk result (λ step. Awaits step (seen self.new.drawing) self.new.phase) }
        ensures same { self.new.drawing ≡ self.old.drawing }
        ensures err { OnErr result (self.new.phase ≡ self.old.phase) }
    {
        match at(self.drawing.news.as_slice(), self.drawing.at) {
            None => {
                self.phase = Phase::Told;
                Ok(DrawStep::Draw(Ok(())))
            }
            Some(newcomer) => {
                let counter = counter_node(self.alloc, &newcomer.extent)?;
                Ok(DrawStep::Ask(Op::Incr(counter, 1)))
            }
        }
    }

    // Hands out why an id couldn't be drawn.
    #[tactic(auto, unfolding(crate::specs::Draws::to_come))]
    fn refuse(&mut self) -> DrawStep
        requires { is_over self.old.phase ≡ true }
        ensures says { (is_live : KeyOf → Bool) → IsNext is_live result (seen self.old.drawing) self.old.phase (seen self.new.drawing) }
        ensures goes { (is_live : KeyOf → Bool) → GoesOn is_live result (seen self.old.drawing) self.old.phase (seen self.new.drawing) self.new.phase }
        ensures asks { Awaits result (seen self.new.drawing) self.new.phase }
        ensures same { self.new.drawing ≡ self.old.drawing }
    {
        match mem::replace(&mut self.phase, Phase::Told) {
            Phase::Over(cause) => DrawStep::Draw(Err(cause)),
            _ => unreachable!(),
        }
    }
}
