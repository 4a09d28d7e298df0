//! Code that is made from its end.

ghost use Rattle.std.specs.Prelude.{◌≡◌, ◌+◌, [], ◌∷◌, ◌++◌, OnOk, IfOk, length};
ghost use Rattle.os_code.specs.Coding.{drops, drops_top};
ghost use Rattle.os_compile.specs.Pieces.{beyond};

use crate::exit::Exit;
use obj_kinds::{NoMemory, Text};
use os_code::{Code, Instruction};
use sqlite_items::Items;
use std::alloc::Global;
use std::marker::Model;

/// Code that is made from its last instruction to its first, and seen as the list of its instructions.
#[derive(Drop)]
pub(crate) struct Emitted {
    reversed: Vec<Instruction>,
    alloc: Global,
}

impl Model for Emitted {
    ghost use Rattle.std.specs.Prelude.{List, reverse};
    ghost use Rattle.std.specs.Coded.{coded_list};
    ghost use Rattle.os_code.specs.declared.instruction.Instruction.{Instruction};
    ghost use Rattle.os_code.specs.contracts.instruction.Instruction as instruction;

    ghost Value = { List Instruction };

    ghost coded = { coded_list instruction.the_row.coded };

    ghost view = { λ e. reverse e.reversed.items };
}

impl Emitted {
    pub(crate) fn new(alloc: Global) -> Emitted
        ensures { result ≡ [] }
    {
        Emitted {
            reversed: Vec::new(alloc),
            alloc,
        }
    }

    /// A text again, for an instruction.
    pub(crate) fn copy(&self, text: &Text) -> Result<Text, NoMemory>
        ensures { IfOk result (λ t. t ≡ text.now) }
    {
        text.copy(self.alloc)
    }

    /// That with which memory is taken.
    pub(crate) fn alloc(&self) -> Global {
        self.alloc
    }

    /// Puts an instruction before what is there.
    pub(crate) fn put(&mut self, instruction: Instruction) -> Result<(), NoMemory>
        ensures { OnOk result (self.new ≡ instruction ∷ self.old) }
    {
        self.reversed.push(instruction)?;
        Ok(())
    }

    /// How many instructions there are.
    pub(crate) fn len(&self) -> usize
        ensures { result ≡ length self.now }
    {
        self.reversed.len()
    }

    /// How many instructions a jump passes that is put before what is there and leads out of it.
    pub(crate) fn distance(&self, exit: Exit) -> usize
        ensures { result ≡ length self.now + beyond exit }
    {
        match exit {
            Exit::Next => self.reversed.len(),
            Exit::Missed => self.reversed.len() + 1,
            Exit::Left => self.reversed.len() + 2,
        }
    }

    /// Puts a piece of code before what is there.
    #[tactic(auto, using(crate::proofs::Loops::reverse_both))]
    pub(crate) fn put_all(&mut self, piece: Emitted) -> Result<(), NoMemory>
        ensures { OnOk result (self.new ≡ piece ++ self.old) }
    {
        let Emitted { mut reversed, .. } = piece;
        self.reversed.append(&mut reversed)?;
        Ok(())
    }

    /// Puts what takes values away that stand below the top one, so many.
    pub(crate) fn put_drops(&mut self, count: usize) -> Result<(), NoMemory>
        ensures { OnOk result (self.new ≡ drops count self.old) }
    {
        for _ in 0..count {
            self.put(Instruction::DropUnder)?;
        }
        Ok(())
    }

    /// Puts what takes the top values away, so many.
    pub(crate) fn put_drops_top(&mut self, count: usize) -> Result<(), NoMemory>
        ensures { OnOk result (self.new ≡ drops_top count self.old) }
    {
        for _ in 0..count {
            self.put(Instruction::DropTop)?;
        }
        Ok(())
    }

    /// The code, its first instruction first.
    pub(crate) fn finish(self) -> Code
        ensures { result ≡ self }
    {
        let Emitted { mut reversed, .. } = self;
        reversed.as_mut_slice().reverse();
        Items::from_vec(reversed)
    }
}
