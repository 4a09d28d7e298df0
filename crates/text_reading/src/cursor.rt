//! A cursor over the tokens of a text, which cuts each as it is reached.

ghost use Rattle.std.specs.Prelude.{◌≡◌, ◌≢◌, [], ◌<◌, ◌≤◌, ◌^◌, length, IfOk, Ok, drop, true, false, Option, Some};
ghost use Rattle.text_reading.specs.declared.stop.Stop.TheVariants as stop;
ghost use Rattle.text_reading.specs.Tokens.{head_kind, head_text, left, behind, at_left};
ghost use Rattle.text_reading.specs.Parsing.{Reads, sees, next};
ghost use Rattle.text_reading.specs.PhraseReading.{IfFails, pick_if, marks};
ghost use Rattle.text_reading.specs.Lexing.{tokens};

use crate::lexer::Lexer;
use crate::stop::{Refusal, Stop};
use obj_kinds::NoMemory;
use std::alloc::Global;
use std::marker::{Model, PhantomData};

/// What is left of a text: contracts see the list of its tokens.
#[derive(Drop)]
pub struct Cursor<'a, K: Copy, W, L: Lexer<K, W>> {
    ahead: &'a [u8],
    lexer: L,
    kind: K,
    length: usize,
    why: PhantomData<W>,
}

impl<'a, K: Copy, W, L: Lexer<K, W>> Model for Cursor<'a, K, W, L> {
    ghost use Rattle.text_reading.specs.Tokens.{Toks};
    ghost use Rattle.text_reading.specs.Lexing.{tokens, IsReady};

    ghost Value = { Toks K };

    ghost view = { λ c. tokens L.cuts L.onward L.blank c.lexer c.ahead.now };

    ghost invariant = { λ c. IsReady L.cuts L.blank c.lexer c.ahead.now c.kind c.length };
}

impl<'a, K: Copy, W, L: Lexer<K, W>> Cursor<'a, K, W, L> {
    /// The tokens of the text from here on, where so much is known.
    pub fn new(alloc: Global, lexer: L, text: &'a [u8]) -> Result<Cursor<'a, K, W, L>, NoMemory>
        requires { length text.now < 2 ^ 62 }
        ensures { IfOk result (λ cursor. cursor ≡ tokens L.cuts L.onward L.blank lexer text.now) }
    {
        let mut ahead = text;
        let mut now = lexer;
        'blanks: loop {
            let (kind, length) = now.cut(alloc, ahead)?;
            if !L::is_blank(kind) {
                return Ok(Cursor {
                    ahead,
                    lexer: now,
                    kind,
                    length,
                    why: PhantomData,
                });
            }
            now = now.onward(kind);
            ahead = &ahead[length..];
        }
    }

    /// The kind of the next token.
    pub fn peek(&self) -> K
        ensures { result ≡ head_kind L.tongue self.now }
    {
        self.kind
    }

    /// The bytes of the next token.
    pub fn spelling(&self) -> &'a [u8]
        ensures { result.now ≡ head_text self.now }
    {
        let (spelling, _) = self.ahead.split_at(self.length);
        spelling
    }

    /// Passes over the next token, and answers its bytes; it fails only for want of memory.
    pub fn take(&mut self, alloc: Global) -> Result<&'a [u8], NoMemory>
        ensures text { IfOk result (λ text. text.now ≡ head_text self.old) }
        ensures rest { IfOk result (λ _. self.new ≡ drop 1 self.old) }
    {
        let (spelling, text) = self.ahead.split_at(self.length);
        let next = Cursor::new(alloc, self.lexer.onward(self.kind), text)?;
        *self = next;
        Ok(spelling)
    }

    /// Whether no token is left.
    pub fn is_empty(&self) -> bool
        ensures done { result ≡ true → self.now ≡ [] }
        ensures more { result ≡ false → self.now ≢ [] }
    {
        self.ahead.is_empty()
    }

    /// How many bytes there are from the next token on.
    pub fn left(&self) -> usize
        ensures { result ≡ left self.now }
    {
        self.ahead.len()
    }

    /// How many bytes there are behind the next token's.
    pub fn behind(&self) -> usize
        ensures { result ≡ behind self.now }
    {
        self.ahead.len() - self.length
    }

    /// The refusal of the next token where no text goes on with it.
    pub fn refuse(&self) -> Stop<W>
        ensures { result ≡ stop.Refused (L.tongue.refusal self.now) }
    {
        Stop::Refused(L::refusal(self.peek(), self.left(), self.behind()))
    }

    /// The refusal of the next token for this reason.
    pub fn stop_at(&self, why: W) -> Stop<W>
        ensures { result ≡ stop.Refused (at_left why (left self.now)) }
    {
        Stop::Refused(Refusal {
            why,
            left: self.left(),
        })
    }

    /// Whether the next token is of this kind.
    #[tactic(auto, unfolding(crate::specs::Parsing::sees))]
    pub fn sees(&self, kind: K) -> bool
        ensures { result ≡ sees L.tongue kind self.now }
    {
        L::same(self.peek(), kind)
    }
}

impl<'a, K: Copy, W: Copy, L: Lexer<K, W>> Cursor<'a, K, W, L> {
    /// The limit that the next token meets wherever it stands, before those of its place.
    fn own(&self) -> Option<Refusal<W>>
        ensures { result ≡ L.tongue.own (next L.tongue self.now) }
    {
        L::own(self.peek(), self.left(), self.behind())
    }

    /// The limit that the next token meets wherever it stands, behind those of its place.
    fn late(&self) -> Option<Refusal<W>>
        ensures { result ≡ L.tongue.late (next L.tongue self.now) }
    {
        L::late(self.peek(), self.left(), self.behind())
    }

    /// Passes over the next token where it can stand, and meets neither this limit nor one that it has wherever it
    /// stands, and answers its bytes.
    pub fn pick(&mut self, alloc: Global, can: bool, limit: Option<W>) -> Result<&'a [u8], Stop<W>>
        ensures taken { IfOk result (λ text. (pick_if L.tongue can limit self.old ≡ Ok (next L.tongue self.old, self.new)) × (text.now ≡ head_text self.old)) }
        ensures refused { IfFails result (pick_if L.tongue can limit self.old) }
    {
        if !can {
            return Err(self.refuse());
        }
        if let Some(refusal) = self.own() {
            return Err(Stop::Refused(refusal));
        }
        if let Some(why) = limit {
            return Err(self.stop_at(why));
        }
        if let Some(refusal) = self.late() {
            return Err(Stop::Refused(refusal));
        }
        let spelling = self.take(alloc)?;
        Ok(spelling)
    }

    /// Passes over a token of this kind.
    #[tactic(auto, unfolding(crate::specs::Phrases::limited, crate::specs::Parsing::pick))]
    pub fn mark(&mut self, alloc: Global, kind: K) -> Result<(), Stop<W>>
        ensures { Reads (marks L.tongue kind self.old) result self.new }
    {
        let can = L::same(self.peek(), kind);
        self.pick(alloc, can, None)?;
        Ok(())
    }
}
