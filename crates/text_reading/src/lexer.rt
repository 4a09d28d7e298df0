//! Lexers: what cuts the tokens of a text.

ghost use Rattle.std.specs.Prelude.{◌≡◌, ◌<◌, ◌≤◌, ◌^◌, ℕ, List, Bool, [], length, false, IfOk};
ghost use Rattle.text_reading.specs.Tokens.{Toks, Tongue, head_kind, left, behind};
ghost use Rattle.text_reading.specs.Parsing.{next};
ghost use Rattle.text_reading.specs.declared.stop.Refusal.{Refusal};

use crate::stop::Refusal;
use obj_kinds::NoMemory;
use std::alloc::Global;

/// What a lexer knows at a place of a text. It cuts the token that stands there.
pub trait Lexer<K, W>: Copy {
    // The kind and the length of the token at the front.
    ghost cuts: { Self → List ℕ → K × ℕ };

    // What is known behind a token of this kind.
    ghost onward: { Self → K → Self };

    // Which kinds are passed over.
    ghost blank: { K → Bool };

    // What readers know of the kinds.
    ghost tongue: { Tongue K W };

    /// The token at the front; it fails only for want of memory.
    fn cut(self, alloc: Global, text: &[u8]) -> Result<(K, usize), NoMemory>
        requires { length text.now < 2 ^ 62 }
        ensures value { IfOk result (λ cut. cut ≡ cuts self text.now) }
        ensures within { IfOk result (λ cut. cut.1 ≤ length text.now) }
        ensures moves { IfOk result (λ cut. 0 < length text.now → 1 ≤ cut.1) };

    /// What is known behind a token of this kind.
    fn onward(self, kind: K) -> Self
        ensures { result ≡ onward self kind };

    /// Whether tokens of this kind are passed over.
    fn is_blank(kind: K) -> bool
        ensures { result ≡ blank kind };

    /// Whether the kinds are the same.
    fn same(a: K, b: K) -> bool
        ensures { result ≡ tongue.same a b };

    /// The refusal of a token where no text goes on with it: `ahead` bytes stand from it on, and `beyond` behind it.
    fn refusal(kind: K, ahead: usize, beyond: usize) -> Refusal<W>
        ensures { (ts : Toks K) → head_kind tongue ts ≡ kind → left ts ≡ ahead → behind ts ≡ beyond → result ≡ tongue.refusal ts };

    /// The limit that a token meets wherever it stands, before those of its place.
    fn own(kind: K, ahead: usize, beyond: usize) -> Option<Refusal<W>>
        ensures { (ts : Toks K) → head_kind tongue ts ≡ kind → left ts ≡ ahead → behind ts ≡ beyond → result ≡ tongue.own (next tongue ts) };

    /// The limit that a token meets wherever it stands, behind those of its place.
    fn late(kind: K, ahead: usize, beyond: usize) -> Option<Refusal<W>>
        ensures { (ts : Toks K) → head_kind tongue ts ≡ kind → left ts ≡ ahead → behind ts ≡ beyond → result ≡ tongue.late (next tongue ts) };

    // At the end stands the kind of the end, which is no blank.
    ghost ends: { (m : Self) → (cuts m []).0 ≡ tongue.end };

    ghost end_stays: { blank tongue.end ≡ false };
}
