//! The lexer of scripts as readers use it.

ghost use Rattle.std.specs.Prelude.{◌≡◌, ◌<◌, ◌^◌, length, IfOk};
ghost use Rattle.script_tokens.specs.ScriptLex.{script_tokens};

use crate::error::ScriptWhy;
use crate::lex;
use crate::mode::{At, Mode, Takes, after};
use crate::pieces::Cut;
use crate::token::{Kind, same_kind};
use obj_kinds::NoMemory;
use std::alloc::Global;
use text_reading::{Lexer, Refusal};

/// What is left of a script: contracts see the list of its tokens.
pub type Cursor<'a> = text_reading::Cursor<'a, Kind, ScriptWhy, Mode>;

impl Lexer<Kind, ScriptWhy> for Mode {
    ghost use Rattle.std.specs.Prelude.{refl};
    ghost use Rattle.script_tokens.specs.ScriptLex.{token, is_blank, token_end};
    ghost use Rattle.script_tokens.specs.ScriptModes.{after};
    ghost use Rattle.script_tokens.specs.ScriptTongue.{tongue};

    ghost cuts = { token };

    ghost onward = { after };

    ghost blank = { is_blank };

    ghost tongue = { tongue };

    fn cut(self, _alloc: Global, text: &[u8]) -> Result<Cut, NoMemory> {
        Ok(lex::token(self, text))
    }

    fn onward(self, kind: Kind) -> Mode {
        after(self, kind)
    }

    fn is_blank(kind: Kind) -> bool {
        lex::is_blank(kind)
    }

    fn same(a: Kind, b: Kind) -> bool {
        same_kind(a, b)
    }

    #[tactic(auto, unfolding(crate::specs::ScriptTongue::refusal))]
    fn refusal(kind: Kind, ahead: usize, beyond: usize) -> Refusal<ScriptWhy> {
        match kind {
            Kind::End => refused(ScriptWhy::UnexpectedEnd, ahead),
            Kind::NotAscii => refused(ScriptWhy::NotAscii, ahead),
            Kind::OpenComment => refused(ScriptWhy::UnexpectedEnd, beyond),
            _ => refused(ScriptWhy::UnexpectedToken, ahead),
        }
    }

    #[tactic(auto, unfolding(crate::specs::ScriptTongue::own))]
    fn own(kind: Kind, ahead: usize, _beyond: usize) -> Option<Refusal<ScriptWhy>> {
        match kind {
            Kind::LongDigits => Some(refused(ScriptWhy::NumberTooLong, ahead)),
            Kind::UnknownFunction => Some(refused(ScriptWhy::UnknownFunction, ahead)),
            _ => None,
        }
    }

    #[tactic(auto, unfolding(crate::specs::ScriptTongue::late))]
    fn late(kind: Kind, _ahead: usize, beyond: usize) -> Option<Refusal<ScriptWhy>> {
        match kind {
            Kind::OpenText => Some(refused(ScriptWhy::UnexpectedEnd, beyond)),
            Kind::BadText => Some(refused(ScriptWhy::NotAscii, beyond)),
            _ => None,
        }
    }

    ghost ends = { token_end };

    ghost end_stays = { refl };
}

fn refused(why: ScriptWhy, left: usize) -> Refusal<ScriptWhy>
    ensures { result ≡ record { why = why; left = left } }
{
    Refusal { why, left }
}

/// All tokens of a script; it fails only for want of memory.
pub fn script_cursor(alloc: Global, text: &[u8]) -> Result<Cursor<'_>, NoMemory>
    requires { length text.now < 2 ^ 62 }
    ensures { IfOk result (λ cursor. cursor ≡ script_tokens text.now) }
{
    let start = Mode {
        at: At::Command,
        takes: Takes::Nothing,
        post: None,
    };
    Cursor::new(alloc, start, text)
}
