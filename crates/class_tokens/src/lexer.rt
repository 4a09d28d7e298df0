//! The lexer of class files as readers use it.

ghost use Rattle.std.specs.Prelude.{◌≡◌, ◌<◌, ◌^◌, length, IfOk};
ghost use Rattle.class_tokens.specs.ClassLex.{file_tokens};

use crate::blocks::Cut;
use crate::error::{ClassStop, ClassWhy};
use crate::lex;
use crate::mode::{At, Joint, Mode, after};
use crate::token::{Kind, same_kind};
use obj_kinds::NoMemory;
use std::alloc::Global;
use text_reading::{Lexer, Refusal};

/// What is left of a class file: contracts see the list of its tokens.
pub type Cursor<'a> = text_reading::Cursor<'a, Kind, ClassWhy, Mode>;

impl Lexer<Kind, ClassWhy> for Mode {
    ghost use Rattle.std.specs.Prelude.{refl};
    ghost use Rattle.class_tokens.specs.ClassLex.{token, is_blank, token_end};
    ghost use Rattle.class_tokens.specs.ClassModes.{after};
    ghost use Rattle.class_tokens.specs.ClassTongue.{tongue};

    ghost cuts = { token };

    ghost onward = { after };

    ghost blank = { is_blank };

    ghost tongue = { tongue };

    fn cut(self, alloc: Global, text: &[u8]) -> Result<Cut, NoMemory> {
        lex::token(alloc, self, text)
    }

    fn onward(self, kind: Kind) -> Mode {
        after(self, kind)
    }

    fn is_blank(kind: Kind) -> bool {
        lex::is_blank(kind)
    }

    fn same(a: Kind, b: Kind) -> bool {
        same_kind(a, b)
    }

    #[tactic(auto, unfolding(crate::specs::ClassTongue::refusal))]
    fn refusal(kind: Kind, ahead: usize, beyond: usize) -> Refusal<ClassWhy> {
        match kind {
            Kind::End => refused(ClassWhy::UnexpectedEnd, ahead),
            Kind::NotAscii => refused(ClassWhy::NotAscii, ahead),
            Kind::OpenComment => refused(ClassWhy::UnexpectedEnd, beyond),
            _ => refused(ClassWhy::UnexpectedToken, ahead),
        }
    }

    #[tactic(auto, unfolding(crate::specs::ClassTongue::own))]
    fn own(kind: Kind, ahead: usize, _beyond: usize) -> Option<Refusal<ClassWhy>> {
        match kind {
            Kind::LongDigits => Some(refused(ClassWhy::NumberTooLong, ahead)),
            _ => None,
        }
    }

    #[tactic(auto, unfolding(crate::specs::ClassTongue::late))]
    fn late(kind: Kind, _ahead: usize, beyond: usize) -> Option<Refusal<ClassWhy>> {
        match kind {
            Kind::OpenText | Kind::OpenBlock => Some(refused(ClassWhy::UnexpectedEnd, beyond)),
            Kind::BadText | Kind::BadBlock => Some(refused(ClassWhy::NotAscii, beyond)),
            Kind::TornBlock => Some(refused(ClassWhy::UnexpectedToken, beyond)),
            _ => None,
        }
    }

    ghost ends = { token_end };

    ghost end_stays = { refl };
}

fn refused(why: ClassWhy, left: usize) -> Refusal<ClassWhy>
    ensures { result ≡ record { why = why; left = left } }
{
    Refusal { why, left }
}

/// All tokens of a class file; it fails only for want of memory.
pub fn file_cursor(alloc: Global, text: &[u8]) -> Result<Cursor<'_>, NoMemory>
    requires { length text.now < 2 ^ 62 }
    ensures { IfOk result (λ cursor. cursor ≡ file_tokens text.now) }
{
    let start = Mode {
        at: At::Outside,
        joint: Joint::Apart,
        equals: false,
    };
    Cursor::new(alloc, start, text)
}
