ghost use Rattle.std.specs.Prelude.{◌≡◌, [], ◌<◌, ◌↔◌, IfOk, IsTrue, length};
ghost use Rattle.std.specs.Char.{is_ascii};
ghost use Rattle.std.specs.List.{list_all};
ghost use Rattle.obj_kinds.specs.Subscript.{sub_of};
ghost use Rattle.obj_kinds.specs.Limits.{is_sub_text, is_legal_sub};
ghost use Rattle.obj_kinds.specs.SubOrder.{sub_cmp};

use crate::memory::NoMemory;
use crate::text::{Text, are_ascii};
use crate::whole::{is_whole, whole_number};
use sqlite_items::Items;
use std::alloc::Global;
use std::cmp::Ordering;

/// A subscript of a node: a canonical whole number, or any other text.
#[derive(Debug, Drop)]
pub enum Sub {
    Num(i64),
    Str(Text),
}

/// The subscripts of a node, in order.
pub type Subs = Items<Sub>;

/// Why a text is no subscript.
#[derive(Clone, Copy, Debug, PartialEq, Eq)]
pub enum SubError {
    /// It has no byte.
    Empty,
    /// It has more than [`Sub::MAX_LEN`] bytes.
    TooLong,
    NoMemory,
}

impl From<NoMemory> for SubError {
    ghost use Rattle.std.specs.Prelude.{◌≡◌};
    ghost use Rattle.obj_kinds.specs.declared.sub.SubError.TheVariants.{NoMemory};

    ghost from_gives = { λ _ e. e ≡ NoMemory };

    fn from(_: NoMemory) -> SubError {
        SubError::NoMemory
    }
}

#[tactic(auto, unfolding(crate::specs::Limits::is_sub_text))]
fn is_sub_text(text: &[u8]) -> bool
    ensures { result ≡ is_sub_text text.now }
{
    1 <= text.len() && text.len() <= Sub::MAX_LEN && are_ascii(text)
}

fn sub_in(alloc: Global, text: &[u8]) -> Result<Sub, NoMemory>
    ensures { IfOk result (λ s. s ≡ sub_of text.now) }
{
    match whole_number(text) {
        Some(number) => Ok(Sub::Num(number)),
        None => Ok(Sub::Str(Text::from_slice(alloc, text)?)),
    }
}

impl Sub {
    /// The most bytes of a subscript.
    pub const MAX_LEN: usize = 255;

    /// The subscript that a text writes: a number where the text is the canonical form of a whole
    /// number of at most 18 digits, else the text itself. It is within the limits of a subscript
    /// exactly where each byte is of ASCII.
    #[tactic(auto, using(crate::proofs::LimitLaws::legal_sub_is))]
    pub fn from_text(alloc: Global, text: &[u8]) -> Result<Sub, SubError>
        ensures sub { IfOk result (λ s. s ≡ sub_of text.now) }
        ensures legal { IfOk result (λ s. is_legal_sub s ≡ list_all is_ascii text.now) }
        ensures empty { (result ≡ Err SubError.Empty) ↔ (text.now ≡ []) }
        ensures too_long { (result ≡ Err SubError.TooLong) ↔ (Self.MAX_LEN < length text.now) }
    {
        if text.is_empty() {
            return Err(SubError::Empty);
        }
        if text.len() > Self::MAX_LEN {
            return Err(SubError::TooLong);
        }
        let sub = sub_in(alloc, text)?;
        Ok(sub)
    }

    /// Whether it is within the limits of a subscript: what [`Sub::from_text`] answers for a text of
    /// 1 to [`Sub::MAX_LEN`] bytes of ASCII.
    #[tactic(auto, unfolding(crate::specs::Limits::is_legal_sub))]
    pub fn is_legal(&self) -> bool
        ensures { result ≡ is_legal_sub self.now }
    {
        match self {
            Sub::Num(number) => is_whole(*number),
            Sub::Str(text) => {
                let text = text.as_slice();
                is_sub_text(text) && whole_number(text).is_none()
            }
        }
    }

    /// The same subscript again; it fails only for want of memory.
    pub fn copy(&self, alloc: Global) -> Result<Sub, NoMemory>
        ensures { IfOk result (λ s. s ≡ self.now) }
    {
        match self {
            Sub::Num(number) => Ok(Sub::Num(*number)),
            Sub::Str(text) => Ok(Sub::Str(text.copy(alloc)?)),
        }
    }

    /// Numbers by value, and then texts by their bytes.
    pub fn compare(&self, other: &Sub) -> Ordering
        ensures { result ≡ sub_cmp self.now other.now }
    {
        match (self, other) {
            (Sub::Num(left), Sub::Num(right)) => left.cmp(right),
            (Sub::Num(_), Sub::Str(_)) => Ordering::Less,
            (Sub::Str(_), Sub::Num(_)) => Ordering::Greater,
            (Sub::Str(left), Sub::Str(right)) => left.compare(right),
        }
    }

    /// Whether both are the same.
    #[tactic(auto, using(crate::proofs::SameLaws::sub_is_same))]
    pub fn is_same(&self, other: &Sub) -> bool
        ensures { IsTrue result ↔ (self.now ≡ other.now) }
    {
        matches!(self.compare(other), Ordering::Equal)
    }
}

impl PartialEq for Sub {
    ghost use Rattle.std.specs.Cmp.{eq_by_cmp_equiv, partial_equiv_from_equiv};
    ghost use Rattle.std.specs.Ordering.{eq_by_cmp};
    ghost use Rattle.obj_kinds.specs.SubOrder.{sub_cmp};
    ghost use Rattle.obj_kinds.specs.OrderLaws.{sub_total};

    ghost eq = { eq_by_cmp sub_cmp };

    ghost laws = { partial_equiv_from_equiv (eq_by_cmp_equiv sub_total) };

    fn eq(&self, other: &Sub) -> bool {
        matches!(self.compare(other), Ordering::Equal)
    }
}

impl Eq for Sub {
    ghost use Rattle.std.specs.Cmp.{eq_by_cmp_equiv};
    ghost use Rattle.obj_kinds.specs.OrderLaws.{sub_total};

    ghost laws = { eq_by_cmp_equiv sub_total };
}

impl PartialOrd for Sub {
    ghost use Rattle.std.specs.Prelude.{Some, refl};
    ghost use Rattle.std.specs.Cmp.{po};
    ghost use Rattle.obj_kinds.specs.SubOrder.{sub_cmp};
    ghost use Rattle.obj_kinds.specs.OrderLaws.{sub_total};

    ghost partial_cmp = { λ a b. Some (sub_cmp a b) };

    ghost laws = { po sub_total (λ a b. refl) };

    fn partial_cmp(&self, other: &Sub) -> Option<Ordering> {
        Some(self.cmp(other))
    }
}

impl Ord for Sub {
    ghost use Rattle.std.specs.Prelude.{refl};
    ghost use Rattle.obj_kinds.specs.SubOrder.{sub_cmp};
    ghost use Rattle.obj_kinds.specs.OrderLaws.{sub_total};

    ghost cmp = { sub_cmp };

    ghost total = { sub_total };

    ghost matches_partial_cmp = { λ a b. refl };

    ghost matches_eq = { λ a b. refl };

    fn cmp(&self, other: &Sub) -> Ordering {
        self.compare(other)
    }
}
