//! Limits, at a token's first byte.

ghost use Rattle.std.specs.Prelude.{◌≡◌, length};
ghost use Rattle.class_reader.specs.ClassGrammar as spec;

use class_tokens::ClassWhy;

/// How many bytes a name may have.
pub const MAX_NAME: usize = 31;
/// How many bytes a class's name may have.
pub const MAX_CLASS_NAME: usize = 60;

/// The reason, where the test holds, and else a later one.
pub fn where_holds(test: bool, reason: ClassWhy, later: Option<ClassWhy>) -> Option<ClassWhy>
    ensures { result ≡ spec.where_holds test reason later }
{
    if test { Some(reason) } else { later }
}

/// Left out, where it is barred.
pub fn barred(test: bool) -> Option<ClassWhy>
    ensures { result ≡ spec.barred test }
{
    where_holds(test, ClassWhy::LeftOut, None)
}

/// Too many, where nothing more has room.
pub fn full(test: bool) -> Option<ClassWhy>
    ensures { result ≡ spec.full test }
{
    where_holds(test, ClassWhy::TooMany, None)
}

/// Too long a name, where it has more bytes than this.
pub fn longer(most: usize, name: &[u8]) -> Option<ClassWhy>
    ensures { result ≡ spec.longer most name.now }
{
    where_holds(name.len() > most, ClassWhy::NameTooLong, None)
}
