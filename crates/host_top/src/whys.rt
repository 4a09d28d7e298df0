ghost use Rattle.std.specs.Prelude.{◌≡◌};
ghost use Rattle.host_top.specs.Whys.{class_why_text as class_text_of, link_why_text as link_text_of};

use class_link::LinkWhy;
use class_reader::ClassWhy;

/// The word that a message has for the reason why a class file is refused.
pub(crate) fn class_why_text(why: ClassWhy) -> &'static [u8]
    ensures { result.now ≡ class_text_of why }
{
    match why {
        ClassWhy::NotAscii => b"NotAscii",
        ClassWhy::UnexpectedEnd => b"UnexpectedEnd",
        ClassWhy::UnexpectedToken => b"UnexpectedToken",
        ClassWhy::NameTooLong => b"NameTooLong",
        ClassWhy::NumberTooLong => b"NumberTooLong",
        ClassWhy::NoPackage => b"NoPackage",
        ClassWhy::LeftOut => b"LeftOut",
        ClassWhy::RepeatedMember => b"RepeatedMember",
        ClassWhy::TooMany => b"TooMany",
    }
}

/// The word that a message has for the reason why a class can't be linked.
pub(crate) fn link_why_text(why: LinkWhy) -> &'static [u8]
    ensures { result.now ≡ link_text_of why }
{
    match why {
        LinkWhy::RepeatedClass => b"RepeatedClass",
        LinkWhy::UnknownSuper => b"UnknownSuper",
        LinkWhy::SuperRing => b"SuperRing",
        LinkWhy::KindClash => b"KindClash",
        LinkWhy::UnknownType => b"UnknownType",
        LinkWhy::BadType => b"BadType",
        LinkWhy::SerialRing => b"SerialRing",
        LinkWhy::NotYet => b"NotYet",
        LinkWhy::NoInverse => b"NoInverse",
        LinkWhy::UnknownIndexProperty => b"UnknownIndexProperty",
        LinkWhy::BadIndexProperty => b"BadIndexProperty",
        LinkWhy::NameClash => b"NameClash",
        LinkWhy::BadParameter => b"BadParameter",
        LinkWhy::TooMany => b"TooMany",
    }
}
