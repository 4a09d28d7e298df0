//! Why a class file is refused.

use text_reading::Stop;

/// Why a class file is refused. At one place the first of these that holds is the reason.
#[derive(Clone, Copy, Debug, PartialEq, Eq)]
pub enum ClassWhy {
    /// A byte that a class file may not have: other than 9, 10, 13 and 32 to 126.
    NotAscii,
    /// The file ends, but the grammar goes on.
    UnexpectedEnd,
    /// A token that can't follow what stands before it.
    UnexpectedToken,
    /// A class's name over 60 bytes, or another name over 31.
    NameTooLong,
    /// A number with more than 18 digits behind its leading zeros.
    NumberTooLong,
    /// A class whose own name has no dot.
    NoPackage,
    /// A form of Caché's class files that this profile leaves out.
    LeftOut,
    /// A second property, index or method of one name in a class.
    RepeatedMember,
    /// More than a limit: classes, properties, indexes, methods, arguments, properties of an index, bytes of a string.
    TooMany,
}

/// What ends the reading of a class file.
pub type ClassStop = Stop<ClassWhy>;
