//! Kinds of tokens of a class file.

ghost use Rattle.std.specs.Prelude.{◌≡◌};
ghost use Rattle.class_tokens.specs.ClassKinds as spec;

/// A kind of token. The quoted words of the grammar are kinds of their own; each of them is a word like any other
/// where a word is wanted.
#[derive(Clone, Copy, Debug, PartialEq, Eq)]
pub enum Kind {
    /// No token is left.
    End,
    /// Blanks and comments, which are passed over.
    Blank,
    /// A byte that a class file may not have.
    NotAscii,
    /// A comment that is left open.
    OpenComment,
    /// What stands in no rule.
    Other,
    /// A letter followed by letters and digits.
    Name,
    /// A name behind `%`.
    Percent,
    /// The word behind `Class`, where no dot follows it.
    Bare,
    /// A word behind `=`, where no dot follows it.
    Lone,
    Class,
    Extends,
    Not,
    Property,
    As,
    List,
    Array,
    Of,
    Relationship,
    Index,
    On,
    Parameter,
    Method,
    ClassMethod,
    Storage,
    /// The first word of a member that this profile leaves out.
    LeftOut,
    /// A dot directly behind another token.
    Dot,
    Comma,
    Semicolon,
    Equals,
    Minus,
    LParen,
    RParen,
    LBracket,
    RBracket,
    LBrace,
    RBrace,
    Digits,
    /// More than 18 digits behind the leading zeros.
    LongDigits,
    Text,
    /// A string that is left open.
    OpenText,
    /// A string up to a byte that a class file may not have.
    BadText,
    /// A method's body, a storage block or a value in braces or parentheses, with the brackets around it.
    Block,
    /// A block that is left open.
    OpenBlock,
    /// A block up to a byte that a class file may not have.
    BadBlock,
    /// A value in brackets up to a bracket that pairs with none.
    TornBlock,
}

/// Whether it is a word, with or without `%`.
#[tactic(auto, unfolding(crate::specs::ClassKinds::is_word))]
pub fn is_word(kind: Kind) -> bool
    ensures { result ≡ spec.is_word kind }
{
    is_name(kind) || matches!(kind, Kind::Percent | Kind::Lone)
}

/// Whether it is a name: a word without `%`.
#[tactic(auto, unfolding(crate::specs::ClassKinds::is_name))]
pub fn is_name(kind: Kind) -> bool
    ensures { result ≡ spec.is_name kind }
{
    matches!(kind, Kind::Name) || is_head_word(kind) || is_type_word(kind) || is_member_word(kind)
}

fn is_head_word(kind: Kind) -> bool
    ensures { result ≡ spec.is_head_word kind }
{
    matches!(kind, Kind::Class | Kind::Extends | Kind::Not | Kind::On)
}

fn is_type_word(kind: Kind) -> bool
    ensures { result ≡ spec.is_type_word kind }
{
    matches!(kind, Kind::As | Kind::List | Kind::Array | Kind::Of)
}

/// Whether a member begins with it.
pub fn is_member_word(kind: Kind) -> bool
    ensures { result ≡ spec.is_member_word kind }
{
    matches!(
        kind,
        Kind::Property
            | Kind::Relationship
            | Kind::Index
            | Kind::Parameter
            | Kind::Method
            | Kind::ClassMethod
            | Kind::Storage
            | Kind::LeftOut
    )
}

/// Whether a class's own name may begin with it, but for its missing package.
#[tactic(auto, unfolding(crate::specs::ClassKinds::is_own_word))]
pub fn is_own_word(kind: Kind) -> bool
    ensures { result ≡ spec.is_own_word kind }
{
    is_word(kind) || matches!(kind, Kind::Bare)
}

/// Whether it is a number, of any length.
pub fn is_number(kind: Kind) -> bool
    ensures { result ≡ spec.is_number kind }
{
    matches!(kind, Kind::Digits | Kind::LongDigits)
}

/// Whether it is a string, whole or not.
pub fn is_text(kind: Kind) -> bool
    ensures { result ≡ spec.is_text kind }
{
    matches!(kind, Kind::Text | Kind::OpenText | Kind::BadText)
}

/// Whether it is a block, whole or not.
pub fn is_block(kind: Kind) -> bool
    ensures { result ≡ spec.is_block kind }
{
    matches!(
        kind,
        Kind::Block | Kind::OpenBlock | Kind::BadBlock | Kind::TornBlock
    )
}

#[tactic(auto, unfolding(crate::specs::ClassKinds::same_kind))]
pub fn same_kind(a: Kind, b: Kind) -> bool
    ensures { result ≡ spec.same_kind a b }
{
    a == b
}
