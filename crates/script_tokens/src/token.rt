//! The kinds of token of a script.

ghost use Rattle.std.specs.Prelude.{◌≡◌};
ghost use Rattle.script_tokens.specs.ScriptKinds as spec;

/// A kind of token.
#[derive(Clone, Copy, Debug, PartialEq, Eq)]
pub enum Kind {
    End,
    /// Blanks and comments, which are passed over.
    Blank,
    /// A blank or comment behind a command that lacks its argument; it is passed over too.
    Lacking,
    NotAscii,
    /// A comment that is left open.
    OpenComment,
    Other,
    Newline,
    Name,
    /// A name with `%` before it, behind a dot.
    Percent,
    ClassName,
    GlobalName,
    /// A word where a command may stand, which is none.
    UnknownCommand,
    Digits,
    /// The digit `1` alone.
    One,
    /// More than 18 digits behind the leading zeros.
    LongDigits,
    Text,
    /// The string `"S"`.
    Shared,
    /// A string that is left open.
    OpenText,
    /// A string that ends at a byte which may not stand anywhere.
    BadText,
    /// `(` where an operand may stand.
    Open,
    /// `(` behind an operand.
    OpenArgs,
    Close,
    LBrace,
    RBrace,
    Comma,
    Colon,
    Equals,
    /// Signs, where an operand may stand.
    Plus,
    Minus,
    Not,
    /// Operators, behind an operand.
    Add,
    Subtract,
    Multiply,
    Quotient,
    Modulo,
    Join,
    Less,
    Greater,
    AtMost,
    AtLeast,
    Contains,
    Follows,
    And,
    Or,
    NotEqual,
    NotLess,
    NotGreater,
    NotContains,
    NotFollows,
    AndThen,
    OrElse,
    /// `!` where an operand may stand.
    Line,
    Dot,
    /// `..`
    Own,
    Caret,
    /// `##class(`
    ClassOpen,
    /// `).` behind the name of a class.
    ClassClose,
    /// `%objlasterror`
    LastError,
    /// `$TEST`
    Test,
    /// `$TLEVEL`
    Level,
    /// `$THIS`
    This,
    Get,
    Data,
    Order,
    Increment,
    Length,
    Extract,
    Piece,
    Find,
    Ascii,
    Char,
    ListBuild,
    List,
    ListLength,
    /// `$` and a name that is none of a function.
    UnknownFunction,
    Set,
    Write,
    Do,
    Quit,
    Kill,
    Lock,
    TStart,
    TCommit,
    TRollback,
    Halt,
    If,
    ElseIf,
    Else,
    For,
    While,
}

/// Whether the kinds are the same.
#[tactic(auto, unfolding(crate::specs::ScriptKinds::same_kind))]
pub fn same_kind(a: Kind, b: Kind) -> bool
    ensures { result ≡ spec.same_kind a b }
{
    a == b
}
