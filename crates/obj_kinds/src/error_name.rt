ghost use Rattle.std.specs.Prelude.{◌≡◌};
ghost use Rattle.obj_kinds.specs.ErrorNames.{error_text};

/// The name of a script error, after the errors of ObjectScript.
#[derive(Clone, Copy, Debug, PartialEq, Eq)]
pub enum ErrorName {
    /// A variable or global without value is read.
    Undefined,
    /// A member is asked of what is no object.
    InvalidOref,
    PropertyDoesNotExist,
    MethodDoesNotExist,
    ClassDoesNotExist,
    /// A property gets what it can't hold.
    CannotSetThisProperty,
    /// More arguments are given than the method has.
    Parameter,
    /// A commit without a transaction.
    Command,
    /// 255 levels of transaction are open.
    TransactionLevel,
    Subscript,
    MaxString,
    MaxNumber,
    Divide,
    Function,
    /// A list stands where a text or number is needed, or the other way round.
    List,
    /// A list has no such item.
    NullValue,
    IllegalValue,
    /// A call would be the 65th frame.
    FrameStack,
}

impl ErrorName {
    /// The name as a report has it, in its angle brackets.
    pub fn text(self) -> &'static [u8]
        ensures { result.now ≡ error_text self }
    {
        match self {
            ErrorName::Undefined => b"<UNDEFINED>",
            ErrorName::InvalidOref => b"<INVALID OREF>",
            ErrorName::PropertyDoesNotExist => b"<PROPERTY DOES NOT EXIST>",
            ErrorName::MethodDoesNotExist => b"<METHOD DOES NOT EXIST>",
            ErrorName::ClassDoesNotExist => b"<CLASS DOES NOT EXIST>",
            ErrorName::CannotSetThisProperty => b"<CANNOT SET THIS PROPERTY>",
            ErrorName::Parameter => b"<PARAMETER>",
            ErrorName::Command => b"<COMMAND>",
            ErrorName::TransactionLevel => b"<TRANSACTION LEVEL>",
            ErrorName::Subscript => b"<SUBSCRIPT>",
            ErrorName::MaxString => b"<MAXSTRING>",
            ErrorName::MaxNumber => b"<MAXNUMBER>",
            ErrorName::Divide => b"<DIVIDE>",
            ErrorName::Function => b"<FUNCTION>",
            ErrorName::List => b"<LIST>",
            ErrorName::NullValue => b"<NULL VALUE>",
            ErrorName::IllegalValue => b"<ILLEGAL VALUE>",
            ErrorName::FrameStack => b"<FRAMESTACK>",
        }
    }
}
