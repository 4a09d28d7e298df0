use obj_kinds::{ClassName, NoMemory};

/// Why a class can't be linked.
#[derive(Clone, Copy, Debug, PartialEq, Eq)]
pub enum LinkWhy {
    /// An earlier class has the same name.
    RepeatedClass,
    /// A superclass is neither listed nor one of the three system classes; a later one that begins with `%` is skipped.
    UnknownSuper,
    /// The class is below itself.
    SuperRing,
    /// A superclass other than the first is persistent, or a property is declared again with another kind.
    KindClash,
    /// The class that a property names is unknown.
    UnknownType,
    /// A property has a type that its class can't hold, or a relationship stands outside the persistent classes.
    BadType,
    /// A serial class contains itself, or serial parts nest more than 4 deep.
    SerialRing,
    /// A cardinality is `parent` or `children`.
    NotYet,
    /// The other side of a relationship isn't declared so that both fit.
    NoInverse,
    /// An index names no property of its class.
    UnknownIndexProperty,
    /// An index names a serial part, a collection or a many side.
    BadIndexProperty,
    /// Two indexes of one extent have one name, or two names below one row would.
    NameClash,
    /// A parameter of a property isn't a whole number or empty, or `MAXLEN` is below 1.
    BadParameter,
    /// A limit is passed.
    TooMany,
}

/// Why no schema was made.
#[derive(Debug, Drop)]
pub enum LinkError {
    /// The first class in order with a reason of the earliest group, and the first such reason of that class.
    BadLink { class: ClassName, why: LinkWhy },
    NoMemory,
}

impl From<NoMemory> for LinkError {
    ghost use Rattle.std.specs.Prelude.{◌≡◌};
    ghost use Rattle.class_link.specs.declared.error.LinkError.TheVariants.{NoMemory};

    ghost from_gives = { λ _ e. e ≡ NoMemory };

    fn from(_: NoMemory) -> LinkError {
        LinkError::NoMemory
    }
}
