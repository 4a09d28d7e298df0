//! Expressions.

use crate::call::Special;
use obj_kinds::{ClassName, Text};
use sqlite_items::{Boxed, Items};

/// A sign before an operand.
#[derive(Clone, Copy, Debug, PartialEq, Eq)]
pub enum Sign {
    /// `+`: the number.
    Plus,
    /// `-`: the number with its sign turned.
    Minus,
    /// `'`: whether it doesn't hold.
    Not,
}

/// A binary operator. Operators go from left to right, without ranks; all but the last two evaluate both operands.
#[derive(Clone, Copy, Debug, PartialEq, Eq)]
pub enum Operator {
    /// `+`
    Add,
    /// `-`
    Subtract,
    /// `*`
    Multiply,
    /// `\`: the quotient, cut towards zero.
    Quotient,
    /// `#`: the rest.
    Modulo,
    /// `_`: the two texts, one behind the other.
    Join,
    /// `=`
    Equal,
    /// `<`
    Less,
    /// `>`
    Greater,
    /// `<=`
    AtMost,
    /// `>=`
    AtLeast,
    /// `[`
    Contains,
    /// `]`: comes behind, byte by byte.
    Follows,
    /// `&`
    And,
    /// `!`
    Or,
    /// `'=`
    NotEqual,
    /// `'<`
    NotLess,
    /// `'>`
    NotGreater,
    /// `'[`
    NotContains,
    /// `']`
    NotFollows,
    /// `&&`, which leaves out the right operand where the left one doesn't hold.
    AndThen,
    /// `||`, which leaves out the right operand where the left one holds.
    OrElse,
}

/// A function of its arguments' values.
#[derive(Clone, Copy, Debug, PartialEq, Eq)]
pub enum Function {
    /// `$LENGTH(t)` and `(t,d)`
    Length,
    /// `$EXTRACT(t)`, `(t,i)` and `(t,i,j)`
    Extract,
    /// `$PIECE(t,d)`, `(t,d,i)` and `(t,d,i,j)`
    Piece,
    /// `$FIND(t,u)` and `(t,u,i)`
    Find,
    /// `$ASCII(t)` and `(t,i)`
    Ascii,
    /// `$CHAR` with 1 to 16 numbers
    Char,
    /// `$LISTBUILD` with 1 to 200 values
    ListBuild,
    /// `$LIST(l)` and `(l,i)`
    List,
    /// `$LISTLENGTH(l)`
    ListLength,
}

/// A global's node; the name is without `^`.
#[cycle(expression)]
#[derive(Debug, Drop)]
pub struct GlobalReference {
    pub name: Text,
    pub subs: Items<Expression>,
}

/// What can have a value of its own: a variable or a node of a global.
#[cycle(expression)]
#[derive(Debug, Drop)]
pub enum Place {
    Variable(Text),
    Global(GlobalReference),
}

/// A member of an object: a property, or with arguments a method.
#[cycle(expression)]
#[derive(Debug, Drop)]
pub struct Member {
    pub name: Text,
    pub args: Option<Items<Expression>>,
}

/// An operator and its right operand.
#[cycle(expression)]
#[derive(Debug, Drop)]
pub struct Operation {
    pub operator: Operator,
    pub right: Expression,
}

/// An expression. Signs, members and operations in a row stand in one node, so an expression is as deep as its
/// parentheses.
#[cycle(expression)]
#[derive(Debug, Drop)]
pub enum Expression {
    /// A string, or a number without leading zeros.
    Literal(Text),
    /// The value of a variable or of a global's node.
    Value(Place),
    Special(Special),
    /// `$THIS`: the object whose method runs.
    This,
    /// A function with as many arguments as it may have.
    Function(Function, Items<Expression>),
    /// `$GET`, with what it answers where there is no value.
    Get(Place, Option<Boxed<Expression>>),
    /// `$DATA`
    Data(Place),
    /// `$ORDER` of a global's node with subscripts.
    Order(GlobalReference),
    /// `$INCREMENT`, with what is added where it isn't 1.
    Increment(Place, Option<Boxed<Expression>>),
    /// `##class(CLASS).member(args)`
    ClassCall {
        class: ClassName,
        member: Text,
        args: Items<Expression>,
    },
    /// `..member`: of the object whose method runs.
    Own(Member),
    /// The members behind an object, each of what is before it.
    Members(Boxed<Expression>, Items<Member>),
    /// Signs before an operand; the last one is applied first.
    Signed(Items<Sign>, Boxed<Expression>),
    /// The operations behind an operand, from left to right.
    Operations(Boxed<Expression>, Items<Operation>),
}
