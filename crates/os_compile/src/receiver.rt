//! What stands before a method.

ghost use Rattle.std.specs.Prelude.{◌≡◌, IfOk, map};
ghost use Rattle.os_meaning.specs.Tree.{expr_of, own_by};
ghost use Rattle.os_compile.specs.Chains.{member_of, receiver, receiver_after, receiver_behind};

use obj_kinds::{NoMemory, Text};
use os_kinds::{Expression, Member};
use std::alloc::Global;

/// What a method is called of: a method of a property is one of its value, or one of the collection that it is.
#[derive(Debug, Drop)]
pub(crate) enum Receiver {
    /// The value of an expression.
    Value,
    /// A property of an object.
    Property(Text),
    /// A property of the object whose method runs.
    OwnProperty(Text),
}

impl Receiver {
    fn copy(&self, alloc: Global) -> Result<Receiver, NoMemory>
        ensures { IfOk result (λ r. r ≡ self.now) }
    {
        match self {
            Receiver::Value => Ok(Receiver::Value),
            Receiver::Property(name) => Ok(Receiver::Property(name.copy(alloc)?)),
            Receiver::OwnProperty(name) => Ok(Receiver::OwnProperty(name.copy(alloc)?)),
        }
    }

    /// The receiver that a member is for the next one.
    #[tactic(auto, using(crate::proofs::Trees::member_is))]
    pub(crate) fn after(member: &Member, alloc: Global) -> Result<Receiver, NoMemory>
        ensures { IfOk result (λ r. r ≡ receiver_after (member_of member.now)) }
    {
        match &member.args {
            None => Ok(Receiver::Property(member.name.copy(alloc)?)),
            Some(_) => Ok(Receiver::Value),
        }
    }

    /// The receiver behind these members, where the first one is a member of this one.
    #[tactic(auto, using(crate::proofs::Chains::behind_last))]
    pub(crate) fn behind(&self, members: &[Member], alloc: Global) -> Result<Receiver, NoMemory>
        ensures { IfOk result (λ r. r ≡ receiver_behind self.now (map member_of members.now)) }
    {
        match members.split_last() {
            Some((last, _)) => Receiver::after(last, alloc),
            None => self.copy(alloc),
        }
    }

    /// The receiver that a member of the object whose method runs is.
    #[tactic(auto, using(crate::proofs::Trees::member_is))]
    fn own(member: &Member, alloc: Global) -> Result<Receiver, NoMemory>
        ensures { IfOk result (λ r. r ≡ receiver (own_by (member_of member.now).name (member_of member.now).args)) }
    {
        match &member.args {
            None => Ok(Receiver::OwnProperty(member.name.copy(alloc)?)),
            Some(_) => Ok(Receiver::Value),
        }
    }

    /// The receiver that an expression is.
    #[cycle(receivers)]
    #[tactic(auto, using(crate::proofs::Trees::literal_is, crate::proofs::Trees::value_is, crate::proofs::Trees::special_is, crate::proofs::Trees::this_is, crate::proofs::Trees::function_is, crate::proofs::Trees::data_is, crate::proofs::Trees::order_is, crate::proofs::Trees::class_call_is, crate::proofs::Trees::own_is, crate::proofs::Chains::get_receiver, crate::proofs::Chains::increment_receiver, crate::proofs::Chains::members_receiver, crate::proofs::Chains::signed_receiver, crate::proofs::Chains::operations_receiver))]
    pub(crate) fn of(expression: &Expression, alloc: Global) -> Result<Receiver, NoMemory>
        ensures { IfOk result (λ r. r ≡ receiver (expr_of expression.now)) }
    {
        match expression {
            Expression::Literal(_)
            | Expression::Value(_)
            | Expression::Special(_)
            | Expression::This
            | Expression::Function(..)
            | Expression::Get(..)
            | Expression::Data(_)
            | Expression::Order(_)
            | Expression::Increment(..)
            | Expression::ClassCall { .. } => Ok(Receiver::Value),
            Expression::Own(member) => Receiver::own(member, alloc),
            Expression::Members(object, members) => {
                let object = Receiver::of(object.get(), alloc)?;
                object.behind(members.as_slice(), alloc)
            }
            Expression::Signed(signs, operand) => match signs.as_slice().split_first() {
                None => Receiver::of(operand.get(), alloc),
                Some(_) => Ok(Receiver::Value),
            },
            Expression::Operations(left, operations) => match operations.as_slice().split_first() {
                None => Receiver::of(left.get(), alloc),
                Some(_) => Ok(Receiver::Value),
            },
        }
    }
}
