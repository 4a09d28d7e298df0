//! What the tokens before tell of the next one.

ghost use Rattle.std.specs.Prelude.{◌≡◌};
ghost use Rattle.class_tokens.specs.ClassModes as spec;

use crate::token::Kind;

/// Where the next token stands.
#[derive(Clone, Copy, Debug, PartialEq, Eq)]
pub enum At {
    /// Outside the braces of a class.
    Outside,
    /// Directly behind the word `Class`.
    OwnName,
    /// Where a member may begin.
    Member,
    /// In a member.
    Inside,
    /// In the head of a storage block.
    InStorage,
}

/// What stands directly before the next token.
#[derive(Clone, Copy, Debug, PartialEq, Eq)]
pub enum Joint {
    /// A blank, a comment or nothing.
    Apart,
    /// A token other than a dot of a name.
    Joined,
    /// A dot of a name.
    Dotted,
    /// A blank or a comment behind a dot of a name.
    Torn,
}

/// What the tokens before tell of the next one; `equals` says that the last one was `=`.
#[derive(Clone, Copy, Debug, PartialEq, Eq)]
pub struct Mode {
    pub at: At,
    pub joint: Joint,
    pub equals: bool,
}

fn at_after(at: At, equals: bool, kind: Kind) -> At
    ensures { result ≡ spec.at_after at equals kind }
{
    match at {
        At::Outside => match kind {
            Kind::Class => At::OwnName,
            Kind::LBrace => At::Member,
            _ => At::Outside,
        },
        At::OwnName => match kind {
            Kind::LBrace => At::Member,
            _ => At::Outside,
        },
        At::Member => match kind {
            Kind::Storage => At::InStorage,
            Kind::RBrace => At::Outside,
            Kind::Semicolon | Kind::Block => At::Member,
            _ => At::Inside,
        },
        At::Inside => match kind {
            Kind::Semicolon => At::Member,
            Kind::RBrace => At::Outside,
            Kind::Block => if equals { At::Inside } else { At::Member },
            _ => At::Inside,
        },
        At::InStorage => match kind {
            Kind::Block => At::Member,
            Kind::RBrace => At::Outside,
            _ => At::InStorage,
        },
    }
}

fn joint_after(joint: Joint, kind: Kind) -> Joint
    ensures { result ≡ spec.joint_after joint kind }
{
    match kind {
        Kind::Blank => match joint {
            Joint::Dotted | Joint::Torn => Joint::Torn,
            _ => Joint::Apart,
        },
        Kind::Dot => Joint::Dotted,
        _ => Joint::Joined,
    }
}

/// The mode behind a token of this kind; a blank leaves all but the joint.
#[tactic(auto, unfolding(crate::specs::ClassModes::after))]
pub fn after(mode: Mode, kind: Kind) -> Mode
    ensures { result ≡ spec.after mode kind }
{
    let joint = joint_after(mode.joint, kind);
    match kind {
        Kind::Blank => Mode {
            at: mode.at,
            joint,
            equals: mode.equals,
        },
        Kind::Equals => Mode {
            at: at_after(mode.at, mode.equals, kind),
            joint,
            equals: true,
        },
        _ => Mode {
            at: at_after(mode.at, mode.equals, kind),
            joint,
            equals: false,
        },
    }
}
