use load_plan::{LoadPlan, RaisePlan};
use obj_kinds::Cause;
use oref_table::Oref;
use schema_kinds::{Key, Record, Schema};

/// A record that was read, of which an object is to be made.
#[derive(Drop)]
pub struct Found<'s> {
    pub schema: &'s Schema,
    pub key: Key,
    /// The level of concurrency that the object is opened at.
    pub level: u8,
    pub read: Record,
}

/// A live object that is being raised.
#[derive(Drop)]
pub struct Raising {
    pub plan: RaisePlan,
    pub oref: Oref,
}

/// A live object that may have its level.
#[derive(Drop)]
pub struct Raised {
    pub oref: Oref,
    pub key: Key,
    /// The level that it has.
    pub from: u8,
    /// The level that is wanted.
    pub to: u8,
}

/// What an opening waits for.
#[derive(Drop)]
pub enum Phase<'s> {
    /// What its load waits for.
    Loading(LoadPlan<'s>),
    /// Nothing: an object is to be made.
    Found(Found<'s>),
    /// What the raise of the live object waits for.
    Raising(Raising),
    /// Nothing: the live object may have its level.
    Raised(Raised),
    /// Nothing: no object is opened, and this is why.
    Refused(Cause),
    /// Nothing: the answer was handed out. The record of which an object was made, where one was made.
    Opened(Option<Record>),
}
