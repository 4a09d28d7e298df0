use crate::failure::Failure;
use itoa::Buffer;
use lone_process::run_script;
use obj_kinds::{NoMemory, Text};
use os_kinds::{Script, ScriptEnd};
use os_parse::{ScriptError, read_script};
use sqlite_items::Items;
use std::alloc::Global;
use store_core::Store;

/// The most that the history of a store may take.
const VOLUME: u64 = 268_435_456;

/// The most bytes of a script.
const MAX_SCRIPT: usize = 1_000;

/// What is measured: the body of a `For` of so many turns.
#[derive(Clone, Copy, PartialEq, Eq)]
pub enum Work {
    /// Nothing.
    Turns,
    /// A sum goes into a variable.
    Sums,
    /// Three functions of texts.
    Texts,
    /// A node of its own is set.
    Sets,
    /// A node is read.
    Gets,
    /// From one subscript to the next.
    Orders,
    /// One node is incremented.
    Increments,
    /// One node is locked and unlocked.
    LockPairs,
    /// One node is set in a transaction of its own.
    Transactions,
}

/// All kinds of work.
pub const WORKS: [Work; 9] = [
    Work::Turns,
    Work::Sums,
    Work::Texts,
    Work::Sets,
    Work::Gets,
    Work::Orders,
    Work::Increments,
    Work::LockPairs,
    Work::Transactions,
];

/// A body that sets a node of its own.
const SETS: &str = "Set ^n(i)=i";

impl Work {
    pub fn name(self) -> &'static str {
        match self {
            Work::Turns => "empty turns",
            Work::Sums => "sums",
            Work::Texts => "texts",
            Work::Sets => "sets",
            Work::Gets => "gets",
            Work::Orders => "orders",
            Work::Increments => "increments",
            Work::LockPairs => "lock pairs",
            Work::Transactions => "transactions",
        }
    }

    /// What stands before the loop.
    fn head(self) -> &'static str {
        match self {
            Work::Sums => "Set s=0\n",
            Work::Texts => "Set t=\"a,b,c,d\"\n",
            Work::Orders => "Set k=\"\"\n",
            _ => "",
        }
    }

    fn body(self) -> &'static str {
        match self {
            Work::Turns => "",
            Work::Sums => "Set s=s+i",
            Work::Texts => "Set x=$P(t,\",\",2),y=$L(t),z=$E(t,1,3)",
            Work::Sets => SETS,
            Work::Gets => "Set x=^n(i)",
            Work::Orders => "Set k=$O(^n(k))",
            Work::Increments => "Set x=$I(^n)",
            Work::LockPairs => "Lock +^n Lock -^n",
            Work::Transactions => "TStart  Set ^n=i TCommit",
        }
    }

    /// Whether the nodes are set before.
    fn wants_nodes(self) -> bool {
        self == Work::Gets || self == Work::Orders
    }
}

/// The text of a loop of so many turns.
fn loop_text(alloc: Global, head: &str, body: &str, size: u32) -> Result<Text, NoMemory> {
    let mut text = Text::from_slice(alloc, head.as_bytes())?;
    let mut buffer = Buffer::new();
    text.push_slice(b"For i=1:1:")?;
    text.push_slice(buffer.format(size).as_bytes())?;
    text.push_slice(b" { ")?;
    text.push_slice(body.as_bytes())?;
    text.push_slice(b" }\n")?;
    Ok(text)
}

fn read(alloc: Global, text: &[u8]) -> Result<Script, Failure> {
    if MAX_SCRIPT < text.len() {
        return Err(Failure::Script);
    }
    match read_script(alloc, text, 1, 1) {
        Ok(script) => Ok(script),
        Err(ScriptError::NoMemory) => Err(Failure::Room),
        Err(ScriptError::BadScript { .. }) => Err(Failure::Script),
    }
}

/// Runs a script to its end.
pub fn run(alloc: Global, script: &Script, store: &mut Store) -> Result<(), Failure> {
    let mut out = Text::new(alloc);
    match run_script(alloc, script, store, u32::MAX, &mut out)? {
        ScriptEnd::Done(_) => Ok(()),
        _ => Err(Failure::Script),
    }
}

/// The script of the work of so many turns.
pub fn script_of(alloc: Global, work: Work, size: u32) -> Result<Script, Failure> {
    let text = loop_text(alloc, work.head(), work.body(), size)?;
    read(alloc, text.as_slice())
}

/// A store with what the work wants.
pub fn store_for(alloc: Global, work: Work, size: u32) -> Result<Store, Failure> {
    let mut store = Store::new(alloc, 1, Items::new(alloc), VOLUME)?;
    if work.wants_nodes() {
        let text = loop_text(alloc, "", SETS, size)?;
        let script = read(alloc, text.as_slice())?;
        run(alloc, &script, &mut store)?;
    }
    Ok(store)
}
