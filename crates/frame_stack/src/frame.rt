//! A frame: a machine, and the classes of its method.

use obj_kinds::ClassName;
use os_machine::Machine;

/// A frame over its code. That of a method has the class that declares the method and the class on which it was called; that of a
/// script has neither.
#[derive(Drop)]
pub struct RunningFrame<'a> {
    pub machine: Machine<'a>,
    pub declarer: Option<&'a ClassName>,
    pub called_on: Option<&'a ClassName>,
}
