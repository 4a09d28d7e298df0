ghost use Rattle.std.specs.Prelude.{◌≡◌, IfOk};

use obj_kinds::{NoMemory, Text};
use sqlite_items::Items;
use std::alloc::Global;

/// An argument of a method.
#[derive(Debug, Drop)]
pub struct Arg {
    pub name: Text,
    /// What the argument is where the call gives none; without it the variable is then undefined.
    pub default: Option<Text>,
}

/// The arguments of a method, in order.
pub type ArgDecls = Items<Arg>;

/// A method as its class declares it.
#[derive(Debug, Drop)]
pub struct Method {
    pub name: Text,
    /// Whether it is a `ClassMethod`, which is called without an object.
    pub of_class: bool,
    pub args: ArgDecls,
    /// The bytes between the braces, as they stand in the class file.
    pub body: Text,
    /// The line of the body's first byte in the class file, counted from 1.
    pub line: u32,
    /// The column of the body's first byte, counted in bytes from 1.
    pub column: u32,
}

/// The methods that a class declares, in order.
pub type Methods = Items<Method>;

fn copy_default(alloc: Global, default: &Option<Text>) -> Result<Option<Text>, NoMemory>
    ensures { IfOk result (λ copy. copy ≡ default.now) }
{
    match default {
        Some(text) => Ok(Some(text.copy(alloc)?)),
        None => Ok(None),
    }
}

impl Arg {
    /// The same argument again; it fails only for want of memory.
    pub fn copy(&self, alloc: Global) -> Result<Arg, NoMemory>
        ensures { IfOk result (λ arg. arg ≡ self.now) }
    {
        let name = self.name.copy(alloc)?;
        let default = copy_default(alloc, &self.default)?;
        Ok(Arg { name, default })
    }
}

fn copy_args(alloc: Global, args: &[Arg]) -> Result<ArgDecls, NoMemory>
    ensures { IfOk result (λ copy. copy ≡ args.now) }
{
    let mut copy = Items::new(alloc);
    for arg in args {
        copy.push(arg.copy(alloc)?)?;
    }
    Ok(copy)
}

impl Method {
    /// The same method again; it fails only for want of memory.
    pub fn copy(&self, alloc: Global) -> Result<Method, NoMemory>
        ensures { IfOk result (λ method. method ≡ self.now) }
    {
        let name = self.name.copy(alloc)?;
        let args = copy_args(alloc, self.args.as_slice())?;
        let body = self.body.copy(alloc)?;
        Ok(Method {
            name,
            of_class: self.of_class,
            args,
            body,
            line: self.line,
            column: self.column,
        })
    }
}

/// The same methods again; it fails only for want of memory.
pub fn copy_methods(alloc: Global, methods: &[Method]) -> Result<Methods, NoMemory>
    ensures { IfOk result (λ copy. copy ≡ methods.now) }
{
    let mut copy = Items::new(alloc);
    for method in methods {
        copy.push(method.copy(alloc)?)?;
    }
    Ok(copy)
}
