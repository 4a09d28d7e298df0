//! The classes of a process, with the code of their methods.

ghost use Rattle.std.specs.Prelude.{◌≡◌, Some};
ghost use Rattle.std.specs.Option.{option_copied};
ghost use Rattle.host_meaning.specs.Methods.{Program as Meant, Found};
ghost use Rattle.method_table.specs.Tables.{IsTableOf, found_at};
ghost use Rattle.method_calls.specs.Programs.{IsProgramOf, Finds, Fits, callee_of, of_found, of_declared, code_at};

use method_table::{MethodPlace, MethodTable};
use obj_kinds::{ClassName, ErrorName, Text};
use os_code::{Code, Instruction};
use schema_kinds::{Arg, Class, Method, Schema};
use sqlite_items::Items;

/// The codes of the methods that a class declares, in their order.
pub type Codes = Items<Code>;

/// The classes of a process, the places of their methods, and for each class the codes of the methods that it declares.
#[derive(Drop)]
pub struct Program {
    pub schema: Schema,
    pub table: MethodTable,
    pub methods: Items<Codes>,
}

/// A class method that is called: its arguments and its code, the class that declares it, and the class on which it is called.
#[derive(Drop)]
pub struct Callee<'a> {
    pub args: &'a [Arg],
    pub code: &'a [Instruction],
    pub declarer: &'a ClassName,
    pub called_on: &'a ClassName,
}

fn called_method<'a>(
    class: &'a Class,
    method: &'a Method,
    code: &'a [Instruction],
    called_on: &'a ClassName,
) -> Result<Callee<'a>, ErrorName>
    ensures { Fits (of_declared class.now method.now code.now) called_on.now result }
{
    if method.of_class {
        Ok(Callee {
            args: method.args.as_slice(),
            code,
            declarer: &class.name,
            called_on,
        })
    } else {
        Err(ErrorName::MethodDoesNotExist)
    }
}

impl Program {
    fn code_at(&self, place: MethodPlace) -> Option<&Code>
        ensures { option_copied result ≡ code_at self.now.methods place }
    {
        match self.methods.get(place.class) {
            Some(codes) => codes.get(place.method),
            None => None,
        }
    }

    fn callee_at<'a>(
        &'a self,
        place: MethodPlace,
        called_on: &'a ClassName,
    ) -> Result<Callee<'a>, ErrorName>
        ensures { (meant : Meant) → IsProgramOf meant self.now → (f : Found) → found_at meant place ≡ Some f → Finds (of_found (Some f)) called_on.now result }
    {
        match (self.schema.classes().get(place.class), self.code_at(place)) {
            (Some(class), Some(code)) => match class.methods.get(place.method) {
                Some(method) => called_method(class, method, code.as_slice(), called_on),
                None => Err(ErrorName::MethodDoesNotExist),
            },
            _ => Err(ErrorName::MethodDoesNotExist),
        }
    }

    /// The class method of that name that a class has, or the error of its call. It takes no memory, and no walk over classes.
    pub fn find(&self, class: &ClassName, name: &Text) -> Result<Callee<'_>, ErrorName>
        requires { IsTableOf self.now.schema self.now.table }
        ensures { (meant : Meant) → IsProgramOf meant self.now → Finds (callee_of meant class.now name.now) class.now result }
    {
        match self.schema.class(class) {
            Some(on) => match self.table.find(&self.schema, class, name) {
                Some(place) => self.callee_at(place, &on.name),
                None => Err(ErrorName::MethodDoesNotExist),
            },
            None => Err(ErrorName::ClassDoesNotExist),
        }
    }
}
