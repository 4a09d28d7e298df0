use class_link::link;
use class_reader::read_classes;
use schema_kinds::Schema;
use std::alloc::Global;

/// Accounts with a unique index and a class below, branches with clerks, and a class below branches with desks.
const CLASSES: &[u8] = b"Class Bank.Account Extends %Persistent
{
Property Owner As %String;
Property Number As %Integer;
Property Next As Bank.Account;
Index NumIdx On Number [ Unique ];
}
Class Bank.Saver Extends Bank.Account
{
Property Rate As %Integer;
Property Notes As array Of %String;
Index RateIdx On Rate;
}
Class Bank.Branch Extends %Persistent
{
Property Name As %String;
Relationship Clerks As Bank.Clerk [ Cardinality = many, Inverse = Branch ];
}
Class Bank.Head Extends Bank.Branch
{
Relationship Desks As Bank.Desk [ Cardinality = many, Inverse = Head ];
}
Class Bank.Clerk Extends %Persistent
{
Property Name As %String;
Relationship Branch As Bank.Branch [ Cardinality = one, Inverse = Clerks ];
}
Class Bank.Desk Extends %Persistent
{
Property Label As %String;
Relationship Head As Bank.Head [ Cardinality = one, Inverse = Desks ];
}
";

/// The schema of these classes; `None` where memory ran out.
pub fn schema(alloc: Global) -> Option<Schema> {
    let trees = read_classes(alloc, CLASSES).ok()?;
    link(alloc, trees).ok()
}
