use crate::failure::Failure;
use class_link::link;
use class_reader::read_classes;
use schema_kinds::Schema;
use std::alloc::Global;

/// Accounts with a class below, branches with clerks, and a chain of three classes that has every kind.
const CLASSES: &[u8] = b"Class Bank.Account Extends %Persistent
{
Property Owner As %String;
Property Number As %Integer;
Property Next As Bank.Account;
Index NumIdx On Number [ Unique ];
}
Class Bank.Saver Extends Bank.Account
{
Property Rate As %Integer;
Property Notes As array Of %String;
}
Class Bank.Branch Extends %Persistent
{
Property Name As %String;
Relationship Clerks As Bank.Clerk [ Cardinality = many, Inverse = Branch ];
}
Class Bank.Clerk Extends %Persistent
{
Property Name As %String;
Relationship Branch As Bank.Branch [ Cardinality = one, Inverse = Clerks ];
}
Class Lab.Spot Extends %SerialObject
{
Property X As %Integer;
Property Mark As %String;
}
Class Lab.Area Extends %SerialObject
{
Property Name As %String;
Property Spot As Lab.Spot;
}
Class Lab.Base Extends %Persistent
{
Property Title As %String;
Property Size As %Integer;
Property Done As %Boolean;
Property Tags As list Of %String;
Index TitleIdx On Title;
Index Both On (Title, Size) [ Unique ];
}
Class Lab.Mid Extends Lab.Base
{
Property Area As Lab.Area;
Property Sizes As array Of %Integer;
}
Class Lab.Low Extends Lab.Mid
{
Property Note As %String;
Property Spots As array Of Lab.Spot;
Index DoneIdx On Done;
}
";

/// The schema of these classes.
pub fn schema(alloc: Global) -> Result<Schema, Failure> {
    let trees = read_classes(alloc, CLASSES)?;
    let schema = link(alloc, trees)?;
    Ok(schema)
}
