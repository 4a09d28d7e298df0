//! Laws of class files that are read.

ghost use Rattle.read_schemas.specs.Files.{ClassesHaveNamesOfTheirOwn, SchemasOfFilesAreSound};

/// No class of class files has the name of a data type, and none declares two properties of one name.
pub fn classes_of_files_have_names_of_their_own()
    ensures { ClassesHaveNamesOfTheirOwn }
{}

/// A schema that was linked from class files is as the laws over runs ask of one.
pub fn schemas_of_files_are_sound()
    ensures { SchemasOfFilesAreSound }
{}
