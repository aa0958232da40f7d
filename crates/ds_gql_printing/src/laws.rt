//! What is proved of the printing of statements, beside that `print` meets it: the function does nothing, and its contract is a law.
ghost use Rattle.ds_gql_printing.specs.PrintLaws.{StatementsCanBePrinted};

/// `print` takes every statement that a text says, and never refuses one of its names.
pub fn statements_can_be_printed()
    ensures { StatementsCanBePrinted }
{}
