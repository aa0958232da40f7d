//! Strings, with each quote doubled.
ghost use Rattle.ds_gql_printing.specs.Printers.{PutsText};
ghost use Rattle.ds_gql_printing.specs.Printing.{doubled};

use crate::printer::Printer;
use ds_tokens::split_quote;

impl Printer {
    /// Puts a text with two quotes for each one, run by run.
    pub(super) fn append_doubled(&mut self, text: &str)
        ensures { PutsText (doubled text.now) self.old self.new }
    {
        let mut rest = text;
        'quotes: loop {
            match split_quote(rest) {
                Some((run, behind)) => {
                    self.append(run);
                    self.append("''");
                    rest = behind;
                }
                None => {
                    self.append(rest);
                    return;
                }
            }
        }
    }
}
