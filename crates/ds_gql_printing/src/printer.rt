//! What a statement is printed into: its text, token by token, and the arguments that the text cites.
ghost use Rattle.std.specs.Prelude.{◌≡◌, ◌≤◌, ◌<◌, ◌^◌, ◌+◌, [], ◌∷◌, length, pos, decimal, true, false};
ghost use Rattle.ds_base.specs.Limits.{greatest_id};
ghost use Rattle.ds_tokens.specs.Pieces.{fixed, integer, name, numbered, string, is};
ghost use Rattle.ds_gql_printing.specs.Printers.{PutsText, Cites, Puts, is_lawful};
ghost use Rattle.ds_gql_printing.specs.Printing.{mark_text, is_plain, is_written_name, doubled, has_literal};
ghost use Rattle.ds_tokens.specs.declared.token.Mark.TheVariants as variants;

mod clauses;
mod conditions;
mod quotes;
pub(crate) mod values;

use ds_base::{Value, Values};
use ds_tokens::{Mark, all_word_bytes, begins_word, byte_at, is_keyword};

/// What was printed. Where memory was refused nothing more is put, and what stands here doesn't count.
#[derive(Drop)]
pub(crate) struct Printer {
    pub text: String,
    pub args: Values,
    pub refused: bool,
}

impl Printer {
    /// Puts a text behind what was printed.
    fn append(&mut self, text: &str)
        ensures { PutsText text.now self.old self.new }
    {
        if self.refused {
            return;
        }
        match self.text.push_str(text) {
            Ok(()) => {}
            Err(_) => self.refused = true,
        }
    }

    /// A keyword or a sign.
    fn put_mark(&mut self, mark: Mark)
        requires { is variants.End (fixed mark) ≡ false }
        ensures { Puts (fixed mark ∷ []) [] self.old self.new }
    {
        self.append(" ");
        self.append(mark_text(mark));
    }

    /// A name, in double quotes where it isn't a plain one.
    fn put_name(&mut self, text: &str)
        requires { is_written_name text.now ≡ true }
        ensures { Puts (name text.now ∷ []) [] self.old self.new }
    {
        if is_plain(text) {
            self.append(" ");
            self.append(text);
        } else {
            self.append(" \"");
            self.append(text);
            self.append("\"");
        }
    }

    /// An integer.
    fn put_integer(&mut self, n: i64)
        ensures { Puts (integer n ∷ []) [] self.old self.new }
    {
        self.append(" ");
        self.append(itoa::Buffer::new().format(n));
    }

    /// An integer of at least 0.
    fn put_natural(&mut self, n: u64)
        requires { n ≤ greatest_id }
        ensures { Puts (integer (pos n) ∷ []) [] self.old self.new }
    {
        self.append(" ");
        self.append(itoa::Buffer::new().format(n));
    }

    /// A string.
    fn put_string(&mut self, text: &str)
        ensures { Puts (string text.now ∷ []) [] self.old self.new }
    {
        self.append(" '");
        self.append_doubled(text);
        self.append("'");
    }

    /// The next binding, which stands for this value.
    fn put_argument(&mut self, value: Value)
        requires bound { has_literal value ≡ false }
        requires lawful { is_lawful value ≡ true }
        ensures { Puts (numbered (length self.old.args + 1) ∷ []) (value ∷ []) self.old self.new }
    {
        self.push_argument(value);
        self.put_last_number();
    }

    fn push_argument(&mut self, value: Value)
        ensures { Cites value self.old self.new }
    {
        if self.refused {
            return;
        }
        match self.args.push(value) {
            Ok(()) => {}
            Err(_) => self.refused = true,
        }
    }

    /// The binding of the last argument.
    fn put_last_number(&mut self)
        ensures text { PutsText (32 ∷ 58 ∷ decimal (length self.old.args)) self.old self.new }
        ensures bounded { length self.old.args < 2 ^ 64 }
    {
        let number = self.cited();
        self.append(" :");
        self.append(itoa::Buffer::new().format(number));
    }

    /// How many arguments are cited.
    fn cited(&self) -> u64
        ensures number { result ≡ length self.now.args }
        ensures bounded { result < 2 ^ 64 }
    {
        self.args.len() as u64
    }
}

/// How a keyword or a sign is written.
fn mark_text(mark: Mark) -> &'static str
    ensures { result.now ≡ mark_text mark }
{
    match mark {
        Mark::Select => "SELECT",
        Mark::From => "FROM",
        Mark::Where => "WHERE",
        Mark::And => "AND",
        Mark::Order => "ORDER",
        Mark::By => "BY",
        Mark::Asc => "ASC",
        Mark::Desc => "DESC",
        Mark::Limit => "LIMIT",
        Mark::Offset => "OFFSET",
        Mark::In => "IN",
        Mark::Is => "IS",
        Mark::Ancestor => "ANCESTOR",
        Mark::True => "TRUE",
        Mark::False => "FALSE",
        Mark::Null => "NULL",
        Mark::Key => "KEY",
        Mark::Star => "*",
        Mark::Comma => ",",
        Mark::Open => "(",
        Mark::Close => ")",
        Mark::Equal => "=",
        Mark::Less => "<",
        Mark::LessEqual => "<=",
        Mark::Greater => ">",
        Mark::GreaterEqual => ">=",
        Mark::NotEqual => "!=",
        Mark::End => "",
    }
}

/// Whether a name may stand without double quotes: it is a word, and no keyword.
fn is_plain(text: &str) -> bool
    ensures { result ≡ is_plain text.now }
{
    begins_word(byte_at(text, 0)) && all_word_bytes(text.as_bytes()) && !is_keyword(text)
}
