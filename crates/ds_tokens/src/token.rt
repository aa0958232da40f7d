//! Tokens of a GQL text.
ghost use Rattle.std.specs.Prelude.{◌≡◌, option_map};
ghost use Rattle.ds_tokens.specs.Pieces.{seen, is, same_mark, name_in};

/// A keyword, a sign, or the end of the text.
#[derive(Clone, Copy, PartialEq, Eq)]
pub enum Mark {
    Select,
    From,
    Where,
    And,
    Order,
    By,
    Asc,
    Desc,
    Limit,
    Offset,
    In,
    Is,
    Ancestor,
    True,
    False,
    Null,
    Key,
    Star,
    Comma,
    Open,
    Close,
    Equal,
    Less,
    LessEqual,
    Greater,
    GreaterEqual,
    NotEqual,
    End,
}

/// What stands at a place of a text. It borrows from the text.
#[derive(Clone, Copy)]
pub enum Piece<'a> {
    /// A keyword, a sign, or the end of the text.
    Fixed(Mark),
    /// A name, without its double quotes where it has them.
    Name(&'a str),
    /// An integer.
    Integer(i64),
    /// What stands between the quotes of a string, each quote in it doubled.
    Quoted(&'a str),
    /// A binding by its number, which is at least 1.
    Numbered(u64),
    /// A binding by its name.
    Named(&'a str),
    /// No token stands here.
    Strange,
}

impl<'a> Piece<'a> {
    /// Whether this keyword, sign or end stands there.
    pub fn is(&self, mark: Mark) -> bool
        ensures { result ≡ is mark (seen self.now) }
    {
        match self {
            Piece::Fixed(found) => same_mark(*found, mark),
            _ => false,
        }
    }

    /// The name that stands there, if one does.
    pub fn name(&self) -> Option<&'a str>
        ensures { option_map (λ name. name.now) result ≡ name_in (seen self.now) }
    {
        match self {
            Piece::Name(name) => Some(*name),
            _ => None,
        }
    }
}

fn same_mark(a: Mark, b: Mark) -> bool
    ensures { result ≡ same_mark a b }
{
    a == b
}
