//! What takes a reply, piece by piece: a buffer that grows.
ghost use Rattle.std.specs.Prelude.{ℕ, List, [], ◌++◌};
ghost use Rattle.ds_json_printing.specs.Outputs.{WritesText};
ghost use Rattle.ds_json_printing.specs.OutputLaws.{appends_nothing, appends_joined};

use ds_base::Buffer;

/// Takes the pieces of a text in their order.
pub trait Output {
    ghost Writes: { List ℕ → Self → Self → Type 0 };

    /// Takes the next piece.
    fn put(&mut self, piece: &[u8])
        ensures { Writes piece.now self.old self.new };

    ghost nothing: { (s : Self) → Writes [] s s };

    ghost joined: { (a b : List ℕ) (s t u : Self) → Writes a s t → Writes b t u → Writes (a ++ b) s u };
}

/// A buffer that takes pieces until there is no memory for one.
#[derive(Drop)]
pub struct Growing {
    /// What was put.
    pub buffer: Buffer,
    /// Whether a piece was refused.
    pub refused: bool,
}

impl Output for Growing {
    ghost Writes = { WritesText };

    ghost nothing = { appends_nothing };

    ghost joined = { appends_joined };

    fn put(&mut self, piece: &[u8]) {
        if self.refused {
            return;
        }
        match self.buffer.append(piece) {
            Ok(()) => {}
            Err(_) => self.refused = true,
        }
    }
}
