ghost use Rattle.std.specs.Prelude.{◌≡◌, [], ◌∷◌, ◌++◌, OnOk, OnErr};

use crate::token::Token;
use std::alloc::{AllocError as NoMemory, Global};
use std::marker::Model;

/// The tokens of a line, in order.
#[derive(Drop)]
pub struct Tokens {
    items: Vec<Token>,
}

impl Model for Tokens {
    ghost use Rattle.std.specs.Prelude.{List};
    ghost use Rattle.mw_text.specs.declared.token.Token.{Token as TokenData};

    ghost Value = { List TokenData };

    ghost view = { λ t. t.items.items };
}

impl Tokens {
    /// A list with no token. It takes no memory.
    pub(crate) fn new(alloc: Global) -> Tokens
        ensures { result ≡ [] }
    {
        Tokens {
            items: Vec::new(alloc),
        }
    }

    /// Appends the token. Where memory is wanting the list stays as it was.
    pub(crate) fn push(&mut self, token: Token) -> Result<(), NoMemory>
        ensures ok { OnOk result (self.new ≡ self.old ++ token ∷ []) }
        ensures err { OnErr result (self.new ≡ self.old) }
    {
        self.items.push(token)?;
        Ok(())
    }

    /// The tokens, from the first one on.
    pub fn as_slice(&self) -> &[Token]
        ensures { result.now ≡ self.now }
    {
        self.items.as_slice()
    }
}
