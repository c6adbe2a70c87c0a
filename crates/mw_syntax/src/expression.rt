/// What an expression begins with.
#[derive(Clone, Copy, Debug, PartialEq, Eq)]
pub enum Base {
    /// A number.
    Number(u64),
    /// A number behind `-`.
    Negative(u64),
    /// A label.
    Name {
        /// How many bytes of the line stand before the label's name.
        from: u32,
        /// How many bytes of the line stand before the name's end.
        to: u32,
    },
    /// `.`, the statement's address.
    Here,
}

/// What stands behind the base of an expression.
#[derive(Clone, Copy, Debug, PartialEq, Eq)]
pub enum Addend {
    /// Nothing.
    Nothing,
    /// `+` and a number.
    Plus(u64),
    /// `-` and a number.
    Minus(u64),
}

/// An expression of a line.
#[derive(Clone, Copy, Debug, PartialEq, Eq)]
pub struct Expression {
    /// The column of the expression's first token.
    pub column: u32,
    /// What the expression begins with.
    pub base: Base,
    /// What stands behind the base.
    pub addend: Addend,
}

impl Default for Expression {
    ghost use Rattle.std.specs.Prelude.{◌≡◌};
    ghost use Rattle.mw_syntax.specs.declared.expression.Base.TheVariants.{Here};
    ghost use Rattle.mw_syntax.specs.declared.expression.Addend.TheVariants.{Nothing};

    ghost is_default = { λ e. e ≡ record { column = 0; base = Here; addend = Nothing } };

    fn default() -> Expression {
        Expression {
            column: 0,
            base: Base::Here,
            addend: Addend::Nothing,
        }
    }
}

/// An expression that was read, and the place of the token behind it.
#[derive(Clone, Copy, Debug, PartialEq, Eq)]
pub struct Read {
    /// The expression.
    pub expression: Expression,
    /// How many tokens of the line stand before the one behind the expression.
    pub next: usize,
}
