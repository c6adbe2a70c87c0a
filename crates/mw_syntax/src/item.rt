ghost use Rattle.std.specs.Prelude.{◌≡◌};
ghost use Rattle.mw_syntax.specs.Items.{items_of, pattern_items};

use crate::mnemonic::Pattern;
use mw_tables::Shape;

/// How an operand is written and what its value becomes.
#[derive(Clone, Copy, Debug, Default, PartialEq, Eq)]
pub enum Kind {
    /// A register: `r0` to `r31`, or an expression.
    #[default]
    Register,
    /// An expression.
    Value,
    /// The address of a branch's target.
    Target,
    /// The upper half of a word, of `lis`: signed, or unsigned in 16 bits.
    Upper,
}

/// What stands in an operand list.
#[derive(Clone, Copy, Debug, PartialEq, Eq)]
pub enum Item {
    /// An operand.
    Operand(Kind),
    /// `,`.
    Comma,
    /// `(`.
    Open,
    /// `)`.
    Close,
}

/// Operands joined by commas.
#[rattlefmt::skip]
macro_rules! joined {
    ($kind:ident $(, $more:ident)*) => {
        [Item::Operand(Kind::$kind) $(, Item::Comma, Item::Operand(Kind::$more))*]
    };
}

static TWO_REGISTERS_VALUE: [Item; 5] = joined!(Register, Register, Value);

static TWO_VALUES_REGISTER_VALUE: [Item; 7] = joined!(Value, Value, Register, Value);

static VALUE_REGISTER_VALUE: [Item; 5] = joined!(Value, Register, Value);

static REGISTER_VALUE: [Item; 3] = joined!(Register, Value);

static TARGET_ITEMS: [Item; 1] = joined!(Target);

static TWO_VALUES_TARGET: [Item; 5] = joined!(Value, Value, Target);

static THREE_VALUES: [Item; 5] = joined!(Value, Value, Value);

static TWO_VALUES: [Item; 3] = joined!(Value, Value);

static TWO_REGISTERS_THREE_VALUES: [Item; 9] = joined!(Register, Register, Value, Value, Value);

static THREE_REGISTERS_TWO_VALUES: [Item; 9] = joined!(Register, Register, Register, Value, Value);

static TWO_REGISTERS_TWO_VALUES: [Item; 7] = joined!(Register, Register, Value, Value);

static THREE_REGISTERS_VALUE: [Item; 7] = joined!(Register, Register, Register, Value);

static FOUR_REGISTERS: [Item; 7] = joined!(Register, Register, Register, Register);

static THREE_REGISTERS: [Item; 5] = joined!(Register, Register, Register);

static TWO_REGISTERS: [Item; 3] = joined!(Register, Register);

static TWO_VALUES_TWO_REGISTERS: [Item; 7] = joined!(Value, Value, Register, Register);

static VALUE_TWO_REGISTERS: [Item; 5] = joined!(Value, Register, Register);

static REGISTER_ITEMS: [Item; 1] = joined!(Register);

static VALUE_REGISTER: [Item; 3] = joined!(Value, Register);

static VALUE_ITEMS: [Item; 1] = joined!(Value);

static DISPLACED: [Item; 6] = [
    Item::Operand(Kind::Register),
    Item::Comma,
    Item::Operand(Kind::Value),
    Item::Open,
    Item::Operand(Kind::Register),
    Item::Close,
];

static NOTHING: [Item; 0] = [];

static DISPLACED_AND_VALUE: [Item; 8] = [
    Item::Operand(Kind::Register),
    Item::Comma,
    Item::Operand(Kind::Value),
    Item::Open,
    Item::Operand(Kind::Register),
    Item::Close,
    Item::Comma,
    Item::Operand(Kind::Value),
];

static REGISTER_UPPER: [Item; 3] = joined!(Register, Upper);

/// What is written for a list of operands.
pub fn items_of(shape: Shape) -> &'static [Item]
    ensures { result.now ≡ items_of shape }
{
    match shape {
        Shape::RtRaSi | Shape::RaRsUi | Shape::RaRsSh => &TWO_REGISTERS_VALUE,
        Shape::BfLRaSi | Shape::BfLRaUi => &TWO_VALUES_REGISTER_VALUE,
        Shape::ToRaSi => &VALUE_REGISTER_VALUE,
        Shape::RtD
        | Shape::RtFxm
        | Shape::RtBfa
        | Shape::RtBi
        | Shape::RsL
        | Shape::RtSpr
        | Shape::RtTbr
        | Shape::RtL => &REGISTER_VALUE,
        Shape::Target => &TARGET_ITEMS,
        Shape::BoBiTarget => &TWO_VALUES_TARGET,
        Shape::BoBiBh | Shape::BtBaBb => &THREE_VALUES,
        Shape::BfBfa => &TWO_VALUES,
        Shape::RaRsShMbMe | Shape::RbRsRicPrsR => &TWO_REGISTERS_THREE_VALUES,
        Shape::RaRsRbMbMe => &THREE_REGISTERS_TWO_VALUES,
        Shape::RaRsShMb | Shape::RaRsShMe | Shape::RtRaSiR => &TWO_REGISTERS_TWO_VALUES,
        Shape::RaRsRbMb | Shape::RaRsRbMe | Shape::RtRaRbCy | Shape::RtRaRbBc =>
            &THREE_REGISTERS_VALUE,
        Shape::RtRaRbRc => &FOUR_REGISTERS,
        Shape::RtRaRb | Shape::RaRsRb => &THREE_REGISTERS,
        Shape::RtRa | Shape::RaRs | Shape::RaRb => &TWO_REGISTERS,
        Shape::BfLRaRb => &TWO_VALUES_TWO_REGISTERS,
        Shape::ToRaRb | Shape::BfRaRb => &VALUE_TWO_REGISTERS,
        Shape::Rt => &REGISTER_ITEMS,
        Shape::FxmRs | Shape::SprRs => &VALUE_REGISTER,
        Shape::Bf | Shape::L => &VALUE_ITEMS,
        Shape::RtDRa => &DISPLACED,
        Shape::Empty => &NOTHING,
        Shape::RtDRaR => &DISPLACED_AND_VALUE,
    }
}

/// What is written for a mnemonic of a row with this list of operands.
pub fn pattern_items(pattern: Pattern, shape: Shape) -> &'static [Item]
    ensures { result.now ≡ pattern_items pattern shape }
{
    match pattern {
        Pattern::Row => items_of(shape),
        Pattern::Li => &REGISTER_VALUE,
        Pattern::Lis => &REGISTER_UPPER,
        Pattern::Mr => &TWO_REGISTERS,
        Pattern::Nop | Pattern::Always | Pattern::Light | Pattern::Tables => &NOTHING,
    }
}
