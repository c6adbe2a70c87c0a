ghost use Rattle.std.specs.Prelude.{◌≡◌, [], ◌∷◌, ◌++◌, OnOk};

use crate::expression::Expression;
use std::alloc::{AllocError as NoMemory, Global};
use std::marker::Model;

/// The expressions of a directive of data, in order.
#[derive(Drop)]
pub struct Values {
    items: Vec<Expression>,
}

impl Model for Values {
    ghost use Rattle.std.specs.Prelude.{List};
    ghost use Rattle.mw_syntax.specs.declared.expression.Expression.{Expression as ExpressionData};

    ghost Value = { List ExpressionData };

    ghost view = { λ v. v.items.items };
}

impl Values {
    /// No expression. It takes no memory.
    pub(crate) fn new(alloc: Global) -> Values
        ensures { result ≡ [] }
    {
        Values {
            items: Vec::new(alloc),
        }
    }

    /// Appends an expression. The only error is want of memory.
    pub(crate) fn push(&mut self, expression: Expression) -> Result<(), NoMemory>
        ensures { OnOk result (self.new ≡ self.old ++ expression ∷ []) }
    {
        self.items.push(expression)?;
        Ok(())
    }

    /// The expressions.
    pub fn as_slice(&self) -> &[Expression]
        ensures { result.now ≡ self.now }
    {
        self.items.as_slice()
    }
}
