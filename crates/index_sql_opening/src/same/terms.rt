//! Values and the nodes of expressions.

ghost use Rattle.std.specs.Prelude.{◌≡◌, IsTrue};

use crate::same::Same;
use sqlite_schema::code::{Op, Terms};
use sqlite_value::value::Value;

impl Same for Value {
    /// Two reals are never the same, since equal ones need not have the same bits.
    fn same(&self, other: &Value) -> bool {
        match (self, other) {
            (Value::Null, Value::Null) => true,
            (Value::Int(first), Value::Int(second)) => *first == *second,
            (Value::Text(first), Value::Text(second)) => first.same(second),
            (Value::Blob(first), Value::Blob(second)) => first.same(second),
            _ => false,
        }
    }
}

impl Same for Op {
    fn same(&self, other: &Op) -> bool {
        match (self, other) {
            (Op::Literal(first), Op::Literal(second)) => first.same(second),
            (Op::Column(slot, at), Op::Column(other_slot, other_at)) => {
                *slot == *other_slot && *at == *other_at
            }
            (Op::Unary(op, at), Op::Unary(other_op, other_at)) => {
                *op == *other_op && *at == *other_at
            }
            (Op::Binary(op, left, right), Op::Binary(other_op, other_left, other_right)) => {
                *op == *other_op && *left == *other_left && *right == *other_right
            }
            (Op::Case(test, left, right), Op::Case(other_test, other_left, other_right)) => {
                *test == *other_test && *left == *other_left && *right == *other_right
            }
            _ => false,
        }
    }
}

impl Same for Terms {
    fn same(&self, other: &Terms) -> bool {
        self.nodes.same(&other.nodes) && self.roots.same(&other.roots)
    }
}
