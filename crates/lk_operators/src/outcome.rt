use lk_ast::{Trap, Value};

/// What an operation comes to: a value, or a trap; or there is no rule for operands such as these.
#[derive(Drop)]
pub enum Outcome {
    Value(Value),
    Trap(Trap),
    NoRule,
}
