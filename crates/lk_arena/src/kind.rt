//! Tests of shapes.

ghost use Rattle.std.specs.Prelude.{◌≡◌, ◌↔◌, IsTrue};
ghost use Rattle.lk_arena.specs.Shapes.{is_row_shape, is_loose_shape};

use crate::node::Shape;

/// Whether it is a row, and not a type.
pub fn is_row(shape: &Shape) -> bool
    ensures { result ≡ is_row_shape shape.now }
{
    match shape {
        Shape::Open => true,
        Shape::Empty => true,
        Shape::Row(_, _) => true,
        _ => false,
    }
}

/// Whether nothing is known but which of both it is.
pub fn is_loose(shape: &Shape) -> bool
    ensures { result ≡ is_loose_shape shape.now }
{
    match shape {
        Shape::Free => true,
        Shape::Open => true,
        _ => false,
    }
}

/// Whether it is the row without fields.
pub fn is_empty_row(shape: &Shape) -> bool
    ensures { IsTrue result ↔ (shape.now ≡ Shape.Empty) }
{
    match shape {
        Shape::Empty => true,
        _ => false,
    }
}

/// Whether it is a row of which nothing is known.
pub fn is_open(shape: &Shape) -> bool
    ensures { IsTrue result ↔ (shape.now ≡ Shape.Open) }
{
    match shape {
        Shape::Open => true,
        _ => false,
    }
}
