//! Pieces of the planes of a layout.
use crate::stacks::TypedStack;

/// A piece of a plane: at each of its squares each part has one type.
#[derive(Debug, Drop)]
pub struct PlaneStack {
    pub plane: u8,
    pub stack: TypedStack,
}
