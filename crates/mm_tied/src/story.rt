//! What a history tells.
ghost use Rattle.std.specs.Prelude.{List};

use std::marker::Brand;

/// What a history tells of a value of type `T`. No value of it is made.
pub trait Story<T, S, E> {
    /// What the history speaks of: a part of the value, or all of it.
    ghost state: { T → S };

    /// The event leads from this state to that.
    ghost makes: { S → E → S → Type 0 };
}

/// The events that one call puts at the end of the history. The proof of the call picks them (`Brand`).
pub trait Events<E> {
    ghost events: { List E };
}

impl<E> Events<E> for Brand {
    ghost use Rattle.std.specs.Prelude.{[]};

    ghost events = { [] };
}
