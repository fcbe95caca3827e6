// What a kernel began with.
use ids::{Bounds, Priority};
use std::marker::Model;

/// What a kernel was given when it was made: the priorities of its first processes, and its bounds.
#[derive(Drop)]
pub(crate) struct Beginning<'a> {
    pub(crate) priorities: &'a [Priority],
    pub(crate) bounds: Bounds,
}

impl<'a> Model for Beginning<'a> {
    ghost use Rattle.std.specs.Prelude.{◌≤◌};
    ghost use Rattle.ids.specs.declared.limits.TheConstants.{LARGEST_FILE};
    ghost use Rattle.model.specs.Moments.{Setup};

    ghost Value = { Setup };

    ghost view = { λ b. record {
      priorities = b.priorities.now;
      bounds = b.bounds;
    } };

    ghost invariant = { λ b. b.bounds.file_bytes ≤ LARGEST_FILE };
}
