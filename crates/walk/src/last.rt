// Where a path's last name stands.

use ids::{Kind, Name, Num};
use std::marker::Model;

/// Where the last name of a path stands, and what it gives.
#[derive(Drop)]
pub struct Last {
    /// The directory in which it stands.
    pub parent: Num,
    /// The name.
    pub name: Name,
    /// What it gives.
    pub found: Option<(Num, Option<Kind>)>,
}

impl Model for Last {
    ghost use Rattle.model.specs.Walks.{Last};

    ghost Value = { Last };

    ghost view = { λ l. record { parent = l.parent; name = l.name; found = l.found } };
}
