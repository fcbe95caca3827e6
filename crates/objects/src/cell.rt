// Cells, into which bytes may be written.
ghost use Rattle.std.specs.Prelude.{◌≡◌, Some, None};
ghost use Rattle.std.specs.Option.{unwrap_or};

use std::marker::Model;

/// A cell of a block: the byte that was written there, or none.
///
/// It is one number, 0 or one more than the byte, and no `Option`: so many cells are laid over
/// bytes without a branch at each.
#[derive(Clone, Copy)]
pub struct Cell {
    state: u16,
}

impl Model for Cell {
    ghost use Rattle.std.specs.Prelude.{◌≤◌, Option, ℕ};
    ghost use Rattle.objects.specs.Cells.{written_by, state_of, state_again};

    ghost Value = { Option ℕ };

    ghost view = { λ c. written_by c.state };

    ghost invariant = { λ c. c.state ≤ 256 };

    ghost inverse = { λ v. record { state = state_of v } };

    ghost inverse_ok = { λ c h i. record { state = state_again c.state i } };
}

impl Cell {
    /// A cell where nothing was written.
    pub fn empty() -> Cell
        ensures { result ≡ None }
    {
        Cell { state: 0 }
    }

    /// A cell where this byte was written.
    pub fn of(byte: u8) -> Cell
        ensures { result ≡ Some byte }
    {
        Cell {
            state: u16::from(byte) + 1,
        }
    }

    /// What stands here over a byte: the one that was written, or else that byte.
    pub fn over(self, byte: u8) -> u8
        ensures { result ≡ unwrap_or self byte }
    {
        let below = u16::from(self.state == 0) * u16::from(byte);
        (below + self.state.saturating_sub(1)) as u8
    }
}
