// What a plan touches.
ghost use Rattle.std.specs.Prelude.{◌≡◌, ◌++◌, ◌∷◌, [], OnOk};
ghost use Rattle.look.specs.Asked.{writing};

use heap::Heap;
use ids::{Aspect, Touch};
use std::alloc::AllocError;
use std::marker::Model;

/// Touches in the order in which they are made.
pub struct Touches {
    pub(crate) touches: Vec<Touch, Heap>,
}

impl Drop for Touches {
    fn drop(self) {
        let Touches { touches: _ } = self;
    }
}

impl Model for Touches {
    ghost use Rattle.std.specs.Prelude.{List};
    ghost use Rattle.ids.specs.declared.aspect.Touch.{Touch};

    ghost Value = { List Touch };

    ghost view = { λ t. t.touches.items };
}

impl Touches {
    /// One more that is written.
    pub fn write(&mut self, aspect: Aspect) -> Result<(), AllocError>
        ensures { OnOk result (self.new ≡ self.old ++ writing (aspect ∷ [])) }
    {
        let write = true;
        self.touches.push(Touch { aspect, write })?;
        Ok(())
    }

    /// The vector.
    pub fn into_vec(self) -> Vec<Touch, Heap>
        ensures { result.items ≡ self }
    {
        let Touches { touches } = self;
        touches
    }
}
