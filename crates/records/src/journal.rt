// The touches of one process, each once.
ghost use Rattle.std.specs.Prelude.{◌≡◌, ◌-◌, ◌++◌, take, ◌∷◌, [], false, length};
ghost use Rattle.std.specs.Prelude.{OnOk, OnErr, IfErr, IfSome, IfNone};
ghost use Rattle.records.specs.Index.{has};

use heap::Heap;
use ids::Touch;
use std::marker::Model;

/// The touches of one process, each once, in the order in which they came.
pub struct Journal {
    touches: Vec<Touch, Heap>,
}

impl Drop for Journal {
    fn drop(self) {
        let Journal { touches: _ } = self;
    }
}

impl Model for Journal {
    ghost use Rattle.std.specs.Prelude.{◌≡◌, List};
    ghost use Rattle.model.specs.Steps.{Touch};
    ghost use Rattle.records.specs.Touches.{distinct};

    ghost Value = { List Touch };

    ghost view = { λ j. j.touches.items };

    ghost invariant = { λ j. distinct j.touches.items ≡ j.touches.items };
}

impl Journal {
    /// No touches. It takes no memory.
    pub fn new(heap: Heap) -> Journal
        ensures { result ≡ [] }
    {
        Journal {
            touches: Vec::new(heap),
        }
    }

    /// The touches, in order.
    pub fn as_slice(&self) -> &[Touch]
        ensures { result.now ≡ self.now }
    {
        self.touches.as_slice()
    }

    /// How many touches there are.
    pub fn len(&self) -> usize
        ensures { result ≡ length self.now }
    {
        self.touches.len()
    }

    /// A touch that is not there yet, at the end. Refused memory gives it back and changes nothing.
    pub fn push(&mut self, touch: Touch) -> Result<(), Touch>
        requires { has touch self.old ≡ false }
        ensures ok { OnOk result (self.new ≡ self.old ++ touch ∷ []) }
        ensures back { IfErr result (λ t. t ≡ touch) }
        ensures err { OnErr result (self.new ≡ self.old) }
    {
        match self.touches.push(touch) {
            Ok(()) => Ok(()),
            Err(refused) => Err(refused.value),
        }
    }

    /// Takes the last touch away. It takes no memory.
    pub fn pop(&mut self) -> Option<Touch>
        ensures some { IfSome result (λ t. self.old ≡ self.new ++ t ∷ []) }
        ensures once { IfSome result (λ t. has t self.new ≡ false) }
        ensures rest { self.new ≡ take (length self.old - 1) self.old }
        ensures none { IfNone result (self.old ≡ []) }
    {
        self.touches.pop()
    }

    /// Takes all touches away. It takes no memory.
    pub fn clear(&mut self)
        ensures { self.new ≡ [] }
    {
        self.touches.clear();
    }
}
