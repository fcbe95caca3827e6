// What a call answers and changes.
ghost use Rattle.std.specs.Prelude.{◌≡◌, ◌∷◌, ◌++◌, [], IfOk};
ghost use Rattle.model.specs.Plans.{changed, unchanged};
ghost use Rattle.look.specs.Asked.{Tells};

use heap::Heap;
use ids::{Answer, Edit, Refusal};
use std::alloc::AllocError;
use std::marker::Model;

/// Changes, in order.
pub struct Edits {
    edits: Vec<Edit, Heap>,
}

impl Drop for Edits {
    fn drop(self) {
        let Edits { edits: _ } = self;
    }
}

impl Model for Edits {
    ghost use Rattle.std.specs.Prelude.{List};
    ghost use Rattle.model.specs.Changes.{Edit};

    ghost Value = { List Edit };

    ghost view = { λ e. e.edits.items };
}

impl Edits {
    /// None. It takes no memory.
    pub fn new(heap: Heap) -> Edits
        ensures { result ≡ [] }
    {
        Edits {
            edits: Vec::new(heap),
        }
    }

    /// One more.
    pub fn with(self, edit: Edit) -> Result<Edits, AllocError>
        ensures { IfOk result (λ all. all ≡ self ++ edit ∷ []) }
    {
        let Edits { mut edits } = self;
        edits.push(edit)?;
        Ok(Edits { edits })
    }

    /// All of them, in order.
    pub fn as_slice(&self) -> &[Edit]
        ensures { result.now ≡ self.now }
    {
        self.edits.as_slice()
    }

    /// The vector.
    pub fn into_vec(self) -> Vec<Edit, Heap>
        ensures { result.items ≡ self }
    {
        let Edits { edits } = self;
        edits
    }
}

/// What a call answers and changes.
#[derive(Drop)]
pub struct Change {
    /// The answer.
    pub answer: Answer,
    /// The changes, in order.
    pub edits: Edits,
}

impl Model for Change {
    ghost use Rattle.model.specs.Plans.{Change};

    ghost Value = { Change };

    ghost view = { λ c. record { reply = c.answer; edits = c.edits } };
}

/// An answer with these changes. It takes no memory.
pub fn changed(answer: Answer, edits: Edits) -> Result<Change, Refusal>
    ensures { Tells (changed answer edits) result }
{
    Ok(Change { answer, edits })
}

/// An answer that changes nothing. It takes no memory.
pub fn unchanged(heap: Heap, answer: Answer) -> Result<Change, Refusal>
    ensures { Tells (unchanged answer) result }
{
    Ok(Change {
        answer,
        edits: Edits::new(heap),
    })
}

/// An answer with one change.
pub fn changed_by(heap: Heap, answer: Answer, edit: Edit) -> Result<Change, Refusal>
    ensures { Tells (changed answer (edit ∷ [])) result }
{
    let edits = Edits::new(heap).with(edit)?;
    Ok(Change { answer, edits })
}
