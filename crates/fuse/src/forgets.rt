// Nodes whose lookups are forgotten.
ghost use Rattle.std.specs.Prelude.{◌≡◌, ◌*◌, length, IfOk};
ghost use Rattle.fuse.specs.Bodies.{forgets_in};

use crate::number::u64_at;
use heap::Heap;
use std::alloc::AllocError;
use std::marker::Model;

/// How many lookups of a node the kernel has forgotten.
#[derive(Clone, Copy, Debug)]
pub struct Forget {
    /// The node.
    pub node: u64,
    /// How many of its lookups.
    pub lookups: u64,
}

/// Nodes whose lookups are forgotten, in order.
#[derive(Drop)]
pub struct Forgets {
    forgets: Vec<Forget, Heap>,
}

impl Model for Forgets {
    ghost use Rattle.std.specs.Prelude.{List};
    ghost use Rattle.fuse.specs.declared.forgets.Forget.{Forget};

    ghost Value = { List Forget };

    ghost view = { λ f. f.forgets.items };
}

impl Forgets {
    /// The nodes, in order.
    pub fn as_slice(&self) -> &[Forget]
        ensures { result.now ≡ self.now }
    {
        self.forgets.as_slice()
    }
}

// So many nodes, of 16 bytes each.
fn each_forget(heap: Heap, count: usize, bytes: &[u8]) -> Result<Vec<Forget, Heap>, AllocError>
    requires { length bytes.now ≡ 16 * count }
    ensures { IfOk result (λ all. all.items ≡ forgets_in count bytes.now) }
{
    let mut forgets = Vec::with_capacity(heap, count)?;
    let mut rest = bytes;
    for _ in 0..count {
        forgets.push(Forget {
            node: u64_at(rest, 0),
            lookups: u64_at(rest, 8),
        })?;
        let (_, behind) = rest.split_at(16);
        rest = behind;
    }
    Ok(forgets)
}

// The same as one value.
pub(crate) fn forgets_in(heap: Heap, count: usize, bytes: &[u8]) -> Result<Forgets, AllocError>
    requires { length bytes.now ≡ 16 * count }
    ensures { IfOk result (λ all. all ≡ forgets_in count bytes.now) }
{
    Ok(Forgets {
        forgets: each_forget(heap, count, bytes)?,
    })
}
