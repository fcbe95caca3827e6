// Short lists of numbers, which stay inline up to a few. Contracts see each as a list.
ghost use Rattle.std.specs.Prelude.{◌≡◌, IfOk, OnErr, OnOk, ◌++◌, ◌∷◌, []};

use crate::number::{Num, Pid};
use heap::Heap;
use smallvec::SmallVec;
use std::alloc::AllocError;
use std::default::MadeWith;
use std::marker::Model;

/// The numbers of the objects that a call made, in the order in which it names them.
pub type Nums = ShortList<Num, 3>;

/// Processes, rising: those that an operation doomed.
pub type Pids = ShortList<Pid, 4>;

/// A list that takes no memory up to `N` items.
#[derive(Debug, Drop)]
pub struct ShortList<T, const N: usize> {
    items: SmallVec<T, N, Heap>,
}

impl<T, const N: usize> Model for ShortList<T, N> {
    ghost use Rattle.std.specs.Prelude.{List};
    ghost use Rattle.std.specs.Coded.{coded_list};

    ghost Value = { List T };

    ghost coded = { coded_list T.code };

    ghost view = { λ l. l.items.items };
}

impl<T: MadeWith<Heap> + Copy + Drop, const N: usize> ShortList<T, N> {
    /// None. It takes no memory.
    pub fn new(heap: Heap) -> ShortList<T, N>
        ensures { result ≡ [] }
    {
        ShortList {
            items: SmallVec::new(heap),
        }
    }

    /// Adds one behind the others. Refused memory changes nothing.
    pub fn push(&mut self, item: T) -> Result<(), AllocError>
        ensures ok { OnOk result (self.new ≡ self.old ++ item ∷ []) }
        ensures err { OnErr result (self.new ≡ self.old) }
    {
        self.items.push(item)?;
        Ok(())
    }

    /// All of them, in order.
    pub fn as_slice(&self) -> &[T]
        ensures { result.now ≡ self.now }
    {
        self.items.as_slice()
    }

    /// A copy on the same allocator. Refused memory changes nothing.
    pub fn try_clone(&self) -> Result<ShortList<T, N>, AllocError>
        ensures { IfOk result (λ l. l ≡ self.now) }
    {
        Ok(ShortList {
            items: SmallVec::from_slice(*self.items.allocator(), self.items.as_slice())?,
        })
    }
}
