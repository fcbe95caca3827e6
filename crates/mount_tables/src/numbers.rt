// The numbers of nodes that stand for no object of the kernel, and which view a root is of.
ghost use Rattle.std.specs.Prelude.{◌≡◌};
ghost use Rattle.mount_tables.specs.Numbers.{class_of, control_node, is_reserved, root_node, view_of};

use nodes::LAST_NUMBER;

/// The root of the plain tree.
pub const ROOT: u64 = 1;

/// The directory of transactions.
pub const TRANSACTIONS: u64 = 2;

/// The view of the plain tree.
pub const PLAIN: u64 = 0;

/// What a node is, by its number.
#[derive(Clone, Copy, Debug)]
pub enum Class {
    /// A root, or an object below one.
    Tree,
    /// The directory of transactions.
    Transactions,
    /// The file by which this view's transaction is ended.
    Control(u64),
}

/// The class of a node.
pub fn class_of(node: u64) -> Class
    ensures { result ≡ class_of node }
{
    if node == TRANSACTIONS {
        Class::Transactions
    } else if node > LAST_NUMBER && node % 2 == 1 {
        Class::Control((node - LAST_NUMBER) / 2)
    } else {
        Class::Tree
    }
}

/// The root of a view.
pub fn root_node(view: u64) -> u64
    ensures { result ≡ root_node view }
{
    if view == PLAIN {
        ROOT
    } else {
        LAST_NUMBER.saturating_add(view.saturating_mul(2))
    }
}

/// The file by which a view's transaction is ended.
pub fn control_node(view: u64) -> u64
    ensures { result ≡ control_node view }
{
    root_node(view).saturating_add(1)
}

/// The view whose root a node is.
pub fn view_of(root: u64) -> Option<u64>
    ensures { result ≡ view_of root }
{
    if root == ROOT {
        Some(PLAIN)
    } else if root > LAST_NUMBER && root % 2 == 0 {
        Some((root - LAST_NUMBER) / 2)
    } else {
        None
    }
}

/// The name of the directory of transactions, in a root.
pub fn is_reserved(node: u64, name: &[u8]) -> bool
    ensures { result ≡ is_reserved node name.now }
{
    view_of(node).is_some() && name == b".tx".as_slice()
}
