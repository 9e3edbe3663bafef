//! Laws of the tree.

ghost use Rattle.reductions.specs.Exchanges.{ExchangeLaw};
ghost use Rattle.reductions.specs.Laws.{GoesOn, GoesOnRight, IsInOrder, IsTree, IsUnderRoot};

use crate::combines::Combines;
use std::alloc::Allocator;

/// The shape of the tree, of every number of elements. The function does nothing: its clauses are the law. Each element but element 0 is a
/// child of its parent, which has a lower index, in the slot that it names in its parts; and nothing else is.
pub fn tree_law()
    ensures children { IsTree }
    ensures parents { IsUnderRoot }
{}

/// What goes on from an element, for every operation. The function does nothing: its clauses are the law. Where the parts that it got are the
/// folds of its children's subtrees, its value is the fold of its own subtree, and it goes on as soon as all parts are there. So by the
/// height of the tree each part, and at element 0 the result, is the fold of what the elements of that subtree contribute. If the
/// operation is associative, the result is the fold of all contributions from the left, in the order of the elements' indices.
pub fn fold_law<V: Combines<A>, A: Allocator>()
    ensures right { GoesOnRight V.combined }
    ensures goes_on { GoesOn V.combined }
    ensures in_order { IsInOrder V.combined }
{}

/// The results of every exchange, for every operation. The function does nothing: its clause is the law. Elements contribute, and parts and
/// results come to them in any order; some may be lost. Then the result that an element gets as number k is the fold, along the tree, of what
/// all elements contributed as number k, and all have contributed so often.
pub fn exchange_law<V: Combines<A>, A: Allocator>()
    ensures results { ExchangeLaw V.combined }
{}
