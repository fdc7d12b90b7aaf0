ghost use Rattle.std.specs.Prelude.{◌≡◌, ◌+◌, ◌∷◌, ◌++◌, [], reverse, max, vec_len, IfOk, MatchOption};

use crate::trees::Nested;
use std::alloc::{AllocError, Global};

/// No item.
pub fn none<T: Drop>(alloc: Global) -> Nested<Vec<T>>
    ensures tree { result.tree.items ≡ [] }
    ensures depth { result.depth ≡ 0 }
{
    Nested {
        tree: Vec::new(alloc),
        depth: 0,
    }
}

/// The items, and this one behind them.
pub fn appended<T: Drop>(list: Vec<T>, item: T) -> Result<Vec<T>, AllocError>
    ensures { IfOk result (λ all. all.items ≡ list.items ++ item ∷ []) }
{
    let mut all = list;
    all.push(item)?;
    Ok(all)
}

/// The items, and this one behind them, with the depth of the deepest.
pub fn added<T: Drop>(all: Nested<Vec<T>>, one: Nested<T>) -> Result<Nested<Vec<T>>, AllocError>
    ensures tree { IfOk result (λ more. more.tree.items ≡ all.tree.items ++ one.tree ∷ []) }
    ensures depth { IfOk result (λ more. more.depth ≡ max all.depth one.depth) }
{
    let depth = all.depth.max(one.depth);
    let tree = appended(all.tree, one.tree)?;
    Ok(Nested { tree, depth })
}

/// Puts the item before the others of a list that is kept with its first item last.
pub fn put<T: Drop>(list: &mut Vec<T>, item: T) -> Result<(), AllocError>
    ensures { IfOk result (λ _. reverse list.new.items ≡ item ∷ reverse list.old.items) }
{
    list.push(item)?;
    Ok(())
}

/// Takes the first item of a list that is kept with its first item last.
pub fn take<T>(list: &mut Vec<T>) -> Option<T>
    ensures taken { MatchOption result (list.old.items ≡ []) (λ item. reverse list.old.items ≡ item ∷ reverse list.new.items) }
    ensures rest { MatchOption result (list.new.items ≡ []) (λ item. vec_len list.new + 1 ≡ vec_len list.old) }
{
    list.pop()
}
