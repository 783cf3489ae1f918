//! Lists whose room is there before it is needed.
ghost use Rattle.std.specs.List.{insert};
ghost use Rattle.std.specs.Prelude.{◌≡◌, ◌<◌, ◌≤◌, ◌+◌, [], ◌∷◌, ◌++◌, IfOk, vec_len};
ghost use Rattle.std.specs.Prelude.{vec_capacity};

use package_tables::fault::Fault;
use std::alloc::Global;

/// Puts an item behind the others. Room for it is there, so this takes no memory.
pub fn push_reserved<T: Drop>(items: &mut Vec<T>, item: T)
    requires { vec_len items.old < vec_capacity items.old }
    ensures items { items.new.items ≡ items.old.items ++ item ∷ [] }
    ensures len { vec_len items.new ≡ vec_len items.old + 1 }
    ensures capacity { vec_capacity items.old ≤ vec_capacity items.new }
{
    let _ = items.push(item);
}

/// An empty list with room for one.
pub fn room_for_one<T: Drop>(alloc: Global) -> Result<Vec<T>, Fault>
    ensures { IfOk result (λ room. (room.items ≡ []) × (1 ≤ vec_capacity room)) }
{
    Ok(Vec::with_capacity(alloc, 1)?)
}

/// Puts an item at a place, before those that stand there and behind it. Room for it is there, so this takes no memory.
pub fn insert_reserved<T: Drop>(items: &mut Vec<T>, at: usize, item: T)
    requires place { at ≤ vec_len items.old }
    requires room { vec_len items.old < vec_capacity items.old }
    ensures items { items.new.items ≡ insert items.old.items at item }
    ensures len { vec_len items.new ≡ vec_len items.old + 1 }
    ensures capacity { vec_capacity items.new ≡ vec_capacity items.old }
{
    let _ = items.insert(at, item);
}
