//! Values into slots when a table is made, and out of them when it is closed.
ghost use Rattle.std.specs.Prelude.{◌≡◌, ◌<◌, ◌≤◌, ◌*◌, ◌++◌, ◌∷◌, [], ℕ, List, length, map, IfOk, vec_len, vec_capacity, Some, Option};
ghost use mathlib.Core.Option.{some};
ghost use lib.ListN.{get_elem?};
ghost use Rattle.std.specs.Mem.Slots.{slots_items, slots_len, IsFull};

use crate::grows::Grows;
use atomic_table::Closed;
use ebl_base::NoMemory;
use std::alloc::{AllocFailed, Global};

/// The words of values whose turns are free, and the count of the first pass behind them.
pub fn words_of<T: Grows>(alloc: Global, values: &Vec<T>) -> Result<Vec<u64>, NoMemory>
    ensures { IfOk result (λ words. words.items ≡ map (λ x. 2 * length (T.list x)) values.now.items ++ 1 ∷ []) }
{
    let mut words = Vec::new(alloc);
    for value in values {
        words.push(2 * value.frames())?;
    }
    words.push(1)?;
    Ok(words)
}

/// The values as they lie in slots.
pub fn put_in_slots<T: Drop>(alloc: Global, values: Vec<T>) -> Result<Vec<Option<T>>, NoMemory>
    ensures { IfOk result (λ slots. slots.items ≡ map Some values.items) }
{
    let mut slots = Vec::with_capacity(alloc, values.len())?;
    for value in values {
        slots.push(Some(value))?;
    }
    Ok(slots)
}

/// The values out of the slots of a table that is closed, in their order, into a vector that has room for them.
pub fn take_from_slots<T: Drop>(closed: Closed<Option<T>, Global>, room: Vec<T>) -> Vec<T>
    requires full { IsFull closed.slots }
    requires empty { room.items ≡ [] }
    requires room { slots_len closed.slots ≤ vec_capacity room }
    requires home { (k : ℕ) → k < slots_len closed.slots
        → (x : T) × (get_elem? (slots_items closed.slots) k ≡ some (Some x)) }
    ensures count { vec_len result ≡ slots_len closed.slots }
    ensures values { (k : ℕ) (x : T) → get_elem? (slots_items closed.slots) k ≡ some (Some x)
        → get_elem? result.items k ≡ some x }
{
    let mut closed = closed;
    let mut values = room;
    for k in 0..closed.slot_count() {
        let slot = closed.take(k);
        let Some(value) = slot else { unreachable!() };
        let Ok(()) = values.push(value) else {
            unreachable!()
        };
    }
    closed.free();
    values
}
