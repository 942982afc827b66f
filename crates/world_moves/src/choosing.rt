//! What the number of a move chooses.

ghost use Rattle.std.specs.Prelude.{◌≡◌, ◌<◌, length, IfSome};
ghost use Rattle.world_moves.specs.Choosing.{chosen_place, chosen_in};

/// The place that the number chooses among so many. None exactly where there is none.
pub(crate) fn chosen_place(number: u32, count: usize) -> Option<usize>
    ensures place { result ≡ chosen_place number count }
    ensures inside { IfSome result (λ place. place < count) }
{
    if count == 0 {
        return None;
    }
    Some(number as usize % count)
}

/// The item that the number chooses. None exactly where there is none.
pub(crate) fn chosen_in(number: u32, items: &[u32]) -> Option<u32>
    ensures { result ≡ chosen_in number items.now }
{
    if items.is_empty() {
        return None;
    }
    Some(items[number as usize % items.len()])
}
