// The lists of a case, one behind the other, each behind its length.
ghost use Rattle.std.specs.Prelude.{◌≡◌, ◌+◌, min, length, get_or, take};
ghost use Rattle.cases.specs.Lists.{list_of};

use model::value_at;

// The place behind the list that begins at a place, or the end where that list is cut short.
fn end(lists: &[u32], at: usize) -> usize
    ensures { result ≡ min (at + (get_or lists.now at 0 + 1)) (length lists.now) }
{
    let count = value_at(lists, at) as usize;
    at.saturating_add(count + 1).min(lists.len())
}

// The list of a number, counted from 0. The first holds lone numbers.
pub fn list(lists: &[u32], number: u32) -> &[u32]
    ensures { result.now ≡ list_of number lists.now }
{
    let mut at = 0;
    for _ in 0..number {
        at = end(lists, at);
    }
    let to = end(lists, at);
    if to <= at {
        return &lists[..0];
    }
    let from = at + 1;
    &lists[from..to]
}

// The front of an answer list, with a list written into it.
pub fn filled<'a>(list: &[u32], out: &'a mut [u32]) -> &'a mut [u32]
    ensures { result.now ≡ take (length out.old) list.now }
{
    let count = list.len().min(out.len());
    let front = &mut out[..count];
    front.copy_from_slice(&list[..count]);
    front
}
