// Lists of numbers: an entry, and equal entries that stand in a row.
ghost use Rattle.std.specs.Prelude.{◌≡◌, get_or};
ghost use Rattle.model.specs.Counting.{equals_end_of};

// An entry of a list, 0 behind its end.
pub fn value_at(list: &[u32], k: usize) -> u32
    ensures { result ≡ get_or list.now k 0 }
{
    list.get(k).copied().unwrap_or(0)
}

// The place behind the entries that, from a place on, equal the one there; the place itself behind the end of the list.
pub fn equals_end(list: &[u32], from: usize) -> usize
    ensures { result ≡ equals_end_of list.now from }
{
    if list.len() <= from {
        return from;
    }
    let number = list[from];
    for k in from + 1..list.len() {
        if list[k] != number {
            return k;
        }
    }
    list.len()
}
