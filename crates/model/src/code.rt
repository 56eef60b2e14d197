// Codes of distances, as they stand in answer lists: 0 for none, else one more than the metres.
ghost use Rattle.std.specs.Prelude.{◌≡◌};
ghost use Rattle.model.specs.Distance.{least, code, decode};

// The code of the lesser of two distances.
pub fn lesser_code(a: u64, b: u64) -> u64
    ensures { result ≡ code (least (decode a) (decode b)) }
{
    if a == 0 {
        return b;
    }
    if b == 0 {
        return a;
    }
    a.min(b)
}
