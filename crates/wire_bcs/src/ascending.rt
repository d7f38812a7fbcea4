//! Numbers in order.

ghost use Rattle.std.specs.Prelude.{◌≡◌};
ghost use Rattle.wire_bcs.specs.Ascending.{ascends};

/// Whether each number is less than the next, as the numbers of a certificate's members are. Takes no memory.
pub fn ascends(numbers: &[u32]) -> bool
    ensures { result ≡ ascends numbers.now }
{
    let mut rest = numbers;
    while let [first, after @ ..] = rest {
        if let [second, ..] = after
            && first >= second
        {
            return false;
        }
        rest = after;
    }
    true
}
