//! The digits of a count in base two.

ghost use Rattle.std.specs.Prelude.{◌≡◌, ◌*◌, ◌%◌, ◌^◌, ◌<◌, ◌≤◌};
ghost use Rattle.tor_merkle.specs.Subtree.{height};

/// The height of a tree over so many hashes: the least k with `count` at most 2^k.
pub fn height_of(count: u64) -> u32
    requires { count ≤ 2 ^ 36 }
    ensures { result ≡ height count }
{
    let mut k = 0;
    'higher: while 1 << k < count {
        k += 1;
    }
    k
}

// Which digit is the lowest that is 1, and the odd number that the digits from there on are.
pub(crate) fn lowest_one(count: u64) -> (u32, u64)
    requires { 0 < count }
    ensures whole { count ≡ result.1 * 2 ^ result.0 }
    ensures odd { result.1 % 2 ≡ 1 }
{
    let mut odd = count;
    let mut digit = 0;
    'zeros: while odd % 2 == 0 {
        odd /= 2;
        digit += 1;
    }
    (digit, odd)
}
