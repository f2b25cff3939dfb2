//! The greatest common divisor of pieces' lengths, which divides each length that they make up.
ghost use Rattle.std.specs.Prelude.{◌≡◌, ℕ, unsigned_abs, All, IsFalse};
ghost use Rattle.std.specs.Int.{◌∣◌, IsGcd};
ghost use Rattle.piece_pick.specs.Search.{IsSupply, HasNoFill};

/// The greatest common divisor of two numbers.
fn gcd(a: u64, b: u64) -> u64
    ensures { IsGcd a b result }
{
    let mut x = a;
    let mut y = b;
    while y != 0 {
        let rest = x % y;
        x = y;
        y = rest;
    }
    x
}

/// A piece's length without its sign.
fn length_of(piece: &i64) -> u64
    ensures { result ≡ unsigned_abs piece.now }
{
    piece.unsigned_abs()
}

/// The greatest common divisor of the pieces' lengths, and 0 where there is no piece.
fn common_divisor(pieces: &[i64]) -> u64
    ensures each { All (λ piece. result ∣ unsigned_abs piece) pieces.now }
    ensures greatest { (d : ℕ) → All (λ piece. d ∣ unsigned_abs piece) pieces.now → d ∣ result }
{
    let mut divisor = 0;
    for piece in pieces {
        let length = length_of(piece);
        divisor = gcd(divisor, length);
    }
    divisor
}

/// Whether the greatest common divisor of the supply's lengths divides a length. Where it doesn't,
/// no pieces of the supply make it up.
pub fn may_divide(supply: &[i64], length: &i64) -> bool
    requires { IsSupply supply.now }
    ensures { IsFalse result → (room : ℕ) → HasNoFill supply.now length.now room }
{
    let divisor = common_divisor(supply);
    if divisor == 0 {
        return true;
    }
    let whole = length_of(length);
    whole % divisor == 0
}
