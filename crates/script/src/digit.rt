// Decimal digits are gathered by shifts and additions in 32 bits, without a multiplication: some controllers have no wide one.
ghost use Rattle.std.specs.Prelude.{◌+◌, ◌*◌, ◌≤◌, ◌≡◌};

// The digit behind the number: ten times the number, which is eight times and twice, plus the digit. Every digit that is
// read comes through here.
pub fn append(n: u32, d: u32) -> u32
    requires { (n ≤ 9999) × (d ≤ 9) }
    ensures { result ≡ 10 * n + d }
{
    (n << 3) + (n << 1) + d
}
