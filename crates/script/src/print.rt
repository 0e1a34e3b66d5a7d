// The lines of output.
ghost use Rattle.std.specs.Prelude.{◌+◌, ◌/◌, ◌%◌, ◌<◌, ◌≤◌, ◌≡◌, length};
ghost use Rattle.script.specs.Text.{place, decimal};
ghost use Rattle.script.specs.Report.{heading, line_text, line_room, last_line};
ghost use Rattle.script.specs.Private.Slices.{Put};

// A number and its last five digits, the last one in `a`. No `write!`: line numbers are counted up by their digits, most of
// them without a division (docs/PERFORMANCE.md).
#[derive(Clone, Copy)]
pub struct Numeral {
    pub n: u32,
    pub e: u32,
    pub d: u32,
    pub c: u32,
    pub b: u32,
    pub a: u32,
    ghost fifth: { e ≡ n / 10000 % 10 },
    ghost fourth: { d ≡ n / 1000 % 10 },
    ghost third: { c ≡ n / 100 % 10 },
    ghost second: { b ≡ n / 10 % 10 },
    ghost first: { a ≡ n % 10 },
}

// The digits of `n`.
pub fn numeral_of(n: u32) -> Numeral
    ensures { result.n ≡ n }
{
    Numeral {
        n,
        e: n / 10000 % 10,
        d: n / 1000 % 10,
        c: n / 100 % 10,
        b: n / 10 % 10,
        a: n % 10,
    }
}

// The next number: mostly no digit but the last one changes.
pub fn after(x: Numeral) -> Numeral
    requires { x.n ≤ last_line }
    ensures { result.n ≡ x.n + 1 }
{
    if 9 <= x.a {
        return numeral_of(x.n + 1);
    }
    Numeral {
        n: x.n + 1,
        e: x.e,
        d: x.d,
        c: x.c,
        b: x.b,
        a: x.a + 1,
    }
}

// The heading.
pub fn put_heading(out: &mut [u8]) -> usize
    requires { 12 ≤ length out.old }
    ensures { Put out.old 0 heading out.new result }
{
    out[..12].copy_from_slice(b"line answer\n");
    12
}

// Each writer is handed the buffer and a place in it, and says where it stopped: two of them follow one another in a line, and a record
// of the two would be taken apart by each.
// The digit `d` of `n` at the place `p`, unless it is a leading zero.
fn put_place(p: u32, n: u32, d: u32, out: &mut [u8], at: usize) -> usize
    requires { (d ≡ n / p % 10) × (at < length out.old) }
    ensures { Put out.old at (place p n) out.new result × (result ≤ at + 1) }
{
    if n < p {
        return at;
    }
    out[at] = (48 + d) as u8;
    at + 1
}

// A number below 100,000 in decimal.
fn put_decimal(x: Numeral, out: &mut [u8], at: usize) -> usize
    requires { at + 5 ≤ length out.old }
    ensures { Put out.old at (decimal x.n) out.new result × (result ≤ at + 5) }
{
    let n = x.n;
    let i = put_place(10000, n, x.e, out, at);
    let j = put_place(1000, n, x.d, out, i);
    let k = put_place(100, n, x.c, out, j);
    let l = put_place(10, n, x.b, out, k);
    out[l] = (48 + x.a) as u8;
    l + 1
}

// One line of output: number, space, answer, byte 10.
pub fn put_line(x: Numeral, a: u8, out: &mut [u8]) -> usize
    requires { line_room ≤ length out.old }
    ensures { Put out.old 0 (line_text x.n a) out.new result }
{
    let i = put_decimal(x, out, 0);
    out[i] = b' ';
    let answer = numeral_of(a as u32);
    let j = put_decimal(answer, out, i + 1);
    out[j] = b'\n';
    j + 1
}
