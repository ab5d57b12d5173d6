// A number in decimal: how many digits it has, and its digits put at the start of a lent slice.
ghost use Rattle.std.specs.Prelude.{◌≡◌, ◌≤◌, length};
ghost use Rattle.listing.specs.Decimal.{digits};
ghost use Rattle.listing.specs.Code.{overwritten};

// How many digits a number has.
pub fn width(n: usize) -> usize
    ensures length { result ≡ length (digits n) }
    ensures few { result ≤ 20 }
{
    n.checked_ilog10().unwrap_or(0) as usize + 1
}

// The digits of a number's tenth, then its last digit: answers how many there are. One digit has a way out of its own: where both ways shared the
// last store, the listing missed its bar beside the twin in C.
pub fn put(n: usize, out: &mut [u8]) -> usize
    requires { length (digits n) ≤ length out.old }
    ensures length { result ≡ length (digits n) }
    ensures bytes { out.new ≡ overwritten (digits n) out.old }
{
    if n < 10 {
        out[0] = b'0' + n as u8;
        return 1;
    }
    let before = put(n / 10, out);
    out[before] = b'0' + (n % 10) as u8;
    before + 1
}
