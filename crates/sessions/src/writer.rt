// The bytes of a session file put into a lent slice, at the places of its form. The rule goes in as the byte that it is.
ghost use Rattle.std.specs.Prelude.{◌≡◌, ◌+◌, ◌*◌, ◌≤◌, length};
ghost use Rattle.sessions.specs.File.{packed, headed};
ghost use Rattle.sessions.specs.Written.{written};

use crate::bytes;

// The nine bytes: the mark, version 1, rule, P and N.
pub fn put_header(out: &mut [u8], rule: u8, boards: usize, cells: usize)
    requires { (9 ≤ length out.old) × (boards ≤ 16) × (cells ≤ 512) }
    ensures { out.new ≡ written (headed rule boards cells) 0 out.old }
{
    put_bytes(out, 0, &bytes::MARK);
    put_bytes(out, 3, &1u16.to_le_bytes());
    put_bytes(out, 5, &[rule, boards as u8]);
    put_bytes(out, 7, &(cells as u16).to_le_bytes());
}

// The four bytes of each value, one behind the other, from a place on.
pub fn put_values(out: &mut [u8], at: usize, xs: &[u32])
    requires { at + 4 * length xs.now ≤ length out.old }
    ensures { out.new ≡ written (packed xs.now) at out.old }
{
    for (i, x) in xs.iter().enumerate() {
        put_bytes(out, at + 4 * i, &x.to_le_bytes());
    }
}

// The bytes of a slice, from a place on.
pub fn put_bytes(out: &mut [u8], at: usize, xs: &[u8])
    requires { at + length xs.now ≤ length out.old }
    ensures { out.new ≡ written xs.now at out.old }
{
    out[at..at + xs.len()].copy_from_slice(xs);
}
