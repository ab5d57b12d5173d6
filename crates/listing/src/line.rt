// A line of numbers: how long it is, and its bytes put at the start of a lent slice. A text is measured before any of it is written, so that how long
// it is has a function of its own beside the one that puts it; each asks the room of its own text.
ghost use Rattle.std.specs.Prelude.{◌≡◌, ◌≤◌, length};
ghost use Rattle.listing.specs.Listing.{line};
ghost use Rattle.listing.specs.Code.{overwritten};

use crate::decimal;

const BLANK: u8 = b' ';

const NEWLINE: u8 = b'\n';

// How long a line of at most four numbers is.
pub fn width(numbers: &[usize]) -> usize
    requires { length numbers.now ≤ 4 }
    ensures length { result ≡ length (line numbers.now) }
    ensures few { result ≤ 84 }
{
    numbers.iter().map(|n| decimal::width(*n) + 1).sum()
}

// The line: answers how long it is.
pub fn put(numbers: &[usize], out: &mut [u8]) -> usize
    requires { length (line numbers.now) ≤ length out.old }
    ensures length { result ≡ length (line numbers.now) }
    ensures bytes { out.new ≡ overwritten (line numbers.now) out.old }
{
    let mut end = 0;
    for (i, n) in numbers.iter().enumerate() {
        end += decimal::put(*n, &mut out[end..]);
        let behind = if i + 1 < numbers.len() {
            BLANK
        } else {
            NEWLINE
        };
        out[end] = behind;
        end += 1;
    }
    end
}
