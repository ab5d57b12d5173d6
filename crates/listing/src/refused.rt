// The listing of a refused file: one line.
ghost use Rattle.protocol.specs.Replies.{reply_number};
ghost use Rattle.listing.specs.Listing.{refused_listing};
ghost use Rattle.listing.specs.Statements.{Puts};

use crate::line;
use protocol::Refused;

const WORD: &[u8; 8] = b"refused ";

// "A refused file gives one line: `refused` and the number"
pub fn list(refused: Refused, out: &mut [u8]) -> Result<usize, Refused>
    ensures { Puts (refused_listing (reply_number refused)) out.old result out.new }
{
    let numbers = [refused.number() as usize];
    let length = WORD.len() + line::width(&numbers);
    if out.len() < length {
        return Err(Refused::NoRoom);
    }
    out[..WORD.len()].copy_from_slice(WORD);
    line::put(&numbers, &mut out[WORD.len()..]);
    Ok(length)
}
