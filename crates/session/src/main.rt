// Lists the session file on standard input, or says on standard error that it cannot be read.
#![tactic(auto)]

ghost use Rattle.std.specs.Prelude.{◌≡◌, List, ℕ, ◌≤◌, length, take, IfOk, IfSome};
ghost use Rattle.listing.specs.Listing.{listing_of};

use std::io;
use std::io::Read;

// Reads until the buffer is full or the input ends, and answers how many bytes came: they are the input's first, as many as the buffer has or all.
fn read_input<R: Read>(input: &mut R, buffer: &mut [u8]) -> io::Result<usize>
    ensures bound { IfOk result (λ n. n ≤ length buffer.new) }
    ensures first { IfOk result (λ n. IfSome (R.remaining input.old) (λ file. take (length buffer.old) file ≡ take n buffer.new)) }
{
    // no method of std's reader serves: `read_exact` says nothing of a shorter input, and `read_to_end` takes memory of the heap
    let mut length = 0;
    while length < buffer.len() {
        let more = input.read(&mut buffer[length..])?;
        if more == 0 {
            return Ok(length);
        }
        length += more;
    }
    Ok(length)
}

// What was read, the first n bytes of the buffer: a file that goes on behind a full buffer lists as they do.
fn first_bytes<'a>(buffer: &'a [u8], n: usize) -> &'a [u8]
    requires long { 38922 ≤ length buffer.now }
    requires within { n ≤ length buffer.now }
    ensures part { result.now ≡ take n buffer.now }
    ensures alike { (file : List ℕ) → take (length buffer.now) file ≡ result.now → listing_of result.now ≡ listing_of file }
{
    &buffer[..n]
}

// One byte more than the longest accepted file has: a longer file is cut there, and lists all the same.
fn main(rt: HostRuntime) {
    let mut buffer = [0; 38922];
    match read_input(&mut rt.stdin(), &mut buffer) {
        Ok(length) => {
            output::show(first_bytes(&buffer, length));
        }
        // What came before a failed read is no file.
        Err(_) => {
            let _ = rt.eprintln("the session file could not be read");
        }
    }
}
