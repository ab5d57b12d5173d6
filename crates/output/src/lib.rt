// The listing of a session file on standard output.
#![tactic(auto)]

ghost use Rattle.std.specs.Prelude.{◌≡◌, ◌≤◌, length, take};
ghost use Rattle.listing.specs.Listing.{listing_of};

// A slice of 94,232 bytes has room for every listing: answers how long this one is. Apart from `show`, since what that writes has no contract.
fn put(file: &[u8], out: &mut [u8]) -> usize
    requires { 94232 ≤ length out.old }
    ensures within { result ≤ length out.old }
    ensures length { result ≡ length (listing_of file.now) }
    ensures bytes { take result out.new ≡ listing_of file.now }
{
    listing::list(file, out).unwrap()
}

// Writes the listing and answers how long it is, as is promised whether or not it can be written; a write that fails is said on standard error.
// No listing is longer than 94,232 bytes: 4,096 lines of at most 23, and two more. std writes by a handle, for which this function does not ask:
// so it writes by the kit's `io`.
pub fn show(file: &[u8]) -> usize
    ensures { result ≡ length (listing_of file.now) }
{
    let mut out = [0; 94232];
    let length = put(file, &mut out);
    if !io::write_all(1, &out[..length]) {
        io::write_all(2, b"the listing could not be written\n");
    }
    length
}
