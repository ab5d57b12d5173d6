// The mark, numbers in a slice of bytes, little-endian, where the records begin, and the part of a slice from a place on.
// The places are those of the file's form, and the two sizes of a number have a function each, as no type stands above both.
ghost use Rattle.std.specs.Prelude.{◌≡◌, ◌+◌, ◌*◌, ◌<◌, ◌≤◌, length, drop};
ghost use Rattle.sessions.specs.File.{le16, le32, values, records_at};

// The mark of a session file: its first three bytes.
pub const MARK: [u8; 3] = *b"CCS";

// The number of two bytes at a place.
#[tactic(auto, unfolding(crate::specs::File::le16))]
pub fn read16(s: &[u8], at: usize) -> u16
    requires { at + 2 ≤ length s.now }
    ensures { result ≡ le16 s.now at }
{
    u16::from_le_bytes([s[at], s[at + 1]])
}

// The number of four bytes at a place.
#[tactic(auto, unfolding(crate::specs::File::le32))]
pub fn read32(s: &[u8], at: usize) -> u32
    requires { at + 4 ≤ length s.now }
    ensures { result ≡ le32 s.now at }
{
    u32::from_le_bytes([s[at], s[at + 1], s[at + 2], s[at + 3]])
}

// Fills a slice with the numbers of four bytes from a place on.
pub fn read_values(s: &[u8], at: usize, out: &mut [u32])
    requires { at + 4 * length out.old ≤ length s.now }
    ensures { out.new ≡ values s.now at (length out.old) }
{
    for (i, value) in out.iter_mut().enumerate() {
        *value = read32(s, at + 4 * i);
    }
}

// Where the records begin: behind the nine bytes and the starting values.
pub fn records_at(cells: usize) -> usize
    requires { cells < 65536 }
    ensures { result ≡ records_at cells }
{
    9 + 4 * cells
}

// The part of a slice from a place to its end; empty where the place is past the end.
pub fn part_from<'a>(s: &'a [u8], from: usize) -> &'a [u8]
    ensures { result.now ≡ drop from s.now }
{
    s.get(from..).unwrap_or(&[])
}
