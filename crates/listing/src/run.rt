// A run that is not refused: how long its listing is, and the listing put at the start of a lent slice.
ghost use Rattle.std.specs.Prelude.{◌≡◌, [], ◌∷◌, ◌<◌, ◌≤◌, leb, length};
ghost use Rattle.sessions.specs.File.{rule_in, boards_in, cells_in};
ghost use Rattle.sessions.specs.FileRefusals.{count_in};
ghost use Rattle.sessions.specs.Run.{log_of, line_of_record, accepted_in, stale_of};
ghost use Rattle.listing.specs.Listing.{record_numbers, run_listing};
ghost use Rattle.listing.specs.Code.{overwritten, Told};
ghost use Rattle.listing.specs.Statements.{Puts};

use crate::line;
use protocol::Refused;
use sessions::{Head, Report};

// How long the longest listing is.
const LONGEST: usize = 94232;

// A file, and what its run told. The answers' numbers and values stand in two slices, since `sessions::run` promises to fill two.
#[derive(Clone, Copy)]
pub struct Run<'a> {
    pub file: &'a [u8],
    pub head: Head,
    pub report: Report,
    pub numbers: &'a [u8],
    pub values: &'a [u32],
    ghost told: { Told file.now head report numbers.now values.now },
}

impl Run<'_> {
    // "First line: rule, P, N"
    fn first(&self) -> [usize; 3]
        ensures { result ≡ rule_in self.now.file.now ∷ boards_in self.now.file.now ∷ cells_in self.now.file.now ∷ [] }
    {
        [self.head.rule as usize, self.head.boards, self.head.cells]
    }

    // "for each record: its index from 0, code, answer number, value answered"
    fn record(&self, i: usize) -> [usize; 4]
        requires { i < self.now.head.count }
        ensures { result ≡ record_numbers i (line_of_record self.now.file.now i) }
    {
        [
            i,
            self.file[self.head.from + 9 * i] as usize,
            self.numbers[i] as usize,
            self.values[i] as usize,
        ]
    }

    // "Last line: records, accepted, stale"
    fn last(&self) -> [usize; 3]
        ensures { result ≡ count_in self.now.file.now ∷ accepted_in (log_of self.now.file.now) ∷ stale_of self.now.file.now ∷ [] }
    {
        [self.head.count, self.report.accepted, self.report.stale]
    }

    // How long the listing is.
    fn width(&self) -> usize
        ensures { result ≡ length (run_listing self.now.file.now) }
    {
        let mut sum = line::width(&self.first());
        for i in 0..self.head.count {
            sum += line::width(&self.record(i));
        }
        let last = self.last();
        sum + line::width(&last)
    }

    // The listing: answers how long it is.
    fn put(&self, out: &mut [u8]) -> usize
        requires { length (run_listing self.now.file.now) ≤ length out.old }
        ensures length { result ≡ length (run_listing self.now.file.now) }
        ensures bytes { out.new ≡ overwritten (run_listing self.now.file.now) out.old }
    {
        let mut end = line::put(&self.first(), out);
        for i in 0..self.head.count {
            end += line::put(&self.record(i), &mut out[end..]);
        }
        end + line::put(&self.last(), &mut out[end..])
    }

    // Whether so many bytes have room for the listing. Only where they are fewer than the longest listing has, this one is measured.
    fn fits(&self, room: usize) -> bool
        ensures { result ≡ leb (length (run_listing self.now.file.now)) room }
    {
        room >= LONGEST || self.width() <= room
    }

    // The listing, where there is room for it.
    pub fn list(&self, out: &mut [u8]) -> Result<usize, Refused>
        ensures { Puts (run_listing self.now.file.now) out.old result out.new }
    {
        if !self.fits(out.len()) {
            return Err(Refused::NoRoom);
        }
        Ok(self.put(out))
    }
}
