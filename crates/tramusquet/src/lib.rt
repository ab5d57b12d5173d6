// The listing of a session file as one function. `tramusquet_c` is the same one for C.
#![tactic(auto)]

ghost use Rattle.tramusquet.specs.Statements.{ListsIn};

// Puts the listing at the start of `out`, and answers how long it is; without room answers 0, for a caller in C, and changes nothing.
pub fn tramusquet_list(file: &[u8], out: &mut [u8]) -> usize
    ensures { ListsIn file.now out.old result out.new }
{
    listing::list(file, out).unwrap_or(0)
}
