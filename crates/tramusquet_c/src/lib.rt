// The listing of a session file as one function for C: include/tramusquet.h declares it.
#![tactic(auto)]

ghost use Rattle.tramusquet.specs.Statements.{ListsIn};

// Puts the listing at the start of `out`, and answers how long it is; without room answers 0, and changes nothing.
#[unsafe(no_mangle)]
pub extern "C" fn tramusquet_list(file: &[u8], out: &mut [u8]) -> usize
    ensures { ListsIn file.now out.old result out.new }
{
    tramusquet::tramusquet_list(file, out)
}
