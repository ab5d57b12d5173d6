// Lists many session files from standard input, one behind the other, each with its length before it as four bytes, little-endian.
#![tactic(auto)]

use std::io::Read;

// Lists the next file; `None` where the input ends, or has no whole file of fewer than 65,536 bytes.
fn list_next(rt: &HostRuntime) -> Option<()> {
    let mut input = rt.stdin();
    let mut length = [0; 4];
    input.read_exact(&mut length).ok()?;
    let Ok(length) = u16::try_from(u32::from_le_bytes(length)) else {
        let _ = rt.eprintln("replay: a file of 65,536 bytes or more");
        return None;
    };
    let mut buffer = [0; 65536];
    let file = &mut buffer[..usize::from(length)];
    if input.read_exact(file).is_err() {
        let _ = rt.eprintln("replay: the input ends within a file, or could not be read");
        return None;
    }
    output::show(file);
    Some(())
}

// A proved loop has to end, and nothing says that the input does: so its turns are counted.
fn main(rt: HostRuntime) {
    for _ in 0..u64::MAX {
        if list_next(&rt).is_none() {
            break;
        }
    }
}
