// Answers calls of `table`, `sessions` and `listing`: one call a line on standard input, one line for each on standard output.
#![tactic(auto)]

mod calls;
mod memory;
mod print;
mod text;

use calls::Call;
use memory::Memory;

// Echoes an empty line and one that begins with `#`; answers every other.
fn answer(to: &impl Print, line: &[u8], memory: &mut Memory) -> std::io::Result<()> {
    if let [] | [b'#', ..] = line {
        to.write_all(line)?;
        return println!(to);
    }
    match Call::read(line, memory) {
        Some(call) => call.answer(to),
        None => println!(to; "not a call"),
    }
}

// What cannot be written is left out, and nothing is said of it; the answers go on.
fn answer_lines(to: &impl Print, input: &[u8], memory: &mut Memory) {
    for line in input.split_inclusive(|b| *b == b'\n') {
        let _ = answer(to, line.strip_suffix(b"\n").unwrap_or(line), memory);
    }
}

// Fills the room as far as the input goes, by the kit's `io`: std's `read_exact` wants the whole room filled, and `read_to_end` the heap.
fn read_input<'a>(room: &'a mut [u8]) -> &'a [u8] {
    let n = io::read_full(0, room);
    &room[..n]
}

// A function of its own, so that no proof looks into three million zeros.
fn make_room() -> [u8; 3000000] {
    [0; 3000000]
}

fn main(rt: HostRuntime) {
    let mut room = make_room();
    let mut memory = Memory::new();
    answer_lines(&rt, read_input(&mut room), &mut memory);
}
