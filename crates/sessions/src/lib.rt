// The session file and its run: a reader, a writer, and a run of the file's records over a table in lent memory.
#![tactic(auto)]

ghost use Rattle.protocol.specs.Replies.{done_of};
ghost use Rattle.protocol.specs.Slices.{table_of};
ghost use Rattle.sessions.specs.Statements.{HeadOf, Reads, Writes, Runs, read_reply, run_reply};

mod bytes;
mod records;
mod refusals;
mod stale;
mod writer;

use protocol::Refused;

// What a session file says before its records: its rule, P and N, where the records begin, and how many there are. Nothing of it is judged, so its
// rule is a number.
#[derive(Clone, Copy, Debug, Default, PartialEq, Eq)]
pub struct Head {
    pub rule: u8,
    pub boards: usize,
    pub cells: usize,
    pub from: usize,
    pub count: usize,
}

// What a run reports: how many records were accepted, and how many copies are stale at its end.
#[derive(Clone, Copy, Debug, PartialEq, Eq)]
pub struct Report {
    pub accepted: usize,
    pub stale: usize,
}

// What a session file says: its records, a part of the file, and the file's three numbers, as they stand there.
#[derive(Clone, Copy)]
pub struct Session<'a> {
    pub records: &'a [u8],
    pub rule: u8,
    pub boards: usize,
    pub cells: usize,
}

// The head of a file, without any judgement; all 0 where it has fewer than nine bytes, as `HeadOf` promises. What to lend to `read` and `run`
// follows from it.
pub fn head_of(file: &[u8]) -> Head
    ensures { HeadOf file.now result }
{
    if file.len() < 9 {
        return Head::default();
    }
    let cells = bytes::read16(file, 7) as usize;
    let from = bytes::records_at(cells);
    Head {
        rule: file[5],
        boards: file[6] as usize,
        cells,
        from,
        count: bytes::part_from(file, from).len() / 9,
    }
}

// Reads a session file, and fills `starting`, which must have exactly N places, with its starting values. A refused file leaves `starting` as it was.
pub fn read<'a>(file: &'a [u8], starting: &mut [u32]) -> Result<Session<'a>, Refused>
    ensures { Reads file.now starting.old (read_reply result) starting.new }
{
    let head = refusals::judged_to_read(file, starting.len())?;
    bytes::read_values(file, 9, starting);
    Ok(Session {
        records: bytes::part_from(file, head.from),
        rule: head.rule,
        boards: head.boards,
        cells: head.cells,
    })
}

// A session's file put at the start of `out`. Nothing behind the file is changed; a refusal changes nothing.
pub fn write(
    rule: u8,
    boards: usize,
    cells: usize,
    starting: &[u32],
    records: &[u8],
    out: &mut [u8],
) -> Result<(), Refused>
    ensures { Writes rule boards cells starting.now records.now out.old (done_of result) out.new }
{
    refusals::judge_to_write(
        rule,
        boards,
        cells,
        starting.len(),
        records.len(),
        out.len(),
    )?;
    writer::put_header(out, rule, boards, cells);
    writer::put_values(out, 9, starting);
    writer::put_bytes(out, bytes::records_at(cells), records);
    Ok(())
}

// Runs a session file: a fresh table of its starting values, then its records in order. A refusal changes nothing; answer slices that are longer
// than the record count keep what is beyond it.
pub fn run(
    file: &[u8],
    main: &mut [u32],
    copies: &mut [u32],
    masks: &mut [u16],
    numbers: &mut [u8],
    values: &mut [u32],
) -> Result<Report, Refused>
    ensures { Runs file.now (table_of main.old copies.old masks.old) numbers.old values.old (run_reply result) (table_of main.new copies.new masks.new) numbers.new values.new }
{
    let head = refusals::judged_to_run(file, main, copies, masks, numbers.len(), values.len())?;
    let mut places = [0u32; 512];
    // for each cell the latest accepted write to it, or its starting value
    let latest = &mut places[..head.cells];
    bytes::read_values(file, 9, latest);
    // The sizes were judged, so this refuses nothing.
    table::fresh(head.boards, head.cells, latest, main, copies, masks)?;
    let records = bytes::part_from(file, head.from);
    let accepted = records::step_all(head, records, main, copies, masks, numbers, values, latest);
    let stale = stale::count(head.boards, copies, masks, latest);
    Ok(Report { accepted, stale })
}
