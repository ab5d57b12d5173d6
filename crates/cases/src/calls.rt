// The calls: what each is given, how a line states it, and what is answered.
use crate::memory::Memory;
use crate::print::{Contents, Found, Reply, Table};
use crate::text::Words;
use protocol::Action;
use sessions::Head;
use std::io;

#[derive(Clone, Copy)]
pub struct Sizes {
    boards: usize,
    cells: usize,
}

// Each slice is a part of memory of its own. A table's three are no struct: tried, and nothing is proved of a call by value that holds one with
// `&mut` slices.
#[derive(Drop)]
pub enum Call<'a> {
    InRange {
        sizes: Sizes,
    },
    SizesGood {
        sizes: Sizes,
        main: &'a [u32],
        copies: &'a [u32],
        masks: &'a [u16],
    },
    Fresh {
        sizes: Sizes,
        starting: &'a [u32],
        main: &'a mut [u32],
        copies: &'a mut [u32],
        masks: &'a mut [u16],
    },
    Check {
        rule: u8,
        sizes: Sizes,
        main: &'a [u32],
        copies: &'a [u32],
        masks: &'a [u16],
    },
    Step {
        rule: u8,
        sizes: Sizes,
        action: Action,
        main: &'a mut [u32],
        copies: &'a mut [u32],
        masks: &'a mut [u16],
    },
    HeadOf {
        file: &'a [u8],
    },
    Read {
        file: &'a [u8],
        starting: &'a mut [u32],
    },
    Write {
        rule: u8,
        sizes: Sizes,
        starting: &'a [u32],
        records: &'a [u8],
        out: &'a mut [u8],
    },
    Run {
        file: &'a [u8],
        main: &'a mut [u32],
        copies: &'a mut [u32],
        masks: &'a mut [u16],
        numbers: &'a mut [u8],
        values: &'a mut [u32],
    },
    List {
        file: &'a [u8],
        out: &'a mut [u8],
    },
}

impl Sizes {
    fn read(words: &mut Words) -> Option<Sizes> {
        Some(Sizes {
            boards: words.number()?,
            cells: words.number()?,
        })
    }
}

fn read_action(words: &mut Words) -> Option<Action> {
    Some(Action {
        code: words.number()?,
        board: words.number()?,
        to: words.number()?,
        cell: words.number()?,
        value: words.number()?,
    })
}

impl<'a> Call<'a> {
    // The call that a line states: its name and its numbers, a bar, and each slice up to a bar. `None` where it states none.
    pub fn read(line: &[u8], memory: &'a mut Memory) -> Option<Call<'a>> {
        let mut words = Words::new(std::str::from_utf8(line).ok()?);
        let Memory {
            starting,
            file,
            main,
            copies,
            masks,
            out,
            values,
        } = memory;
        let call = match words.word()? {
            "in_range" => Call::InRange {
                sizes: Sizes::read(&mut words)?,
            },
            "sizes_good" => {
                let sizes = Sizes::read(&mut words)?;
                words.bar()?;
                Call::SizesGood {
                    sizes,
                    main: words.slice(main)?,
                    copies: words.slice(copies)?,
                    masks: words.slice(masks)?,
                }
            }
            "fresh" => {
                let sizes = Sizes::read(&mut words)?;
                words.bar()?;
                Call::Fresh {
                    sizes,
                    starting: words.slice(starting)?,
                    main: words.slice(main)?,
                    copies: words.slice(copies)?,
                    masks: words.slice(masks)?,
                }
            }
            "check" => {
                let rule = words.number()?;
                let sizes = Sizes::read(&mut words)?;
                words.bar()?;
                Call::Check {
                    rule,
                    sizes,
                    main: words.slice(main)?,
                    copies: words.slice(copies)?,
                    masks: words.slice(masks)?,
                }
            }
            "step" => {
                let rule = words.number()?;
                let sizes = Sizes::read(&mut words)?;
                let action = read_action(&mut words)?;
                words.bar()?;
                Call::Step {
                    rule,
                    sizes,
                    action,
                    main: words.slice(main)?,
                    copies: words.slice(copies)?,
                    masks: words.slice(masks)?,
                }
            }
            "head_of" => {
                words.bar()?;
                Call::HeadOf {
                    file: words.slice(file)?,
                }
            }
            "read" => {
                words.bar()?;
                Call::Read {
                    file: words.slice(file)?,
                    starting: words.slice(starting)?,
                }
            }
            "write" => {
                let rule = words.number()?;
                let sizes = Sizes::read(&mut words)?;
                words.bar()?;
                Call::Write {
                    rule,
                    sizes,
                    starting: words.slice(starting)?,
                    records: words.slice(file)?,
                    out: words.slice(out)?,
                }
            }
            "run" => {
                words.bar()?;
                Call::Run {
                    file: words.slice(file)?,
                    main: words.slice(main)?,
                    copies: words.slice(copies)?,
                    masks: words.slice(masks)?,
                    numbers: words.slice(out)?,
                    values: words.slice(values)?,
                }
            }
            "list" => {
                words.bar()?;
                Call::List {
                    file: words.slice(file)?,
                    out: words.slice(out)?,
                }
            }
            _ => return None,
        };
        words.end()?;
        Some(call)
    }

    // Tells the answer, a bar, and what the slices hold then.
    pub fn answer(self, to: &impl Print) -> io::Result<()> {
        match self {
            Call::InRange { sizes } => {
                let good = table::in_range(sizes.boards, sizes.cells);
                println!(to; "{}", u8::from(good))
            }
            Call::SizesGood {
                sizes,
                main,
                copies,
                masks,
            } => {
                let good = table::sizes_good(sizes.boards, sizes.cells, main, copies, masks);
                println!(to; "{} |{}", u8::from(good), Table(main, copies, masks))
            }
            Call::Fresh {
                sizes,
                starting,
                main,
                copies,
                masks,
            } => {
                let done = table::fresh(sizes.boards, sizes.cells, starting, main, copies, masks);
                let (reply, table) = (Reply(done.map(|()| [0])), Table(main, copies, masks));
                println!(to; "{reply} |{}{table}", Contents(starting))
            }
            Call::Check {
                rule,
                sizes,
                main,
                copies,
                masks,
            } => {
                let found = table::check(rule, sizes.boards, sizes.cells, main, copies, masks);
                println!(to; "{} |{}", Found(found), Table(main, copies, masks))
            }
            Call::Step {
                rule,
                sizes,
                action,
                main,
                copies,
                masks,
            } => {
                let done = table::step(
                    rule,
                    sizes.boards,
                    sizes.cells,
                    main,
                    copies,
                    masks,
                    action,
                );
                let reply = Reply(done.map(|value| [value as usize]));
                println!(to; "{reply} |{}", Table(main, copies, masks))
            }
            Call::HeadOf { file } => {
                let Head {
                    rule,
                    boards,
                    cells,
                    from,
                    count,
                } = sessions::head_of(file);
                println!(to;
                    "{rule} {boards} {cells} {from} {count} |{}",
                    Contents(file)
                )
            }
            Call::Read { file, starting } => {
                let (told, records) = match sessions::read(file, starting) {
                    Ok(session) => (
                        Ok([session.rule as usize, session.boards, session.cells]),
                        session.records,
                    ),
                    Err(refused) => (Err(refused), &[][..]),
                };
                let (file, starting) = (Contents(file), Contents(starting));
                println!(to; "{} |{file}{starting}{}", Reply(told), Contents(records))
            }
            Call::Write {
                rule,
                sizes,
                starting,
                records,
                out,
            } => {
                let done = sessions::write(rule, sizes.boards, sizes.cells, starting, records, out);
                let reply = Reply(done.map(|()| [0]));
                let (starting, records) = (Contents(starting), Contents(records));
                println!(to; "{reply} |{starting}{records}{}", Contents(out))
            }
            Call::Run {
                file,
                main,
                copies,
                masks,
                numbers,
                values,
            } => {
                let done = sessions::run(file, main, copies, masks, numbers, values);
                let reply = Reply(done.map(|report| [report.accepted, report.stale]));
                let (file, table) = (Contents(file), Table(main, copies, masks));
                let (numbers, values) = (Contents(numbers), Contents(values));
                println!(to; "{reply} |{file}{table}{numbers}{values}")
            }
            Call::List { file, out } => {
                let reply = Reply(listing::list(file, out).map(|length| [length]));
                println!(to; "{reply} |{}{}", Contents(file), Contents(out))
            }
        }
    }
}
