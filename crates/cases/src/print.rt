// How the answer of a call and what its slices hold are told.
use protocol::Refused;
use std::fmt;
use std::fmt::{Display, Formatter};

// The contents of a slice, and a bar.
#[derive(Drop)]
pub struct Contents<'a, T>(pub &'a [T]);

// The largest prime below 2^32.
const PRIME: u64 = 4294967291;

// Up to 64 numbers are told one by one, and more by a sum in which each number and its place counts.
impl<T: Copy> Display for Contents<'_, T>
where
    u32: From<T>,
{
    fn fmt<W: fmt::Write>(&self, f: &mut Formatter<W>) -> fmt::Result {
        let numbers = self.0;
        if numbers.len() <= 64 {
            for number in numbers {
                write!(f, " {}", u32::from(*number))?;
            }
        } else {
            // the first remainder is the sum itself, and shows that nothing here overflows
            let sum = numbers.iter().fold(0, |sum, number| {
                (sum % PRIME * 31 + u64::from(u32::from(*number))) % PRIME
            });
            write!(f, " {} numbers, sum {sum}", numbers.len())?;
        }
        write!(f, " |")
    }
}

// The contents of a table: main, copies and masks.
#[derive(Drop)]
pub struct Table<'a>(pub &'a [u32], pub &'a [u32], pub &'a [u16]);

impl Display for Table<'_> {
    fn fmt<W: fmt::Write>(&self, f: &mut Formatter<W>) -> fmt::Result {
        let Table(main, copies, masks) = self;
        write!(
            f,
            "{}{}{}",
            Contents(main),
            Contents(copies),
            Contents(masks)
        )
    }
}

// What a check found.
#[derive(Drop)]
pub struct Found(pub Result<Option<usize>, Refused>);

impl Display for Found {
    fn fmt<W: fmt::Write>(&self, f: &mut Formatter<W>) -> fmt::Result {
        match self.0 {
            Ok(None) => write!(f, "sound"),
            Ok(Some(cell)) => write!(f, "unsound {cell}"),
            Err(refused) => write!(f, "refused {}", refused.number()),
        }
    }
}

// The number of a reply, 0 where the call was accepted, and behind it what was answered, each 0 where it was refused.
#[derive(Drop)]
pub struct Reply<const N: usize>(pub Result<[usize; N], Refused>);

impl<const N: usize> Display for Reply<N> {
    fn fmt<W: fmt::Write>(&self, f: &mut Formatter<W>) -> fmt::Result {
        let (number, answered) = match self.0 {
            Ok(answered) => (protocol::ACCEPTED, answered),
            Err(refused) => (refused.number(), [0; N]),
        };
        write!(f, "{number}")?;
        for value in answered {
            write!(f, " {value}")?;
        }
        Ok(())
    }
}
