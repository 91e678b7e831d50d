// Join and meet of mask lists: refusals 2, 5 and 15.
use Operation::{Join, Meet};
use games::Refusal;
use rows::print::{Numbers, Told, Words, Wrote};
use rows::stations::GUARD;
use std::fmt::{self, Display};
use std::io;

// What is asked of two lists over so many states.
#[derive(Clone, Copy)]
enum Operation {
    Join,
    Meet,
}

impl Operation {
    fn run(self, n: u32, first: &[u32], second: &[u32], out: &mut [u32]) -> Result<usize, Refusal> {
        match self {
            Join => lists::join(n, first, second, out),
            Meet => lists::meet(n, first, second, out),
        }
    }
}

impl Display for Operation {
    fn fmt<W: fmt::Write>(&self, f: &mut fmt::Formatter<W>) -> fmt::Result {
        f.write_str(match self {
            Join => "join",
            Meet => "meet",
        })
    }
}

// The states, the lists, and the room for so many masks, which is three at most.
#[derive(Clone, Copy)]
struct Row<'a>(Operation, u32, &'a [u32], &'a [u32], usize);

const ROWS: [Row; 37] = [
    // J and K.
    Row(Join, 2, &[1, 2], &[3], 3),
    Row(Meet, 3, &[3], &[1, 6], 3),
    // Refusal 15, and a buffer that is just long enough.
    Row(Join, 2, &[1], &[2], 1),
    Row(Meet, 2, &[3], &[1, 2], 1),
    Row(Join, 2, &[1], &[2], 2),
    Row(Join, 2, &[1], &[2], 0),
    Row(Meet, 2, &[3], &[1, 2], 2),
    Row(Meet, 2, &[3], &[1, 2], 0),
    // Empty lists, and the list of the empty set.
    Row(Join, 3, &[], &[], 3),
    Row(Meet, 3, &[], &[], 3),
    Row(Join, 3, &[], &[3], 3),
    Row(Meet, 3, &[3], &[], 3),
    Row(Meet, 3, &[], &[3], 3),
    Row(Join, 3, &[0], &[], 3),
    Row(Meet, 3, &[0], &[3], 3),
    Row(Meet, 3, &[1], &[2], 3),
    // Lists that are not ascending, or with repeats.
    Row(Join, 2, &[2, 1, 2], &[1], 3),
    Row(Meet, 3, &[6, 3, 3], &[5, 7], 3),
    // Widths and masks just inside and just outside, with a mask in each list.
    Row(Join, 1, &[1], &[0], 3),
    Row(Join, 1, &[2], &[0], 3),
    Row(Join, 12, &[4095], &[1], 3),
    Row(Join, 12, &[4096], &[1], 3),
    Row(Join, 0, &[0], &[0], 3),
    Row(Join, 13, &[1], &[2], 3),
    Row(Join, 4294967295, &[1], &[2], 3),
    Row(Meet, 1, &[1], &[1], 3),
    Row(Meet, 1, &[1], &[2], 3),
    Row(Meet, 12, &[4095], &[2048], 3),
    Row(Meet, 12, &[4095], &[4294967295], 3),
    Row(Meet, 0, &[0], &[0], 3),
    Row(Meet, 13, &[1], &[2], 3),
    // 2 before 5; the second list is counted on after the first.
    Row(Join, 13, &[8192], &[0], 3),
    Row(Join, 2, &[4], &[8], 3),
    Row(Join, 2, &[1], &[2, 4], 3),
    Row(Meet, 2, &[1], &[2, 4], 3),
    // 5 before 15.
    Row(Join, 2, &[1, 2], &[4], 0),
    Row(Meet, 2, &[1, 2], &[3, 4], 0),
];

// What the operation answers, and what it leaves in the room.
fn print_row(rt: &impl Print, row: Row) -> io::Result<()> {
    let Row(operation, n, first, second, room) = row;
    let mut buffer = [GUARD; 3];
    let out = &mut buffer[..room.min(3)];
    let answer = Told(operation.run(n, first, second, out).map(Wrote));
    let first = Numbers(first);
    let second = Numbers(second);
    let words = Words(out);
    println!(rt; "{operation} {n} {first} {second} into {room}: {answer} {words}")
}

pub fn rows(rt: &impl Print) -> io::Result<()> {
    for row in ROWS {
        print_row(rt, row)?;
    }
    Ok(())
}
