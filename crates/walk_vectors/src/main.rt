// Reads tables from standard input, one behind the other, and prints what each set comes to under each action in one walk.
// The tests run it on many tables beside a walk of their own.
#![tactic(auto)]

ghost use Rattle.std.specs.Prelude.{◌≤◌, ◌<◌, ◌≡◌, length};
ghost use Rattle.games.specs.Words.{game};

use games::{Action, State};
use rows::print::Refused;
use std::io;
use tables::{Accepted, Table};
use walk::Walked;

// The most words that are read, and their bytes.
const INPUT_WORDS: usize = 16384;

const INPUT_BYTES: usize = 4 * INPUT_WORDS;

// The line of one walk.
fn print_walk(rt: &impl Print, table: Table, s: u32, a: Action) -> io::Result<()>
    requires { a.0 < (game table.words.now).actions }
{
    let action = a.0;
    let Walked { post, looked } = walk::walk(table, s, a);
    match post {
        Ok(u) => println!(rt; "walk {action} {s}: post {u} {looked}"),
        Err(State(i)) => println!(rt; "walk {action} {s}: blocked {i} {looked}"),
    }
}

// The sets of the table's states, and then one with a state that the table doesn't have.
fn each_set(rt: &impl Print, table: Table, a: Action) -> io::Result<()>
    requires { a.0 < (game table.words.now).actions }
{
    for s in 0..=sets::single(table.states()) {
        print_walk(rt, table, s, a)?;
    }
    Ok(())
}

fn each_action(rt: &impl Print, table: Table) -> io::Result<()> {
    for a in 0..table.actions() {
        each_set(rt, table, Action(a))?;
    }
    Ok(())
}

fn print_table(rt: &impl Print, words: &[u32]) -> io::Result<()> {
    println!(rt; "table {}", words.len())?;
    match Accepted::of(words) {
        Ok(accepted) => each_action(rt, accepted.table),
        Err(refusal) => rt.println(Refused(refusal)),
    }
}

// The words of the first table: as many as its head asks, or all where there are fewer.
fn first_length(words: &[u32]) -> usize
    requires { 0 < length words.now }
    ensures { (0 < result) × (result ≤ length words.now) }
{
    games::table_length(games::shape_of(words[0])).min(words.len())
}

// Each table's head says where the next begins, so no iterator of std cuts the words.
fn each_table(rt: &impl Print, words: &[u32]) -> io::Result<()> {
    let mut rest = words;
    while !rest.is_empty() {
        let (table, behind) = rest.split_at(first_length(rest));
        print_table(rt, table)?;
        rest = behind;
    }
    Ok(())
}

fn print_input(rt: &impl Print, bytes: &[u8]) -> io::Result<()>
    requires { length bytes.now ≤ 65536 }
{
    let mut room = sets::filled::<u32, INPUT_WORDS>(0);
    let count = bytes.len() / 4;
    let words = &mut room[..count];
    words::decode(&bytes[..4 * count], words);
    each_table(rt, words)
}

fn main(rt: HostRuntime) -> io::Result<()> {
    let mut bytes = [0u8; INPUT_BYTES];
    let input = words::read_full(&mut rt.stdin(), &mut bytes)?;
    print_input(&rt, input)
}
