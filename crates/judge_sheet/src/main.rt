// The program of document 01, 'The program': reads one sheet from standard input, builds its table, judges it and prints one
// line. What that line means is `Prints`, crates/convention/specs/Program.antt.
#![tactic(auto)]

ghost use Rattle.std.specs.Prelude.{◌≡◌, ◌≤◌, length, IfOk};
ghost use Rattle.convention.specs.Program.{Prints};
ghost use Rattle.judge_sheet.specs.Texts.{line_room, TextIs, TableLineAsks, TableLine};

use convention::{Refusal, STATE_LIMIT};
use std::io;
use std::io::{Read, Write};

// `input_limit`: the most bytes of an input that is looked at.
const INPUT_LIMIT: usize = 1024;
// `table_room`: the most bytes of a table.
const TABLE_ROOM: usize = 6424;
// `list_room`: the most kinds of a verdict's list.
const LIST_ROOM: usize = 2 * STATE_LIMIT;
// `line_room`: the most bytes of a line.
const LINE_ROOM: usize = 818;

// Judges a table that was built, which is never refused, and writes its line. Answers how long it is.
fn table_line(states: u16, kinds: u8, table: &[u8], out: &mut [u8]) -> usize
    requires { TableLineAsks states kinds table.now out.old }
    ensures { TextIs (TableLine states kinds table.now) result out.new }
{
    let mut list = [0u8; LIST_ROOM];
    let Some(found) = judging::judge(table, &mut list).unwrap() else {
        return line::write_clean(states, kinds, out);
    };
    let n = found.kinds;
    line::write_faulty(states, kinds, found.fault.number(), n, &list[..n], out)
}

// Writes the line of an input, of which the first 1,025 bytes are enough. Answers how long it is.
fn answer(input: &[u8], out: &mut [u8]) -> usize
    requires { line_room ≤ length out.old }
    ensures { TextIs (Prints input.now) result out.new }
{
    if INPUT_LIMIT < input.len() {
        return line::write_refused(Refusal::Length.number(), out);
    }
    let kinds = fields::head_of(input).kinds;
    let mut table = [0u8; TABLE_ROOM];
    match building::build(input, &mut table) {
        Ok(built) => table_line(built.states, kinds, &table[..built.length], out),
        Err(refusal) => line::write_refused(refusal.number(), out),
    }
}

// Reads until `input` is full or the reader ends. Answers how many bytes were read, which are the first of `input`. A loop of its own:
// `read_exact` refuses an input that ends sooner, and `read_to_end` needs a heap.
fn read_full<R: Read>(reader: &mut R, input: &mut [u8]) -> io::Result<usize>
    ensures { IfOk result (λ n. n ≤ length input.new) }
{
    let mut done = 0;
    while done < input.len() {
        let n = reader.read(&mut input[done..])?;
        if n == 0 {
            break;
        }
        done += n;
    }
    Ok(done)
}

fn main(rt: HostRuntime) -> io::Result<()> {
    let mut input = [0u8; INPUT_LIMIT + 1];
    let read = read_full(&mut rt.stdin(), &mut input)?;
    let mut text = [0u8; LINE_ROOM];
    let n = answer(&input[..read], &mut text);
    rt.stdout().write_all(&text[..n])
}
