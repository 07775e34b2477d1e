// The bench program of document 01: lines from standard input, one line out for each.
//
// It lends the driver two tables of five pages, formats and opens them, and hands it the input byte by byte; what is to
// be printed is written as it comes. What is read and written no contract can say; what a byte does to reader, session
// and tables is `driver`'s, and a chunk of input is proved to do what its bytes do one after the other.
//
// Below stand `driver`, `words`, which spells the lines out, `format` and `opening`. Standard input and output are read
// and written through std, in buffers of this program's own: nothing here allocates.

#![tactic(auto)]

ghost use Rattle.std.specs.Prelude.{◌≡◌, Some, IfOk};
ghost use Rattle.bench.specs.Runs.{run, stand};
ghost use Rattle.bench.specs.Troubles.{trouble_text};

use driver::{BYTES, Bench};
use std::fmt;
use std::io::{Read, Write};
use words::Reply;

// A table of the bench program's store.
type Table = [u8; BYTES];

// How much is read at once.
const CHUNK: usize = 512;

// Why the program stops before the end of its input.
#[derive(Clone, Copy)]
enum Trouble {
    Read,
    Write,
}

impl fmt::Display for Trouble {
    ghost output = { λ trouble. Some (trouble_text trouble) };

    fn fmt<W: fmt::Write>(&self, f: &mut fmt::Formatter<W>) -> fmt::Result {
        f.write_str(match self {
            Trouble::Read => "bench: cannot read standard input",
            Trouble::Write => "bench: cannot write to standard output",
        })
    }
}

// Writes a line; nothing for a byte inside one.
fn print(rt: HostRuntime, reply: Reply) -> Result<(), Trouble> {
    let text = words::spell(reply);
    rt.stdout()
        .write_all(text.as_slice())
        .map_err(|_| Trouble::Write)
}

// The bytes of a chunk, one after the other, up to one whose line can't be written.
fn feed(
    rt: HostRuntime,
    input: &[u8],
    working: &mut Table,
    stable: &mut Table,
    bench: Bench,
) -> Result<Bench, Trouble>
    ensures { IfOk result (λ m. stand m working.new stable.new
        ≡ run input.now (stand bench working.old stable.old)) }
{
    let mut bench = bench;
    for b in input {
        let step = bench.step(working, stable, *b);
        print(rt, step.reply)?;
        bench = step.bench;
    }
    Ok(bench)
}

// Reads once; hands back nothing at the end of the input, where a last line without a newline is a line.
fn read_some(
    rt: HostRuntime,
    working: &mut Table,
    stable: &mut Table,
    bench: Bench,
) -> Result<Option<Bench>, Trouble> {
    let mut chunk = [0u8; CHUNK];
    let n = rt.stdin().read(&mut chunk).map_err(|_| Trouble::Read)?;
    if n == 0 {
        let step = bench.finish(working, stable);
        print(rt, step.reply)?;
        return Ok(None);
    }
    feed(rt, &chunk[..n], working, stable, bench).map(Some)
}

// A proved loop must end, and nothing says that the input does: no run takes so many turns.
fn serve(
    rt: HostRuntime,
    working: &mut Table,
    stable: &mut Table,
    bench: Bench,
) -> Result<(), Trouble> {
    let mut bench = bench;
    for _ in 0..u64::MAX {
        match read_some(rt, working, stable, bench)? {
            Some(next) => bench = next,
            None => break,
        }
    }
    Ok(())
}

// A trouble is told on standard error, and leaves the exit status as it is.
fn main(rt: HostRuntime) {
    let mut working = [0u8; BYTES];
    let mut stable = [0u8; BYTES];
    let _ = format::format(&working, &mut stable);
    let opened = opening::open(&mut working, &mut stable);
    let bench = Bench::new(opened.session);
    if let Err(trouble) = serve(rt, &mut working, &mut stable, bench) {
        let _ = rt.eprintln(trouble);
    }
}
