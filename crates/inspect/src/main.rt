// Prints what a policy file on standard input says, or why it is refused.
//
// For a file that is refused: `refused LAYER NUMBER PLACE`. For one that reads well: a line for each command with its
// place, the policy as one formula, and the number of pairs.
#![tactic(auto)]

ghost use Rattle.std.specs.Prelude.{◌≡◌, ◌+◌, ◌≤◌, IfOk, vec_len};

use crate::report::report;
use std::io;
use std::io::Read;

mod failure;
mod formula;
mod lines;
mod names;
mod report;
mod show;
mod text;

// One byte more than a file may have: what is longer is refused without being read whole.
const LIMIT: usize = 65536;

// Adds the next bytes of standard input to a file, no more than there is room for, and answers how many.
fn read_part(rt: &HostRuntime, file: &mut Vec<u8>, room: usize) -> io::Result<usize>
    ensures { IfOk result (λ count. (count ≤ room) × (vec_len file.new ≡ vec_len file.old + count)) }
{
    let mut buffer = [0; 4096];
    let part = &mut buffer[0..room.min(4096)];
    let count = rt.stdin().read(part)?;
    file.extend_from_slice(&part[0..count])?;
    Ok(count)
}

// The bytes of standard input up to the limit.
fn input(rt: &HostRuntime) -> io::Result<Vec<u8>>
    ensures { IfOk result (λ file. vec_len file ≤ 65536) }
{
    let mut file = Vec::new(rt.alloc());
    // by parts: no method of the library says how many bytes it takes at most
    'parts: while file.len() < LIMIT {
        let room = LIMIT - file.len();
        if read_part(rt, &mut file, room)? == 0 {
            break;
        }
    }
    Ok(file)
}

fn run(rt: &HostRuntime) -> anyhow::Result<()> {
    let file = input(rt)?;
    let text = report(rt.alloc(), file.as_slice())?;
    rt.print(text.as_str())?;
    Ok(())
}

fn main(rt: HostRuntime) -> anyhow::Result<()> {
    run(&rt)
}
