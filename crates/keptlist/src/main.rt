// `keptlist`: a sheet on standard input, and on standard output what is printed for it. Only the system is called here: which bytes are printed for those that
// were read is said by the contract of `sheet_answer::keptlist`.

#![tactic(auto)]

use sheet_answer::{input_room, keptlist, output_room};
use std::io;
use std::io::Write;
use streams::read_full;

fn main(rt: HostRuntime) -> io::Result<()> {
    let mut input = input_room();
    let count = read_full(&mut rt.stdin(), &mut input)?;
    let mut output = output_room();
    let end = keptlist(&input[..count], &mut output);
    rt.stdout().write_all(&output[..end])
}
