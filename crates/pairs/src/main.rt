// The line of `paircheck` for each two arguments, with the first one's name: many pairs in one run. tools/pairs.py makes what it is run on.
#![tactic(auto)]

use std::env::FillError;
use std::io;
use std::rt::Env;

// How many arguments there are, the program's own name among them: none but the system says, so each is asked for. A buffer of no bytes takes none of them, and tells those from a missing one.
fn arg_count(rt: &impl Env) -> usize {
    for i in 0..usize::MAX {
        if let Err(FillError::NotPresent) = rt.arg(i, &mut []) {
            return i;
        }
    }
    usize::MAX
}

fn main(rt: HostRuntime) -> io::Result<()> {
    let n = arg_count(&rt) / 2;
    for k in 0..n {
        report::say_name(&rt, 2 * k + 1)?;
        report::say_pair(&rt, 2 * k + 1, 2 * k + 2)?;
    }
    Ok(())
}
