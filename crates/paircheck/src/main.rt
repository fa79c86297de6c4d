// paircheck SHP SHX: one line that says whether the two files are a pair. Further arguments are not looked at.
#![tactic(auto)]

use std::io;

fn main(rt: HostRuntime) -> io::Result<()> {
    report::say_pair(&rt, 1, 2)
}
