// Prints the function that standard input holds, or why it is refused.
#![tactic(auto)]

use std::io;
use std::io::Read;
use text::shown;

fn main(rt: HostRuntime) -> io::Result<()> {
    let mut file = Vec::new(rt.alloc());
    rt.stdin().read_to_end(&mut file)?;
    let text = shown(rt.alloc(), file.as_slice())?;
    rt.print(text)
}
