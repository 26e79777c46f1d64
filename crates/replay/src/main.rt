// Prints the text of each file of a list, one after another. The list has, for each file, its length in three bytes,
// lowest first, and its bytes.
#![tactic(auto)]

use std::io;
use std::io::Read;
use text::shown;

fn print_all(rt: &HostRuntime, list: &[u8]) -> io::Result<()> {
    let mut rest = list;
    while let Some(([low, middle, high], files)) = rest.split_first_chunk::<3>() {
        let size = u32::from_le_bytes([*low, *middle, *high, 0]) as usize;
        let (file, behind) = files.split_at(size.min(files.len()));
        rt.print(shown(rt.alloc(), file)?)?;
        rest = behind;
    }
    Ok(())
}

fn main(rt: HostRuntime) -> io::Result<()> {
    let mut list = Vec::new(rt.alloc());
    rt.stdin().read_to_end(&mut list)?;
    print_all(&rt, list.as_slice())
}
