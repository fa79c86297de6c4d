// Two files by the names in the arguments, and the line that `paircheck` prints of them. Internal: its calls read and write.
#![tactic(auto)]

ghost use Rattle.std.specs.Prelude.{◌≤◌, length, IfOk};

use pair::{Fault, Totals};
use std::io::Read;
use std::rt::{Env, Files};
use std::{fs, io, str};

// The most bytes that a .shp and a .shx may have; and the room for one more, so that a larger one shows. No heap is used, so the buffers are arrays.
const SHP_MOST: usize = 49_152;

const SHX_MOST: usize = 8_192;

const SHP_ROOM: usize = SHP_MOST + 1;

const SHX_ROOM: usize = SHX_MOST + 1;

// The bytes of argument i at the front of the buffer, and how many; 0, where it is missing or longer: no file has an empty name.
fn arg(rt: &impl Env, i: usize, buf: &mut [u8]) -> usize
    ensures { result ≤ length buf.new }
{
    rt.arg(i, buf).unwrap_or(0)
}

// Reads until the buffer is full or the file ends. `read_exact` would not say how many bytes a shorter file has.
fn read_full(file: &mut impl Read, buf: &mut [u8]) -> io::Result<usize>
    ensures { IfOk result (λ n. n ≤ length buf.new) }
{
    let mut done = 0;
    while done < buf.len() {
        let n = file.read(&mut buf[done..])?;
        if n == 0 {
            break;
        }
        done += n;
    }
    Ok(done)
}

// As much of the file as goes into the buffer. A read past its end tells an error from the end.
fn read_front(file: &mut impl Read, buf: &mut [u8]) -> io::Result<usize> {
    let got = read_full(file, buf)?;
    file.read(&mut [0])?;
    Ok(got)
}

// The file that argument i names, as much of it as goes into the buffer, and how many bytes; nothing, where it is missing, does not open
// or cannot be read. A name is text: std opens no other.
fn read_arg<R: Env + Files>(rt: &R, i: usize, buf: &mut [u8]) -> Option<usize> {
    let mut path = [0u8; 4096];
    let n = arg(rt, i, &mut path);
    let name = str::from_utf8(&path[..n]).ok()?;
    let mut file = fs::open(rt, name).ok()?;
    read_front(&mut file, buf).ok()
}

// The verdict's line.
fn say_verdict(rt: &impl Print, shp: &[u8], shx: &[u8]) -> io::Result<()> {
    match pair::check_pair(shp, shx) {
        Ok(
            Totals {
                records,
                parts,
                points,
            },
        ) => println!(rt; "yes records={records} parts={parts} points={points}"),
        Err(Fault { rule, record }) => println!(rt; "no rule=P{rule} record={record}"),
    }
}

// Arguments i and j name a .shp and a .shx.
pub fn say_pair<R: Env + Files + Print>(rt: &R, i: usize, j: usize) -> io::Result<()> {
    let mut shp = [0u8; SHP_ROOM];
    let Some(shp_len) = read_arg(rt, i, &mut shp) else {
        return println!(rt; "cannot read");
    };
    let mut shx = [0u8; SHX_ROOM];
    let Some(shx_len) = read_arg(rt, j, &mut shx) else {
        return println!(rt; "cannot read");
    };
    if SHP_MOST < shp_len || SHX_MOST < shx_len {
        return println!(rt; "too big");
    }
    say_verdict(rt, &shp[..shp_len], &shx[..shx_len])
}

// The name of argument i, in front of its line.
pub fn say_name<R: Env + Print>(rt: &R, i: usize) -> io::Result<()> {
    let mut path = [0u8; 4096];
    let n = arg(rt, i, &mut path);
    rt.write_all(&path[..n])?;
    print!(rt; ": ")
}
