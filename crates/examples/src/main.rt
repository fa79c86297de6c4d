// Document 01's examples, run: what each call answers, a line each, as the refusal's number and its values, or 0 and what was read.
#![tactic(auto)]

use format::kinds::UnknownKind;
use format::lengths::{Formula, KindError};
use format::shapes::{Layout, Short};
use format::units::{Bytes, NotWords, Words};
use header::bbox::BBoxZ;
use header::entries::ShapeIndex;
use header::{Header, HeaderError};
use multipart::BodyError;
use rings::{CloseError, RingType, TooFew};
use std::io;

// ---- headers

fn show_header(rt: &impl Print, bytes: &[u8]) -> io::Result<()> {
    match header::read_header(bytes) {
        Ok(h) => println!(rt; " 0 {} {} {}", h.file_length.0, h.version, h.shape_type),
        Err(HeaderError::Short(Short { at, present })) => println!(rt; " 1 {at} {present}"),
        Err(HeaderError::Code(code)) => println!(rt; " 2 {code}"),
        Err(HeaderError::Size(at)) => println!(rt; " 3 {at}"),
        Err(HeaderError::Unknown(code)) => println!(rt; " 4 {code}"),
    }
}

fn box_of(x: f64) -> BBoxZ {
    BBoxZ {
        xmin: x,
        ymin: x,
        xmax: x,
        ymax: x,
        zmin: x,
        zmax: x,
        mmin: x,
        mmax: x,
    }
}

fn header_of(words: i32, kind: i32) -> Result<[u8; 100], UnknownKind> {
    header::header_bytes(Header {
        file_length: Words(words),
        version: 1000,
        shape_type: kind,
        bbox: box_of(0.5),
    })
}

// A header is written and its first bytes are read; all of them, where it has not so many.
fn show_written(rt: &impl Print, words: i32, kind: i32, n: usize) -> io::Result<()> {
    match header_of(words, kind) {
        Ok(bytes) => show_header(rt, bytes.get(..n).unwrap_or(&bytes)),
        Err(UnknownKind(code)) => println!(rt; " 4 {code}"),
    }
}

// Whether a header is written. It is not read: reading refuses the kind too, and would hide that writing did not.
fn show_whether_written(rt: &impl Print, words: i32, kind: i32) -> io::Result<()> {
    match header_of(words, kind) {
        Ok(_) => println!(rt; " 0"),
        Err(UnknownKind(code)) => println!(rt; " 4 {code}"),
    }
}

fn headers(rt: &impl Print) -> io::Result<()> {
    print!(rt; "whole header:")?;
    show_written(rt, 50, 3, 100)?;
    for n in [27, 26, 24, 99, 3] {
        print!(rt; "{n} bytes:")?;
        show_written(rt, 50, 3, n)?;
    }
    print!(rt; "code 9995:")?;
    show_header(rt, &[0, 0, 39, 11])?;
    print!(rt; "length -1:")?;
    show_written(rt, -1, 3, 100)?;
    print!(rt; "length 0:")?;
    show_written(rt, 0, 31, 100)?;
    print!(rt; "kind 2 written:")?;
    show_whether_written(rt, 50, 2)
}

// ---- lengths

fn show_words(rt: &impl Print, formula: Formula, parts: u32, points: u32) -> io::Result<()> {
    match format::lengths::content_words(formula, parts, points) {
        Some(Words(w)) => print!(rt; " {w}"),
        None => print!(rt; " 7 0"),
    }
}

fn show_content(rt: &impl Print, code: i32, parts: u32, points: u32) -> io::Result<()> {
    print!(rt; "words of {code}:")?;
    match format::lengths::lengths_of(code) {
        Ok(lengths) => {
            show_words(rt, lengths.without, parts, points)?;
            show_words(rt, lengths.with, parts, points)?;
        }
        Err(KindError::NotTaken(found)) => print!(rt; " 9 {found}")?,
        Err(KindError::Unknown(found)) => print!(rt; " 4 {found}")?,
    }
    println!(rt)
}

fn show_in_words(rt: &impl Print, bytes: Bytes) -> io::Result<()> {
    match Words::try_from(bytes) {
        Ok(Words(w)) => println!(rt; " {w}"),
        Err(NotWords) => println!(rt; " 3 0"),
    }
}

fn lengths(rt: &impl Print) -> io::Result<()> {
    let contents = [
        (3, 1, 2),
        (15, 1, 5),
        (11, 0, 1),
        (0, 0, 0),
        (8, 0, 2),
        (28, 0, 2),
        (18, 0, 2),
        (31, 0, 1),
        (2, 0, 1),
        (-3, 0, 1),
        (13, 2147483647, 2147483647),
    ];
    for (code, parts, points) in contents {
        show_content(rt, code, parts, points)?;
    }
    let entry = header::entries::index_entry_bytes(ShapeIndex {
        offset: Words(50),
        content_length: Words(40),
    });
    println!(rt; "entry 50, 40: {} {}", entry[3], entry[7])?;
    print!(rt; "words of 189 bytes:")?;
    show_in_words(rt, Bytes(189))?;
    print!(rt; "bytes of -3 words, halved:")?;
    show_in_words(rt, Bytes::from(Words(-3)))
}

// ---- kinds

fn kinds(rt: &impl Print) -> io::Result<()> {
    for code in [31, 2, -1] {
        print!(rt; "kind {code}:")?;
        match format::kinds::find_kind(code) {
            Ok(k) => println!(rt;
                " {} {} {}",
                u8::from(k.z),
                u8::from(k.m),
                u8::from(k.parts)
            )?,
            Err(UnknownKind(found)) => println!(rt; " 4 {found}")?,
        }
    }
    Ok(())
}

// ---- bodies

// A body is read without z and without m: the parts, the points and the first two counts.
fn show_body(rt: &impl Print, bytes: &[u8]) -> io::Result<()> {
    let layout = Layout {
        parts: true,
        z: false,
        m: false,
    };
    let mut counts = [9; 4];
    let mut xs = [0.5; 8];
    let mut ys = [0.5; 8];
    match multipart::read_body(
        bytes,
        layout,
        &mut counts,
        &mut xs,
        &mut ys,
        &mut [],
        &mut [],
    ) {
        Ok(b) => println!(rt; " 0 {} {} {} {}", b.parts, b.points, counts[0], counts[1]),
        Err(BodyError::Short(Short { at, present })) => println!(rt; " 1 {at} {present}"),
        Err(BodyError::Size(at)) => println!(rt; " 3 {at}"),
        Err(BodyError::Room { parts, points }) => println!(rt; " 6 {parts} {points}"),
    }
}

// p, n and three starts, where a body in parts has them, in front of zeros. (By the language's own bytes, and not by the library's, which is tried.)
fn body_of(numbers: [i32; 5]) -> [u8; 200] {
    let mut bytes = [0; 200];
    for (i, z) in numbers.iter().enumerate() {
        bytes[32 + 4 * i..36 + 4 * i].copy_from_slice(&z.to_le_bytes());
    }
    bytes
}

fn bodies(rt: &impl Print) -> io::Result<()> {
    let bodies = [
        ("n=5, starts 0, 2", [2, 5, 0, 2, 0], 128),
        ("n=5, start 3", [1, 5, 3, 0, 0], 76),
        ("n=5, start -2", [1, 5, -2, 0, 0], 156),
        ("n=5, no part", [0, 5, 0, 0, 0], 40),
        ("n=5, starts 0, 4, 2", [3, 5, 0, 4, 2], 116),
        ("the same, part 0 cut", [3, 5, 0, 4, 2], 115),
        ("5 parts, 4 in the store", [5, 0, 0, 0, 0], 60),
        ("n=2147483647, start -1", [1, i32::MAX, -1, 0, 0], 200),
    ];
    for (name, numbers, n) in bodies {
        print!(rt; "{name}:")?;
        let bytes = body_of(numbers);
        show_body(rt, bytes.get(..n).unwrap_or(&bytes))?;
    }
    Ok(())
}

// ---- rings

fn show_ring(rt: &impl Print, name: &str, xs: &[f64], ys: &[f64], n: usize) -> io::Result<()> {
    let closed = match rings::is_part_closed(xs, ys, n) {
        Ok(true) => "closed",
        Ok(false) => "open",
        Err(TooFew) => "10",
    };
    let turning = match rings::ring_type_from_points_ordering(xs, ys, n) {
        Ok(RingType::OuterRing) => "outer",
        Ok(RingType::InnerRing) => "inner",
        Err(TooFew) => "10",
    };
    println!(rt; "{name}: {closed} {turning}")
}

fn show_close(
    rt: &impl Print,
    name: &str,
    xs: &mut [f64],
    ys: &mut [f64],
    n: usize,
) -> io::Result<()> {
    match rings::close_points_if_not_already(xs, ys, n) {
        Ok(k) => println!(rt; "{name}: {k}"),
        Err(CloseError::Tables) => println!(rt; "{name}: 10 0"),
        Err(CloseError::Room(k)) => println!(rt; "{name}: 6 0 {k}"),
    }
}

fn ring_examples(rt: &impl Print) -> io::Result<()> {
    let there = [0.0, 0.0, 1.0, 1.0, 0.0];
    let back = [0.0, 1.0, 1.0, 0.0, 0.0];
    show_ring(rt, "square", &there, &back, 5)?;
    show_ring(rt, "reversed", &back, &there, 5)?;
    show_ring(rt, "no point", &[0.0], &[0.0], 0)?;
    show_ring(rt, "halving", &[0.0, -5.0e-324], &[0.0, 1.0], 2)?;
    show_ring(rt, "past the store of y", &[0.0, 1.0], &[0.0], 2)?;
    let mut xs = [0.0, 0.0, 1.0, 9.0];
    let mut ys = [0.0, 1.0, 1.0, 9.0];
    show_close(rt, "closing 3 points", &mut xs, &mut ys, 3)?;
    show_close(rt, "closing them again", &mut xs, &mut ys, 4)?;
    xs[3] = 7.0;
    show_close(rt, "closing with no room", &mut xs, &mut ys, 4)?;
    let mut three = [0.0, 1.0, 1.0];
    show_close(rt, "closing with no room for y", &mut xs, &mut three, 3)?;
    show_close(
        rt,
        "closing a run past the store of y",
        &mut xs,
        &mut three,
        4,
    )
}

fn main(rt: HostRuntime) -> io::Result<()> {
    headers(&rt)?;
    lengths(&rt)?;
    kinds(&rt)?;
    bodies(&rt)?;
    ring_examples(&rt)
}
