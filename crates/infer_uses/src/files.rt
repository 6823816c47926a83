//! Prints the type of each file that it is given, and knows drawings of its own.

ghost use Rattle.std.specs.Prelude.{◌↔◌, IsTrue, codes, nat_eq};
ghost use Rattle.std.specs.List.{starts_with};

use infer::Infer;
use std::rt::{Env, Files};
use std::{env, io};

fn is_drawing(buf: &[u8]) -> bool
    ensures { IsTrue result ↔ IsTrue (starts_with nat_eq buf.now (codes "DRAW")) }
{
    buf.starts_with(b"DRAW")
}

pub fn run<R: AllocGlobal + Env + Files + Print>(rt: &R) -> io::Result<()> {
    let mut infer = Infer::new();
    infer.add(rt.alloc(), "image/x-drawing", "draw", is_drawing)?;
    for path in env::args(rt)?.skip(1) {
        match infer.get_from_path(rt, rt.alloc(), path.as_str()) {
            Ok(Some(found)) => println!(rt; "{path}: {found}")?,
            Ok(None) => println!(rt; "{path}: unknown")?,
            Err(fault) => println!(rt; "{path}: {fault}")?,
        }
    }
    Ok(())
}
