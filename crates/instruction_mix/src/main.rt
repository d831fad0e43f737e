//! Writes a mix of instructions again and again into one list of bytes, and prints how many bytes that were in all
//! and a sum over the last body. `scripts/bench` measures it.
//!
//! The first argument is the number of bodies, 1 if there is none. The second says what each is made of: `mix`, which
//! it is if there is none, `room`, the mix with room for its calls, `apart`, where no call is written in line, or `lists`,
//! where each instruction has a list.
#![tactic(auto)]

mod apart;
mod lists;
mod mix;

use crate::apart::write_mix_apart;
use crate::lists::write_lists;
use crate::mix::write_mix;
use std::alloc::Allocator;
use std::process::ExitCode;
use std::{env, io};
use wasm_encoder::EncodeError;

/// The number of times that one body has its instructions.
const ROUNDS: u32 = 1000;

/// The content of a body.
#[derive(Clone, Copy)]
enum Made {
    Mix,
    Room,
    Apart,
    Lists,
}

/// Appends a body.
fn write_body<A: Allocator>(code: &mut Vec<u8, A>, made: Made) -> Result<(), EncodeError> {
    for round in 0..ROUNDS {
        match made {
            Made::Mix => write_mix::<0, A>(code, round)?,
            Made::Room => write_mix::<20, A>(code, round)?,
            Made::Apart => write_mix_apart(code, round)?,
            Made::Lists => write_lists(code, round)?,
        }
    }
    Ok(())
}

/// Writes so many bodies into one list, and answers the bytes of all and a sum over the last.
fn write_bodies<A: Allocator>(
    code: &mut Vec<u8, A>,
    bodies: u32,
    made: Made,
) -> Result<(u64, u32), EncodeError> {
    let mut total: u64 = 0;
    for _ in 0..bodies {
        code.truncate(0);
        write_body(code, made)?;
        total = total.saturating_add(code.len() as u64);
    }
    let mut sum: u32 = 0;
    for byte in code.as_slice() {
        sum = sum.wrapping_mul(31).wrapping_add(u32::from(*byte));
    }
    Ok((total, sum))
}

/// The number of bodies that is asked for, and what they are made of.
fn asked(rt: &HostRuntime) -> io::Result<Option<(u32, Made)>> {
    let mut words = env::args(rt)?;
    words.next();
    let bodies = match words.next() {
        None => 1,
        Some(word) => match word.as_str().parse() {
            Ok(bodies) => bodies,
            Err(_) => return Ok(None),
        },
    };
    let made = match words.next() {
        None => Made::Mix,
        Some(word) => match word.as_str() {
            "mix" => Made::Mix,
            "room" => Made::Room,
            "apart" => Made::Apart,
            "lists" => Made::Lists,
            _ => return Ok(None),
        },
    };
    Ok(Some((bodies, made)))
}

fn main(rt: HostRuntime) -> ExitCode {
    let Ok(Some((bodies, made))) = asked(&rt) else {
        return ExitCode::from(2);
    };
    let mut code = Vec::new(rt.alloc());
    let Ok((total, sum)) = write_bodies(&mut code, bodies, made) else {
        return ExitCode::from(3);
    };
    match println!(rt; "{total} {sum}") {
        Ok(()) => ExitCode::from(0),
        Err(_) => ExitCode::from(4),
    }
}
