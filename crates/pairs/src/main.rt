//! Reads an archive record from standard input, and prints its pairing and whether it is stable, or its refusal.
#![tactic(auto)]

use archive::say::TEXT_ROOM;
use record::bytes::MOST_WORDS;
use std::io;
use std::io::{Read, Write};
use std::process::ExitCode;
use tell::tell;

mod tell;

/// One byte more than 8,192 words have: enough to refuse a longer input.
const MOST_BYTES: u64 = 4 * MOST_WORDS as u64 + 1;

fn main(rt: HostRuntime) -> io::Result<ExitCode> {
    let mut bytes = Vec::new(rt.alloc());
    rt.stdin().take(MOST_BYTES).read_to_end(&mut bytes)?;
    let mut text = [0u8; TEXT_ROOM];
    match tell(&bytes, &mut text) {
        Ok(ended) => {
            rt.stdout().write_all(&text[..ended.length])?;
            if ended.well {
                Ok(ExitCode::SUCCESS)
            } else {
                Ok(ExitCode::FAILURE)
            }
        }
        // The text has room for every answer; an exit status is a number.
        Err(_) => Ok(ExitCode::FAILURE),
    }
}
