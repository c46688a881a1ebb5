// Document 01's run-only edges, and those that document 02 i adds: each call is made on both sides of its edge, and what it answers is printed.
#![tactic(auto)]

use stack::Stack;
use std::io;

// A window of whole groups for 128 by 128: the side decides.
fn unpack(rt: HostRuntime, width: usize, height: usize) -> io::Result<()> {
    let bytes = [0u8; 20480];
    let mut out = [0u16; 16384];
    match raw::unpack_raw10(width, height, &bytes, &mut out) {
        Ok(()) => println!(rt; "unpacked"),
        Err(refusal) => println!(rt; "{refusal}"),
    }
}

// The noise of a 2 by 2 window at full scale 1023.
fn noise(rt: HostRuntime, mask: &[u8], first: &[u16], second: &[u16]) -> io::Result<()> {
    match pair::pair_figures(2, 2, 1023, mask, first, second) {
        Ok(figures) => println!(rt; "r {} of {} sites", figures.r, figures.n),
        Err(refusal) => println!(rt; "{refusal}"),
    }
}

fn pairs(rt: HostRuntime) -> io::Result<()> {
    let ramp = [100u16, 101, 102, 103];
    println!(rt; "full scale 1023 with sample 1023 and 1024")?;
    noise(rt, &[0u8, 0, 0, 0], &ramp, &[101u16, 101, 102, 1023])?;
    noise(rt, &[0u8, 0, 0, 0], &ramp, &[101u16, 101, 102, 1024])?;
    noise(
        rt,
        &[0u8, 0, 0, 0],
        &[100u16, 101, 102, 1024],
        &[1024u16, 101, 102, 103],
    )?;
    println!(rt; "1 and 2 surveyed sites")?;
    noise(rt, &[1u8, 2, 3, 0], &ramp, &[101u16, 101, 102, 104])?;
    noise(rt, &[1u8, 2, 0, 0], &ramp, &[101u16, 101, 102, 104])?;
    println!(rt; "a gap holding 65,535")?;
    noise(
        rt,
        &[0u8, 1, 0, 0],
        &[100u16, 65535, 102, 103],
        &[101u16, 65535, 102, 104],
    )
}

// What a stack holds at a site.
fn held(rt: HostRuntime, sum: u32, square: u32, least: u16, greatest: u16) -> io::Result<()> {
    println!(rt; "sum {sum} squares {square} least {least} greatest {greatest}")
}

// A frame of 900 is offered to a stack of so many frames, all at one level: it is each site's least and greatest. Site 1 is a gap that holds junk.
fn add(rt: HostRuntime, frames: u64, sum: u32, square: u32, level: u16) -> io::Result<()> {
    let mask = [0u8, 1, 0, 0];
    let frame = [900u16, 65535, 900, 900];
    let mut sums = [sum, 4294967295, sum, sum];
    let mut squares = [square, 4294967295, square, square];
    let mut least = [level, 700, level, level];
    let mut greatest = [level, 0, level, level];
    match adding::stack_add(
        2,
        2,
        1023,
        frames,
        &mask,
        &frame,
        &mut sums,
        &mut squares,
        &mut least,
        &mut greatest,
    ) {
        Ok(now) => {
            println!(rt; "frames {now}")?;
            print!(rt; "site 0 ")?;
            held(rt, sums[0], squares[0], least[0], greatest[0])?;
            print!(rt; "the gap ")?;
            held(rt, sums[1], squares[1], least[1], greatest[1])
        }
        Err(refusal) => println!(rt; "{refusal}"),
    }
}

fn stacks(rt: HostRuntime) -> io::Result<()> {
    println!(rt; "99, 100 and 101 frames")?;
    add(rt, 99, 99 * 1023, 99 * 1023 * 1023, 1023)?;
    add(rt, 100, 100 * 1023, 100 * 1023 * 1023, 1023)?;
    add(rt, 101, 101 * 1023, 101 * 1023 * 1023, 1023)?;
    println!(rt; "the first frame of a stack")?;
    add(rt, 0, 0, 0, 0)
}

// The blinking sites of a stack of so many frames: one has 4095 at site 0 and 1 at site 2, the others are black. Site 1 is a gap that holds junk.
fn blinks(rt: HostRuntime, frames: u64, spread: u64, least: &[u16]) -> io::Result<()> {
    let mask = [0u8, 1, 0, 0];
    let sums = [4095u32, 4294967295, 1, 0];
    let squares = [4095u32 * 4095, 4294967295, 1, 0];
    let greatest = [4095u16, 65535, 1, 0];
    let stack = Stack {
        frames,
        sums: &sums,
        squares: &squares,
        least,
        greatest: &greatest,
    };
    match blinking::blinking_sites(2, 2, 4095, spread, &mask, &stack) {
        Ok(count) => println!(rt; "blinking {count}"),
        Err(refusal) => println!(rt; "{refusal}"),
    }
}

fn spreads(rt: HostRuntime) -> io::Result<()> {
    let black = [0u16, 700, 0, 0];
    println!(rt; "spreads 0, 1, 4,095 and 4,096")?;
    blinks(rt, 2, 0, &black)?;
    blinks(rt, 2, 1, &black)?;
    blinks(rt, 2, 4095, &black)?;
    blinks(rt, 2, 4096, &black)?;
    println!(rt; "blinking sites of 0, 1, 100 and 101 frames")?;
    blinks(rt, 0, 1, &black)?;
    blinks(rt, 1, 1, &[4095u16, 700, 1, 0])?;
    blinks(rt, 100, 1, &black)?;
    blinks(rt, 101, 1, &black)
}

fn main(rt: HostRuntime) -> io::Result<()> {
    println!(rt; "sides 128 and 130")?;
    unpack(rt, 128, 128)?;
    unpack(rt, 130, 128)?;
    unpack(rt, 128, 130)?;
    pairs(rt)?;
    stacks(rt)?;
    spreads(rt)
}
