//! What users of the software wait for, on made inputs: the first word says what, the second from which number the input follows, the
//! third how much of it. It prints a sum of all results. With the word `small` it does a little of each.
#![tactic(auto)]

mod audits;
mod client;
mod clients;
mod ends;
mod full;
mod hall;
mod lines;
mod place;
mod random;
mod requests;
mod script;
mod sites;
mod spread;
mod sum;
mod tables;

use anyhow::{Result, anyhow};
use std::env;
use std::hash::RandomState;
use std::random::RandomSource;
use std::rt::Clock;
use std::sync::Wait;

/// All that there is.
const ALL: &[&str] = &[
    "clients", "full", "spread", "ends", "script", "audit", "unlogged", "prefixes",
];

/// How keys begin as users name them: with more than a comparison by numbers sees.
const PREFIX: &str = "session:user:profile:of";

/// The sum of what came of one.
fn sum_of<R: Wait + Clock + AllocGlobal + RandomSource>(
    rt: &R,
    name: &str,
    seed: u64,
    scale: u64,
) -> Result<u64> {
    let alloc = rt.alloc();
    let hasher = RandomState::new(rt)?;
    match name {
        "clients" => clients::run(rt, alloc, &hasher, true, seed, scale),
        "unlogged" => clients::run(rt, alloc, &hasher, false, seed, scale),
        "full" => full::run(rt, alloc, &hasher, seed, scale),
        "spread" => spread::run(rt, alloc, &hasher, "it", seed, scale),
        "prefixes" => spread::run(rt, alloc, &hasher, PREFIX, seed, scale),
        "ends" => ends::run(rt, alloc, &hasher, seed, scale),
        "script" => script::run(alloc, hasher, seed, scale),
        "audit" => audits::run(rt, alloc, &hasher, seed, scale),
        _ => Err(anyhow!("there is no such workload")),
    }
}

/// Prints the sum of what came of one.
fn tell<R: Wait + Clock + AllocGlobal + RandomSource + Print>(
    rt: &R,
    name: &str,
    seed: u64,
    scale: u64,
) -> Result<()> {
    let sum = sum_of(rt, name, seed, scale)?;
    println!(rt; "{name} {sum:016x}")?;
    Ok(())
}

fn main(rt: HostRuntime) -> Result<()> {
    let mut words = env::args(&rt)?;
    let _program = words.next();
    match (words.next(), words.next(), words.next()) {
        (Some(name), Some(seed), Some(scale)) => {
            let (seed, scale) = (
                seed.as_str().parse::<u64>()?,
                scale.as_str().parse::<u64>()?,
            );
            tell(&rt, name.as_str(), seed, scale)
        }
        (Some(_), None, None) => {
            for name in ALL.iter() {
                tell(&rt, name, 1, 0)?;
            }
            Ok(())
        }
        _ => Err(anyhow!("geo_bench WORKLOAD SEED SCALE, or geo_bench small")),
    }
}
