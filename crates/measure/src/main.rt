//! Measures the readers, and prints what they read:
//! `measure leb FILE` reads all LEB128 numbers of a file,
//! `measure lines OBJECT` reads the line programs of an object,
//! `measure rows OBJECT` prints their rows,
//! `measure scopes OBJECT` reads its subprograms and inlined subroutines,
//! `measure scope-table OBJECT` prints these scopes,
//! `measure files OBJECT` prints the files of the line programs of its units,
//! `measure module OBJECT` decodes all of it, from its tables to the index of its addresses,
//! `measure frames OBJECT` prints the frames of addresses spread over it, and
//! `measure dump OBJECT` prints its rows and its scopes.
#![tactic(auto)]

mod frames;
mod leb;
mod lines;
mod scopes;

use addr_table::Module;
use anyhow::{Context, Result};
use std::time::Instant;
use std::{env, fs};

fn main(rt: HostRuntime) -> Result<()> {
    let words: Vec<String> = env::args(&rt)?.skip(1).collect(rt.alloc())?;
    if words.len() != 2 {
        return print_usage(&rt);
    }
    let bytes = fs::read(&rt, words[1].as_str()).context("reading the file")?;
    match words[0].as_str() {
        "leb" => measure_leb(&rt, &bytes),
        "lines" => measure_lines(&rt, &bytes),
        "scopes" => measure_scopes(&rt, &bytes),
        "rows" => lines::print_rows(&rt, &bytes),
        "scope-table" => scopes::print_scopes(&rt, &bytes),
        "files" => lines::print_files(&rt, &bytes),
        "module" => measure_module(&rt, bytes),
        "frames" => frames::print_frames(&rt, &decoded(&rt, bytes)?),
        "dump" => {
            lines::print_rows(&rt, &bytes)?;
            scopes::print_scopes(&rt, &bytes)
        }
        _ => print_usage(&rt),
    }
}

fn print_usage(rt: &HostRuntime) -> Result<()> {
    println!(rt; "usage: measure COMMAND FILE, where COMMAND is")?;
    println!(rt; "leb, lines, rows, files, scopes, scope-table, module, frames or dump")?;
    Ok(())
}

fn measure_leb(rt: &HostRuntime, bytes: &[u8]) -> Result<()> {
    let start = Instant::now(rt)?;
    let total = leb::total(bytes);
    let time = start.elapsed(rt)?;
    println!(rt;
        "{} numbers, sum {}, {} us",
        total.count,
        total.sum,
        time.as_micros()
    )?;
    Ok(())
}

fn measure_lines(rt: &HostRuntime, bytes: &[u8]) -> Result<()> {
    let start = Instant::now(rt)?;
    let lines = lines::read(rt.alloc(), bytes)?;
    let time = start.elapsed(rt)?;
    println!(rt; "{} rows, {} us", lines.rows().len(), time.as_micros())?;
    Ok(())
}

fn measure_scopes(rt: &HostRuntime, bytes: &[u8]) -> Result<()> {
    let start = Instant::now(rt)?;
    let scopes = scopes::read(rt.alloc(), bytes)?;
    let time = start.elapsed(rt)?;
    println!(rt;
        "{} roots, {} scopes, {} ranges, {} us",
        scopes.roots().len(),
        scopes.scopes().len(),
        scopes::count_ranges(&scopes),
        time.as_micros()
    )?;
    Ok(())
}

fn measure_module(rt: &HostRuntime, bytes: Vec<u8>) -> Result<()> {
    let start = Instant::now(rt)?;
    let module = decoded(rt, bytes)?;
    let time = start.elapsed(rt)?;
    println!(rt;
        "{} segments, {} calls, {} us",
        module.segments().list().len(),
        module.sweep_calls(),
        time.as_micros()
    )?;
    Ok(())
}

/// Decodes an object.
fn decoded(rt: &HostRuntime, bytes: Vec<u8>) -> Result<Module> {
    match Module::decode(rt.alloc(), bytes) {
        Ok(module) => Ok(module),
        Err((_, fault)) => Err(fault.into()),
    }
}
