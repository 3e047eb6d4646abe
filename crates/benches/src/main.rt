//! What the benches run, each part in a module of its own. The first word says which one, and the
//! others are its words. `rows` runs each line of a file as such words.
#![tactic(auto)]

mod files;
mod groups;
mod inputs;
mod order;
mod pages;
mod records;
mod versions;
mod words;

use crate::words::{split, wrong_words};
use std::{env, fs, io};

/// The words that there are.
const PARTS: &str = "files|groups|order|pages|versions .., or rows FILE";

fn main(rt: HostRuntime) -> io::Result<()> {
    let words = Vec::from_iter(rt.alloc(), env::args(&rt)?)?;
    run(&rt, words.as_slice())
}

/// Does what the words say, of which the first is the program's name.
fn run(rt: &HostRuntime, words: &[String]) -> io::Result<()> {
    match words {
        [_, part, file] if part.as_str() == "rows" => run_rows(rt, file.as_str()),
        [_, words @ ..] => run_part(rt, words),
        [] => wrong_words(rt, PARTS),
    }
}

/// Runs the part that the first word names, with the others.
fn run_part(rt: &HostRuntime, words: &[String]) -> io::Result<()> {
    let [part, words @ ..] = words else {
        return wrong_words(rt, PARTS);
    };
    match part.as_str() {
        "files" => files::run(rt, words),
        "groups" => groups::run(rt, words),
        "order" => order::run(rt, words),
        "pages" => pages::run(rt, words),
        "versions" => versions::run(rt, words),
        _ => wrong_words(rt, PARTS),
    }
}

/// Runs the lines of a file, those aside that are empty or begin with `#`.
fn run_rows(rt: &HostRuntime, file: &str) -> io::Result<()> {
    let text = fs::read_to_string(rt, file)?;
    for line in text.as_str().lines() {
        if !line.is_empty() && !line.starts_with('#') {
            run_part(rt, split(rt.alloc(), line)?.as_slice())?;
        }
    }
    Ok(())
}
