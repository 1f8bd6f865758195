//! Worked rows of `one` under models, scripts, the texts of `examples/`, and calls that are refused memory.

pub mod calls;
mod commands;
mod examples;
mod faults;
mod growth;
mod in_turn;
mod models;
mod pieces;
mod served;
mod sizes;
mod tasks;
pub mod texts;
mod threads;
mod unchecked;
mod words;

use crate::script::calls::all_hold;

/// Tests and their summaries.
#[test]
fn summaries(rt: HostRuntime) {
    let alloc = rt.alloc();
    all_hold(&rt, alloc, unchecked::ROWS);
    all_hold(&rt, alloc, models::ROWS);
    all_hold(&rt, alloc, sizes::ROWS);
    all_hold(&rt, alloc, examples::ROWS);
    all_hold(&rt, alloc, examples::fences::ROWS);
}

/// Scripts and their answers, and the words of the program.
#[test]
fn scripts(rt: HostRuntime) {
    let alloc = rt.alloc();
    all_hold(&rt, alloc, served::ROWS);
    all_hold(&rt, alloc, commands::ROWS);
    all_hold(&rt, alloc, threads::ROWS);
    all_hold(&rt, alloc, examples::SCRIPTS);
    all_hold(&rt, alloc, tasks::ROWS);
}
