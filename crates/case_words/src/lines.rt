//! The loop of a program of cases, and the loop over the steps of a scenario.

use crate::words::add_answer;
use std::alloc::Global;
use std::io;

/// The answer to a line, of which the words are divided by single blanks.
fn line_of_answer<F: Fn(Global, &[&str]) -> anyhow::Result<String>>(
    alloc: Global,
    line: &str,
    answer: &F,
) -> anyhow::Result<String>
    requires { F.IsAlwaysCallable answer.now }
{
    let words: Vec<&str> = line.split(' ').collect(alloc)?;
    answer(alloc, &words)
}

/// Reads the lines of the input, and writes what the function answers to the words of each.
pub fn answer_lines<F: Fn(Global, &[&str]) -> anyhow::Result<String>>(
    rt: HostRuntime,
    answer: F,
) -> anyhow::Result<()>
    requires { F.IsAlwaysCallable answer }
{
    let cases = io::read_to_string(rt.alloc(), rt.reader())?;
    for line in cases.lines() {
        let text = line_of_answer(rt.alloc(), line, &answer)?;
        println!(rt; "{text}")?;
    }
    Ok(())
}

/// What the function answers to each step, over a state that it changes. The steps are the words from a place on.
pub fn answer_steps<S, F: Fn(Global, &mut S, &str) -> anyhow::Result<String>>(
    alloc: Global,
    words: &[&str],
    from: usize,
    state: &mut S,
    answer: F,
) -> anyhow::Result<String>
    requires { F.IsAlwaysCallable answer }
{
    let mut answers = String::new(alloc);
    for step in words.iter().skip(from) {
        let text = answer(alloc, state, step)?;
        add_answer(&mut answers, &text)?;
    }
    Ok(answers)
}
