//! Reads texts as circuits, makes the edges between their ranks, and evaluates them for stimuli, each on a
//! device of its own; and prints what each gives.
//!
//! The circuits are rows of the tables in `data`. What each must print stands in the file `stdout` of this
//! crate: it was worked out by hand, and the numbers of the made circuit by another program.
#![tactic(auto)]

mod chains;
mod circuit;
mod evaluation;
mod failing;
mod groups;
mod lines;
mod made;
mod ordering;
mod room;
mod row;
mod stop;

use crate::circuit::{Part, print_row};
use crate::evaluation::{By, Pace};
use crate::made::{print_both_ways, print_made};
use crate::room::print_in_room;
use std::fs;
use std::test::Fail;

/// Prints a heading, and these parts of each row of a table. A row is a title, a bar and a circuit's text; a
/// second bar and a stimulus may follow. A line with no bar is a remark.
fn print_table(rt: &HostRuntime, heading: &str, table: &str, parts: &[Part]) -> Result<(), Fail> {
    println!(rt; "== {heading}")?;
    let table = fs::read_to_string(rt, table)?;
    for line in table.lines() {
        let Some((title, row)) = line.split_once('|') else {
            continue;
        };
        let printed = print_row(rt, title, row, parts);
        if printed.is_err() {
            let _told = eprintln!(rt; "{heading}: {title}: failed");
        }
        printed?;
    }
    Ok(())
}

fn main(rt: HostRuntime) -> Result<(), Fail> {
    let steps = [
        Part::Lines(By::List, Pace::Steps),
        Part::Lines(By::Tree, Pace::Steps),
    ];
    let groups = [
        Part::Lines(By::List, Pace::Groups),
        Part::Lines(By::Tree, Pace::Groups),
    ];
    let failing = [
        Part::Failing(By::Tree, Pace::Steps),
        Part::Failing(By::Tree, Pace::Groups),
    ];
    print_table(&rt, "Texts in ASCII", "texts_in_ascii", &[Part::Chains])?;
    print_table(
        &rt,
        "Texts in the binary form",
        "texts_in_binary",
        &[Part::Chains],
    )?;
    print_table(&rt, "Edges between ranks", "circuits", &[Part::Edges])?;
    print_table(&rt, "Evaluations", "evaluations", &steps)?;
    print_table(&rt, "Evaluations in groups", "evaluations", &groups)?;
    print_table(&rt, "Many lines", "many_lines", &groups)?;
    print_table(&rt, "Failing calls of the device", "failing", &failing)?;
    print_made(&rt, By::List, Pace::Steps)?;
    print_made(&rt, By::Tree, Pace::Steps)?;
    print_made(&rt, By::Tree, Pace::Messages)?;
    print_both_ways(&rt)?;
    print_in_room(&rt, Pace::Steps)?;
    print_in_room(&rt, Pace::Messages)
}
