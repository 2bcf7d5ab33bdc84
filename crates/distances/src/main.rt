// The bench's program: a frame, its ranking, its distances, and what a jumper changes. With frame and oracle alone.
#![tactic(auto)]

mod example;
mod show;

use example::{plain_oracle, ranking, worked_frame};
use jumper::jumper::Jumper;
use show::{show_frame, show_order, show_table, show_walk};
use std::rc::Rc;

fn run(rt: &HostRuntime) -> anyhow::Result<()> {
    let heap = rt.alloc();
    let frame = Rc::new(heap, worked_frame(heap)?)?;
    show_frame(rt, &frame)?;
    show_order(rt, ranking(heap, &frame)?.as_slice())?;
    let mut oracle = plain_oracle(heap, frame)?;
    println!(rt; "Distances:")?;
    show_table(rt, &mut oracle)?;
    let mut layered = Jumper::new(oracle, 0, 4, 50);
    println!(rt; "With a jumper 0-4 of 50:")?;
    show_table(rt, &mut layered)?;
    show_walk(rt, &mut layered, 0, 3)?;
    show_walk(rt, &mut layered, 1, 4)
}

fn main(rt: HostRuntime) -> anyhow::Result<()> {
    run(&rt)
}
