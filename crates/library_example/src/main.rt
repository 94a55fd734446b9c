//! How a program uses the libraries: two engines with a network of the program's own, and a world of two ranks.
#![tactic(auto)]

mod calls;
mod in_a_world;
mod over_engines;

fn main(rt: HostRuntime) -> Result<(), anyhow::Error> {
    println!(rt; "two engines:")?;
    over_engines::run(&rt)?;
    println!(rt; "a world of two ranks:")?;
    in_a_world::run(&rt)
}
