// The worked figures and the limits of the three measures, run and printed.
#![tactic(auto)]

mod limits;
mod worked;

use std::io;

fn main(rt: HostRuntime) -> io::Result<()> {
    worked::figures_of_the_definitions();
    worked::each_list(&rt)?;
    limits::each_measure(&rt)
}
