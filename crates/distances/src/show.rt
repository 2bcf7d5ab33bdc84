// What the program prints.
use anyhow::anyhow;
use frame::frame::ClosedFrame;
use oracle::traits::DistanceOracle;
use oracle::walk::walk;

pub(crate) fn show_frame(rt: &HostRuntime, frame: &ClosedFrame) -> anyhow::Result<()> {
    println!(rt; "Frame: {} places, {} ducts", frame.places(), frame.len())?;
    // By their numbers: a frame keeps rows, and hands out ducts one by one.
    for duct in (0..frame.len()).filter_map(|i| frame.duct(i)) {
        println!(rt; "  {duct}")?;
    }
    Ok(())
}

pub(crate) fn show_order(rt: &HostRuntime, order: &[u32]) -> anyhow::Result<()> {
    print!(rt; "Ranking:")?;
    for place in order {
        print!(rt; " {place}")?;
    }
    println!(rt; "")?;
    Ok(())
}

// The distances of all places from one.
fn show_row<O: DistanceOracle>(rt: &HostRuntime, oracle: &mut O, from: u32) -> anyhow::Result<()> {
    print!(rt; "  {from}:")?;
    for to in 0..oracle.places() {
        let distance = oracle.distance(from, to);
        match distance.map_err(|_| anyhow!("a place is refused"))? {
            Some(distance) => print!(rt; " {distance:>5}")?,
            None => print!(rt; "     -")?,
        }
    }
    println!(rt; "")?;
    Ok(())
}

pub(crate) fn show_table<O: DistanceOracle>(
    rt: &HostRuntime,
    oracle: &mut O,
) -> anyhow::Result<()> {
    for from in 0..oracle.places() {
        show_row(rt, oracle, from)?;
    }
    Ok(())
}

// The ducts by which one goes from one place to another.
pub(crate) fn show_walk<O: DistanceOracle>(
    rt: &HostRuntime,
    oracle: &mut O,
    from: u32,
    to: u32,
) -> anyhow::Result<()> {
    print!(rt; "  from {from} to {to}: {from}")?;
    let way = walk(oracle, rt.alloc(), from, to);
    match way.map_err(|_| anyhow!("the walk is refused"))? {
        Some(legs) => {
            for leg in &legs {
                print!(rt; " -{}- {}", leg.length, leg.place)?;
            }
        }
        None => print!(rt; ", no way")?,
    }
    println!(rt; "")?;
    Ok(())
}
