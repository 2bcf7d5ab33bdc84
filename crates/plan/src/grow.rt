// Growth of a trunk from a place over chosen places.
ghost use Rattle.std.specs.Prelude.{◌≡◌, ◌+◌, ◌<◌, slice_set};
ghost use Rattle.plan.specs.Trunks.{Reached, Laid};

use crate::ask::{bring, in_focus};
use crate::branch::Branch;
use crate::next::next_branch;
use crate::trunk::Trunk;
use oracle::ask::leg_from;
use oracle::traits::{DistanceOracle, GroupOracle};
use oracle::walk::Leg;
use ways::row::Row;

// Writes a duct at an index of the memory, where the memory reaches so far.
// After a write through `get_mut` of a slice no proof knows its elements, so the index is compared here.
fn put(rows: &mut [Row], i: u32, row: Row)
    ensures { rows.new ≡ slice_set rows.old i row }
{
    let index = i as usize;
    if index < rows.len() {
        rows[index] = row;
    }
}

// The length of a branch's walk, which has met the trunk at its nearest place.
fn walk_length(branch: Branch, meet: u32) -> u32
    requires { meet ≡ branch.to }
    ensures { result ≡ branch.distance }
{
    branch.distance
}

// Grows the trunk from a place: while a chosen place is off it, the nearest one walks to it by the way rule, and the walk ends with the first place already on the trunk.
// The focus is on the trunk's places. Its ducts fill the beginning of the memory, as far as that goes, in the order in which they were laid.
pub(crate) fn grow<O: GroupOracle>(o: &mut O, start: u32, chosen: &[u32], rows: &mut [Row]) -> Trunk
    requires within { start < (O.DistanceOracle.meaning o.old).count }
    requires reached { Reached (O.DistanceOracle.meaning o.old) start chosen.now }
    ensures trunk { Laid (O.DistanceOracle.meaning o.old) start chosen.now rows.old rows.new result }
    ensures same { O.DistanceOracle.meaning o.new ≡ O.DistanceOracle.meaning o.old }
{
    o.clear();
    bring(o, start);
    let mut ducts = 0;
    let mut weight = 0;
    while let Some(branch) = next_branch(o, chosen) {
        let mut at = branch.from;
        let meet = loop {
            let Some(Leg { place, length }) = leg_from(o, at, branch.to) else {
                unreachable()
            };
            put(
                rows,
                ducts,
                Row {
                    first: at,
                    second: place,
                    length,
                },
            );
            ducts += 1;
            bring(o, at);
            if in_focus(o, place) {
                break place;
            }
            at = place;
        };
        weight += walk_length(branch, meet);
    }
    Trunk {
        start,
        ducts,
        weight,
    }
}
