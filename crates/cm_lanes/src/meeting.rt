//! Meetings of lanes.

ghost use Rattle.std.specs.Prelude.{◌<◌, All, length};
ghost use Rattle.cm_lanes.specs.Lane.{HasPass, MetAll, MetBoth};
ghost use Rattle.cm_lanes.specs.Meeting.{MeetsEach};

use crate::lane::Lane;
use cm_manager::Manager;

/// Lets the passes of two lanes know what either has seen.
fn meet_lanes<G>(manager: &Manager, one: &mut Lane<G>, other: &mut Lane<G>)
    requires one { HasPass manager.now.turn one.old }
    requires other { HasPass manager.now.turn other.old }
    ensures met { MetBoth one.old other.old one.new other.new }
{
    let Some(mut pass) = one.pass.take() else {
        unreachable!()
    };
    let Some(mut their_pass) = other.pass.take() else {
        unreachable!()
    };
    manager.meet(&mut pass, &mut their_pass);
    one.pass = Some(pass);
    other.pass = Some(their_pass);
}

/// Lets the first lane's pass meet those of the others in order.
fn meet_each<G>(manager: &Manager, first: &mut Lane<G>, others: &mut [Lane<G>])
    requires first { HasPass manager.now.turn first.old }
    requires others { All (HasPass manager.now.turn) others.old }
    ensures meets { MeetsEach (length others.old) first.old first.new others.old others.new }
{
    for other in others.iter_mut() {
        meet_lanes(manager, first, other);
    }
}

/// Lets the passes of all lanes meet, of which there are two or more: afterwards all have seen the
/// same, which is the longest of what they had seen.
pub(crate) fn meet_all<G>(manager: &Manager, lanes: &mut [Lane<G>])
    requires count { 1 < length lanes.old }
    requires passes { All (HasPass manager.now.turn) lanes.old }
    ensures met { MetAll lanes.old lanes.new }
{
    let Some((first, others)) = lanes.split_first_mut() else {
        unreachable!()
    };
    // The first round tells the first lane all, the second one tells the others.
    meet_each(manager, first, others);
    meet_each(manager, first, others);
}
