// What the slot table tells the order of work: how wide a slot's cell is, and what a net replacement is.
#![tactic(auto)]

ghost use Rattle.std.specs.Prelude.{◌≡◌};
ghost use Rattle.logic.specs.Net.{driver_of};
ghost use Rattle.slots.specs.Tells.{width_in};
ghost use Rattle.slots.specs.Pairs.{standing_at, standing_by, IsKind};

use logic::{Driver, Net, Slot};

// A net replacement: of equal nets, of a Void's net, of a Dff's net by a Dff's, or any other.
#[derive(Clone, Copy)]
pub enum Pair {
    Equal,
    OfVoid,
    OfDffs,
    Ordinary,
}

// What stands at a slot: a Void, a Dff, any other cell, or no cell.
#[derive(Clone, Copy)]
enum Standing {
    Void,
    Dff,
    Other,
}

// The output width of the cell that a slot belongs to, by the slot's word.
pub fn width_at(table: &[u32], slot: Slot) -> u32
    ensures { result ≡ width_in table.now slot.0 }
{
    logic::word_at(table, slot.0 as usize) / 8 % 128
}

// What stands at the slot of a net, as `get_cell` asks.
fn standing_at(table: &[u32], net: Net) -> Standing
    ensures { result ≡ standing_by (standing_at table.now (driver_of net.0)) }
{
    match logic::driver_of(net) {
        Driver::Output(slot) => match logic::word_at(table, slot.0 as usize) % 4 {
            0 => Standing::Void,
            1 => Standing::Dff,
            _ => Standing::Other,
        },
        _ => Standing::Other,
    }
}

// What a net replacement is.
pub fn pair_of(table: &[u32], from_net: Net, to_net: Net) -> Pair
    ensures { IsKind table.now from_net.0 to_net.0 result }
{
    if from_net.0 == to_net.0 {
        return Pair::Equal;
    }
    let from = standing_at(table, from_net);
    let to = standing_at(table, to_net);
    match (from, to) {
        (Standing::Void, _) => Pair::OfVoid,
        (Standing::Dff, Standing::Dff) => Pair::OfDffs,
        _ => Pair::Ordinary,
    }
}
