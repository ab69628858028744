// `Design::verify` of design.rs: the order of work of an accepted list, as one walk over its words, cells first and
// then net replacements.
#![tactic(auto)]

ghost use Rattle.std.specs.Prelude.{◌≡◌, ◌<◌, max, length};
ghost use Rattle.cell.specs.Design.{Design, total};
ghost use Rattle.cell.specs.declared.Mode as declared;
ghost use Rattle.design_list.specs.Read.{read, accepted};
ghost use Rattle.order.specs.Verify.{each_cell};
ghost use Rattle.slots.specs.Tells.{width_in, Tells};
ghost use Rattle.net_pairs.specs.Does.{Does};
ghost use Rattle.walk.specs.Works.{Works};

use builder::Counts;
use cell::Mode;
use logic::Slot;
use net_pairs::Walked;

// The slots that the cell at a slot takes.
fn slots_at(table: &[u32], slot: Slot) -> u32
    ensures { result ≡ max 1 (width_in table.now slot.0) }
{
    slots::width_at(table, slot).max(1)
}

// Every cell in slot order, and with it the next cell replacement where it is the cell's; the replacements end where
// the net replacements begin.
fn verify_cells(
    list: &[u32],
    replacements: usize,
    end: usize,
    table: &[u32],
    calls: &mut [u32],
    names: &mut [u32],
    marks: &mut [u8],
    eqs: &mut [u32],
    start: Walked,
) -> Walked
    ensures { (mode : declared.Mode) (d : Design) → read mode list.now ≡ accepted d replacements end
        → Tells d table.now → length table.now ≡ total d → Does (each_cell d d.cells)
        calls.old names.old marks.old eqs.old start
        calls.new names.new marks.new eqs.new result }
{
    let mut s = start;
    let mut at: usize = 4;
    let mut rep = replacements;
    let mut index: usize = 0;
    while index < table.len() {
        let slot = Slot((index % 4294967296) as u32);
        s = walk_cell::verify_cell(list, end, at, rep, table, calls, names, marks, eqs, s, slot);
        at = replaced_cells::next_at(list, at);
        rep = replaced_cells::rep_after(list, end, rep, slot);
        index += slots_at(table, slot) as usize;
    }
    s
}

// The loops of `Design::verify`: the calls of every cell in slot order, then of the net replacements; the terms of the
// obligations stand in a lent table.
pub fn work(
    mode: Mode,
    list: &[u32],
    replacements: usize,
    pairs: usize,
    table: &[u32],
    calls: &mut [u32],
    names: &mut [u32],
    marks: &mut [u8],
    eqs: &mut [u32],
    c: Counts,
) -> Walked
    ensures { (d : Design) → read mode list.now ≡ accepted d replacements pairs
        → Tells d table.now → length table.now ≡ total d → Works d
        calls.old names.old marks.old eqs.old c
        calls.new names.new marks.new eqs.new result }
{
    let start = Walked {
        counts: c,
        obligations: 0,
    };
    let cells = verify_cells(
        list,
        replacements,
        pairs,
        table,
        calls,
        names,
        marks,
        eqs,
        start,
    );
    replaced_nets::replace_pairs(mode, list, pairs, table, calls, names, marks, eqs, cells)
}
