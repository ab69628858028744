// The header, the cell replacements and the net replacements of a design list, each up to its first fault.
#![tactic(auto)]

ghost use Rattle.std.specs.Prelude.{◌≡◌, ◌+◌, ◌-◌, ◌<◌};
ghost use Rattle.items.specs.Step.{cell_step, net_step};
ghost use Rattle.items.specs.Items.{counts_at, header_at, listed_number_at, listed_net_at, replaces, replacement_at};
ghost use Rattle.items.specs.Items.{cell_reps_from, pair_at, net_reps_from, finish_at};
ghost use Rattle.items.specs.Marks.{at_slot_in};

use cell::Operation;
use logic::{Fault, Net, Slot};

// The four words of the header.
#[derive(Clone, Copy)]
pub struct Header {
    pub base: usize,
    pub added: usize,
    pub cellreps: usize,
    pub netreps: usize,
}

// The two counts of the header, after base and added.
#[tactic(auto, unfolding(crate::specs::Items::counts_at))]
fn counts_at(list: &[u32], base: usize, added: usize) -> Result<Header, Fault>
    ensures { result ≡ counts_at list.now base added }
{
    let (cellreps, _) = reader::number_in(list, 4096, 4, 2)?;
    let (netreps, _) = reader::number_in(list, 4096, 4, 3)?;
    Ok(Header {
        base,
        added,
        cellreps: cellreps as usize,
        netreps: netreps as usize,
    })
}

// The header.
#[tactic(auto, unfolding(crate::specs::Items::header_at))]
pub fn header_at(list: &[u32]) -> Result<Header, Fault>
    ensures { result ≡ header_at list.now }
{
    let (base, _) = reader::number_in(list, 4096, 4, 0)?;
    let (added, _) = reader::number_in(list, 4096 - base, 4, 1)?;
    counts_at(list, base as usize, added as usize)
}

// The number at a place outside the records, with the next place.
#[tactic(auto, unfolding(crate::specs::Items::listed_number_at))]
fn listed_number_at(list: &[u32], at: usize) -> Result<(u32, usize), Fault>
    ensures { result ≡ listed_number_at list.now at }
{
    if at < list.len() {
        reader::number_in(list, logic::LAST_PAYLOAD, list.len(), at)
    } else {
        Err(Fault {
            number: 1,
            place: list.len(),
        })
    }
}

// The net at a place outside the records.
#[tactic(auto, unfolding(crate::specs::Items::listed_net_at))]
fn listed_net_at(list: &[u32], total: usize, at: usize) -> Result<usize, Fault>
    ensures { result ≡ listed_net_at list.now total at }
{
    if at < list.len() {
        reader::net_in(list, total, list.len(), at)
    } else {
        Err(Fault {
            number: 1,
            place: list.len(),
        })
    }
}

// Whether a replacement has none of the reasons of fault 12, by the table's words.
#[tactic(auto, unfolding(crate::specs::Items::replaces))]
fn replaces(
    table: &[u32],
    base: usize,
    least: Slot,
    slot: Slot,
    op: Operation,
    width: usize,
) -> bool
    ensures { result ≡ replaces (at_slot_in table.now) base least.0 slot.0 op width }
{
    if base <= slot.0 as usize {
        return false;
    }
    let mark = logic::word_at(table, slot.0 as usize);
    mark / 1024 == slot.0
        && mark % 4 != 0
        && least.0 <= slot.0
        && (mark / 8 % 128) as usize == width
        && cell::may_replace(op)
}

// The cell replacement at a place: the least slot that the next one may have and the place after this one.
#[tactic(auto, unfolding(crate::specs::Items::replacement_at))]
fn replacement_at(
    list: &[u32],
    table: &[u32],
    base: usize,
    total: usize,
    least: Slot,
    at: usize,
) -> Result<(Slot, usize), Fault>
    ensures { result ≡ cell_step (replacement_at list.now total (replaces (at_slot_in table.now)
        base) least.0 at) }
{
    let (slot, start) = listed_number_at(list, at)?;
    let cell = reader::record_in(list, total, start)?;
    if !replaces(table, base, least, Slot(slot), cell.op, cell.width) {
        return Err(Fault {
            number: 12,
            place: at,
        });
    }
    Ok((Slot(slot + 1), cell.next))
}

// The cell replacements, and the place after them.
#[tactic(auto, using(crate::proofs::Laws::replacements))]
pub fn cell_reps_at(
    list: &[u32],
    table: &[u32],
    base: usize,
    total: usize,
    k: usize,
    start: usize,
) -> Result<usize, Fault>
    ensures { result ≡ (cell_reps_from list.now total (replaces (at_slot_in table.now) base)
        k 0 start).scan }
{
    let mut at = start;
    let mut least = Slot(0);
    for _ in 0..k {
        (least, at) = replacement_at(list, table, base, total, least, at)?;
    }
    Ok(at)
}

// The net replacement at a place: the least from that the next one may have and the place after this one.
#[tactic(auto, unfolding(crate::specs::Items::pair_at))]
fn pair_at(list: &[u32], total: usize, least: Net, at: usize) -> Result<(Net, usize), Fault>
    ensures { result ≡ net_step (pair_at list.now total least.0 at) }
{
    let to = listed_net_at(list, total, at)?;
    let next = listed_net_at(list, total, to)?;
    let from = logic::payload(logic::word_at(list, at));
    if from < least.0 {
        return Err(Fault {
            number: 13,
            place: at,
        });
    }
    Ok((Net(from + 1), next))
}

// The net replacements, and the place after them.
#[tactic(auto, using(crate::proofs::Laws::replacements))]
pub fn net_reps_at(list: &[u32], total: usize, k: usize, start: usize) -> Result<usize, Fault>
    ensures { result ≡ (net_reps_from list.now total k 0 start).scan }
{
    let mut at = start;
    let mut least = Net(0);
    for _ in 0..k {
        (least, at) = pair_at(list, total, least, at)?;
    }
    Ok(at)
}

// Whether the list ends at a place.
#[tactic(auto, unfolding(crate::specs::Items::finish_at))]
pub fn finish_at(list: &[u32], at: usize) -> Result<usize, Fault>
    ensures { result ≡ finish_at list.now at }
{
    if at == list.len() {
        Ok(at)
    } else {
        Err(Fault {
            number: 1,
            place: at,
        })
    }
}
