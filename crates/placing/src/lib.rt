// The cells of a design list, each placed on its slots after the one before, with the word of every slot.
#![tactic(auto)]

ghost use Rattle.std.specs.Prelude.{◌≡◌, ◌+◌, ◌-◌, ◌<◌, ◌≤◌, ◌^◌, max};
ghost use Rattle.std.proofs.lemmas.List.Edits.{sets};
ghost use Rattle.placing.specs.Slots.{standing_number, mark_word, slot_words};
ghost use Rattle.placing.specs.Cells.{limit_of, placed_at, cells_of, counted};

use cell::{Operation, Standing};
use logic::{Fault, Slot};

// A cell's operation and output width, the slot and the place after it.
#[derive(Clone, Copy)]
pub struct Placing {
    pub op: Operation,
    pub width: usize,
    pub after: Slot,
    pub next: usize,
}

// How many cells, and the place after them.
#[derive(Clone, Copy)]
pub struct Cells {
    pub count: usize,
    pub next: usize,
}

// The slots that a cell of an output width takes.
fn slots_of(width: usize) -> usize
    ensures { result ≡ max 1 width }
{
    width.max(1)
}

// The slot by which a cell that begins at a slot must end.
fn limit_of(base: usize, total: usize, slot: Slot) -> usize
    ensures { result ≡ limit_of base total slot.0 }
{
    if (slot.0 as usize) < base {
        base
    } else {
        total
    }
}

// The cell at a place, which begins at a slot.
#[tactic(auto, unfolding(crate::specs::Cells::placed_at))]
fn placed_at(
    list: &[u32],
    base: usize,
    total: usize,
    slot: Slot,
    at: usize,
) -> Result<Placing, Fault>
    requires { slot.0 < 2 ^ 17 }
    ensures { result ≡ placed_at list.now base total slot.0 at }
{
    let cell = reader::record_in(list, total, at)?;
    let after = slot.0 as usize + slots_of(cell.width);
    if limit_of(base, total, slot) < after {
        return Err(Fault {
            number: 11,
            place: at,
        });
    }
    Ok(Placing {
        op: cell.op,
        width: cell.width,
        after: Slot(after as u32),
        next: cell.next,
    })
}

// What stands at a slot, as a number.
fn standing_number(stands: Standing) -> u32
    ensures { (result ≡ standing_number stands) × (result ≤ 2) }
{
    match stands {
        Standing::Void => 0,
        Standing::Dff => 1,
        Standing::Other => 2,
    }
}

// The word for the slots of a cell.
fn mark_word(base: usize, stands: Standing, width: usize, first: Slot) -> u32
    requires { (width ≤ 64) × (first.0 < 2 ^ 17) }
    ensures { result ≡ mark_word base stands width first.0 }
{
    let number = standing_number(stands);
    let rest = 8 * (width as u32) + 1024 * first.0;
    if (first.0 as usize) < base {
        number + rest
    } else {
        number + 4 + rest
    }
}

// The cells up to a total of slots, with the word for each slot that they take stored in the table.
fn cells_within(list: &[u32], base: usize, total: usize, table: &mut [u32]) -> Result<Cells, Fault>
    requires { (base ≤ total) × (total < 2 ^ 17) }
    ensures { (result ≡ counted (cells_of list.now base total))
        × (table.new ≡ sets table.old 0
        (slot_words base (cells_of list.now base total).items)) }
{
    let mut at: usize = 4;
    let mut slot = Slot(0);
    let mut count: usize = 0;
    while (slot.0 as usize) < total {
        let cell = placed_at(list, base, total, slot, at)?;
        stores::fill(
            table,
            slot.0 as usize,
            cell.after.0 as usize,
            mark_word(base, cell::standing_of(cell.op), cell.width, slot),
        );
        slot = cell.after;
        at = cell.next;
        count += 1;
    }
    Ok(Cells { count, next: at })
}

// The cells of a base and of what is added to it, with the word for each slot that they take stored in the table.
pub fn cells_at(list: &[u32], base: u16, added: u16, table: &mut [u32]) -> Result<Cells, Fault>
    ensures { (result ≡ counted (cells_of list.now base (base + added)))
        × (table.new ≡ sets table.old 0
        (slot_words base (cells_of list.now base (base + added)).items)) }
{
    cells_within(list, base as usize, base as usize + added as usize, table)
}
