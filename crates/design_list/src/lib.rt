// The design list, from its length to fault 10, up to the first fault; and what stands at each slot.
#![tactic(auto)]

ghost use Rattle.std.specs.Prelude.{◌≡◌, ◌+◌, ◌-◌, ◌<◌, ◌≤◌, length};
ghost use Rattle.std.proofs.lemmas.List.Edits.{sets};
ghost use Rattle.cell.specs.declared.Mode.{Mode};
ghost use Rattle.placing.specs.Slots.{slot_words};
ghost use Rattle.items.specs.Items.{replaces};
ghost use Rattle.items.specs.Marks.{at_slot_in};
ghost use Rattle.voids.specs.Marks.{is_void_in};
ghost use Rattle.design_list.specs.Read.{read_cells, read, answer, Answered};
ghost use Rattle.design_list.specs.Answers.{net_reps_answer, cell_reps_answer, cells_read};
ghost use Rattle.design_list.specs.Table.{Stored, Tabled};

use items::Header;
use logic::Fault;

// The numbers of an accepted list: its header, how many cells it has, and where its replacements start.
#[derive(Clone, Copy)]
pub struct Extent {
    pub base: usize,
    pub added: usize,
    pub cells: usize,
    pub cellreps: usize,
    pub netreps: usize,
    pub replacements: usize,
    pub pairs: usize,
}

// From the net replacements on.
#[tactic(auto, unfolding(crate::specs::Answers::net_reps_answer))]
fn read_net_reps(
    list: &[u32],
    table: &[u32],
    header: Header,
    count: usize,
    replacements: usize,
    pairs: usize,
) -> Result<Extent, Fault>
    requires { header.base + header.added ≤ 4096 }
    ensures { result ≡ net_reps_answer list.now (is_void_in table.now header.base)
        header count replacements pairs }
{
    let next = items::net_reps_at(list, header.base + header.added, header.netreps, pairs)?;
    items::finish_at(list, next)?;
    voids::voids_at(
        list,
        table,
        header.base,
        count,
        header.cellreps,
        header.netreps,
    )?;
    Ok(Extent {
        base: header.base,
        added: header.added,
        cells: count,
        cellreps: header.cellreps,
        netreps: header.netreps,
        replacements,
        pairs,
    })
}

// From the cell replacements on.
#[tactic(auto, unfolding(crate::specs::Answers::cell_reps_answer))]
fn read_cell_reps(
    list: &[u32],
    table: &[u32],
    header: Header,
    count: usize,
    replacements: usize,
) -> Result<Extent, Fault>
    requires { header.base + header.added ≤ 4096 }
    ensures { result ≡ cell_reps_answer list.now (replaces (at_slot_in table.now) header.base)
        (is_void_in table.now header.base) header count replacements }
{
    let total = header.base + header.added;
    let pairs = items::cell_reps_at(
        list,
        table,
        header.base,
        total,
        header.cellreps,
        replacements,
    )?;
    read_net_reps(list, table, header, count, replacements, pairs)
}

// From the cells on, with the word for each slot stored in the table.
fn read_cells(list: &[u32], header: Header, table: &mut [u32]) -> Result<Extent, Fault>
    requires { (header.base + header.added ≤ 4096) × (header.base + header.added ≤ length table.old) }
    ensures { ((mode : Mode) → result ≡ answer (read_cells mode list.now header))
        × (table.new ≡ sets table.old 0
        (slot_words header.base (cells_read list.now header).items)) }
{
    let cells = placing::cells_at(list, header.base as u16, header.added as u16, table)?;
    read_cell_reps(list, table, header, cells.count, cells.next)
}

// Reads a design list, with the word for each slot of an accepted one stored in the table.
fn read_into(list: &[u32], table: &mut [u32]) -> Result<Extent, Fault>
    requires { 4096 ≤ length table.old }
    ensures { (mode : Mode) → (result ≡ answer (read mode list.now))
        × Stored (read mode list.now) table.old table.new }
{
    if 16384 < list.len() {
        return Err(Fault {
            number: 4,
            place: 16384,
        });
    }
    if list.len() < 4 {
        return Err(Fault {
            number: 1,
            place: list.len(),
        });
    }
    let header = items::header_at(list)?;
    read_cells(list, header, table)
}

// Reads a design list: the numbers of an accepted one, or the first fault of a refused one; in every mode the same.
pub fn read_design(list: &[u32]) -> Result<Extent, Fault>
    ensures { (mode : Mode) → Answered (read mode list.now) result }
{
    let mut table = [0u32; 4096];
    read_into(list, &mut table)
}

// Fills the slice by way of the table.
fn slot_table_by(list: &[u32], out: &mut [u32], table: &mut [u32]) -> Result<Extent, Fault>
    requires { 4096 ≤ length table.old }
    ensures { (mode : Mode) →
        Tabled (read mode list.now) out.old out.new result }
{
    let extent = read_into(list, table)?;
    let total = extent.base + extent.added;
    if out.len() < total {
        return Err(Fault {
            number: 14,
            place: total,
        });
    }
    stores::copy(out, table, total);
    Ok(extent)
}

// What stands at each slot of a design list, as words in a lent slice, with the numbers of an accepted list; or the
// first fault, 14 last: a slice too short for the slots. In every mode the same.
pub fn slot_table(list: &[u32], out: &mut [u32]) -> Result<Extent, Fault>
    ensures { (mode : Mode) →
        Tabled (read mode list.now) out.old out.new result }
{
    let mut table = [0u32; 4096];
    slot_table_by(list, out, &mut table)
}
