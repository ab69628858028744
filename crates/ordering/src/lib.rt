// Document 02's change 4: the order of a list's nodes, each after all that it reads currently, or the loop that is
// named.
#![tactic(auto)]

ghost use Rattle.std.specs.Prelude.{◌≡◌, ◌==◌, ◌≤◌, length, not};
ghost use Rattle.std.specs.List.{list_any};
ghost use Rattle.cell.specs.Design.{total};
ghost use Rattle.cell.specs.declared.Mode.{Mode};
ghost use Rattle.design_list.specs.Read.{read};
ghost use Rattle.ordering.specs.Words.{OrdersBy, Ready};
ghost use Rattle.ordering.specs.Answer.{Orders};

use design_list::Extent;
use logic::Fault;

// The order or a loop, with its length.
#[derive(Clone, Copy)]
pub enum Ordering {
    Ordered(usize),
    Looped(usize),
}

// Whether a node is left that never got ready.
fn any_left(flags: &[u32]) -> bool
    ensures { result ≡ list_any (λ flag. not (flag == 0)) flags.now }
{
    for a in 0..flags.len() {
        if flags[a] != 0 {
            return true;
        }
    }
    false
}

// The order goes into turns first: where there is a loop, the slice gets nothing but the loop.
fn order_by(edges: &[u32], flags: &mut [u32], slots: &mut [u32]) -> Ordering
    requires { (length edges.now ≤ 16384) × (length flags.old ≤ 4096) }
    ensures { OrdersBy edges.now flags.old slots.old slots.new result }
{
    let mut turns = [0u32; 4096];
    let n = topological::sort(edges, flags, &mut turns);
    if any_left(flags) {
        return Ordering::Looped(loop_walk::name_loop(edges, flags, slots));
    }
    stores::copy(slots, &turns, n);
    Ordering::Ordered(n)
}

// An accepted list, with a slice that has a word for each slot.
fn order_read(list: &[u32], x: Extent, table: &[u32], slots: &mut [u32]) -> Ordering
    requires { ((mode : Mode) → Ready mode list.now x table.now) × (length table.now ≤ length slots.old) }
    ensures { (mode : Mode) →
        Orders (read mode list.now) slots.old slots.new (Ok result) }
{
    let mut flags = [0u32; 4096];
    let mut edges = [0u32; 16384];
    let pairs = x.pairs;
    let total = table.len();
    let nodes = &mut flags[..total];
    reads_table::flag_nodes(list, pairs, table, nodes);
    let count = reads_table::fill(list, pairs, table, &mut edges);
    order_by(&edges[..count], nodes, slots)
}

// The order of a list's nodes, or the loop that is named, in the slice from its start; past its length, and after a
// refusal, the slice stays. The first fault is told, 14 last: a slice too short for the slots.
pub fn order(list: &[u32], slots: &mut [u32]) -> Result<Ordering, Fault>
    ensures { (mode : Mode) →
        Orders (read mode list.now) slots.old slots.new result }
{
    let mut table = [0u32; 4096];
    let x = design_list::slot_table(list, &mut table)?;
    let total = x.base + x.added;
    if slots.len() < total {
        return Err(Fault {
            number: 14,
            place: total,
        });
    }
    Ok(order_read(list, x, &table[..total], slots))
}
