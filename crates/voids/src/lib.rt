// Fault 10: a second pass over the list, for words that name a Void of the base.
#![tactic(auto)]

ghost use Rattle.std.specs.Prelude.{◌≡◌, ◌+◌, ◌-◌, ◌<◌, ◌^◌};
ghost use Rattle.voids.specs.Marks.{is_void_in};
ghost use Rattle.voids.specs.Voids.{names_void, offends, void_at, clock_at, record_voids_at, replacement_voids_at};
ghost use Rattle.voids.specs.Voids.{pair_voids_at, voids_at};
ghost use Rattle.fields.specs.Field.{scan_many};

use cell::Standing;
use fields::Step;
use logic::{Driver, Fault, Net, Slot};

// Whether a slot is that of a Void of the base, by the table's words.
#[tactic(auto, unfolding(crate::specs::Marks::is_void_in))]
fn is_void(table: &[u32], base: usize, slot: Slot) -> bool
    ensures { result ≡ is_void_in table.now base slot.0 }
{
    (slot.0 as usize) < base && logic::word_at(table, slot.0 as usize) % 4 == 0
}

// Whether a net is that of a Void of the base.
#[tactic(auto, unfolding(crate::specs::Voids::names_void))]
fn names_void(table: &[u32], base: usize, net: Net) -> bool
    ensures { result ≡ names_void (is_void_in table.now base) net.0 }
{
    match logic::driver_of(net) {
        Driver::Output(slot) => is_void(table, base, slot),
        Driver::Constant(_) | Driver::NoNet => false,
    }
}

// Whether the word at a place is a net or control word, not the clock, that names a Void of the base.
#[tactic(auto, unfolding(crate::specs::Voids::offends))]
fn offends(list: &[u32], table: &[u32], base: usize, clock: usize, at: usize) -> bool
    ensures { result ≡ offends list.now (is_void_in table.now base) clock at }
{
    let word = logic::word_at(list, at);
    logic::kind(word) <= 1 && at != clock && names_void(table, base, Net(logic::payload(word)))
}

// A run of n words, up to the first that offends.
#[tactic(auto, using(crate::proofs::Laws::words))]
fn voids_in(
    list: &[u32],
    table: &[u32],
    base: usize,
    clock: usize,
    n: usize,
    start: usize,
) -> Result<usize, Fault>
    requires { start + n < 2 ^ 63 }
    ensures { result ≡ scan_many (void_at list.now (is_void_in table.now base) clock) n start }
{
    for at in start..start + n {
        if offends(list, table, base, clock, at) {
            return Err(Fault {
                number: 10,
                place: at,
            });
        }
    }
    Ok(start + n)
}

// The place of the clock of the record at a place, 0 where it has none.
#[tactic(auto, unfolding(crate::specs::Voids::clock_at))]
fn clock_at(list: &[u32], at: usize) -> usize
    requires { at < 2 ^ 62 }
    ensures { result ≡ clock_at list.now at }
{
    match cell::operation_of(logic::payload(logic::word_at(list, at)) % 32) {
        Some(op) => match cell::standing_of(op) {
            Standing::Dff => at + 3,
            Standing::Void | Standing::Other => 0,
        },
        None => 0,
    }
}

// The fields of the record at a place.
#[tactic(auto, unfolding(crate::specs::Voids::record_voids_at))]
fn record_voids_at(list: &[u32], table: &[u32], base: usize, at: usize) -> Result<usize, Fault>
    ensures { result ≡ record_voids_at list.now (is_void_in table.now base) at }
{
    if list.len() <= at {
        return Ok(at);
    }
    let count = (logic::payload(logic::word_at(list, at)) / 32) as usize;
    voids_in(list, table, base, clock_at(list, at), count, at + 1)
}

// The fields of the record after the #slot at a place.
#[tactic(auto, unfolding(crate::specs::Voids::replacement_voids_at))]
fn replacement_voids_at(list: &[u32], table: &[u32], base: usize, at: usize) -> Result<usize, Fault>
    ensures { result ≡ replacement_voids_at list.now (is_void_in table.now base) at }
{
    if list.len() <= at {
        return Ok(at);
    }
    record_voids_at(list, table, base, at + 1)
}

// The to of the pair at a place.
#[tactic(auto, unfolding(crate::specs::Voids::pair_voids_at, crate::specs::Voids::void_at))]
fn pair_voids_at(list: &[u32], table: &[u32], base: usize, at: usize) -> Result<usize, Fault>
    ensures { result ≡ pair_voids_at list.now (is_void_in table.now base) at }
{
    if list.len() <= at {
        return Ok(at);
    }
    if offends(list, table, base, 0, at + 1) {
        return Err(Fault {
            number: 10,
            place: at + 1,
        });
    }
    Ok(at + 1 + 1)
}

// The step over a cell: the fields of its record.
#[derive(Clone, Copy)]
struct CellStep<'a> {
    list: &'a [u32],
    table: &'a [u32],
    base: usize,
}

impl Step for CellStep<'_> {
    ghost answer = { λ s. record_voids_at s.list.now (is_void_in s.table.now s.base) };

    fn taken(&self, at: usize) -> Result<usize, Fault> {
        record_voids_at(self.list, self.table, self.base, at)
    }
}

// The step over a cell replacement: the fields of its record after the #slot.
#[derive(Clone, Copy)]
struct ReplacementStep<'a> {
    list: &'a [u32],
    table: &'a [u32],
    base: usize,
}

impl Step for ReplacementStep<'_> {
    ghost answer = { λ s. replacement_voids_at s.list.now (is_void_in s.table.now s.base) };

    fn taken(&self, at: usize) -> Result<usize, Fault> {
        replacement_voids_at(self.list, self.table, self.base, at)
    }
}

// The step over a net replacement: its to.
#[derive(Clone, Copy)]
struct PairStep<'a> {
    list: &'a [u32],
    table: &'a [u32],
    base: usize,
}

impl Step for PairStep<'_> {
    ghost answer = { λ s. pair_voids_at s.list.now (is_void_in s.table.now s.base) };

    fn taken(&self, at: usize) -> Result<usize, Fault> {
        pair_voids_at(self.list, self.table, self.base, at)
    }
}

// The first word of the list that names a Void of the base where it may not: of the cells, the new cells and the tos.
#[tactic(auto, unfolding(crate::specs::Voids::voids_at))]
pub fn voids_at(
    list: &[u32],
    table: &[u32],
    base: usize,
    cells: usize,
    cellreps: usize,
    netreps: usize,
) -> Result<usize, Fault>
    ensures { result ≡ voids_at list.now (is_void_in table.now base) cells cellreps netreps }
{
    let cell = CellStep { list, table, base };
    let replacement = ReplacementStep { list, table, base };
    let pair = PairStep { list, table, base };
    let replacements = fields::many_steps(&cell, cells, 4)?;
    let pairs = fields::many_steps(&replacement, cellreps, replacements)?;
    fields::many_steps(&pair, netreps, pairs)
}
