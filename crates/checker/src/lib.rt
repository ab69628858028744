// The checker of a call list (fault 19), total on every list of words.
#![tactic(auto)]

ghost use Rattle.std.specs.Prelude.{◌≡◌, ℕ, ◌≤◌, length, get_or};
ghost use Rattle.engine.specs.WellFormed.{outcome};
ghost use Rattle.call_list.specs.Operations.{op_from};
ghost use Rattle.checker.specs.Checking.{checked_as, is_check, CheckedBy};

use call_list::{Cursor, Operation};
use term_table::Tables;

// How many terms a well-formed call list makes and how many names it declares.
#[derive(Clone, Copy)]
pub struct Counts {
    pub terms: usize,
    pub declared: usize,
}

fn is_check(operation: Operation) -> bool
    ensures { result ≡ is_check (op_from operation) }
{
    matches!(operation, Operation::Check | Operation::Unknown)
}

// The check with its tables: the places of every `gap + 1`th term, the sorts of the first terms and of the latest, the
// names, which start all zeros, and for each letter and suffix one more than the highest index so far.
fn check_records(
    calls: &[u32],
    places: &mut [u32],
    gap: u32,
    sorts: &mut [u8],
    recent: &mut [u8],
    names: &mut [u8],
    tops: &mut [u32],
) -> Result<Counts, usize>
    requires { ((k : ℕ) → get_or names.old k 0 ≡ 0) × (9 ≤ length tops.old) }
    ensures { CheckedBy gap calls.now places.new
        sorts.new names.new result }
{
    let mut seen = Cursor {
        at: 0,
        terms: 0,
        declared: 0,
    };
    let mut checked = false;
    while seen.at < calls.len() {
        if checked {
            return Err(seen.at);
        }
        let tables = Tables {
            calls,
            sorts,
            recent,
            places,
            gap,
        };
        if let Some(place) = record_faults::record_fault(
            &tables, names, tops, seen.terms, seen.at,
        ) {
            return Err(place);
        }
        term_table::note_sort(calls, sorts, recent, places, gap, seen.at, seen.terms);
        term_places::note_place(calls, places, gap, seen.at, seen.terms);
        name_table::note_name(calls, names, seen.at);
        name_table::note_top(calls, tops, seen.at);
        checked = is_check(call_list::operation_at(calls, seen.at));
        seen = call_list::next(calls, seen);
    }
    Ok(Counts {
        terms: seen.terms,
        declared: seen.declared,
    })
}

// What a well-formed call list makes and declares, or the first place at fault (fault 19), with tables that the caller lends: for a
// well-formed list they have the places of every `gap + 1`th term, the sorts of its first terms and its names of low
// indexes, as far as they reach; what else they and the ring of the latest terms hold afterwards is free.
pub fn check_by(
    calls: &[u32],
    places: &mut [u32],
    gap: u32,
    sorts: &mut [u8],
    recent: &mut [u8],
    names: &mut [u8],
) -> Result<Counts, usize>
    ensures { CheckedBy gap calls.now places.new
        sorts.new names.new result }
{
    name_table::clear_names(names);
    let mut tops = [0u32; 9];
    check_records(calls, places, gap, sorts, recent, names, &mut tops)
}

// What a well-formed call list makes and declares, or the first place at fault (fault 19).
pub fn check(calls: &[u32]) -> Result<Counts, usize>
    ensures { result ≡ checked_as (outcome calls.now) }
{
    let mut places = [0u32; 4096];
    let gap = term_places::gap_of(calls, 4096);
    let mut sorts = [0u8; 40960];
    let mut recent = [0u8; 4096];
    let mut names = [0u8; 64512];
    let mut tops = [0u32; 9];
    check_records(
        calls,
        &mut places,
        gap,
        &mut sorts,
        &mut recent,
        &mut names,
        &mut tops,
    )
}
