// The sorts of a call list's terms: a table has those of the first, past which a ring has those of the latest, and the
// records of the others are searched.
#![tactic(auto)]

ghost use Rattle.std.specs.Prelude.{◌≡◌, cond, ◌+◌, ◌%◌, ◌<◌, length, get_or, set, leb};
ghost use Rattle.engine.specs.Structure.{capped, guarded};
ghost use Rattle.term_table.specs.Near.{is_recent, sort_near, record_by, note_sort, note_recent, origin_in, sort_in};

use engine::Origin;

// A call list with its tables: the sorts of the first terms, a ring of those of the latest, and the places of every
// `gap + 1`th term.
#[derive(Clone, Copy)]
pub struct Tables<'a> {
    pub calls: &'a [u32],
    pub sorts: &'a [u8],
    pub recent: &'a [u8],
    pub places: &'a [u32],
    pub gap: u32,
}

// The number at a place of a table, 0 past its end.
fn entry(table: &[u8], at: usize) -> u32
    ensures { result ≡ get_or table.now at 0 }
{
    if at < table.len() {
        table[at] as u32
    } else {
        0
    }
}

// A sum of sorts, none above 64.
fn capped_sum(a: u32, b: u32) -> u32
    ensures { result ≡ capped (a + b) }
{
    if 65 <= a || 65 <= b || 65 <= a + b {
        65
    } else {
        a + b
    }
}

// An origin that goes by terms earlier than k.
fn earlier_origin(k: u32, origin: Origin) -> Origin
    ensures { result ≡ guarded k origin }
{
    match origin {
        Origin::Given(s) => Origin::Given(s),
        Origin::Same(a) if a.0 < k => Origin::Same(a),
        Origin::Joined(a, b) if a.0 < k && b.0 < k => Origin::Joined(a, b),
        _ => Origin::Given(65),
    }
}

// Whether a term is one of the latest, whose sorts the ring has, of so many terms so far.
fn is_recent(recent: &[u8], terms: usize, k: u32) -> bool
    ensures { result ≡ is_recent recent.now terms k }
{
    (k as usize) < terms && terms - k as usize <= recent.len()
}

// What the ring has of a term.
fn ring_entry(recent: &[u8], k: usize) -> u32
    ensures { result ≡ get_or recent.now (k % length recent.now) 0 }
{
    if recent.len() == 0 {
        return 0;
    }
    entry(recent, k % recent.len())
}

// What is known of the sort of a term: from the table of the first terms or the ring of the latest its sort, else what
// its record says.
fn term_origin(tables: &Tables, terms: usize, k: u32) -> Origin
    ensures { result ≡ origin_in tables.now terms k }
{
    if (k as usize) < tables.sorts.len() {
        return Origin::Given(entry(tables.sorts, k as usize));
    }
    if is_recent(tables.recent, terms, k) {
        return Origin::Given(ring_entry(tables.recent, k as usize));
    }
    let place = term_places::near_place(tables.calls, tables.places, tables.gap, k);
    earlier_origin(k, origins::origin_at(tables.calls, place))
}

// The sort of a term, through the terms that it goes by. Of a join the second is looked up and the first gone on with,
// so that no calls nest deeper than joins do: in a well-formed list 63 times.
fn sort_through(tables: Tables, terms: usize, term: u32) -> u32
    ensures { result ≡ sort_in tables.entry terms term }
{
    let mut k = term;
    let mut total = 0;
    loop {
        match term_origin(&tables, terms, k) {
            Origin::Given(s) => {
                return capped_sum(total, s);
            }
            Origin::Same(a) => {
                k = a.0;
            }
            Origin::Joined(a, b) => {
                total = capped_sum(total, sort_through(tables, terms, b.0));
                k = a.0;
            }
        }
    }
}

// The sort of a term, of so many so far.
pub fn term_sort(tables: &Tables, terms: usize, term: u32) -> u32
    ensures { result ≡ sort_in tables.now terms term }
{
    let k = term as usize;
    if k < tables.sorts.len() {
        return capped_sum(0, tables.sorts[k] as u32);
    }
    sort_through(*tables, terms, term)
}

// The sort of the term that the record at a place makes, of so many so far.
pub fn sort_at(tables: &Tables, terms: usize, at: usize) -> u32
    ensures { result ≡ record_by (sort_in tables.now terms) tables.now.calls.now at }
{
    match origins::origin_at(tables.calls, at) {
        Origin::Given(s) => capped_sum(0, s),
        Origin::Same(a) => term_sort(tables, terms, a.0),
        Origin::Joined(a, b) => capped_sum(
            term_sort(tables, terms, a.0),
            term_sort(tables, terms, b.0),
        ),
    }
}

// A number stored at a place of a table; past its end nothing changes.
fn put_byte(table: &mut [u8], at: usize, value: u32)
    requires { value < 256 }
    ensures { table.new ≡ set table.old at value }
{
    if at < table.len() {
        table[at] = value as u8;
    }
}

// A number stored in the ring at a term's place, if the table of sorts does not have the term.
fn put_recent(sorts: &[u8], recent: &mut [u8], k: usize, value: u32)
    requires { value < 256 }
    ensures { recent.new
        ≡ cond (leb (length sorts.now) k)
        (set recent.old (k % length recent.old) value) recent.old }
{
    if sorts.len() <= k && recent.len() != 0 {
        let slot = k % recent.len();
        put_byte(recent, slot, value);
    }
}

// The sort of the term that a record makes goes into the ring of the latest terms, if the table of sorts does not have
// it.
pub fn note_recent(
    calls: &[u32],
    sorts: &[u8],
    recent: &mut [u8],
    places: &[u32],
    gap: u32,
    at: usize,
    terms: usize,
)
    ensures { recent.new
        ≡ note_recent
        (sort_near sorts.now recent.old places.now gap calls.now terms)
        sorts.now recent.old calls.now at terms }
{
    if sorts.len() <= terms && call_list::makes_term(call_list::operation_at(calls, at)) {
        let tables = Tables {
            calls,
            sorts,
            recent,
            places,
            gap,
        };
        let sort = sort_at(&tables, terms, at);
        put_recent(sorts, recent, terms, sort);
    }
}

// The sort of the term that a record makes goes into the table of sorts and past its end into the ring.
pub fn note_sort(
    calls: &[u32],
    sorts: &mut [u8],
    recent: &mut [u8],
    places: &[u32],
    gap: u32,
    at: usize,
    terms: usize,
)
    ensures { (sorts.new
        ≡ note_sort
        (sort_near sorts.old recent.old places.now gap calls.now terms)
        sorts.old calls.now at terms)
        × (recent.new
        ≡ note_recent
        (sort_near sorts.old recent.old places.now gap calls.now terms)
        sorts.old recent.old calls.now at terms) }
{
    if call_list::makes_term(call_list::operation_at(calls, at)) {
        let tables = Tables {
            calls,
            sorts,
            recent,
            places,
            gap,
        };
        let sort = sort_at(&tables, terms, at);
        put_byte(sorts, terms, sort);
        put_recent(sorts, recent, terms, sort);
    }
}
