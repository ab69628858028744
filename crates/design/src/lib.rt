// The answer of the order of work for a list of words (design.rs, `Design::verify`): what it says, and what it counts
// in the calls, the terms that they make, the temporaries that they declare, and the words that they take.
#![tactic(auto)]

ghost use Rattle.std.specs.Prelude.{◌≡◌, ◌≤◌, length, Err};
ghost use Rattle.cell.specs.Mode.{number_of};
ghost use Rattle.requirement.specs.Verified.{told_by, unroomed};
ghost use Rattle.design.specs.Verifies.{Ready, Blank, Roomy, Tallied, Passes, Verifies};

use builder::Counts;
use cell::Mode;
use design_list::Extent;
use logic::Fault;
use requirement::Verified;
use running::Tally;

// The steps of an accepted list and `check`, from no names and no marks, with room for its obligations' terms.
fn pass(
    mode: Mode,
    list: &[u32],
    x: Extent,
    table: &[u32],
    calls: &mut [u32],
    names: &mut [u32],
    marks: &mut [u8],
    eqs: &mut [u32],
) -> Tally
    requires { Ready mode list.now x table.now × Blank table.now names.old marks.old
        × Roomy mode list.now x table.now (length eqs.old) }
    ensures { (ready : Ready mode list.now x table.now) → Passes ready.d
        calls.old calls.new marks.new result }
{
    let replacements = x.replacements;
    let pairs = x.pairs;
    running::run(
        mode,
        list,
        replacements,
        pairs,
        table,
        calls,
        names,
        marks,
        eqs,
    )
}

// What a pass over an accepted list counts where it writes nowhere.
fn dry_run(
    mode: Mode,
    list: &[u32],
    x: Extent,
    table: &[u32],
    names: &mut [u32],
    marks: &mut [u8],
    eqs: &mut [u32],
) -> Tally
    requires { Ready mode list.now x table.now × Blank table.now names.old marks.old
        × Roomy mode list.now x table.now (length eqs.old) }
    ensures { (ready : Ready mode list.now x table.now) → Tallied ready.d result }
{
    let mut none = [0u32; 1];
    pass(mode, list, x, table, &mut none[..0], names, marks, eqs)
}

// What a pass answers.
fn told(p: Tally) -> Verified
    ensures { result ≡ told_by p.obligations p.counts }
{
    requirement::told(p.obligations, p.counts)
}

// Nothing is written unless all fits. The two passes share the lent tables.
fn verify_in(
    mode: Mode,
    list: &[u32],
    x: Extent,
    table: &[u32],
    calls: &mut [u32],
    recorded: &mut [u8],
    names: &mut [u32],
    marks: &mut [u8],
    eqs: &mut [u32],
) -> Result<Verified, Fault>
    requires { Ready mode list.now x table.now × Blank table.now names.old marks.old
        × Roomy mode list.now x table.now (length eqs.old) }
    ensures { Verifies (number_of mode) list.now calls.old recorded.old
        calls.new recorded.new result }
{
    let dry = dry_run(mode, list, x, table, names, marks, eqs);
    let slots = table.len();
    if let Err(place) = requirement::room_for(
        dry.counts.words,
        calls.len(),
        slots,
        recorded.len(),
    ) {
        return Err(Fault { number: 14, place });
    }
    let written = &mut recorded[..slots];
    stores::clear(written);
    stores::clear_words(names);
    Ok(told(pass(mode, list, x, table, calls, names, written, eqs)))
}

// A design of at most 256 slots and 384 net replacements, with tables of its size.
fn verify_small(
    mode: Mode,
    list: &[u32],
    x: Extent,
    table: &[u32],
    calls: &mut [u32],
    recorded: &mut [u8],
) -> Result<Verified, Fault>
    requires { Ready mode list.now x table.now × (length table.now ≤ 256) × (x.netreps ≤ 384) }
    ensures { Verifies (number_of mode) list.now calls.old recorded.old
        calls.new recorded.new result }
{
    let mut names = [0u32; 1024];
    let mut marks = [0u8; 256];
    let mut eqs = [0u32; 1024];
    let slots = table.len();
    let places = 4 * slots;
    verify_in(
        mode,
        list,
        x,
        table,
        calls,
        recorded,
        &mut names[..places],
        &mut marks[..slots],
        &mut eqs,
    )
}

// A design of any size.
fn verify_large(
    mode: Mode,
    list: &[u32],
    x: Extent,
    table: &[u32],
    calls: &mut [u32],
    recorded: &mut [u8],
) -> Result<Verified, Fault>
    requires { Ready mode list.now x table.now }
    ensures { Verifies (number_of mode) list.now calls.old recorded.old
        calls.new recorded.new result }
{
    let mut names = [0u32; 16384];
    let mut marks = [0u8; 4096];
    let mut eqs = [0u32; 12288];
    let slots = table.len();
    let places = 4 * slots;
    verify_in(
        mode,
        list,
        x,
        table,
        calls,
        recorded,
        &mut names[..places],
        &mut marks[..slots],
        &mut eqs,
    )
}

// What a small design counts.
fn count_small(mode: Mode, list: &[u32], x: Extent, table: &[u32]) -> Tally
    requires { Ready mode list.now x table.now × (length table.now ≤ 256) × (x.netreps ≤ 384) }
    ensures { (ready : Ready mode list.now x table.now) → Tallied ready.d result }
{
    let mut names = [0u32; 1024];
    let mut marks = [0u8; 256];
    let mut eqs = [0u32; 1024];
    let slots = table.len();
    let places = 4 * slots;
    dry_run(
        mode,
        list,
        x,
        table,
        &mut names[..places],
        &mut marks[..slots],
        &mut eqs,
    )
}

// What a design of any size counts.
fn count_large(mode: Mode, list: &[u32], x: Extent, table: &[u32]) -> Tally
    requires { Ready mode list.now x table.now }
    ensures { (ready : Ready mode list.now x table.now) → Tallied ready.d result }
{
    let mut names = [0u32; 16384];
    let mut marks = [0u8; 4096];
    let mut eqs = [0u32; 12288];
    let slots = table.len();
    let places = 4 * slots;
    dry_run(
        mode,
        list,
        x,
        table,
        &mut names[..places],
        &mut marks[..slots],
        &mut eqs,
    )
}

// Nothing is written unless all fits.
fn verify_read(
    mode: Mode,
    list: &[u32],
    x: Extent,
    table: &[u32],
    calls: &mut [u32],
    recorded: &mut [u8],
) -> Result<Verified, Fault>
    requires { Ready mode list.now x table.now }
    ensures { Verifies (number_of mode) list.now calls.old recorded.old
        calls.new recorded.new result }
{
    let pairs = x.netreps;
    if table.len() <= 256 {
        if pairs <= 384 {
            return verify_small(mode, list, x, table, calls, recorded);
        }
    }
    verify_large(mode, list, x, table, calls, recorded)
}

// What a pass counts.
fn count_read(mode: Mode, list: &[u32], x: Extent, table: &[u32]) -> Tally
    requires { Ready mode list.now x table.now }
    ensures { (ready : Ready mode list.now x table.now) → Tallied ready.d result }
{
    let pairs = x.netreps;
    if table.len() <= 256 {
        if pairs <= 384 {
            return count_small(mode, list, x, table);
        }
    }
    count_large(mode, list, x, table)
}

// A list in a mode: what `slot_table` refuses is refused.
fn verify_list(
    mode: Mode,
    list: &[u32],
    calls: &mut [u32],
    recorded: &mut [u8],
) -> Result<Verified, Fault>
    ensures { Verifies (number_of mode) list.now calls.old recorded.old
        calls.new recorded.new result }
{
    let mut table = [0u32; 4096];
    let x = design_list::slot_table(list, &mut table)?;
    let slots = x.base + x.added;
    verify_read(mode, list, x, &table[..slots], calls, recorded)
}

// What it counts.
fn count_list(mode: Mode, list: &[u32]) -> Result<Verified, Fault>
    ensures { result ≡ unroomed (number_of mode) list.now }
{
    let mut table = [0u32; 4096];
    let x = design_list::slot_table(list, &mut table)?;
    let slots = x.base + x.added;
    Ok(told(count_read(mode, list, x, &table[..slots])))
}

// A mode that is none, refused before the list is looked at.
fn no_mode() -> Result<Verified, Fault>
    ensures { result ≡ Err (record { number = 23; place = 0 }) }
{
    Err(Fault {
        number: 23,
        place: 0,
    })
}

// `Design::verify` of a list of words in a mode, by its number, 0 the ported one: its answer, the call words in the
// first slice, and the marks of the slots recorded in the second. A refusal leaves both as they were.
pub fn verify(
    mode: u32,
    list: &[u32],
    calls: &mut [u32],
    recorded: &mut [u8],
) -> Result<Verified, Fault>
    ensures { Verifies mode list.now calls.old recorded.old
        calls.new recorded.new result }
{
    match cell::mode_of(mode) {
        None => no_mode(),
        Some(known) => verify_list(known, list, calls, recorded),
    }
}

// What `verify` answers where both slices have room enough, so that a caller can size them first: its counts, and
// whether anything is asked.
pub fn counts(mode: u32, list: &[u32]) -> Result<Verified, Fault>
    ensures { result ≡ unroomed mode list.now }
{
    match cell::mode_of(mode) {
        None => no_mode(),
        Some(known) => count_list(known, list),
    }
}
