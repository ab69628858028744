// The C interface: each entry over slices of words, its answer packed into a number.
#![tactic(auto)]

ghost use Rattle.std.specs.Prelude.{◌≡◌};
ghost use Rattle.cell.specs.declared.Mode.TheVariants.{Ported};
ghost use Rattle.design_list.specs.Read.{read, answer};
ghost use Rattle.virginalmimas.specs.Packed.{packed, PackedVerified, PackedCounts, PackedOrder};
ghost use Rattle.packed_calls.specs.Packed.{PackedCheck, checked_of, PackedEvaluation, PackedScript, PackedAnswer};

// Reads a design list: the fault's number and place, or 0 and the number of slots.
#[unsafe(no_mangle)]
pub extern "C" fn vm_read(list: &[u32]) -> u64
    ensures { result ≡ packed (answer (read Ported list.now)) }
{
    match design_list::read_design(list) {
        Ok(x) => x.base as u64 + x.added as u64,
        Err(f) => packing::packed_fault(f),
    }
}

// Verifies a design list in mode 0, the ported one: its calls go into the one slice and the marks of its recorded slots
// into the other. The fault's number and place, or 0 and the number of call words, with bit 47 set where something is
// asked.
#[unsafe(no_mangle)]
pub extern "C" fn vm_verify(list: &[u32], calls: &mut [u32], recorded: &mut [u8]) -> u64
    ensures { PackedVerified 0 list.now calls.old recorded.old
        calls.new recorded.new result }
{
    vm_verify_mode(0, list, calls, recorded)
}

// The same in a mode, by its number; another than 0 or 1 is 23 at 0.
#[unsafe(no_mangle)]
pub extern "C" fn vm_verify_mode(
    mode: u32,
    list: &[u32],
    calls: &mut [u32],
    recorded: &mut [u8],
) -> u64
    ensures { PackedVerified mode list.now calls.old recorded.old
        calls.new recorded.new result }
{
    packed::packed_verified(design::verify(mode, list, calls, recorded))
}

// What a design list's calls would come to: the answer of vm_verify where the slices have room enough, and the
// numbers of terms, temporaries and call words in front of a slice.
#[unsafe(no_mangle)]
pub extern "C" fn vm_counts(list: &[u32], counts: &mut [u64]) -> u64
    ensures { PackedCounts 0 list.now counts.old counts.new result }
{
    vm_counts_mode(0, list, counts)
}

// The same of vm_verify_mode.
#[unsafe(no_mangle)]
pub extern "C" fn vm_counts_mode(mode: u32, list: &[u32], counts: &mut [u64]) -> u64
    ensures { PackedCounts mode list.now counts.old counts.new result }
{
    packed::told(design::counts(mode, list), counts)
}

// The order of a design list's nodes by first slot, or the loop that is named, in front of a slice. The fault's number
// and place, or 0 and the length, with bit 47 set for a loop.
#[unsafe(no_mangle)]
pub extern "C" fn vm_order(list: &[u32], slots: &mut [u32]) -> u64
    ensures { PackedOrder (read Ported list.now) slots.old slots.new result }
{
    packed_order::packed_order(ordering::order(list, slots))
}

// Checks a call list: the fault's number and place, or 0 and the number of terms; the numbers of terms and of declared
// names go into a slice.
#[unsafe(no_mangle)]
pub extern "C" fn vm_check(calls: &[u32], sizes: &mut [u64]) -> u64
    ensures { PackedCheck (checked_of calls.now) sizes.old sizes.new result }
{
    packed_calls::check(calls, sizes)
}

// The same with lent tables.
#[unsafe(no_mangle)]
pub extern "C" fn vm_check_with(
    calls: &[u32],
    sizes: &mut [u64],
    sorts: &mut [u8],
    names: &mut [u8],
) -> u64
    ensures { PackedCheck (checked_of calls.now) sizes.old sizes.new result }
{
    packed_calls::check_with(calls, sizes, sorts, names)
}

// Evaluates a call list under the bits of its declared names into a slice: the fault's number and place, or 0 and the
// number of false assertions.
#[unsafe(no_mangle)]
pub extern "C" fn vm_evaluate(calls: &[u32], bits: &[u64], values: &mut [u64]) -> u64
    ensures { PackedEvaluation calls.now bits.now values.old values.new result }
{
    packed_calls::evaluate(calls, bits, values)
}

// The same with lent tables.
#[unsafe(no_mangle)]
pub extern "C" fn vm_evaluate_with(
    calls: &[u32],
    bits: &[u64],
    values: &mut [u64],
    sorts: &mut [u8],
    names: &mut [u8],
) -> u64
    ensures { PackedEvaluation calls.now bits.now values.old values.new result }
{
    packed_calls::evaluate_with(calls, bits, values, sorts, names)
}

// Writes the script of a call list and its recorded marks: the fault's number and place, or 0 and the number of bytes.
#[unsafe(no_mangle)]
pub extern "C" fn vm_script(calls: &[u32], recorded: &[u8], text: &mut [u8]) -> u64
    ensures { PackedScript calls.now recorded.now text.old text.new result }
{
    packed_calls::script(calls, recorded, text)
}

// The same with lent tables.
#[unsafe(no_mangle)]
pub extern "C" fn vm_script_with(
    calls: &[u32],
    recorded: &[u8],
    text: &mut [u8],
    places: &mut [u32],
    sorts: &mut [u8],
    names: &mut [u8],
) -> u64
    ensures { PackedScript calls.now recorded.now text.old text.new result }
{
    packed_calls::script_with(calls, recorded, text, places, sorts, names)
}

// Reads a solver's answer against the recorded marks into a table: the fault's number and place, or 0 for unsat and 1
// for sat.
#[unsafe(no_mangle)]
pub extern "C" fn vm_answer(text: &[u8], recorded: &[u8], trits: &mut [u8]) -> u64
    ensures { PackedAnswer text.now recorded.now trits.old trits.new result }
{
    packed_calls::answer(text, recorded, trits)
}
