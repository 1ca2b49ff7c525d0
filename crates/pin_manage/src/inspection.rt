// Inspection: what a name's first or second record says at a clock, which may lie before latest.
ghost use Rattle.std.specs.Prelude.{◌≡◌, false, pos, ◌-ℤ◌, get_or, Ok, Some};
ghost use Rattle.std.proofs.Math.Option.{none};
ghost use Rattle.pin_model.specs.Layout.{decode};
ghost use Rattle.pin_model.specs.Calls as calls;
ghost use Rattle.pin_answers.specs.Numbers.{inspection_answer};
ghost use Rattle.pin_records.specs.Holds.{Stored};
ghost use Rattle.pin_records.specs.Find.{is_free, slot_found};
ghost use Rattle.pin_manage.specs.Inspected.{record_slot, inspected_slot};

use host_name::folding::Folded;
use pin_answers::{End, Inspection, Refusal};
use pin_records::{find, read};
use pin_refusals::area;
use pin_table::minutes::Minutes;
use pin_table::slots::NameSlot;

// The end of a pin as an inspection at the clock gives it.
fn end_seen(clock: Minutes, end: Minutes) -> End
    ensures { (result.end ≡ end.0) × (result.minutes_left ≡ pos end.0 -ℤ pos clock.0) }
{
    End {
        end: end.count(),
        minutes_left: i64::from(end.count()) - i64::from(clock.count()),
    }
}

// The slot of the name's first record, or of its second, which edition one never has.
fn find_record(area: &[u8], name: &[u8], second: bool) -> Option<NameSlot>
    requires { Stored area.now }
    ensures { result ≡ slot_found 128 (record_slot second name.now (decode area.now).names) }
{
    if second {
        find::second_name(area, name)
    } else {
        find::find_name(area, name)
    }
}

// What the record in a used slot says.
fn inspect_slot(area: &[u8], n: NameSlot, clock: Minutes) -> Inspection
    requires { Stored area.now × (is_free (get_or (decode area.now).names n none) ≡ false) }
    ensures { inspection_answer (Ok (Some result)) ≡ inspected_slot clock.0 (decode area.now).keys (get_or (decode area.now).names n none) }
{
    Inspection {
        floor: read::floor(area, read::key_of(area, n)),
        initial: read::initial(area, n).count(),
        end: read::end(area, n).map(|end| end_seen(clock, end)),
    }
}

// Inspection by the name as it stands.
fn inspect_folded(
    area: &[u8],
    name: &[u8],
    clock: u64,
    second: bool,
) -> Result<Option<Inspection>, Refusal>
    ensures { inspection_answer result ≡ calls.answer (calls.inspect second name.now clock) area.now }
{
    area::check_area(area)?;
    let clock = area::check_call(name, clock)?;
    let Some(n) = find_record(area, name, second) else {
        return Ok(None);
    };
    Ok(Some(inspect_slot(area, n, clock)))
}

// 10, 11, 12, 13, 4, 5 or 6.
pub fn inspect(
    area: &[u8],
    name: &[u8],
    clock: u64,
    second: bool,
) -> Result<Option<Inspection>, Refusal>
    ensures { inspection_answer result ≡ calls.answered (calls.inspect second name.now clock) area.now }
{
    inspect_folded(area, Folded::of(name).as_slice(), clock, second)
}
