// Judging one connection for edition one: the refusals in the paper's order, then its steps.
#![tactic(auto)]

ghost use Rattle.std.specs.Prelude.{◌≡◌, true, false, ◌||◌, map, length, eqb, Ok};
ghost use Rattle.tack_extension.specs.Extension.{breaks_length};
ghost use Rattle.tack_extension.specs.Tack.{break_key, break_signatures};
ghost use Rattle.tack_extension.specs.Answers.{tack_bytes, parts_read};
ghost use Rattle.pin_model.specs.Layout.{decode, encode};
ghost use Rattle.pin_model.specs.Sound.{sound};
ghost use Rattle.pin_model.specs.Connection.{unless_empty, parts_of};
ghost use Rattle.pin_model.specs.Seen.{seen};
ghost use Rattle.pin_model.specs.Refusals.{first, tack_tests};
ghost use Rattle.pin_model.specs.Judge.{learn, no_room_in, steps};
ghost use Rattle.pin_model.specs.Calls as calls;
ghost use Rattle.pin_answers.specs.Numbers.{checked_number, judgement_answer};
ghost use Rattle.pin_records.specs.Holds.{Holds, Stored};
ghost use Rattle.pin_judge.specs.Known.{InOrder};
ghost use Rattle.pin_judge.specs.Answered.{steps_answer};

use host_name::folding::Folded;
use pin_answers::{Judged, Judgement, Refusal};
use pin_creation::create;
use pin_model::{Checks, Connection};
use pin_records::store;
use pin_refusals::{area, connection, tack};
use pin_steps::{breaks, extend, raise, verdict};
use pin_table::minutes::Minutes;
use pin_table::slots;
use tack_extension::fields::Tack;
use tack_extension::reader;
use tack_extension::reader::Extension;

// Steps 1 and 2 of a tack. The answer is 'no room'.
fn learn_tack(
    area: &mut [u8],
    name: &[u8],
    clock: Minutes,
    tack: &Tack,
    enabled: bool,
    learn_disabled: bool,
) -> bool
    requires { InOrder area.old name.now clock.0 }
    ensures { (result ≡ no_room_in enabled (enabled || learn_disabled) name.now clock.0 (unless_empty tack.now) (decode area.old)) × Holds area.new (learn enabled (enabled || learn_disabled) name.now clock.0 (unless_empty tack.now) (decode area.old)) }
{
    raise::raise_floor(area, tack);
    if enabled {
        extend::extend_pin(area, name, tack, clock);
    }
    create::create_record(area, name, tack, clock, enabled | learn_disabled)
}

// Steps 1 and 2, which do nothing where no tack is shown.
fn learn(
    area: &mut [u8],
    name: &[u8],
    clock: Minutes,
    tack: Option<&Tack>,
    enabled: bool,
    learn_disabled: bool,
) -> bool
    requires { InOrder area.old name.now clock.0 }
    ensures { (result ≡ no_room_in enabled (enabled || learn_disabled) name.now clock.0 (unless_empty (tack_bytes tack.entry)) (decode area.old)) × Holds area.new (learn enabled (enabled || learn_disabled) name.now clock.0 (unless_empty (tack_bytes tack.entry)) (decode area.old)) }
{
    match tack {
        Some(tack) => learn_tack(area, name, clock, tack, enabled, learn_disabled),
        None => false,
    }
}

// Steps 1 to 4, where nothing refuses.
fn apply(
    area: &mut [u8],
    name: &[u8],
    clock: Minutes,
    shown: Extension<'_>,
    learn_disabled: bool,
) -> Judged
    requires { InOrder area.old name.now clock.0 × (breaks_length (length shown.breaks.now) ≡ true) }
    ensures { (judgement_answer (Ok result) ≡ steps_answer (eqb shown.entry.activation 1) (eqb shown.entry.activation 1 || learn_disabled) name.now clock.0 (unless_empty (tack_bytes shown.entry.tack)) (map break_key (break_signatures shown.entry.breaks.now)) (decode area.old)) × (area.new ≡ encode (steps (eqb shown.entry.activation 1) (eqb shown.entry.activation 1 || learn_disabled) name.now clock.0 (unless_empty (tack_bytes shown.entry.tack)) (map break_key (break_signatures shown.entry.breaks.now)) (decode area.old))) }
{
    let no_room = learn(
        area,
        name,
        clock,
        shown.tack,
        shown.activation == 1,
        learn_disabled,
    );
    breaks::break_keys(area, shown.breaks);
    store::store_latest(area, clock);
    Judged {
        verdict: verdict::verdict_for(area, name, shown.tack, clock),
        no_room,
    }
}

// The parts of the extension, if it is well-formed: neither tack nor break signature where none came.
fn read_extension<'a>(connection: &Connection<'a, Checks>) -> Option<Extension<'a>>
    ensures { parts_read result ≡ parts_of (seen connection.now) }
{
    match connection.extension {
        Some(bytes) => reader::read(bytes),
        None => Some(Extension {
            tack: None,
            breaks: &[],
            activation: 0,
        }),
    }
}

// 18 to 23 of the tack, if there is one. An expired tack still revokes: at 23 the floor of its key's record rises, and nothing else
// changes.
fn check_tack(
    area: &mut [u8],
    clock: Minutes,
    tack: Option<&Tack>,
    hash: &[u8],
    checks: Checks,
) -> Result<(), Refusal>
    requires { Stored area.old }
    ensures answer { checked_number result ≡ first (tack_tests clock.0 hash.now checks (decode area.old) (unless_empty (tack_bytes tack.entry))) }
    ensures area { area.new ≡ calls.area_by (checked_number result) (λ n. calls.refused_with n (unless_empty (tack_bytes tack.entry)) area.old) area.old }
{
    let Some(shown) = tack else {
        return Ok(());
    };
    let checked = tack::check_tack(area, clock, tack, hash, checks);
    if checked == Err(Refusal::Expired) {
        raise::raise_floor(area, shown);
    }
    checked
}

// 12 to 23, and the steps where none applies, on a sound area of edition one. The name is taken as it stands.
fn judge_folded(area: &mut [u8], connection: &Connection<'_, Checks>) -> Judgement
    requires { (sound area.old ≡ true) × ((decode area.old).two ≡ false) }
    ensures answer { judgement_answer result ≡ calls.answer (calls.judge (seen connection.now)) area.old }
    ensures area { area.new ≡ calls.area_after (calls.judge (seen connection.now)) area.old }
{
    let clock = area::check_call(connection.name, connection.clock)?;
    connection::check_handshake(area, clock, connection.checks.handshake_finished)?;
    let shown = read_extension(connection).ok_or(Refusal::ExtensionMalformed)?;
    connection::check_breaks(shown.breaks, connection.checks.breaks_correct)?;
    check_tack(area, clock, shown.tack, connection.hash, connection.checks)?;
    Ok(apply(
        area,
        connection.name,
        clock,
        shown,
        connection.checks.learn_disabled,
    ))
}

// Judges on an area that is known to be sound, as every area of a run is: it makes no test of the whole area.
pub fn judge_sound_area(area: &mut [u8], connection: &Connection<'_, Checks>) -> Judgement
    requires { sound area.old ≡ true }
    ensures answer { judgement_answer result ≡ calls.answered (calls.judge (seen connection.now)) area.old }
    ensures area { area.new ≡ calls.area_left (calls.judge (seen connection.now)) area.old }
    ensures sound { sound area.new ≡ true }
{
    if slots::is_two(area) {
        return Err(Refusal::OtherEdition);
    }
    let folded = Folded::of(connection.name);
    judge_folded(
        area,
        &Connection {
            name: folded.as_slice(),
            ..*connection
        },
    )
}

// Judges one finished connection for edition one: 10 to 23, 27, or a verdict and whether there was no room for a record that it
// wanted.
pub fn judge(area: &mut [u8], connection: &Connection<'_, Checks>) -> Judgement
    ensures answer { judgement_answer result ≡ calls.answered (calls.judge (seen connection.now)) area.old }
    ensures area { area.new ≡ calls.area_left (calls.judge (seen connection.now)) area.old }
{
    area::check_area(area)?;
    judge_sound_area(area, connection)
}
