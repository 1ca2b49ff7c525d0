// The refusals that the tacks of a call can meet: 24, those of each tack, 22.
#![tactic(auto)]

ghost use Rattle.std.specs.Prelude.{◌≡◌, true, ◌++◌};
ghost use Rattle.tack_extension.specs.Answers.{tack_bytes};
ghost use Rattle.pin_model.specs.Layout.{decode};
ghost use Rattle.pin_model.specs.Connection.{shown_in};
ghost use Rattle.pin_model.specs.Refusals as refusals;
ghost use Rattle.pin_answers.specs.Numbers.{checked_number};
ghost use Rattle.pin_records.specs.Holds.{Stored};
ghost use Rattle.pin_refusals_two.specs.Parts.{both_in};

use pin_answers::Refusal;
use pin_model::ChecksTwo;
use pin_refusals::tack;
use pin_table::minutes::Minutes;
use tack_extension::fields;
use tack_extension::fields::Tack;
use tack_extension_two::reader::Tacks;

// Whether two tacks have one key.
fn same_key(first: &Tack, second: &Tack) -> bool
    ensures { result ≡ refusals.one_key_twice (shown_in true first.now ++ shown_in true second.now) }
{
    octets::same_64_at(first, 0, fields::public_key(second))
}

// Whether both tacks came and have one key.
fn one_key(tacks: Tacks<'_>) -> bool
    ensures { result ≡ refusals.one_key_twice (both_in tacks.entry) }
{
    match (tacks.first, tacks.second) {
        (Some(first), Some(second)) => same_key(first, second),
        _ => false,
    }
}

// 18, 19, 23, 20 and 21 of one tack, with its own answers. It has expired already where expiration is the clock.
fn check_tack(
    clock: Minutes,
    tack: &Tack,
    hash: &[u8],
    key_is_point: bool,
    signature_correct: bool,
) -> Result<(), Refusal>
    ensures { checked_number result ≡ refusals.first (refusals.part_tests clock.0 hash.now key_is_point signature_correct tack.now) }
{
    if !key_is_point {
        return Err(Refusal::KeyNoPoint);
    }
    if fields::generation(tack) < fields::min_generation(tack) {
        return Err(Refusal::GenerationBelowOwn);
    }
    if fields::expiration(tack) <= clock.count() {
        return Err(Refusal::Expired);
    }
    if !tack::targets(tack, hash) {
        return Err(Refusal::TargetUnequal);
    }
    if !signature_correct {
        return Err(Refusal::SignatureIncorrect);
    }
    Ok(())
}

// Whether one of the tacks that came is revoked.
fn either_revoked(area: &[u8], tacks: Tacks<'_>) -> bool
    requires { Stored area.now }
    ensures { result ≡ refusals.any_revoked (decode area.now) (both_in tacks.entry) }
{
    tacks.first.is_some_and(|tack| tack::is_revoked(area, tack))
        || tacks
            .second
            .is_some_and(|tack| tack::is_revoked(area, tack))
}

pub fn check_tacks(
    area: &[u8],
    clock: Minutes,
    tacks: Tacks<'_>,
    hash: &[u8],
    checks: ChecksTwo,
) -> Result<(), Refusal>
    requires { Stored area.now }
    ensures { checked_number result ≡ refusals.first (refusals.tacks_tests clock.0 hash.now checks (decode area.now) (tack_bytes tacks.entry.first) (tack_bytes tacks.entry.second) (both_in tacks.entry)) }
{
    if one_key(tacks) {
        return Err(Refusal::OneKeyTwice);
    }
    if let Some(first) = tacks.first {
        check_tack(
            clock,
            first,
            hash,
            checks.first_is_point,
            checks.first_correct,
        )?;
    }
    if let Some(second) = tacks.second {
        check_tack(
            clock,
            second,
            hash,
            checks.second_is_point,
            checks.second_correct,
        )?;
    }
    if either_revoked(area, tacks) {
        return Err(Refusal::Revoked);
    }
    Ok(())
}
