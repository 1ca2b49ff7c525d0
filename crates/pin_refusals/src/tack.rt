// 18 to 23.
ghost use Rattle.std.specs.Prelude.{◌≡◌, length, IfSome};
ghost use Rattle.octets.specs.Octets.{same};
ghost use Rattle.tack_extension.specs.Tack.{target_hash};
ghost use Rattle.tack_extension.specs.Answers.{tack_bytes};
ghost use Rattle.pin_model.specs.Layout.{decode};
ghost use Rattle.pin_model.specs.Connection.{unless_empty};
ghost use Rattle.pin_model.specs.Refusals.{first, revoked, tack_tests};
ghost use Rattle.pin_answers.specs.Numbers.{checked_number};
ghost use Rattle.pin_records.specs.Holds.{Stored};

use pin_answers::Refusal;
use pin_model::Checks;
use pin_records::{find, read};
use pin_table::minutes::Minutes;
use tack_extension::fields;
use tack_extension::fields::Tack;

// Whether the tack is for the server's key. A hash of another length is unequal to every target hash.
pub fn targets(tack: &Tack, hash: &[u8]) -> bool
    ensures { result ≡ same (target_hash tack.now) hash.now }
{
    hash.len() == 32 && octets::same_at(fields::target_hash(tack), 0, hash)
}

// Whether the tack's generation is below the floor of its key's record.
pub fn is_revoked(area: &[u8], tack: &Tack) -> bool
    requires { Stored area.now }
    ensures { result ≡ revoked (decode area.now) tack.now }
{
    let Some(k) = find::find_key(area, fields::public_key(tack)) else {
        return false;
    };
    fields::generation(tack) < read::floor(area, k)
}

// 18 to 23 of a tack that is shown.
fn check_shown(
    area: &[u8],
    clock: Minutes,
    tack: &Tack,
    hash: &[u8],
    checks: Checks,
) -> Result<(), Refusal>
    requires { Stored area.now }
    ensures answer { checked_number result ≡ first (tack_tests clock.0 hash.now checks (decode area.now) (unless_empty tack.now)) }
    ensures whole { length tack.now ≡ 166 }
{
    if !checks.key_is_point {
        return Err(Refusal::KeyNoPoint);
    }
    if fields::generation(tack) < fields::min_generation(tack) {
        return Err(Refusal::GenerationBelowOwn);
    }
    if !targets(tack, hash) {
        return Err(Refusal::TargetUnequal);
    }
    if !checks.signature_correct {
        return Err(Refusal::SignatureIncorrect);
    }
    if is_revoked(area, tack) {
        return Err(Refusal::Revoked);
    }
    if fields::expiration(tack) < clock.count() {
        return Err(Refusal::Expired);
    }
    Ok(())
}

// 18 to 23, which need a tack.
pub fn check_tack(
    area: &[u8],
    clock: Minutes,
    tack: Option<&Tack>,
    hash: &[u8],
    checks: Checks,
) -> Result<(), Refusal>
    requires { Stored area.now }
    ensures answer { checked_number result ≡ first (tack_tests clock.0 hash.now checks (decode area.now) (unless_empty (tack_bytes tack.entry))) }
    ensures whole { IfSome tack.entry (λ t. length t.now ≡ 166) }
{
    match tack {
        Some(tack) => check_shown(area, clock, tack, hash, checks),
        None => Ok(()),
    }
}
