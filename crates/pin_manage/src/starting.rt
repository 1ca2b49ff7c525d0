// Starting: an empty table of either edition, whatever the area held.
ghost use Rattle.std.specs.Prelude.{◌≡◌};
ghost use Rattle.pin_model.specs.Calls as calls;
ghost use Rattle.pin_answers.specs.Numbers.{starting_answer};

use pin_answers::Refusal;
use pin_table::slots::{AREA_LENGTH, EDITION_AT};

// 10 or 7.
pub fn start(area: &mut [u8], edition_two: bool) -> Result<(), Refusal>
    ensures answer { starting_answer result ≡ calls.answered (calls.start edition_two) area.old }
    ensures area { area.new ≡ calls.area_left (calls.start edition_two) area.old }
{
    if area.len() != AREA_LENGTH {
        return Err(Refusal::AreaLength);
    }
    area.fill(0);
    area[EDITION_AT] = u8::from(edition_two);
    Ok(())
}
