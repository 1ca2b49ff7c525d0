// Deletion: the name's records go, and each key that no name is left on.
ghost use Rattle.std.specs.Prelude.{◌≡◌};
ghost use Rattle.pin_model.specs.Calls as calls;
ghost use Rattle.pin_answers.specs.Numbers.{deletion_answer};

use host_name::folding::Folded;
use pin_answers::{Deletion, Refusal};
use pin_records::{find, remove};
use pin_refusals::area;

// Deletion by the name as it stands: of its one record in edition one, of up to two in edition two.
fn delete_folded(area: &mut [u8], name: &[u8]) -> Result<Deletion, Refusal>
    ensures answer { deletion_answer result ≡ calls.answer (calls.delete name.now) area.old }
    ensures area { area.new ≡ calls.area_after (calls.delete name.now) area.old }
{
    area::check_name(area, name)?;
    if find::find_name(area, name).is_none() {
        return Ok(Deletion::NotRecorded);
    }
    remove::clear_names(area, |area, n| find::holds_name(area, n, name));
    remove::drop_unnamed(area);
    Ok(Deletion::Deleted)
}

// 10, 11, 12, 3 or 4. Latest stays as it was.
pub fn delete(area: &mut [u8], name: &[u8]) -> Result<Deletion, Refusal>
    ensures answer { deletion_answer result ≡ calls.answered (calls.delete name.now) area.old }
    ensures area { area.new ≡ calls.area_left (calls.delete name.now) area.old }
{
    delete_folded(area, Folded::of(name).as_slice())
}
